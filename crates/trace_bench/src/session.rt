//! Calls of a session's stream on the calling thread.

ghost use Rattle.std.specs.Prelude.{◌≡◌, ◌≤◌, IfOk};
ghost use Rattle.std.specs.List.{All};

use crate::fault::BenchFault;
use crate::made::{PACKET_BYTES, quota_of, seat_at};
use crate::record::Record;
use crate::tally::{Tally, accepted_of, bytes_of};
use crate::tracing::STRETCH;
use ctf_types::Values;
use std::alloc::{AllocError, Global};
use trace_clock::{TickClock, TickSeat};
use trace_platform::{ListBackEnd, MemorySink};
use trace_stack::{Act, Event, Session, run_events};

type Listed = Session<TickSeat, ListBackEnd, MemorySink>;

/// A session of one stream runs the calls, and collects behind each stretch of them.
pub fn run_session(alloc: Global, record: Record, calls: usize) -> Result<Tally, BenchFault>
    requires { calls ≤ 100000000 }
{
    let events = events(alloc, record, calls)?;
    let mut session = session_of(alloc, record, calls)?;
    let accepted = accepted_in(&mut session, events.as_slice())?;
    let bytes = bytes_at_end(session)?;
    Ok(Tally { accepted, bytes })
}

/// A session of one stream.
fn session_of(alloc: Global, record: Record, calls: usize) -> Result<Listed, BenchFault>
    requires { calls ≤ 100000000 }
{
    let config = record.configured(alloc)?;
    let mut session = Session::new(alloc, config);
    add_stream(alloc, &mut session, calls)?;
    Ok(session)
}

/// Runs the calls, and tells how many were accepted.
fn accepted_in(session: &mut Listed, events: &[Event]) -> Result<usize, BenchFault>
    requires { All (λ e. e.stream ≡ 0) events.now }
{
    if session.stream_count() == 0 {
        return Err(BenchFault::Workers);
    }
    let answers = run_events(session, events)?;
    Ok(accepted_of(answers.as_slice()))
}

/// The bytes of all packets, once the session is finished.
fn bytes_at_end(session: Listed) -> Result<usize, BenchFault> {
    match session.finish_all() {
        Ok(finished) => Ok(bytes_of(finished.sinks.as_slice())),
        Err(_) => Err(BenchFault::OutOfMemory),
    }
}

fn add_stream(alloc: Global, session: &mut Listed, calls: usize) -> Result<(), BenchFault>
    requires { calls ≤ 100000000 }
{
    let quota = quota_of(calls);
    let mut clock = TickClock::new(alloc, 0, quota)?;
    let seat = seat_at(alloc, &mut clock, quota)?;
    let back_end = ListBackEnd::new(alloc, 4, PACKET_BYTES)?;
    let sink = MemorySink::new(alloc);
    match session.add_stream("s", "s", seat, back_end, sink, Values::new(alloc)) {
        Ok(_) => Ok(()),
        Err(_) => Err(BenchFault::Workers),
    }
}

/// The calls, and a collection behind each stretch of them.
pub fn events(alloc: Global, record: Record, calls: usize) -> Result<Vec<Event>, AllocError>
    ensures { IfOk result (λ events. All (λ e. e.stream ≡ 0) events.items) }
{
    let mut events = Vec::new(alloc);
    for call in 0..calls {
        let act = Act::Trace(0, record.args(alloc)?);
        events.push(Event { stream: 0, act })?;
        if call % STRETCH == 0 {
            let act = Act::Collect;
            events.push(Event { stream: 0, act })?;
        }
    }
    Ok(events)
}
