//! Calls of one stream on the calling thread.

ghost use Rattle.std.specs.Prelude.{◌≡◌, ◌≤◌};
ghost use Rattle.ctf_types.specs.AllowedConfig.{IsConfig};

use crate::fault::BenchFault;
use crate::made::{PACKET_BYTES, quota_of, seat_at};
use crate::record::Record;
use ctf_types::{Args, Config, Values};
use packet_collector::{FinishAnswer, collect_into, finish_own_into};
use std::alloc::Global;
use thread_stream::{Stream, Verdict};
use trace_clock::{TickClock, TickSeat};
use trace_platform::{ListBackEnd, Sink};

/// How many calls stand between two collections on one thread.
pub const STRETCH: usize = 64;

/// Traces so many event records, and gives the sink that their packets were appended to, and how many were accepted.
pub fn trace_calls<W: Sink + Drop>(
    alloc: Global,
    record: Record,
    calls: usize,
    sink: W,
) -> Result<(W, usize), BenchFault>
    requires { calls ≤ 100000000 }
{
    let args = record.args(alloc)?;
    let stream = stream_of(alloc, record, calls)?;
    traced(stream, &args, calls, sink)
}

type Listed = Stream<TickSeat, ListBackEnd>;

fn stream_of(alloc: Global, record: Record, calls: usize) -> Result<Listed, BenchFault>
    requires { calls ≤ 100000000 }
{
    let config = record.configured(alloc)?;
    stream_by(alloc, &config, calls)
}

fn stream_by(alloc: Global, config: &Config, calls: usize) -> Result<Listed, BenchFault>
    requires config { IsConfig config.now }
    requires calls { calls ≤ 100000000 }
{
    let quota = quota_of(calls);
    let mut clock = TickClock::new(alloc, 0, quota)?;
    let seat = seat_at(alloc, &mut clock, quota)?;
    let back_end = ListBackEnd::new(alloc, 4, PACKET_BYTES)?;
    match Stream::new(alloc, config, "s", seat, back_end, Values::new(alloc)) {
        Ok(stream) => Ok(stream),
        Err(_) => Err(BenchFault::Stream),
    }
}

fn traced<W: Sink + Drop>(
    stream: Listed,
    args: &Args,
    calls: usize,
    sink: W,
) -> Result<(W, usize), BenchFault> {
    let (mut stream, mut sink, mut faulted, mut accepted) = (stream, sink, false, 0);
    for call in 0..calls {
        if let Verdict::Accepted(_) = stream.trace(0, args) {
            accepted += 1;
        }
        if call % STRETCH == 0 {
            let _collected = collect_into(&mut sink, &mut faulted, &mut stream);
        }
    }
    let (end, _clock) = stream.finish();
    match finish_own_into(&mut sink, &mut faulted, end) {
        FinishAnswer::Settled => Ok((sink, accepted)),
        FinishAnswer::Unsettled | FinishAnswer::Faulted => Err(BenchFault::Output),
    }
}
