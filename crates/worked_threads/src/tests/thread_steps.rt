//! Workers over rings, made from words.

ghost use Rattle.std.specs.Prelude.{◌≡◌, None, IfOk};
ghost use Rattle.std.specs.List.{All};
ghost use Rattle.trace_clock.specs.Seats.{clock_of};
ghost use Rattle.trace_stack.specs.Workers.{IsWorker};
ghost use Rattle.trace_stack.specs.Working.{IsOfStream};

use ctf_types::{Text, Values};
use packet_ring::ring;
use std::alloc::Global;
use std::test::Fail;
use trace_clock::{ClockFault, TickClock, TickSeat};
use trace_stack::{Act, Worker};
use worked_fixtures::call_in_words;

/// What a worker is told, over a ring of one place.
#[derive(Clone, Copy)]
pub struct Task {
    /// The name of the stream's type.
    pub type_name: &'static str,
    /// The length of a packet.
    pub bytes: usize,
    /// Its calls, a line each.
    pub calls: &'static str,
}

/// A worker over a ring that nobody used.
pub fn worker<W: Drop>(
    alloc: Global,
    seat: TickSeat,
    task: &Task,
    sink: W,
) -> Result<Worker<W>, Fail>
    ensures worker { IfOk result (λ w. IsWorker w) }
    ensures clock { IfOk result (λ w. clock_of w.seat ≡ clock_of seat) }
    ensures anew { IfOk result (λ w. w.start ≡ None) }
{
    let bytes = task.bytes;
    if bytes == 0 || bytes > 1 << 20 {
        return Err("no such ring".into());
    }
    let type_name = Text::from_str(alloc, task.type_name)?;
    let acts = acts(alloc, task.calls)?;
    let (back_end, ring_end) = ring(alloc, 1, bytes)?;
    Ok(Worker {
        type_name,
        seat,
        back_end,
        ring_end,
        extras: Values::new(alloc),
        sink,
        acts,
        start: None,
    })
}

/// Two seats of one clock, of three readings each.
pub fn two_seats(alloc: Global) -> Result<(TickSeat, TickSeat), ClockFault>
    ensures { IfOk result (λ p. clock_of p.0 ≡ clock_of p.1) }
{
    let Ok(mut clock) = TickClock::new(alloc, 0, 6) else {
        return Err(ClockFault::OutOfMemory);
    };
    let first = clock.seat(alloc, 3)?;
    let second = clock.seat(alloc, 3)?;
    Ok((first, second))
}

fn acts(alloc: Global, calls: &str) -> Result<Vec<Act>, Fail>
    ensures { IfOk result (λ acts. All IsOfStream acts.items) }
{
    let mut acts = Vec::new(alloc);
    for line in calls.trim().lines() {
        acts.push(own_act(alloc, line)?)?;
    }
    Ok(acts)
}

/// A call of a worker's stream: `trace` with the number of an event record type and the values of its payload, `open` or `close`.
fn own_act(alloc: Global, line: &str) -> Result<Act, Fail>
    ensures { IfOk result (λ act. IsOfStream act) }
{
    let (word, data) = line.split_once(" ").unwrap_or((line, ""));
    match word {
        "trace" => {
            let (event, args) = call_in_words(alloc, data)?;
            Ok(Act::Trace(event, args))
        }
        "open" => Ok(Act::OpenPacket),
        "close" => Ok(Act::ClosePacket),
        _ => Err("no such call".into()),
    }
}
