//! The workers, with their calls, made ready.

ghost use Rattle.std.specs.Prelude.{◌≡◌, ◌≤◌, None, IfOk};
ghost use Rattle.std.specs.List.{All};
ghost use Rattle.trace_bench.specs.Plans.{IsLight};
ghost use Rattle.trace_clock.specs.Seats.{clock_of, rest};
ghost use Rattle.trace_stack.specs.Workers.{IsWorker, OfOneClock};
ghost use Rattle.trace_stack.specs.Working.{IsOfStream};

use crate::fault::BenchFault;
use crate::plan::Load;
use crate::record::Record;
use ctf_types::{Text, Values};
use packet_ring::ring;
use std::alloc::{AllocError, Global};
use trace_clock::{TickClock, TickSeat};
use trace_platform::MemorySink;
use trace_stack::{Act, Worker};

/// The places of a ring, and the bytes of a packet.
const PLACES: usize = 1024;

pub const PACKET_BYTES: usize = 4096;

/// The workers of a load.
pub fn workers(
    alloc: Global,
    record: Record,
    load: Load,
) -> Result<Vec<Worker<MemorySink>>, BenchFault>
    requires { IsLight load }
    ensures workers { IfOk result (λ workers. All IsWorker workers.items) }
    ensures clock { IfOk result (λ workers. OfOneClock workers.items) }
    ensures anew { IfOk result (λ workers. All (λ w. w.start ≡ None) workers.items) }
{
    let quota = quota_of(load.calls);
    let mut clock = TickClock::new(alloc, 0, 64 * quota)?;
    let mut workers = Vec::new(alloc);
    for _ in 0..load.threads {
        let seat = seat_at(alloc, &mut clock, quota)?;
        let worker = worker(alloc, record, seat, load.calls)?;
        if workers.push(worker).is_err() {
            return Err(BenchFault::OutOfMemory);
        }
    }
    Ok(workers)
}

/// Readings enough for all calls of a thread and for the packets around them.
pub fn quota_of(calls: usize) -> u64
    requires { calls ≤ 100000000 }
    ensures { result ≤ 300000008 }
{
    3 * calls as u64 + 8
}

/// A seat at the clock.
pub fn seat_at(alloc: Global, clock: &mut TickClock, quota: u64) -> Result<TickSeat, BenchFault>
    ensures seat { IfOk result (λ s. clock_of s ≡ clock_of (rest clock.old)) }
    ensures same { clock_of (rest clock.new) ≡ clock_of (rest clock.old) }
{
    clock.seat(alloc, quota).map_err(|_fault| BenchFault::Clock)
}

fn worker(
    alloc: Global,
    record: Record,
    seat: TickSeat,
    calls: usize,
) -> Result<Worker<MemorySink>, BenchFault>
    ensures worker { IfOk result (λ worker. IsWorker worker) }
    ensures clock { IfOk result (λ worker. clock_of worker.seat ≡ clock_of seat) }
    ensures anew { IfOk result (λ worker. worker.start ≡ None) }
{
    let (back_end, ring_end) = ring(alloc, PLACES, PACKET_BYTES)?;
    let type_name = Text::from_str(alloc, "s")?;
    let acts = acts(alloc, record, calls)?;
    Ok(Worker {
        type_name,
        seat,
        back_end,
        ring_end,
        extras: Values::new(alloc),
        sink: MemorySink::new(alloc),
        acts,
        start: None,
    })
}

fn acts(alloc: Global, record: Record, calls: usize) -> Result<Vec<Act>, AllocError>
    ensures { IfOk result (λ acts. All IsOfStream acts.items) }
{
    let mut acts = Vec::with_capacity(alloc, calls)?;
    for _ in 0..calls {
        acts.push(Act::Trace(0, record.args(alloc)?))?;
    }
    Ok(acts)
}
