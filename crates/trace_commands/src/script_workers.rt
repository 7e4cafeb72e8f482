//! The workers of a script's streams.

ghost use Rattle.std.specs.Prelude.{◌≡◌, ◌*◌, IfOk, length};
ghost use Rattle.trace_commands.specs.Begun.{begun};
ghost use Rattle.trace_clock.specs.Seats.{left, rest};
ghost use Rattle.trace_commands.specs.ListSessions.{AreSizes};
ghost use Rattle.trace_commands.specs.Workers.{AreWorkers, IsWorkerOf, acts_of as acts_of_stream, is_of_stream as is_of_stream_of};

use crate::points::point_at;
use crate::recording::Sizes;
use crate::shared_clock::seat_for;
use command_words::Quota;
use packet_reader::ResumePoint;
use packet_ring::ring;
use plain_lists::{Duplicate, both};
use std::alloc::{AllocError, Global};
use std::collections::VecDeque;
use std::io::Write;
use trace_clock::{TickClock, TickSeat};
use trace_platform::WriterSink;
use trace_stack::{Act, Event, Worker};
use trace_text::{Script, ScriptStream};

type FileWorker<F> = Worker<WriterSink<F>>;

/// A worker for each stream of the script, over its file and behind its point.
pub fn script_workers<F: Write + Drop>(
    alloc: Global,
    script: &Script,
    points: &[Option<ResumePoint>],
    sizes: Sizes,
    clock: &mut TickClock,
    quota: Quota,
    files: VecDeque<F>,
) -> Result<Vec<FileWorker<F>>, AllocError>
    requires sizes { AreSizes sizes }
    requires clock { left clock.old ≡ quota.readings * length script.now.streams }
    requires files { length files.items ≡ length script.now.streams }
    requires points { length points.now ≡ length script.now.streams }
    ensures { IfOk result (λ ws. AreWorkers (rest clock.old) quota.readings sizes script.now.events 0 (begun script.now points.now) ws.items) }
{
    let mut files = files;
    let mut workers = Vec::new(alloc);
    let events = script.events.as_slice();
    for (number, stream) in script.streams.as_slice().iter().enumerate() {
        let Some(file) = files.pop_front() else {
            unreachable!()
        };
        let seat = seat_for(alloc, clock, quota)?;
        let start = point_at(points, number);
        workers.push(worker_of(alloc, events, number, stream, start, sizes, seat, file)?)?;
    }
    Ok(workers)
}

/// The worker of the stream of this number in the script, which begins behind this point.
fn worker_of<F: Write + Drop>(
    alloc: Global,
    events: &[Event],
    number: usize,
    stream: &ScriptStream,
    start: Option<ResumePoint>,
    sizes: Sizes,
    seat: TickSeat,
    file: F,
) -> Result<FileWorker<F>, AllocError>
    requires { AreSizes sizes }
    ensures seat { IfOk result (λ w. w.seat ≡ seat) }
    ensures worker { IfOk result (IsWorkerOf sizes events.now number (stream.now, start)) }
{
    let ends = ring(alloc, sizes.buffers, sizes.bytes);
    let texts = both(stream.type_name.copy(alloc), stream.extras.copy(alloc));
    let said = both(texts, acts_of(alloc, events, number));
    let ((back_end, ring_end), ((type_name, extras), acts)) = both(ends, said)?;
    Ok(Worker {
        type_name,
        start,
        seat,
        back_end,
        ring_end,
        extras,
        sink: WriterSink::new(file),
        acts,
    })
}

/// The acts of the stream of this number, but for collections.
fn acts_of(alloc: Global, events: &[Event], number: usize) -> Result<Vec<Act>, AllocError>
    ensures { IfOk result (λ acts. acts.items ≡ acts_of_stream number events.now) }
{
    let mut acts = Vec::new(alloc);
    for event in events {
        if event.stream == number && is_of_stream(&event.act) {
            acts.push(copy_of(alloc, &event.act)?)?;
        }
    }
    Ok(acts)
}

fn is_of_stream(act: &Act) -> bool
    ensures { result ≡ is_of_stream_of act.now }
{
    match act {
        Act::Trace(_, _) | Act::OpenPacket | Act::ClosePacket | Act::Enable(_) | Act::Extras(_) =>
            true,
        Act::Collect => false,
    }
}

fn copy_of(alloc: Global, act: &Act) -> Result<Act, AllocError>
    ensures { IfOk result (λ copied. copied ≡ act.now) }
{
    match act {
        Act::Trace(event, args) => Ok(Act::Trace(*event, args.copy(alloc)?)),
        Act::OpenPacket => Ok(Act::OpenPacket),
        Act::ClosePacket => Ok(Act::ClosePacket),
        Act::Collect => Ok(Act::Collect),
        Act::Enable(enabled) => Ok(Act::Enable(*enabled)),
        Act::Extras(extras) => Ok(Act::Extras(extras.copy(alloc)?)),
    }
}
