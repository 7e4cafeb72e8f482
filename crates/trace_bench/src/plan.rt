//! What is to be measured.

ghost use Rattle.std.specs.Prelude.{◌≤◌, IfSome};
ghost use Rattle.trace_bench.specs.Plans.{IsAllowed, IsLight};

use crate::record::Record;

/// What is done with event records of one kind.
#[derive(Clone, Copy, Debug, PartialEq, Eq)]
pub struct Plan {
    pub record: Record,
    pub deed: Deed,
}

/// What is done.
#[derive(Clone, Copy, Debug, PartialEq, Eq)]
pub enum Deed {
    /// Workers in threads of their own trace, by one clock. With none of them a session on the calling thread does, which collects between the calls.
    Share(Load),
    /// The same calls are made ready and not run.
    Make(Load),
    /// A stream on the calling thread traces so many calls, and its packets are kept in memory.
    Trace(usize),
    /// The same, and its packets are written to the output.
    Write(usize),
    /// The packets of the stream file that stands in the input are read, one at a time.
    Decode,
    /// The configuration is written to the output.
    Configure,
}

/// How much is done side by side.
#[derive(Clone, Copy, Debug, PartialEq, Eq)]
pub struct Load {
    /// 0 to 64.
    pub threads: usize,
    /// Of each thread, 0 to 100,000,000.
    pub calls: usize,
}

/// The plan that the words behind the program's name say.
pub fn plan_of(words: &[String]) -> Option<Plan>
    ensures { IfSome result (λ plan. IsAllowed plan.deed) }
{
    let record = Record::named(words.get(1)?.as_str())?;
    let deed = match words.get(2)?.as_str() {
        "share" => Deed::Share(load_of(words)?),
        "make" => Deed::Make(load_of(words)?),
        "trace" => Deed::Trace(calls_of(words.get(3)?)?),
        "write" => Deed::Write(calls_of(words.get(3)?)?),
        "decode" => Deed::Decode,
        "configure" => Deed::Configure,
        _ => return None,
    };
    Some(Plan { record, deed })
}

fn load_of(words: &[String]) -> Option<Load>
    ensures { IfSome result (λ load. IsLight load) }
{
    let threads: usize = words.get(3)?.as_str().parse().ok()?;
    let calls = calls_of(words.get(4)?)?;
    if threads > 64 {
        return None;
    }
    Some(Load { threads, calls })
}

fn calls_of(word: &String) -> Option<usize>
    ensures { IfSome result (λ calls. calls ≤ 100000000) }
{
    let calls: usize = word.as_str().parse().ok()?;
    if calls > 100_000_000 {
        return None;
    }
    Some(calls)
}
