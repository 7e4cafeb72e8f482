//! What came of calls.

ghost use Rattle.std.specs.Prelude.{◌≡◌};
ghost use Rattle.trace_bench.specs.Tally.{accepted, is_accepted as is_accepted_of};

use thread_stream::Verdict;
use trace_platform::MemorySink;
use trace_stack::Answer;

/// What came of calls.
#[derive(Clone, Copy, Debug, PartialEq, Eq)]
pub struct Tally {
    /// How many calls were accepted.
    pub accepted: usize,
    /// How many bytes the sinks got.
    pub bytes: usize,
}

/// How many of the answers are `Accepted`.
pub fn accepted_of(answers: &[Answer]) -> usize
    ensures { result ≡ accepted answers.now }
{
    let mut count = 0;
    for answer in answers {
        if is_accepted(answer) {
            count += 1;
        }
    }
    count
}

fn is_accepted(answer: &Answer) -> bool
    ensures { result ≡ is_accepted_of answer.now }
{
    matches!(answer, Answer::Traced(Verdict::Accepted(_)))
}

pub fn bytes_of(sinks: &[MemorySink]) -> usize {
    let mut count: usize = 0;
    for sink in sinks {
        count = count.saturating_add(sink.bytes().len());
    }
    count
}
