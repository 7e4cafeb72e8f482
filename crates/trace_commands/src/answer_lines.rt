//! The lines of the answers to a script's events.

ghost use Rattle.std.specs.Prelude.{◌≡◌, ◌<◌, ◌++◌, Some, IfOk, OnOk, length, slice_get, string_bytes};
ghost use Rattle.std.specs.Fmt.{decimal};
ghost use Rattle.trace_commands.specs.AnswerLines.{answer_line, answer_lines as lines_of, answer_words, verdict_words, collected_words, packet_word as packet_word_of, why_word as why_word_of, misuse_word as misuse_word_of};

use ctf_types::ArgFault;
use packet_collector::Collected;
use std::alloc::{AllocError, Global};
use thread_stream::{PacketAnswer, Verdict, Why};
use trace_stack::Answer;

/// A line for each answer: its number, counted from 0, and its words.
#[tactic(auto, using(crate::proofs::TracingLaws::lines_more))]
pub fn answer_lines(alloc: Global, answers: &[Answer]) -> Result<String, AllocError>
    ensures { IfOk result (λ text. string_bytes text ≡ lines_of 0 answers.now) }
{
    let mut output = String::new(alloc);
    for (number, _) in answers.iter().enumerate() {
        push_line(alloc, &mut output, number, &answer_at(answers, number))?;
    }
    Ok(output)
}

/// The answer of this number.
pub fn answer_at(answers: &[Answer], number: usize) -> Answer
    requires { number < length answers.now }
    ensures { slice_get answers.now number ≡ Some result }
{
    answers[number]
}

/// The line of an answer of this number.
pub fn push_line(
    alloc: Global,
    output: &mut String,
    number: usize,
    answer: &Answer,
) -> Result<(), AllocError>
    ensures { OnOk result (string_bytes output.new ≡ string_bytes output.old ++ answer_line number answer.now) }
{
    let digits = format!(in alloc; "{number} ")?;
    output.push_str(digits.as_str())?;
    push_words(alloc, output, answer)?;
    output.push('\n')
}

fn push_words(alloc: Global, output: &mut String, answer: &Answer) -> Result<(), AllocError>
    ensures { OnOk result (string_bytes output.new ≡ string_bytes output.old ++ answer_words answer.now) }
{
    match answer {
        Answer::Traced(verdict) => push_verdict(alloc, output, *verdict),
        Answer::Packet(what) => output.push_str(packet_word(*what)),
        Answer::Collected(what) => push_collected(alloc, output, *what),
        Answer::Set => output.push_str("Set"),
        Answer::NotSet(_) => output.push_str("NotSet"),
    }
}

fn push_verdict(alloc: Global, output: &mut String, verdict: Verdict) -> Result<(), AllocError>
    ensures { OnOk result (string_bytes output.new ≡ string_bytes output.old ++ verdict_words verdict) }
{
    match verdict {
        Verdict::Accepted(None) => output.push_str("Accepted"),
        Verdict::Accepted(Some(reading)) => push_number(alloc, output, "Accepted ", reading),
        Verdict::Discarded(why) => push_both(output, "Discarded ", why_word(why)),
        Verdict::Disabled => output.push_str("Disabled"),
        Verdict::Misuse(fault) => push_both(output, "Misuse ", misuse_word(fault)),
    }
}

fn push_collected(alloc: Global, output: &mut String, what: Collected) -> Result<(), AllocError>
    ensures { OnOk result (string_bytes output.new ≡ string_bytes output.old ++ collected_words what) }
{
    match what {
        Collected::Took(before) => push_number(alloc, output, "Took ", before),
        Collected::Nothing => output.push_str("Nothing"),
        Collected::Faulted => output.push_str("Faulted"),
    }
}

fn push_both(output: &mut String, first: &str, second: &str) -> Result<(), AllocError>
    ensures { OnOk result (string_bytes output.new ≡ string_bytes output.old ++ first.now ++ second.now) }
{
    output.push_str(first)?;
    output.push_str(second)
}

fn push_number(
    alloc: Global,
    output: &mut String,
    word: &str,
    number: u64,
) -> Result<(), AllocError>
    ensures { OnOk result (string_bytes output.new ≡ string_bytes output.old ++ word.now ++ decimal number) }
{
    let digits = format!(in alloc; "{number}")?;
    push_both(output, word, digits.as_str())
}

fn packet_word(what: PacketAnswer) -> &'static str
    ensures { result.now ≡ packet_word_of what }
{
    match what {
        PacketAnswer::Done => "Done",
        PacketAnswer::AlreadyOpen => "AlreadyOpen",
        PacketAnswer::NotOpen => "NotOpen",
        PacketAnswer::Disabled => "Disabled",
        PacketAnswer::Full => "Full",
        PacketAnswer::ClockSpent => "ClockSpent",
    }
}

fn why_word(why: Why) -> &'static str
    ensures { result.now ≡ why_word_of why }
{
    match why {
        Why::TooLarge => "TooLarge",
        Why::BackEndFull => "BackEndFull",
        Why::ClockSpent => "ClockSpent",
    }
}

fn misuse_word(fault: ArgFault) -> &'static str
    ensures { result.now ≡ misuse_word_of fault }
{
    match fault {
        ArgFault::NoSuchEvent => "NoSuchEvent",
        ArgFault::Count => "Count",
        ArgFault::Kind => "Kind",
        ArgFault::Range => "Range",
        ArgFault::ZeroByte => "ZeroByte",
        ArgFault::Length => "Length",
    }
}
