//! Reads what stands any number of times, one after the other.

ghost use Rattle.std.specs.Prelude.{◌≡◌, List, IfOk};
ghost use Rattle.tsdl_parser.specs.Rules.{Atom, Outcome, shown, Gives, Shortens, many, braced_at, starts};

use crate::enumeration::is_labelled;
use crate::halt::Unread;
use crate::parsing::{Read, begins, closed_by, mark_at};
use crate::room::room_for;
use ctf_types::ListOf;
use std::alloc::{AllocError, Global};
use tsdl_grammar::{Atoms, Mark};

/// What can stand any number of times, one after the other.
pub(crate) trait Repeated: Drop {
    ghost item: { List Atom → Outcome (Self × List Atom) };

    /// One of them.
    fn item_at(alloc: Global, atoms: Atoms<'_>) -> Read<'_, Self>
        ensures { Gives (λ x. (x.0, shown x.1)) result (item (shown atoms.entry)) };
}

/// Where another one starts.
#[derive(Clone, Copy)]
pub(crate) enum Start {
    /// At this mark.
    Mark(Mark),
    /// At a comma with a label behind it.
    NextEntry,
    /// Anywhere before a closing brace.
    InBraces,
    /// Anywhere before the end of the text.
    InText,
}

/// Whether another one starts.
#[tactic(auto, unfolding(crate::specs::Parsing::begins, crate::specs::Rules::is_next))]
fn starts(alloc: Global, start: Start, atoms: Atoms<'_>) -> Result<bool, AllocError>
    ensures { IfOk result (λ b. b ≡ starts start (shown atoms.entry)) }
{
    match start {
        Start::Mark(mark) => Ok(begins(mark, atoms)),
        Start::NextEntry => Ok(begins(Mark::Comma, atoms) && is_labelled(alloc, atoms.behind())?),
        Start::InBraces => Ok(!begins(Mark::CloseBrace, atoms)),
        Start::InText => Ok(atoms.front.is_some()),
    }
}

/// All that stand one after the other, in a list that takes no more memory than they do.
pub(crate) fn all_at<T: Repeated>(
    alloc: Global,
    atoms: Atoms<'_>,
    start: Start,
) -> Read<'_, ListOf<T>>
    requires { Shortens T T.item }
    ensures { Gives (λ x. (x.0, shown x.1)) result (many (starts start) T.item (shown atoms.entry)) }
{
    let mut items = Vec::with_capacity(alloc, room_for(start, atoms))?;
    let mut rest = atoms;
    while starts(alloc, start, rest)? {
        let (item, behind) = T::item_at(alloc, rest)?;
        let Ok(()) = items.push(item) else {
            return Err(Unread::Memory);
        };
        rest = behind;
    }
    Ok((ListOf::from_vec(items), rest))
}

/// All that stand between two braces. Where they stop, the caller says that the closing one is missing.
#[tactic(auto, unfolding(crate::specs::Parsing::braced_at))]
pub(crate) fn braced_at<T: Repeated>(alloc: Global, atoms: Atoms<'_>) -> Read<'_, ListOf<T>>
    requires { Shortens T T.item }
    ensures { Gives (λ x. (x.0, shown x.1)) result (braced_at T.item (shown atoms.entry)) }
{
    let inside = mark_at(Mark::OpenBrace, atoms)?;
    closed_by(Mark::CloseBrace, all_at(alloc, inside, Start::InBraces)?)
}
