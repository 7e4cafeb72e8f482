//! The keywords of TSDL that this project doesn't read.

ghost use Rattle.std.specs.{Prelude.{◌≡◌, ◌<◌, ◌↔◌, not, true, length, take, slice_get, IsNone, IfSome}, List.list_all};
ghost use Rattle.tsdl_grammar.specs.{Denotes.is_read, Fronts.{atoms_in, meant}};
ghost use Rattle.tsdl_parser.specs.Keywords.{IsUnreadAt};

use ctf_types::is_unused_keyword;
use tsdl_grammar::{Front, first_token};

/// Whether a token is no keyword that this project doesn't read.
fn is_read(front: Front<'_>) -> bool
    ensures { result ≡ is_read (meant front.entry) }
{
    front.word().is_none_or(|word| !is_unused_keyword(word))
}

/// The index of the first atom of a text that is a keyword which this project doesn't read.
pub fn first_unread(text: &[u8]) -> Option<usize>
    ensures none { IsNone result ↔ (list_all is_read (atoms_in text.now) ≡ true) }
    ensures within { IfSome result (λ i. i < length (atoms_in text.now)) }
    ensures unread { IfSome result (λ i. IsUnreadAt (atoms_in text.now) i) }
    ensures before { IfSome result (λ i. list_all is_read (take i (atoms_in text.now)) ≡ true) }
{
    let mut index = 0usize;
    let mut rest = text;
    while let Some((front, behind)) = first_token(rest) {
        if !is_read(front) {
            return Some(index);
        }
        index += 1;
        rest = behind;
    }
    None
}
