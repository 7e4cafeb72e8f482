//! The tokens of a metadata text.

ghost use Rattle.std.specs.Prelude.{◌≡◌, List, length, slice_get, IfOk, IfErr, IsOk};
ghost use Rattle.tsdl_grammar.specs.Tokens.{HasMagicLine, Tokenizes, HasTokens, TokenFault, GivesTokens, Rises, start_of};
ghost use Rattle.tsdl_grammar.specs.declared.token.Token.{Token};

use crate::fault::{MetaFault, MetaFaultKind};
use crate::piece::{Piece, piece_at};
use crate::token::{Span, Token};
use std::alloc::{AllocError, Global};

/// The line that a metadata text begins with, without its newline.
pub const MAGIC_LINE: &[u8; 13] = b"/* CTF 1.8 */";

/// The tokens of a metadata text, in the text's order, with their places in bytes (CTF 1.8.3, appendix C.1).
///
/// The faults are `NoMagicLine` at 0, `Token` at the first byte, after blanks and whole comments, at which no
/// token starts, and `OutOfMemory`.
pub fn tokens(alloc: Global, text: &[u8]) -> Result<Vec<Token>, MetaFault>
    ensures found { IfOk result (λ v. HasMagicLine text.now × Tokenizes text.now v.items) }
    ensures only { (ts : List Token) → HasMagicLine text.now → Tokenizes text.now ts → GivesTokens result ts }
    ensures spans { IfOk result (λ v. Rises 0 v.items (length text.now)) }
    ensures fault { IfErr result (λ f. TokenFault text.now f.kind f.place) }
{
    check_tokens(text)?;
    let mut found = Vec::new(alloc);
    let mut at = 0;
    while let Some(cut) = piece_at(&text[at..]) {
        let end = at + cut.len;
        let span = Span { start: at, end };
        match cut.piece {
            Piece::Blank | Piece::Comment => {}
            Piece::Token(kind) => found.push(Token { kind, span })?,
        }
        at = end;
    }
    Ok(found)
}

/// Whether a metadata text has tokens, without a list of them. The faults are `NoMagicLine` and `Token`, as of `tokens`.
pub fn check_tokens(text: &[u8]) -> Result<(), MetaFault>
    ensures found { IfOk result (λ _. HasMagicLine text.now × HasTokens text.now) }
    ensures only { HasMagicLine text.now → HasTokens text.now → IsOk result }
    ensures fault { IfErr result (λ f. TokenFault text.now f.kind f.place) }
{
    if !text.starts_with(MAGIC_LINE) {
        let kind = MetaFaultKind::NoMagicLine;
        return Err(MetaFault { place: 0, kind });
    }
    let mut at = 0;
    while at < text.len() {
        let Some(cut) = piece_at(&text[at..]) else {
            let kind = MetaFaultKind::Token;
            return Err(MetaFault { place: at, kind });
        };
        at += cut.len;
    }
    Ok(())
}

/// Where the token of this index begins, in bytes: the end of the text where it has no such token.
pub fn token_start(text: &[u8], index: usize) -> usize
    ensures { (ts : List Token) → Tokenizes text.now ts → result ≡ start_of (slice_get ts index) (length text.now) }
{
    let mut before = index;
    let mut at = 0;
    while let Some(cut) = piece_at(&text[at..]) {
        match cut.piece {
            Piece::Blank | Piece::Comment => {}
            Piece::Token(_) if before == 0 => return at,
            Piece::Token(_) => before -= 1,
        }
        at += cut.len;
    }
    text.len()
}
