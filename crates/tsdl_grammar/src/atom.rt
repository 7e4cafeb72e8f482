//! What a token means by itself: a word, a number, a string's text or a mark.

ghost use Rattle.std.specs.Prelude.{◌≡◌, ◌≤◌, length, IfOk};
ghost use Rattle.tsdl_grammar.specs.{Atoms.{atom_of, atoms_of, meaning_of}, Tokens.Rises};

use crate::escapes::unescape;
use crate::literal::literal_value;
use crate::piece::text_in;
use crate::token::{Mark, Token, TokenKind};
use ctf_types::Text;
use std::alloc::{AllocError, Global};

/// What a token means, without its place.
#[derive(Debug, Drop)]
pub enum Atom {
    /// An identifier.
    Word(Text),
    /// A literal's value.
    Number(u64),
    /// What a string stands for.
    Text(Text),
    Mark(Mark),
    /// A literal above 2^64 - 1, which no rule of the grammar reads.
    TooLarge,
}

/// What the tokens of a text mean, in their order.
pub fn atoms(alloc: Global, text: &[u8], tokens: &[Token]) -> Result<Vec<Atom>, AllocError>
    requires { Rises 0 tokens.now (length text.now) }
    ensures { IfOk result (λ v. v.items ≡ atoms_of text.now tokens.now) }
{
    let mut atoms = Vec::with_capacity(alloc, tokens.len())?;
    for token in tokens {
        atoms.push(atom_at(alloc, text, token)?)?;
    }
    Ok(atoms)
}

/// What one token of a text means.
pub fn atom_at(alloc: Global, text: &[u8], token: &Token) -> Result<Atom, AllocError>
    requires ordered { token.now.span.start ≤ token.now.span.end }
    requires within { token.now.span.end ≤ length text.now }
    ensures { IfOk result (λ a. a ≡ atom_of text.now token.now) }
{
    meaning(alloc, token.kind, &text[token.span.start..token.span.end])
}

/// What the bytes of a token of a kind mean.
pub(crate) fn meaning(alloc: Global, kind: TokenKind, bytes: &[u8]) -> Result<Atom, AllocError>
    ensures { IfOk result (λ a. a ≡ meaning_of kind bytes.now) }
{
    match kind {
        TokenKind::Identifier => match text_in(bytes) {
            Some(word) => Ok(Atom::Word(Text::from_str(alloc, word)?)),
            None => Ok(Atom::TooLarge),
        },
        TokenKind::Number => Ok(literal_value(bytes).map_or(Atom::TooLarge, Atom::Number)),
        TokenKind::Text => {
            let content = match bytes {
                [_, content @ .., _] => content,
                _ => &[],
            };
            let text = unescape(alloc, content)?;
            match text_in(&text) {
                Some(text) => Ok(Atom::Text(Text::from_str(alloc, text)?)),
                None => Ok(Atom::TooLarge),
            }
        }
        TokenKind::Mark(mark) => Ok(Atom::Mark(mark)),
    }
}
