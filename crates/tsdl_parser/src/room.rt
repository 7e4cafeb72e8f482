//! How many items stand one after the other, told by the tokens of a text before any item is read.

ghost use Rattle.std.specs.Prelude.{◌<◌};

use crate::repetition::Start;
use tsdl_grammar::{Atoms, Mark, TokenKind, first_token};

/// How many items begin here, and no more than the rest of the text has bytes for, the last one of which may lack some.
/// What stands in the text behind the atoms counts too, so that each reading of a text takes the memory that the one before
/// it gave back.
pub(crate) fn room_for(start: Start, atoms: Atoms<'_>) -> usize {
    let Some(first) = atoms.front else {
        return 0;
    };
    let mut tally = Tally::new(start);
    let mut goes_on = tally.pass(first.kind);
    let mut rest = atoms.text;
    while let Some((front, behind)) = first_token(rest) {
        goes_on = goes_on && tally.pass(front.kind);
        if !goes_on {
            break;
        }
        rest = behind;
    }
    let bytes = atoms.text.len().saturating_add(first.bytes.len());
    tally
        .count
        .min((bytes / least_bytes(start)).saturating_add(1))
}

/// How many bytes of text an item takes at least: `.a`, `[1]`, `,a=1`, `a=1;`, `env{};`.
fn least_bytes(start: Start) -> usize
    ensures { 0 < result }
{
    match start {
        Start::Mark(Mark::Dot) => 2,
        Start::Mark(_) => 3,
        Start::NextEntry | Start::InBraces => 4,
        Start::InText => 6,
    }
}

/// The items of a list, counted while its tokens pass.
#[derive(Clone, Copy)]
struct Tally {
    start: Start,
    count: usize,
    /// In how many braces of the list the next token stands.
    depth: usize,
    /// What stands before the next token: what ends an item, before the first one.
    before: TokenKind,
}

impl Tally {
    fn new(start: Start) -> Tally {
        Tally {
            start,
            count: 0,
            depth: 0,
            before: TokenKind::Mark(Mark::Semicolon),
        }
    }

    /// Passes a token, and tells whether the list goes on with it.
    fn pass(&mut self, kind: TokenKind) -> bool {
        if self.depth == 0 && self.ends_at(kind) {
            return false;
        }
        if self.depth == 0 && self.begins_one(kind) {
            self.count = self.count.saturating_add(1);
        }
        match kind {
            TokenKind::Mark(Mark::OpenBrace) => self.depth = self.depth.saturating_add(1),
            TokenKind::Mark(Mark::CloseBrace) => self.depth = self.depth.saturating_sub(1),
            TokenKind::Mark(_) | TokenKind::Identifier | TokenKind::Number | TokenKind::Text => {}
        }
        self.before = kind;
        true
    }

    /// Whether no item goes on at a token outside of braces.
    fn ends_at(&self, kind: TokenKind) -> bool {
        match self.start {
            Start::Mark(Mark::Dot) => matches!(kind, TokenKind::Mark(mark) if mark != Mark::Dot),
            Start::Mark(_) => kind == TokenKind::Mark(Mark::Semicolon),
            Start::NextEntry | Start::InBraces | Start::InText => {
                kind == TokenKind::Mark(Mark::CloseBrace)
            }
        }
    }

    /// Whether an item begins at a token outside of braces, or in front of it.
    fn begins_one(&self, kind: TokenKind) -> bool {
        match self.start {
            Start::Mark(first) => kind == TokenKind::Mark(first),
            Start::NextEntry => {
                self.before == TokenKind::Mark(Mark::Comma)
                    && matches!(kind, TokenKind::Identifier | TokenKind::Text)
            }
            Start::InBraces | Start::InText => { self.before == TokenKind::Mark(Mark::Semicolon) }
        }
    }
}
