//! The gap in front of each token: it is known from the braces that are open, from the token before and from the token itself.

ghost use Rattle.std.specs.Prelude.{◌≡◌};
ghost use Rattle.tsdl_writer.specs.Layout.{gap, mark_next, behind};

use tsdl_grammar::Mark;

/// The innermost brace that is open.
#[derive(Clone, Copy)]
pub(crate) enum Depth {
    Top,
    Block,
    Structure,
    Type,
}

/// Where the next token stands.
#[derive(Clone, Copy)]
pub(crate) enum Place {
    /// On a line of its own.
    Line,
    /// Behind the brace that opens a type.
    Inside,
    /// Behind `[`, `(`, `-` or `+`, to which it is joined.
    Joined,
    /// Behind a dot.
    Dotted,
    /// Behind anything else.
    Apart,
}

/// What a token is to the layout.
#[derive(Clone, Copy)]
pub(crate) enum Next {
    Word,
    /// `}`
    Close,
    /// A mark that is joined to what stands before it.
    Leaning,
    Other,
}

pub(crate) fn gap(depth: Depth, place: Place, next: Next) -> &'static str
    ensures { result.now ≡ gap place next depth }
{
    match (place, depth, next) {
        (Place::Line, Depth::Top, _) => "\n\n",
        (Place::Line, Depth::Block, Next::Close) => "\n",
        (Place::Line, Depth::Block, _) | (Place::Line, Depth::Structure, Next::Close) => "\n\t",
        (Place::Line, _, _) => "\n\t\t",
        (Place::Inside, _, Next::Close) => "  ",
        (Place::Joined, _, _) | (Place::Dotted, _, Next::Word) => "",
        (Place::Apart, _, Next::Leaning) => "",
        _ => " ",
    }
}

pub(crate) fn mark_next(mark: Mark) -> Next
    ensures { result ≡ mark_next mark }
{
    match mark {
        Mark::CloseBrace => Next::Close,
        Mark::OpenBracket | Mark::CloseBracket => Next::Leaning,
        Mark::OpenParenthesis | Mark::CloseParenthesis => Next::Leaning,
        Mark::Semicolon | Mark::Comma | Mark::Dot => Next::Leaning,
        _ => Next::Other,
    }
}

pub(crate) fn behind(depth: Depth, mark: Mark) -> (Depth, Place)
    ensures { result ≡ behind mark depth }
{
    match (mark, depth) {
        (Mark::OpenBrace, Depth::Top) => (Depth::Block, Place::Line),
        (Mark::OpenBrace, Depth::Block) => (Depth::Structure, Place::Line),
        (Mark::OpenBrace, _) => (Depth::Type, Place::Inside),
        (Mark::CloseBrace, Depth::Type) => (Depth::Structure, Place::Apart),
        (Mark::CloseBrace, Depth::Structure) => (Depth::Block, Place::Apart),
        (Mark::CloseBrace, _) => (Depth::Top, Place::Apart),
        (Mark::Semicolon, Depth::Type) => (depth, Place::Apart),
        (Mark::Semicolon, _) => (depth, Place::Line),
        (Mark::OpenBracket | Mark::OpenParenthesis, _) => (depth, Place::Joined),
        (Mark::Minus | Mark::Plus, _) => (depth, Place::Joined),
        (Mark::Dot, _) => (depth, Place::Dotted),
        _ => (depth, Place::Apart),
    }
}
