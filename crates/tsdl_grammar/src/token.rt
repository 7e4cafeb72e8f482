//! The tokens of TSDL.

ghost use Rattle.std.specs.Prelude.{◌≡◌};
ghost use Rattle.tsdl_grammar.specs.Tokens.{mark_text};

/// A mark, by its bytes.
#[derive(Clone, Copy, Debug, PartialEq, Eq)]
pub enum Mark {
    /// `{`
    OpenBrace,
    /// `}`
    CloseBrace,
    /// `[`
    OpenBracket,
    /// `]`
    CloseBracket,
    /// `(`
    OpenParenthesis,
    /// `)`
    CloseParenthesis,
    /// `;`
    Semicolon,
    /// `,`
    Comma,
    /// `:`
    Colon,
    /// `=`
    Equals,
    /// `-`
    Minus,
    /// `+`
    Plus,
    /// `.`
    Dot,
    /// `:=`
    Assign,
    /// `...`
    Ellipsis,
}

impl Mark {
    /// The mark's bytes.
    pub fn spelling(self) -> &'static str
        ensures { result.now ≡ mark_text self }
    {
        match self {
            Mark::OpenBrace => "{",
            Mark::CloseBrace => "}",
            Mark::OpenBracket => "[",
            Mark::CloseBracket => "]",
            Mark::OpenParenthesis => "(",
            Mark::CloseParenthesis => ")",
            Mark::Semicolon => ";",
            Mark::Comma => ",",
            Mark::Colon => ":",
            Mark::Equals => "=",
            Mark::Minus => "-",
            Mark::Plus => "+",
            Mark::Dot => ".",
            Mark::Assign => ":=",
            Mark::Ellipsis => "...",
        }
    }
}

/// What a token is.
#[derive(Clone, Copy, Debug, PartialEq, Eq)]
pub enum TokenKind {
    /// A letter or `_`, then letters, digits and `_`.
    Identifier,
    /// A decimal, hexadecimal or octal literal with up to three suffix letters.
    Number,
    /// A string with its quotes.
    Text,
    Mark(Mark),
}

/// The bytes of a text from `start` on, up to `end`.
#[derive(Clone, Copy, Debug, PartialEq, Eq)]
pub struct Span {
    pub start: usize,
    pub end: usize,
}

/// A token and the bytes of the text that are it.
#[derive(Clone, Copy, Debug, PartialEq, Eq)]
pub struct Token {
    pub kind: TokenKind,
    pub span: Span,
}
