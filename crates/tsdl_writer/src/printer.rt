//! Prints words, numbers, strings and marks, one behind the other, as a text. They alone decide the layout, whatever they spell.

ghost use Rattle.std.specs.Prelude.{◌≡◌, ◌++◌, [], ◌∷◌, IfOk, OnOk, codes, string_bytes, flat_map};
ghost use Rattle.tsdl_grammar.specs.declared.atom.Atom.TheVariants as atoms;
ghost use Rattle.tsdl_writer.specs.{Layout.gap, Prints.{Begins, Puts, Prints, token_toks}};

use crate::layout::{Depth, Next, Place, behind, gap, mark_next};
use std::alloc::{AllocError, Global};
use tsdl_grammar::{Mark, escape};

/// That a part of the text is printed, or that memory was wanting.
pub(crate) type Printed = Result<(), AllocError>;

/// A token that is printed.
#[derive(Clone, Copy)]
pub(crate) enum Token<'a> {
    Word(&'a str),
    /// The name of a dynamic array's length.
    LengthOf(&'a str),
    Number(u64),
    /// A number that may be below 0.
    Whole(i128),
    /// A text between its quotes, with escapes.
    Quoted(&'a str),
    Mark(Mark),
}

/// A text that grows, and what stands at its end.
#[derive(Drop)]
pub(crate) struct Printer {
    alloc: Global,
    text: String,
    depth: Depth,
    place: Place,
}

impl Printer {
    /// The magic line.
    pub(crate) fn new(alloc: Global) -> Result<Printer, AllocError>
        ensures { IfOk result Begins }
    {
        Ok(Printer {
            alloc,
            text: String::from_str(alloc, "/* CTF 1.8 */")?,
            depth: Depth::Top,
            place: Place::Line,
        })
    }

    /// The text, whose last line ends with a newline.
    pub(crate) fn finish(mut self) -> Result<String, AllocError>
        ensures { IfOk result (λ t. string_bytes t ≡ string_bytes self.text ++ codes "\n") }
    {
        self.text.push_str("\n")?;
        Ok(self.text)
    }

    /// Tokens, one behind the other.
    #[tactic(auto, using(crate::proofs::Printing::begun))]
    pub(crate) fn print(&mut self, tokens: &[Token<'_>]) -> Printed
        ensures { OnOk result (Prints self.old self.new (flat_map token_toks tokens.now)) }
    {
        for token in tokens {
            self.token(*token)?;
        }
        Ok(())
    }

    pub(crate) fn token(&mut self, token: Token<'_>) -> Printed
        ensures { OnOk result (Prints self.old self.new (token_toks token.entry)) }
    {
        match token {
            Token::Word(word) => {
                self.gap(Next::Word)?;
                self.text.push_str(word)
            }
            Token::LengthOf(name) => {
                self.gap(Next::Word)?;
                write!(self.text, "__{name}_len")
            }
            Token::Number(n) => {
                self.gap(Next::Other)?;
                write!(self.text, "{n}")
            }
            Token::Whole(n) => {
                self.gap(Next::Other)?;
                write!(self.text, "{n}")
            }
            Token::Quoted(text) => self.quoted(text),
            Token::Mark(mark) => {
                self.gap(mark_next(mark))?;
                self.text.push_str(mark.spelling())?;
                (self.depth, self.place) = behind(self.depth, mark);
                Ok(())
            }
        }
    }

    /// A text between its quotes, with escapes.
    fn quoted(&mut self, text: &str) -> Printed
        ensures { OnOk result (Prints self.old self.new (atoms.Text text.now ∷ [])) }
    {
        self.gap(Next::Other)?;
        let escaped = escape(self.alloc, text.as_bytes())?;
        match std::str::from_utf8(&escaped) {
            Ok(escaped) => write!(self.text, "\"{escaped}\""),
            Err(_) => unreachable!(),
        }
    }

    /// The gap in front of a token; what follows that stands apart.
    fn gap(&mut self, next: Next) -> Printed
        ensures { OnOk result (Puts self.old self.new (gap self.old.place next self.old.depth)) }
    {
        self.text.push_str(gap(self.depth, self.place, next))?;
        self.place = Place::Apart;
        Ok(())
    }
}
