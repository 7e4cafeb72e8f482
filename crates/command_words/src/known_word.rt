//! A word that a command knows.

ghost use Rattle.std.specs.Prelude.{◌≡◌, false};
ghost use Rattle.clap.specs.Words.{rule_of};
ghost use Rattle.command_words.specs.ProgramWords.{rule_of_word};

use clap::{Arg, ArgAction};
use std::alloc::Global;

/// What a word is read back by, which is also the long form of an option, and how help explains it.
#[derive(Clone, Copy)]
pub struct KnownWord {
    pub id: &'static str,
    pub form: Form,
    pub help: &'static str,
}

/// Where a word stands, and the name of its value in help.
#[derive(Clone, Copy)]
pub enum Form {
    /// It is needed at its place.
    Needed(&'static str),
    /// An option with a value.
    Valued(&'static str),
    /// An option with a value, and the value where it is left out.
    Defaulted(&'static str, &'static str),
    /// An option without a value.
    Flag,
}

impl KnownWord {
    pub fn arg<'a>(&self, alloc: Global) -> Arg<'a>
        ensures rule { rule_of result ≡ rule_of_word self.now }
        ensures local { result.global ≡ false }
    {
        let arg = Arg::new(alloc, self.id).help(self.help);
        match self.form {
            Form::Needed(name) => arg.value_name(name).required(true),
            Form::Valued(name) => arg.long(self.id).value_name(name),
            Form::Defaulted(name, value) => {
                arg.long(self.id).value_name(name).default_value(value)
            }
            Form::Flag => arg.long(self.id).action(ArgAction::SetTrue),
        }
    }
}
