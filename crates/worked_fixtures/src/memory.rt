//! Answers of tests in which each request for memory is refused in turn: want of memory has the words `out of memory`.

ghost use Rattle.std.specs.Prelude.{IfOk};
ghost use Rattle.ctf_types.specs.AllowedConfig.{IsConfig};

use conf_check::configure;
use ctf_types::Config;
use std::alloc::{AllocError, Global};
use std::test::Fail;

/// What was made, or want of memory in the words that each call's own fault has for it.
pub fn granted<T>(answer: Result<T, AllocError>) -> Result<T, Fail> {
    match answer {
        Ok(value) => Ok(value),
        Err(_) => Err(Fail::new("out of memory")),
    }
}

/// The configuration of this text, or its fault in words.
pub fn configuration(alloc: Global, text: &str) -> Result<Config, Fail>
    ensures { IfOk result (λ c. IsConfig c) }
{
    match configure(alloc, text.as_bytes(), None) {
        Ok(config) => Ok(config),
        Err(fault) => Err(Fail::new(fault)),
    }
}
