//! Calls that are made once more where memory was wanting: they answer as with ample memory, since the refused call left all as it was. A test passes then;
//! where another request is refused it answers that it is out of memory.

mod reading;
mod streams;

use std::test::Fail;

/// What the second call answers.
fn at_last<T, E: Drop>(answer: Result<T, E>) -> Result<T, Fail> {
    match answer {
        Ok(value) => Ok(value),
        Err(_) => Err("a second refusal".into()),
    }
}
