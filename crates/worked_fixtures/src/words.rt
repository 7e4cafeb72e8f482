//! Arguments of calls in words.

use ctf_types::{Args, Bytes, Value, Values};
use std::alloc::Global;
use std::test::Fail;

/// The number of an event record type, and arguments with the values of its payload: `1 ok` is a call of type 1 with a text.
pub fn call_in_words(alloc: Global, words: &str) -> Result<(usize, Args), Fail> {
    let (event, data) = words.split_once(" ").unwrap_or((words, ""));
    let event = event.parse::<usize>()?;
    let payload = values_in_words(alloc, data)?;
    let args = Args {
        common: Values::new(alloc),
        specific: Values::new(alloc),
        payload,
    };
    Ok((event, args))
}

/// Values with blanks between them: `5` is an unsigned number, `-2` and `+3` are signed ones, `""` is a text without bytes, and another word is a text.
pub fn values_in_words(alloc: Global, words: &str) -> Result<Values, Fail> {
    let mut values = Vec::new(alloc);
    for word in words.split_ascii_whitespace() {
        values.push(value(alloc, word)?)?;
    }
    Ok(Values::from_vec(values))
}

fn value(alloc: Global, word: &str) -> Result<Value, Fail> {
    if word == "\"\"" {
        return Ok(Value::Text(Bytes::new(alloc)));
    }
    if word.starts_with("-") || word.starts_with("+") {
        return Ok(Value::Signed(word.parse::<i64>()?));
    }
    match word.parse::<u64>() {
        Ok(number) => Ok(Value::Unsigned(number)),
        Err(_) => Ok(Value::Text(Bytes::from_slice(alloc, word.as_bytes())?)),
    }
}
