//! Arguments of calls, in tables.

use ctf_types::{Args, Bytes, Value, Values};
use std::alloc::{AllocError, Global};

/// A value of a call's arguments, in a table.
#[derive(Clone, Copy)]
pub enum Datum {
    Unsigned(u64),
    Signed(i64),
    Text(&'static [u8]),
    /// A list of unsigned numbers.
    List(&'static [u64]),
}

pub fn values(alloc: Global, data: &[Datum]) -> Result<Values, AllocError> {
    let mut values = Vec::new(alloc);
    for datum in data {
        values.push(value(alloc, *datum)?)?;
    }
    Ok(Values::from_vec(values))
}

fn value(alloc: Global, datum: Datum) -> Result<Value, AllocError> {
    match datum {
        Datum::Unsigned(number) => Ok(Value::Unsigned(number)),
        Datum::Signed(number) => Ok(Value::Signed(number)),
        Datum::Text(bytes) => Ok(Value::Text(Bytes::from_slice(alloc, bytes)?)),
        Datum::List(numbers) => Ok(Value::List(list(alloc, numbers)?)),
    }
}

fn list(alloc: Global, numbers: &[u64]) -> Result<Values, AllocError> {
    let mut values = Vec::new(alloc);
    for number in numbers {
        values.push(Value::Unsigned(*number))?;
    }
    Ok(Values::from_vec(values))
}

/// Arguments whose payload is these values.
pub fn payload(alloc: Global, data: &[Datum]) -> Result<Args, AllocError> {
    Ok(Args {
        common: Values::new(alloc),
        specific: Values::new(alloc),
        payload: values(alloc, data)?,
    })
}
