//! The values of number literals.

ghost use Rattle.std.specs.Prelude.{◌<◌, ◌≤◌, ◌*◌, ◌^◌, SomeIff};
ghost use Rattle.tsdl_grammar.specs.Literals.{literal_of, digits_from};

/// The value of a number literal, None where it is above 2^64 - 1. A suffix counts for nothing.
#[tactic(auto, unfolding(crate::specs::Literals::literal_of))]
pub fn literal_value(literal: &[u8]) -> Option<u64>
    ensures { SomeIff result (literal_of literal.now < 2 ^ 64) (literal_of literal.now) }
{
    match literal {
        [] | [b'0'] => Some(0),
        [b'0', b'x', digits @ ..] => digits_value(16, digits),
        [b'0', digits @ ..] => digits_value(8, digits),
        digits => digits_value(10, digits),
    }
}

/// The value of the digits at the front of the bytes, in a base.
fn digits_value(radix: u32, bytes: &[u8]) -> Option<u64>
    requires { (2 ≤ radix) × (radix ≤ 36) }
    ensures { SomeIff result (digits_from radix 0 bytes.now < 2 ^ 64) (digits_from radix 0 bytes.now) }
{
    let mut value = 0;
    for b in bytes {
        let Some(digit) = char::from(*b).to_digit(radix) else {
            return Some(value);
        };
        value = value
            .checked_mul(u64::from(radix))?
            .checked_add(u64::from(digit))?;
    }
    Some(value)
}
