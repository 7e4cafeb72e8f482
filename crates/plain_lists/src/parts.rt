//! The parts of a copy, put together with one way out for a refusal of memory.

ghost use Rattle.std.specs.Prelude.{◌≡◌, Ok, IfOk};

use std::alloc::AllocError;

/// Both parts, or the first refusal of memory.
/// A copy of many parts has one `?` by it: with one for each part, all the parts before it must be given back there.
pub fn both<First: Drop, Second: Drop>(
    first: Result<First, AllocError>,
    second: Result<Second, AllocError>,
) -> Result<(First, Second), AllocError>
    ensures first { IfOk result (λ parts. first ≡ Ok parts.0) }
    ensures second { IfOk result (λ parts. second ≡ Ok parts.1) }
{
    Ok((first?, second?))
}
