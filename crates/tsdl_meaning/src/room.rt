//! Lists that are made at their size.

ghost use Rattle.std.specs.Prelude.{◌≡◌, [], IfOk};

use ctf_types::ListOf;
use std::alloc::{AllocError, Global};

/// A list without items that has room for this many.
pub(crate) fn with_room<T>(alloc: Global, count: usize) -> Result<ListOf<T>, AllocError>
    ensures { IfOk result (λ items. items ≡ []) }
{
    Ok(ListOf::from_vec(Vec::with_capacity(alloc, count)?))
}
