//! The names on the path of a fault.

ghost use Rattle.std.specs.Prelude.{◌≡◌, slice_get};
ghost use Rattle.conf_fault.specs.Wanted.{end_name as name_of_end, own_alias as alias_around, step_name};

use conf_tree::Step;

/// The name of the last step. Empty where that is an index, or where there is no step.
pub(crate) fn end_name(path: &[Step]) -> &str
    ensures { result.now ≡ name_of_end path.now }
{
    name_at(path, path.len().saturating_sub(1))
}

/// The name of the alias of field types into whose value a path leads. Empty where it leads into none.
pub(crate) fn own_alias(path: &[Step]) -> &str
    ensures { result.now ≡ alias_around path.now }
{
    if name_at(path, 2) == "$field-type-aliases" {
        name_at(path, 3)
    } else {
        ""
    }
}

/// The name that the step at an index is, or nothing.
fn name_at(path: &[Step], index: usize) -> &str
    ensures { result.now ≡ step_name (slice_get path.now index) }
{
    match path.get(index) {
        Some(Step::Key(name)) => name.as_str(),
        _ => "",
    }
}
