//! The tree of a configuration.
ghost use Rattle.std.specs.Prelude.{◌≡◌, ◌≤◌, false};
ghost use Rattle.serde_json.specs.Data.{depth};
ghost use Rattle.serde_json.specs.View.{view};
ghost use Rattle.serde_json.specs.Written.{has_float};
ghost use Rattle.conf_tree.specs.declared.limits.TheConstants.{MAX_LEVELS};
ghost use Rattle.conf_tree.specs.Order.{Ascends, Ascends-prop};

use serde_json::Value;

/// A JSON value that a configuration can be: nested at most `MAX_LEVELS` deep, with whole numbers of 64 bits alone, and the names of each
/// object in byte order.
#[derive(Drop)]
pub struct Tree {
    pub value: Value,
    pub ghost nested: { depth (view value) ≤ MAX_LEVELS },
    pub ghost whole: { has_float (view value) ≡ false },
    pub ghost ordered: { Ascends (view value) } by { Ascends-prop (view value) },
}
