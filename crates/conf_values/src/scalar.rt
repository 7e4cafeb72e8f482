//! Numbers and texts of a configuration.
ghost use Rattle.std.specs.Prelude.{◌≡◌};
ghost use Rattle.serde_json.specs.View.{view};
ghost use Rattle.conf_values.specs.Scalar.{uuid_in, is_printable as is_printable_of, as_natural as as_natural_of};

use serde_json::Value;
use uuid::Uuid;

/// The whole number from 0 to 2^64 - 1 that `value` is, if it is one.
#[tactic(auto, unfolding(crate::specs::Scalar::as_natural))]
pub fn as_natural(value: &Value) -> Option<u64>
    ensures { result ≡ as_natural_of (view value.now) }
{
    u64::try_from(value.as_number()?.as_i128()?).ok()
}

/// Whether a text has no control character but newline and tab.
pub fn is_printable(text: &str) -> bool
    ensures { result ≡ is_printable_of text.now }
{
    for byte in text.as_bytes() {
        if !(32 <= *byte || *byte == 10 || *byte == 9) {
            return false;
        }
    }
    true
}

/// The identifier of 16 bytes that a text stands for.
pub fn parsed(text: &str) -> Option<Uuid>
    ensures { result ≡ uuid_in text.now }
{
    match Uuid::try_parse(text) {
        Ok(uuid) => Some(uuid),
        Err(_) => None,
    }
}
