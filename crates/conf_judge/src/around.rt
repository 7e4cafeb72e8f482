//! What the rest of a configuration says that a value is judged by.
ghost use Rattle.std.specs.Prelude.{◌≡◌};
ghost use Rattle.serde_json.specs.View.{view, members_view};
ghost use Rattle.conf_judge.specs.Known.{known_of, inside as inside_of, behind as behind_of};

use crate::numbers::{Span, numbers_in};
use conf_table::Place;
use conf_tree::optional;
use serde_json::{Map, Value};

/// What stands around a value.
#[derive(Clone, Copy)]
pub(crate) struct Around<'a> {
    /// The log level aliases of the trace type, if it has some.
    pub(crate) levels: Option<&'a Map<String, Value>>,
    /// The numbers that the enumeration's integer can hold.
    pub(crate) numbers: Span,
    /// The names that the members before this one have, each with a null.
    pub(crate) taken: &'a Map<String, Value>,
    /// Whether a data stream type before this one is the default.
    pub(crate) has_default: bool,
}

impl<'a> Around<'a> {
    /// What stands around the properties of an object at this place.
    #[tactic(auto, unfolding(crate::specs::Known::inside))]
    pub(crate) fn inside(self, place: Place, members: &'a Map<String, Value>) -> Around<'a>
        ensures { known_of result ≡ inside_of place (members_view members.now.entries) (known_of self.entry) }
    {
        match place {
            Place::TraceType => Around {
                levels: optional(members, "$log-level-aliases").and_then(Value::as_object),
                ..self
            },
            Place::UnsignedEnumeration | Place::SignedEnumeration => Around {
                numbers: numbers_in(place == Place::SignedEnumeration, members),
                ..self
            },
            _ => self,
        }
    }

    /// What stands around the entry behind this one of a map.
    #[tactic(auto, unfolding(crate::specs::Known::behind))]
    pub(crate) fn behind(self, place: Place, entry: &Value) -> Around<'a>
        ensures { known_of result ≡ behind_of place (view entry.now) (known_of self.entry) }
    {
        match (place, entry) {
            (Place::StreamTypes, Value::Object(members)) => Around {
                has_default: self.has_default
                    || matches!(optional(members, "$is-default"), Some(Value::Bool(true))),
                ..self
            },
            _ => self,
        }
    }
}
