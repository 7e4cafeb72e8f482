//! The objects of a script, and the properties that each can have.

ghost use Rattle.std.specs.Prelude.{◌≡◌, map};
ghost use Rattle.trace_text.specs.ScriptObjects.{has_property, is_among as is_among_of, properties_of, told_of};

/// An object of a script.
#[derive(Clone, Copy, Debug, PartialEq, Eq)]
pub enum ScriptObject {
    /// The script itself.
    Whole,
    /// An entry of the list of streams.
    Stream,
    /// An entry of the list of events that traces an event record.
    Tracing,
    /// An entry of the list of events that is of another act.
    Doing,
}

/// Whether a property has to be there.
#[derive(Clone, Copy, Debug, PartialEq, Eq)]
pub enum Presence {
    Needed,
    /// One that is null is as if it were not there.
    Optional,
    /// The object has this property and no other.
    Alone,
}

/// What a property is.
#[derive(Clone, Copy, Debug, PartialEq, Eq)]
pub enum PropertyKind {
    Text,
    /// A list of a clock's readings.
    Readings,
    /// A list of the values of a structure's members.
    Values,
    /// A list of objects.
    Entries,
}

/// A property of an object: its name, whether it has to be there, and what it is.
pub type ScriptProperty = (&'static str, Presence, PropertyKind);

impl ScriptObject {
    /// The properties that such an object can have.
    #[tactic(auto, unfolding(crate::specs::ScriptObjects::properties_of))]
    pub fn properties(self) -> &'static [ScriptProperty]
        ensures { map told_of result.now ≡ properties_of self }
    {
        match self {
            ScriptObject::Whole => &[
                ("streams", Presence::Needed, PropertyKind::Entries),
                ("events", Presence::Needed, PropertyKind::Entries),
            ],
            ScriptObject::Stream => &[
                ("name", Presence::Needed, PropertyKind::Text),
                ("type", Presence::Needed, PropertyKind::Text),
                ("clock", Presence::Optional, PropertyKind::Readings),
                ("extras", Presence::Optional, PropertyKind::Values),
            ],
            ScriptObject::Tracing => &[
                ("trace", Presence::Needed, PropertyKind::Text),
                ("event", Presence::Needed, PropertyKind::Text),
                ("common", Presence::Optional, PropertyKind::Values),
                ("specific", Presence::Optional, PropertyKind::Values),
                ("payload", Presence::Optional, PropertyKind::Values),
            ],
            ScriptObject::Doing => &[
                ("open", Presence::Alone, PropertyKind::Text),
                ("close", Presence::Alone, PropertyKind::Text),
                ("collect", Presence::Alone, PropertyKind::Text),
                ("enable", Presence::Alone, PropertyKind::Text),
                ("disable", Presence::Alone, PropertyKind::Text),
            ],
        }
    }

    /// Whether such an object can have a property of the name.
    pub fn has(self, name: &str) -> bool
        ensures { result ≡ has_property self name.now }
    {
        is_among(self.properties(), name)
    }
}

/// Whether one of these properties has the name.
fn is_among(properties: &[ScriptProperty], name: &str) -> bool
    ensures { result ≡ is_among_of name.now (map told_of properties.now) }
{
    let mut rest = properties;
    while let [(known, _, _), others @ ..] = rest {
        if name == *known {
            return true;
        }
        rest = others;
    }
    false
}
