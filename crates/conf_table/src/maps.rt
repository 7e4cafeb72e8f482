//! What the maps and the lists of a configuration hold.

use crate::objects::{HIGHEST, HIGHEST_UNSIGNED, LOWEST};
use crate::{Content, Entries, Keys, Place};
use conf_tree::MAX_ALIASES;
use ctf_types::{
    MAX_CLOCK_TYPES, MAX_CONFIG_MEMBERS, MAX_ENVIRONMENT, MAX_EVENT_TYPES, MAX_STREAM_TYPES,
    MAX_TEXT_BYTES,
};

pub(crate) static ENVIRONMENT: Entries = Entries {
    keys: Keys::PlainName,
    most: Some(MAX_ENVIRONMENT as u64),
    content: Content::WholeOrText {
        low: LOWEST,
        high: HIGHEST,
        most_bytes: MAX_TEXT_BYTES,
    },
};

pub(crate) static FIELD_TYPE_ALIASES: Entries = Entries {
    keys: Keys::Name,
    most: Some(MAX_ALIASES as u64),
    content: Content::At(Place::FieldType),
};

pub(crate) static LOG_LEVEL_ALIASES: Entries = Entries {
    keys: Keys::Name,
    most: Some(MAX_ALIASES as u64),
    content: Content::Whole {
        low: 0,
        high: HIGHEST,
    },
};

pub(crate) static CLOCK_TYPES: Entries = Entries {
    keys: Keys::PlainName,
    most: Some(MAX_CLOCK_TYPES as u64),
    content: Content::At(Place::ClockType),
};

pub(crate) static STREAM_TYPES: Entries = Entries {
    keys: Keys::Name,
    most: Some(MAX_STREAM_TYPES as u64),
    content: Content::At(Place::StreamType),
};

pub(crate) static EVENT_TYPES: Entries = Entries {
    keys: Keys::Name,
    most: Some(MAX_EVENT_TYPES as u64),
    content: Content::At(Place::EventType),
};

pub(crate) static ENTRY: Entries = Entries {
    keys: Keys::PlainName,
    most: None,
    content: Content::At(Place::Member),
};

pub(crate) static MAPPINGS: Entries = Entries {
    keys: Keys::Label,
    most: None,
    content: Content::At(Place::Ranges),
};

pub(crate) static EXTRA_MEMBERS: Entries = Entries {
    keys: Keys::Index,
    most: Some(MAX_CONFIG_MEMBERS as u64),
    content: Content::At(Place::Entry),
};

pub(crate) static MEMBERS: Entries = Entries {
    keys: Keys::Index,
    most: Some(MAX_CONFIG_MEMBERS as u64),
    content: Content::At(Place::Entry),
};

pub(crate) static RANGES: Entries = Entries {
    keys: Keys::Index,
    most: None,
    content: Content::At(Place::Range),
};

pub(crate) static RANGE: Entries = Entries {
    keys: Keys::Index,
    most: None,
    content: Content::Whole {
        low: LOWEST,
        high: HIGHEST_UNSIGNED,
    },
};
