//! The types of a trace, its configuration and its metadata, and every definition of the layout of the bits.
#![tactic(auto)]

mod alignment;
mod fitting;
mod identifier;
mod laws;
mod limits;
mod magic;
mod own_names;
mod size;

pub use alignment::{LONGEST_PACKET, align_of, align_of_field};
pub use data_types::{
    ArgFault, Args, Base, ByteOrder, ClockType, Config, ContextFeatures, Element, EnumType,
    EnvironmentEntry, EnvironmentValue, Event, EventFeatures, EventType, FieldType, HeaderFeatures,
    IntType, Length, Mapping, MemberType, Members, Metadata, ReadPacket, Record, Stream,
    StreamType, StructType, Value, Values,
};
pub use fitting::{call_faults, fits, is_below};
pub use identifier::{is_identifier, is_unused_keyword};
pub use laws::{
    allowed_metadata, clean_lies, front_of_packets, joined_packets, lying_fits, one_end,
    one_packet_list, one_value, own_bits_alone, shown_lies,
};
pub use limits::{
    LARGEST_ALIGN, MAX_ARRAYS, MAX_CLOCK_TYPES, MAX_CONFIG_MEMBERS, MAX_CONFIG_RANGES,
    MAX_ELEMENTS, MAX_ENVIRONMENT, MAX_EVENT_TYPES, MAX_LABEL_BYTES, MAX_MEMBERS, MAX_NAME_BYTES,
    MAX_RANGES, MAX_STREAM_TYPES, MAX_TEXT_BYTES,
};
pub use magic::MAGIC;
pub use own_names::{OWN_NAMES, is_among, is_own_name};
pub use plain_lists::{Bytes, Duplicate, ListOf, Text};
pub use size::{members_size, size_from};
