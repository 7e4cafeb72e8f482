//! The places of a configuration: the kinds of object, map, list and field type position that it has.

/// What stands at a place of a configuration.
#[derive(Clone, Copy, Debug, PartialEq, Eq)]
pub enum Place {
    /// The whole configuration.
    Root,
    /// The value of `trace`.
    Trace,
    /// `environment`: a map of whole numbers and texts.
    Environment,
    /// The value of `type` in `trace`.
    TraceType,
    /// `$features` of the trace type.
    TraceFeatures,
    /// `$field-type-aliases`: a map of field types.
    FieldTypeAliases,
    /// `$log-level-aliases`: a map of numbers.
    LogLevelAliases,
    /// `clock-types`: a map of clock types.
    ClockTypes,
    ClockType,
    /// `offset` of a clock type.
    ClockOffset,
    /// `data-stream-types`: a map of data stream types.
    StreamTypes,
    StreamType,
    /// `$features` of a data stream type.
    StreamFeatures,
    /// `packet` in the features of a data stream type.
    PacketFeatures,
    /// `event-record` in the features of a data stream type.
    EventRecordFeatures,
    /// `event-record-types`: a map of event record types.
    EventTypes,
    EventType,
    /// The extra members of a packet context: a list of entries.
    ExtraMembers,
    /// A members list.
    Members,
    /// An entry of a members list: an object of one property, the member's name.
    Entry,
    /// A member's value.
    Member,
    /// A field type of any class.
    FieldType,
    /// A payload or a context, which is a structure.
    StructureType,
    /// A member's field type, which is no structure.
    MemberType,
    /// An element's field type, which is neither a structure nor a dynamic array.
    ElementType,
    /// The field type of a dynamic array's element: neither a structure nor a dynamic array, and with bits.
    DynamicElementType,
    /// A feature: on, off, or an unsigned integer.
    Feature,
    /// A feature that cannot be off.
    SizeFeature,
    /// The magic number, an unsigned integer of 32 bits.
    MagicFeature,
    /// The trace's identifier, a static array of 16 bytes.
    IdentifierFeature,
    UnsignedInteger,
    SignedInteger,
    UnsignedEnumeration,
    SignedEnumeration,
    /// A string field type.
    Str,
    StaticArray,
    DynamicArray,
    Structure,
    /// `mappings` of an enumeration: a map of lists of ranges.
    Mappings,
    /// The ranges of a label.
    Ranges,
    /// A number, or a list of the lowest and the highest.
    Range,
    /// A value that holds no others.
    Scalar,
    /// A value that may be anything.
    Ignored,
}
