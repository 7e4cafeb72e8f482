//! The properties of field types, by class (barectf 3.1, "Field type objects").

use crate::Content::{self, At, Class, PowerOfTwo, Whole, Word};
use crate::Place::{self, *};
use crate::Presence::{ByteAlignment, Decimal, Needed, Number, Optional, UntilResolved};
use crate::{Row, Words};
use ctf_types::{LARGEST_ALIGN, MAX_ELEMENTS};

/// An alignment in bits.
const ALIGN: Content = PowerOfTwo {
    high: LARGEST_ALIGN,
};

const CLASS: Row = ("class", Needed, Class);

const INHERIT: Row = ("$inherit", UntilResolved, At(FieldType));

const MAPPINGS: Row = ("mappings", Needed, At(Mappings));

const SIZE: Row = ("size", Needed, Whole { low: 1, high: 64 });

const ALIGNMENT: Row = ("alignment", ByteAlignment, ALIGN);

const BASE: Row = ("preferred-display-base", Decimal, Word(Words::DisplayBase));

/// A field type whose class is not known.
pub(crate) static FIELD_TYPE: [Row; 2] = [CLASS, INHERIT];

pub(crate) static INTEGER: [Row; 5] = [CLASS, INHERIT, SIZE, ALIGNMENT, BASE];

pub(crate) static ENUMERATION: [Row; 6] = [CLASS, INHERIT, MAPPINGS, SIZE, ALIGNMENT, BASE];

pub(crate) static STR: [Row; 2] = [CLASS, INHERIT];

pub(crate) static STATIC_ARRAY: [Row; 4] = [
    CLASS,
    INHERIT,
    ("element-field-type", Needed, At(ElementType)),
    (
        "length",
        Needed,
        Whole {
            low: 0,
            high: MAX_ELEMENTS as i128,
        },
    ),
];

pub(crate) static DYNAMIC_ARRAY: [Row; 3] = [
    CLASS,
    INHERIT,
    ("element-field-type", Needed, At(DynamicElementType)),
];

pub(crate) static STRUCTURE: [Row; 4] = [
    CLASS,
    INHERIT,
    ("members", Optional, At(Members)),
    ("minimum-alignment", Number(1), ALIGN),
];

/// What an entry of a members list says of its member.
pub(crate) static MEMBER: [Row; 2] = [INHERIT, ("field-type", Needed, At(MemberType))];

/// The words of classes, and the place that is a field type of the class.
pub(crate) static CLASSES: [(&str, Place); 18] = [
    ("unsigned-integer", Place::UnsignedInteger),
    ("unsigned-int", Place::UnsignedInteger),
    ("uint", Place::UnsignedInteger),
    ("signed-integer", Place::SignedInteger),
    ("signed-int", Place::SignedInteger),
    ("sint", Place::SignedInteger),
    ("unsigned-enumeration", Place::UnsignedEnumeration),
    ("unsigned-enum", Place::UnsignedEnumeration),
    ("uenum", Place::UnsignedEnumeration),
    ("signed-enumeration", Place::SignedEnumeration),
    ("signed-enum", Place::SignedEnumeration),
    ("senum", Place::SignedEnumeration),
    ("string", Place::Str),
    ("str", Place::Str),
    ("static-array", Place::StaticArray),
    ("dynamic-array", Place::DynamicArray),
    ("structure", Place::Structure),
    ("struct", Place::Structure),
];
