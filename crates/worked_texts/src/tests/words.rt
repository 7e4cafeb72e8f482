//! The words of the tables.

use std::alloc::{AllocError, Global};

/// A word, and what it stands for: a text, a second one for each number from the first up to the other, and a last one.
/// In the second `#` is the number and `@` the next one.
type Word = (
    &'static str,
    &'static str,
    (u32, u32),
    &'static str,
    &'static str,
);

/// The words. None stands in what another one stands for.
static WORDS: &[Word] = &[
    // aliases
    (
        "<900 heavy aliases>",
        r#""a0":{"class":"uint","size":8}"#,
        (0, 899),
        r#","a@":{"class":"struct","members":[{"a":"a#"},{"b":"a#"},{"c":"a#"},{"d":"a#"}]}"#,
        "",
    ),
    ("<big>", r#""big":{"list":[0"#, (1, 3998), ",0", "]}"),
    ("<4,096 values>", r#""a":{"list":[0"#, (1, 4094), ",0", "]}"),
    ("<4,097 values>", r#""a":{"list":[0"#, (1, 4095), ",0", "]}"),
    (
        "<deep>",
        r#""deep":{"list":"#,
        (0, 25),
        "[",
        "1]]]]]]]]]]]]]]]]]]]]]]]]]}",
    ),
    (
        "<1,025 names of no alias>",
        r#""a0":"nope""#,
        (1, 1025),
        r#","a#":"nope""#,
        "",
    ),
    (
        "<a chain of 1,024 aliases>",
        "",
        (1, 1024),
        r#""a#":"a@","#,
        r#""a1024":{"class":"uint","size":8}"#,
    ),
    (
        "<a chain of 1,100 aliases>",
        "",
        (1, 1100),
        r#""a#":"a@","#,
        r#""a1100":{"class":"uint","size":8}"#,
    ),
    (
        "<a chain of 1,100 aliases from its end>",
        r#""a0":{"class":"uint","size":8}"#,
        (0, 1100),
        r#","a@":"a#""#,
        "",
    ),
    (
        "<a circle of 1,100 aliases>",
        "",
        (0, 1100),
        r#""a#":"a@","#,
        r#""a1100":"a0""#,
    ),
    (
        "<a chain that grows>",
        r#""g0":{"list":[0,0,0,0,0,0,0,0,0,0,0,0,0,0,0,0,0,0,0,0,0,0,0,0,0,0,0,0,0,0,0,0,0,0,0,0,0,0,0,0,0,0,0,0,0,0,0,0,0,0,0,0,0,0,0,0,0,0,0,0,0,0,0,0,0,0,0,0,0,0,0,0,0,0,0,0,0,0,0,0,0,0,0,0,0,0,0,0,0,0,0,0,0,0,0,0,0,0,0,0]}"#,
        (0, 99),
        r#","g@":{"$inherit":"g#","list":[0,0,0,0,0,0,0,0,0,0,0,0,0,0,0,0,0,0,0,0,0,0,0,0,0,0,0,0,0,0,0,0,0,0,0,0,0,0,0,0,0,0,0,0,0,0,0,0,0,0,0,0,0,0,0,0,0,0,0,0,0,0,0,0,0,0,0,0,0,0,0,0,0,0,0,0,0,0,0,0,0,0,0,0,0,0,0,0,0,0,0,0,0,0,0,0,0,0,0,0]}"#,
        "",
    ),
    (
        "<a chain that grows from its end>",
        "",
        (0, 99),
        r#""h#":{"$inherit":"h@","list":[0,0,0,0,0,0,0,0,0,0,0,0,0,0,0,0,0,0,0,0,0,0,0,0,0,0,0,0,0,0,0,0,0,0,0,0,0,0,0,0,0,0,0,0,0,0,0,0,0,0,0,0,0,0,0,0,0,0,0,0,0,0,0,0,0,0,0,0,0,0,0,0,0,0,0,0,0,0,0,0,0,0,0,0,0,0,0,0,0,0,0,0,0,0,0,0,0,0,0,0]},"#,
        r#""h99":{"list":[0,0,0,0,0,0,0,0,0,0,0,0,0,0,0,0,0,0,0,0,0,0,0,0,0,0,0,0,0,0,0,0,0,0,0,0,0,0,0,0,0,0,0,0,0,0,0,0,0,0,0,0,0,0,0,0,0,0,0,0,0,0,0,0,0,0,0,0,0,0,0,0,0,0,0,0,0,0,0,0,0,0,0,0,0,0,0,0,0,0,0,0,0,0,0,0,0,0,0,0]}"#,
    ),
    // types and their members
    (
        "<17 heavy layers, each replaced>",
        r#"{"members":[{"m0":{"field-type":{"$inherit":"big","list":null}}"#,
        (1, 17),
        r#"},{"m#":{"field-type":{"$inherit":"big","list":null}}"#,
        "}]}",
    ),
    (
        "<4,000 heirs>",
        r#"{"members":[{"m0":{"$inherit":"big"}"#,
        (1, 4000),
        r#"},{"m#":{"$inherit":"big"}"#,
        "}]}",
    ),
    (
        "<300 long chains>",
        r#"{"members":[{"m0":{"field-type":{"$inherit":{"$inherit":{"$inherit":{"$inherit":{"$inherit":{"$inherit":{"$inherit":{"$inherit":{"$inherit":{"$inherit":{"$inherit":{"$inherit":{"$inherit":{"$inherit":{"$inherit":{"$inherit":{"$inherit":{"$inherit":{"$inherit":{"$inherit":"big"}}}}}}}}}}}}}}}}}}},"list":null}}"#,
        (1, 300),
        r#"},{"m#":{"field-type":{"$inherit":{"$inherit":{"$inherit":{"$inherit":{"$inherit":{"$inherit":{"$inherit":{"$inherit":{"$inherit":{"$inherit":{"$inherit":{"$inherit":{"$inherit":{"$inherit":{"$inherit":{"$inherit":{"$inherit":{"$inherit":{"$inherit":{"$inherit":"big"}}}}}}}}}}}}}}}}}}},"list":null}}"#,
        "}]}",
    ),
    (
        "<256 members>",
        r#"{"m0":{}"#,
        (1, 256),
        r#"},{"m#":{}"#,
        "}",
    ),
    (
        "<257 members>",
        r#"{"m0":{}"#,
        (1, 257),
        r#"},{"m#":{}"#,
        "}",
    ),
    // as many as a limit allows
    ("<256 numbers>", r#""n0":1"#, (1, 256), r#","n#":1"#, ""),
    ("<1,024 numbers>", r#""n0":1"#, (1, 1024), r#","n#":1"#, ""),
    ("<64 objects>", r#""n0":{}"#, (1, 64), r#","n#":{}"#, ""),
    (
        "<1,023 objects>",
        r#""n0":{}"#,
        (1, 1023),
        r#","n#":{}"#,
        "",
    ),
    (
        "<1,024 objects>",
        r#""n0":{}"#,
        (1, 1024),
        r#","n#":{}"#,
        "",
    ),
    (
        "<256 texts>",
        r#"{"n0":{"field-type":{"class":"str"}}}"#,
        (1, 256),
        r#",{"n#":{"field-type":{"class":"str"}}}"#,
        "",
    ),
    (
        "<256 lists>",
        r#"{"n0":{"field-type":{"class":"dynamic-array","element-field-type":{"class":"uint","size":8}}}}"#,
        (1, 256),
        r#",{"n#":{"field-type":{"class":"dynamic-array","element-field-type":{"class":"uint","size":8}}}}"#,
        "",
    ),
    (
        "<256 bytes>",
        r#"{"n0":{"field-type":{"class":"uint","size":8}}}"#,
        (1, 256),
        r#",{"n#":{"field-type":{"class":"uint","size":8}}}"#,
        "",
    ),
    (
        "<1,024 labels>",
        r#""n0":[0]"#,
        (1, 1024),
        r#","n#":[#]"#,
        "",
    ),
    ("<1,022 ranges>", "[0,0]", (1, 1022), ",[0,#]", ""),
    ("<1,024 values>", "0", (1, 1024), ",#", ""),
    ("<4,000 values>", "0", (1, 4000), ",#", ""),
    ("<4,093 values>", "0", (1, 4093), ",#", ""),
    ("<4,094 values>", "0", (1, 4094), ",#", ""),
    (
        "<10,000 bytes>",
        r#"{"m0":{"field-type":{"class":"uint","size":8}}}"#,
        (1, 10000),
        r#",{"m#":{"field-type":{"class":"uint","size":8}}}"#,
        "",
    ),
    (
        "<10,000 heirs>",
        r#"{"n0":"big"}"#,
        (1, 10000),
        r#",{"n#":"big"}"#,
        "",
    ),
    ("<255 letters>", "", (0, 255), "a", ""),
    ("<4,096 letters>", "", (0, 4096), "a", ""),
    (
        "<8 arrays>",
        "",
        (0, 8),
        r#"{"class":"static-array","length":2,"element-field-type":"#,
        "",
    ),
    ("<8 closed>", "", (0, 8), "}", ""),
    (
        "<24 elements>",
        "",
        (0, 24),
        r#"{"element-field-type":"#,
        "",
    ),
    ("<24 closed>", "", (0, 24), "}", ""),
    (
        "<27 elements>",
        "",
        (0, 27),
        r#"{"element-field-type":"#,
        "",
    ),
    ("<27 closed>", "", (0, 27), "}", ""),
    ("<31 brackets>", "", (0, 31), "[", ""),
    ("<31 closing brackets>", "", (0, 31), "]", ""),
    ("<128 brackets>", "", (0, 128), "[", ""),
    ("<128 closing brackets>", "", (0, 128), "]", ""),
    // members, variables and labels of metadata
    ("<1,024 strings>", "", (0, 1024), "string n#;", ""),
    ("<256 variables>", "", (0, 256), "n#=1;", ""),
    ("<65,536 labels>", "", (0, 65536), "n#=0,", ""),
    // field types, event record types, and what stands between aliases and a part
    (
        "FULL",
        r#"{"payload-field-type":{"class":"struct","members":[{"m":{"field-type":{"class":"uint","size":8}}}]}}"#,
        (0, 0),
        "",
        "",
    ),
    ("EMPTY", "{}", (0, 0), "", ""),
    (
        "BYTE",
        r#"{"class":"struct","members":[{"m":{"field-type":{"class":"uint","size":8}}}]}"#,
        (0, 0),
        "",
        "",
    ),
    (
        "ONE_BIT",
        r#"{"class":"uint","size":1,"alignment":1}"#,
        (0, 0),
        "",
        "",
    ),
    ("U8", r#"{"class":"uint","size":8}"#, (0, 0), "", ""),
    (
        " PAYLOAD ",
        r#"},"data-stream-types":{"s":{"event-record-types":{"e":{"payload-field-type":"#,
        (0, 0),
        "",
        "",
    ),
    (
        " EXTRAS ",
        r#"},"data-stream-types":{"s":{"packet-context-field-type-extra-members":["#,
        (0, 0),
        "",
        "",
    ),
    // places
    (
        "<aliases>",
        "trace/type/$field-type-aliases",
        (0, 0),
        "",
        "",
    ),
    (
        "<event>",
        "trace/type/data-stream-types/s/event-record-types/e",
        (0, 0),
        "",
        "",
    ),
    (
        "<payload>",
        "trace/type/data-stream-types/s/event-record-types/e/payload-field-type",
        (0, 0),
        "",
        "",
    ),
    (
        "<extras>",
        "trace/type/data-stream-types/s/packet-context-field-type-extra-members",
        (0, 0),
        "",
        "",
    ),
    // what is said of a fault of each kind
    (
        "NotJson",
        "not JSON: expected one JSON value in UTF-8",
        (0, 0),
        "",
        "",
    ),
    (
        "TooDeep",
        "nested too deep: expected at most 32 levels of objects and lists",
        (0, 0),
        "",
        "",
    ),
    (
        "WrongKind",
        "wrong kind of value: expected the kind that this place asks for",
        (0, 0),
        "",
        "",
    ),
    (
        "NotWhole",
        "not a whole number: expected one of 64 bits, without fraction or exponent",
        (0, 0),
        "",
        "",
    ),
    (
        "Missing",
        "property is missing: expected a value here",
        (0, 0),
        "",
        "",
    ),
    (
        "Unknown",
        "unknown property: expected only the ones that this object can have",
        (0, 0),
        "",
        "",
    ),
    (
        "NoSuchAlias",
        "no such alias: expected the name of an alias of this configuration",
        (0, 0),
        "",
        "",
    ),
    (
        "InheritCycle",
        "alias inherits from itself: expected a chain of aliases that ends",
        (0, 0),
        "",
        "",
    ),
    (
        "OutOfRange",
        "value out of range: expected one that this place allows",
        (0, 0),
        "",
        "",
    ),
    (
        "BadName",
        "bad name: expected a letter or `_`, then letters, digits or `_`, 255 bytes at most",
        (0, 0),
        "",
        "",
    ),
    (
        "ReservedName",
        "reserved word: expected a name that the metadata language does not use itself",
        (0, 0),
        "",
        "",
    ),
    (
        "NameClash",
        "name is taken: expected one that nothing else in this structure has",
        (0, 0),
        "",
        "",
    ),
    (
        "FieldTooSmall",
        "field is too small: expected room for the largest number that it must hold",
        (0, 0),
        "",
        "",
    ),
    (
        "ZeroSizeRecord",
        "event record without bits: expected an integer, an enumeration or a string in it",
        (0, 0),
        "",
        "",
    ),
    (
        "NoClock",
        "no clock: expected a default clock type that the trace type has",
        (0, 0),
        "",
        "",
    ),
    (
        "NoUuid",
        "no UUID: expected one for this trace",
        (0, 0),
        "",
        "",
    ),
    (
        "Limit",
        "past a limit of size: expected fewer or smaller parts",
        (0, 0),
        "",
        "",
    ),
    (
        "TwoOrders",
        "two byte orders: expected only one of `trace-byte-order` and `native-byte-order`",
        (0, 0),
        "",
        "",
    ),
    (
        "TimestampSize",
        "timestamp field of a wrong size: expected 64 bits, or in event records 8 to 64 where the packet has its beginning timestamp",
        (0, 0),
        "",
        "",
    ),
];

/// A text with what its words stand for in their place.
pub fn spelled(alloc: Global, row: &str) -> Result<String, AllocError> {
    let mut text = String::from_str(alloc, row)?;
    for (word, first, numbers, each, last) in WORDS {
        if row.contains(word) {
            let meaning = repeated(alloc, first, *numbers, each, last)?;
            text = text.replace(alloc, word, meaning.as_str())?;
        }
    }
    Ok(text)
}

fn repeated(
    alloc: Global,
    first: &str,
    (from, to): (u32, u32),
    each: &str,
    last: &str,
) -> Result<String, AllocError> {
    let mut text = String::from_str(alloc, first)?;
    let is_numbered = each.contains("#");
    for i in from..to {
        if is_numbered {
            let number = format!(in alloc; "{i}")?;
            let next = format!(in alloc; "{}", i + 1)?;
            let piece = each.replace(alloc, "#", number.as_str())?;
            text.push_str(piece.replace(alloc, "@", next.as_str())?.as_str())?;
        } else {
            text.push_str(each)?;
        }
    }
    text.push_str(last)?;
    Ok(text)
}
