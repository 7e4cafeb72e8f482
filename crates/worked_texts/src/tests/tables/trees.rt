//! Trees of JSON, and values that are looked up in them.

/// Texts, and the place that is refused and why, or `ok`.
pub const TREES: &str = r#"
[<31 brackets><31 closing brackets>] -> ok
[[<31 brackets><31 closing brackets>]] -> 0/0/0/0/0/0/0/0/0/0/0/0/0/0/0/0/0/0/0/0/0/0/0/0/0/0/0/0/0/0/0/0: TooDeep
<128 brackets><128 closing brackets> -> NotJson
{"trace":1e3} -> trace: NotWhole
{"trace":18446744073709551616} -> trace: NotWhole
{"trace":18446744073709551615} -> ok
{"trace":-0} -> trace: NotWhole
[-9223372036854775809] -> 0: NotWhole
{"b":0.5,"a":[7,{"c":1.5}]} -> a/1/c: NotWhole
0.5 -> NotWhole
1e999 -> NotJson
{ -> NotJson
"#;

/// The property `a`, from 0 to 9.
pub const DIGITS: &str = r#"
{"a":1,"a":2} -> 2
{"a":9,"b":8} -> 9
{"a":10} -> a: OutOfRange
{"a":null} -> a: WrongKind
{"b":1} -> a: Missing
[1] -> WrongKind
7 -> WrongKind
"#;

/// The property `a`, from -2^63 to 2^64 - 1, or -1 where it is not there.
pub const NUMBERS: &str = r#"
{} -> -1
{"a":null} -> -1
{"a":18446744073709551615} -> 18446744073709551615
{"a":-9223372036854775808} -> -9223372036854775808
{"a":"1"} -> a: WrongKind
"#;

/// The first item, a flag: 1 where it is true.
pub const FLAGS: &str = r#"
[true,1] -> 1
[1] -> 0: WrongKind
{} -> WrongKind
"#;

/// The number of bytes of a text.
pub const TEXTS: &str = r#"
"four" -> 4
4 -> WrongKind
"#;
