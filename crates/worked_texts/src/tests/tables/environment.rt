//! Environments of traces.

pub const ENVIRONMENTS: &str = r#"
null -> accepted
{"a":1,"b":"x","c":-9223372036854775808,"d":9223372036854775807} -> accepted
{"a":9223372036854775808} -> @/a: OutOfRange
{"a":-9223372036854775809} -> @/a: NotWhole
{"a":true} -> @/a: WrongKind
{"a":null} -> @/a: WrongKind
{"a":["x"]} -> @/a: WrongKind
{"a":"b\u0000c"} -> @/a: OutOfRange
{"9":1} -> @/9: BadName
{"env":1} -> @/env: ReservedName
{"9":9223372036854775808} -> @/9: OutOfRange
{"env":true} -> @/env: WrongKind
5 -> @: WrongKind
[] -> @: WrongKind
{} -> accepted
{"a":"b\n\tc","d":" \u007f é","e":""} -> accepted
{"a":"\u001f"} -> @/a: OutOfRange
{"a":1.5} -> @/a: NotWhole
{"a":{}} -> @/a: WrongKind
{"a-b":1} -> @/a-b: BadName
{"é":1} -> @/é: BadName
{"b":true,"9":1} -> @/9: BadName
{"a":-9223372036854775808} -> accepted
"#;
