//! Event record types.

pub const EVENTS: &str = r#"
{"payload-field-type":BYTE,"log-level":4} -> accepted
{"payload-field-type":BYTE,"log-level":null} -> accepted
{"payload-field-type":BYTE,"log-level":9223372036854775807} -> accepted
{"payload-field-type":BYTE,"log-level":9223372036854775808} -> @/log-level: OutOfRange
{"payload-field-type":BYTE,"log-level":-1} -> @/log-level: OutOfRange
{"payload-field-type":BYTE,"log-level":"LOUD"} -> @/log-level: NoSuchAlias
{"payload-field-type":BYTE,"log-level":true} -> @/log-level: WrongKind
{"specific-context-field-type":BYTE} -> accepted
{"specific-context-field-type":U8} -> @/specific-context-field-type: WrongKind
{"specific-context-field-type":null,"payload-field-type":BYTE} -> accepted
{"payload-field-type":U8} -> @/payload-field-type: WrongKind
{"payload-field-type":BYTE,"x":1} -> @/x: Unknown
{"x":1} -> @/x: Unknown
null -> @: WrongKind
[] -> @: WrongKind
{} -> @: ZeroSizeRecord
{"log-level":-1,"payload-field-type":5} -> @/log-level: OutOfRange
{"payload-field-type":5,"specific-context-field-type":5} -> @/payload-field-type: WrongKind
{"payload-field-type":BYTE,"log-level":0} -> accepted
{"payload-field-type":BYTE,"log-level":[]} -> @/log-level: WrongKind
{"payload-field-type":BYTE,"log-level":1.5} -> @/log-level: NotWhole
{"payload-field-type":null,"specific-context-field-type":BYTE} -> accepted
{"payload-field-type":{"class":"struct"},"specific-context-field-type":BYTE} -> accepted
{"specific-context-field-type":5} -> @/specific-context-field-type: WrongKind
{"specific-context-field-type":"nope"} -> @/specific-context-field-type: NoSuchAlias
{"specific-context-field-type":{"class":"struct"}} -> @: ZeroSizeRecord
{"payload-field-type":"nope"} -> @/payload-field-type: NoSuchAlias
{"payload-field-type":true} -> @/payload-field-type: WrongKind
5 -> @: WrongKind
"#;
