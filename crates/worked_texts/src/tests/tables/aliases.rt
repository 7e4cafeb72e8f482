//! Aliases of field types and of log levels.

pub const LOG_LEVELS: &str = r#"
{"LOUD":-1} -> @/LOUD: OutOfRange
{"LOUD":"x"} -> @/LOUD: WrongKind
{"9":1} -> @/9: BadName
{"LOUD":0,"LOUDER":9223372036854775807} -> accepted
{"LOUD":9223372036854775808} -> @/LOUD: OutOfRange
{"LOUD":null} -> @/LOUD: WrongKind
{"LOUD":true} -> @/LOUD: WrongKind
{"LOUD":1.5} -> @/LOUD: NotWhole
{"my-level":1} -> @/my-level: BadName
{"event":1} -> accepted
{} -> accepted
"#;

pub const FIELD_TYPES: &str = r#"
{"u8":5} -> @/u8: WrongKind
{"my-alias":U8} -> @/my-alias: BadName
{"odd":{"class":"nothing"}} -> accepted
{} -> accepted
{"u8":null} -> @/u8: WrongKind
{"u8":true} -> @/u8: WrongKind
{"u8":[]} -> @/u8: WrongKind
{"a":"b","b":U8} -> accepted
{"a":"nope"} -> @/a: NoSuchAlias
{"event":U8} -> accepted
{"X":{"$inherit":"nope"}} -> @/X/$inherit: NoSuchAlias
{"P":{"$inherit":"Q"},"Q":{"$inherit":"P"}} -> @/P: InheritCycle
{"P":"P"} -> @/P: InheritCycle
{"P":{"element-field-type":"P"}} -> @/P: InheritCycle
{"Q":{"$inherit":"Q"},"P":U8} -> @/Q: InheritCycle
{"A":{"class":"static-array","length":1,"element-field-type":"Q"},"B":{"$inherit":"A","element-field-type":"C"},"C":U8,"Q":{"$inherit":"Q"}} -> @/A: InheritCycle
{"A":{"$inherit":"B","element-field-type":"C"},"B":{"class":"static-array","length":1,"element-field-type":"Q"},"C":U8,"Q":{"$inherit":"Q"}} -> @/A: InheritCycle
{"A":{"class":"struct","members":[{"x":"Q"},{"y":"nope"}]},"Q":"Q"} -> @/A: InheritCycle
{"A":{"element-field-type":"nope"},"B":"B"} -> @/A/element-field-type: NoSuchAlias
{"A":"A","B":{"element-field-type":"nope"}} -> @/A: InheritCycle
{"A":{"members":5}} -> @/A/members: WrongKind
{"A":{"members":[{"x":U8},{"x":U8}]}} -> @/A/members/1/x: NameClash
{"A":{"class":"nothing","x":"nope","members":[{"9a":{}}]}} -> accepted
{"A":{"$inherit":5},"B":{"$inherit":true},"C":{"$inherit":[]},"D":{"$inherit":null}} -> accepted
{"A0":U8,"A1":{"class":"struct","members":[{"a":"A0"},{"b":"A0"},{"c":"A0"},{"d":"A0"}]},"A2":{"class":"struct","members":[{"a":"A1"},{"b":"A1"},{"c":"A1"},{"d":"A1"}]},"A3":{"class":"struct","members":[{"a":"A2"},{"b":"A2"},{"c":"A2"},{"d":"A2"}]},"A4":{"class":"struct","members":[{"a":"A3"},{"b":"A3"},{"c":"A3"},{"d":"A3"}]}} -> accepted
{"A0":U8,"A1":{"class":"struct","members":[{"a":"A0"},{"b":"A0"},{"c":"A0"},{"d":"A0"}]},"A2":{"class":"struct","members":[{"a":"A1"},{"b":"A1"},{"c":"A1"},{"d":"A1"}]},"A3":{"class":"struct","members":[{"a":"A2"},{"b":"A2"},{"c":"A2"},{"d":"A2"}]},"A4":{"class":"struct","members":[{"a":"A3"},{"b":"A3"},{"c":"A3"},{"d":"A3"}]},"A5":{"class":"struct","members":[{"a":"A4"},{"b":"A4"},{"c":"A4"},{"d":"A4"}]}} -> @/A5: Limit
"#;
