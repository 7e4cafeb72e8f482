//! Structures and their members.

pub const PAYLOADS: &str = r#"
{"class":"struct","members":[{"v":{"field-type":U8}}]} -> accepted
{"class":"structure","members":[{"v":{"field-type":U8}}],"minimum-alignment":8} -> accepted
{"class":"struct","members":[{"v":{"field-type":U8}}],"minimum-alignment":4096} -> accepted
{"class":"struct","members":[{"v":{"field-type":U8}}],"minimum-alignment":8192} -> @/minimum-alignment: Limit
{"class":"struct","members":[{"v":{"field-type":U8}}],"minimum-alignment":3} -> @/minimum-alignment: OutOfRange
{"class":"struct","members":[{"v":{"field-type":U8}}],"minimum-alignment":"8"} -> @/minimum-alignment: WrongKind
{"class":"struct","members":[{"v":{"field-type":U8}}],"minimum-alignment":null} -> accepted
{"class":"struct","members":[{"v":{"field-type":U8}}],"size":8} -> @/size: Unknown
{"members":[{"v":{"field-type":U8}}]} -> @/class: Missing
{"class":"struct","members":5} -> @/members: WrongKind
{"class":"struct","members":[5]} -> @/members/0: WrongKind
{"class":"struct","members":[{}]} -> @/members/0: WrongKind
{"class":"struct","members":[{"a":{"field-type":U8},"b":{"field-type":U8}}]} -> @/members/0: WrongKind
{"class":"struct","members":[{"v":5}]} -> @/members/0/v: WrongKind
{"class":"struct","members":[{"v":null}]} -> @/members/0/v: WrongKind
{"class":"struct","members":[{"v":{}}]} -> @/members/0/v/field-type: Missing
{"class":"struct","members":[{"v":{"field-type":U8,"y":1}}]} -> @/members/0/v/y: Unknown
{"class":"struct","members":[{"v":"nope"}]} -> @/members/0/v: NoSuchAlias
{"class":"struct","members":[{"9a":{"field-type":U8}}]} -> @/members/0/9a: BadName
{"class":"struct","members":[{"event":{"field-type":U8}}]} -> @/members/0/event: ReservedName
{"class":"struct","members":[{"_Bool":{"field-type":U8}}]} -> @/members/0/_Bool: ReservedName
{"class":"struct","members":[{"x":{"field-type":U8}},{"x":{"field-type":U8}}]} -> @/members/1/x: NameClash
{"class":"struct","members":[{"x":{"field-type":{"class":"dynamic-array","element-field-type":U8}}},{"__x_len":{"field-type":U8}}]} -> @/members/1/__x_len: NameClash
{"class":"struct","members":[{"x":{"field-type":{"class":"dynamic-array","element-field-type":U8}}},{"__y_len":{"field-type":U8}}]} -> accepted
null -> <event>: ZeroSizeRecord
{"class":"struct"} -> <event>: ZeroSizeRecord
{"class":"struct","members":null} -> <event>: ZeroSizeRecord
{"class":"struct","members":[{"z":{"field-type":{"class":"static-array","length":0,"element-field-type":U8}}}]} -> <event>: ZeroSizeRecord
{"class":"struct","members":[{"z":{"field-type":{"class":"dynamic-array","element-field-type":U8}}}]} -> accepted
U8 -> @: WrongKind
5 -> @: WrongKind
{"class":"str"} -> @: WrongKind
{"class":"uint"} -> @: WrongKind
{"class":"enum"} -> @/class: OutOfRange
# of another class than a structure's: behind faults of the class itself, before those of its properties
{"class":null,"size":8} -> @/class: WrongKind
{"size":8} -> @/class: Missing
{"class":"uint","size":65,"x":1} -> @: WrongKind
{"class":"struct","members":[{"v":{"field-type":U8}}],"minimum-alignment":1} -> accepted
{"class":"struct","members":[{"v":{"field-type":U8}}],"minimum-alignment":0} -> @/minimum-alignment: OutOfRange
{"class":"struct","members":[null]} -> @/members/0: WrongKind
{"class":"struct","members":["v"]} -> @/members/0: WrongKind
{"class":"struct","members":{"v":{"field-type":U8}}} -> @/members: WrongKind
{"class":"struct","members":[{"v":[]}]} -> @/members/0/v: WrongKind
{"class":"struct","members":[{"v":{"field-type":null}}]} -> @/members/0/v/field-type: WrongKind
{"class":"struct","members":[{"v":{"field-type":5}}]} -> @/members/0/v/field-type: WrongKind
{"class":"struct","members":[{"v":{"field-type":"nope"}}]} -> @/members/0/v/field-type: NoSuchAlias
{"class":"struct","members":[{"v":U8}]} -> @/members/0/v/field-type: Missing
{"class":"struct","members":[{"9a":5}]} -> @/members/0/9a: WrongKind
{"class":"struct","members":[{"9a":{}}]} -> @/members/0/9a: BadName
{"class":"struct","members":[{"event":{}}]} -> @/members/0/event: ReservedName
{"class":"struct","members":[{"a-b":{"field-type":U8}}]} -> @/members/0/a-b: BadName
{"class":"struct","members":[{"_":{"field-type":U8}},{"A9_z":{"field-type":U8}}]} -> accepted
{"class":"struct","members":[{"é":{"field-type":U8}}]} -> @/members/0/é: BadName
{"class":"struct","members":[{"x":{"field-type":{"class":"dynamic-array","element-field-type":U8}}},{"__x_len":{}}]} -> @/members/1/__x_len: NameClash
{"class":"struct","members":[{"__x_len":{"field-type":U8}},{"x":{"field-type":{"class":"dynamic-array","element-field-type":U8}}}]} -> @/members/1/x: NameClash
{"class":"struct","members":[{"x":{"field-type":{"class":"static-array","length":2,"element-field-type":U8}}},{"__x_len":{"field-type":U8}}]} -> accepted
{"class":"struct","members":[{"x":{"field-type":U8}},{"v":5}]} -> @/members/1/v: WrongKind
{"class":"struct","members":[{"a":{"field-type":{"class":"uint","size":65}}},{"9b":{"field-type":U8}}]} -> @/members/0/a/field-type/size: OutOfRange
{"class":"struct","members":[{"a":{"field-type":{"class":"uint","size":65}}},{"a":{"field-type":U8}}]} -> @/members/1/a: NameClash
{"class":"struct","members":[{"a":{"field-type":{"class":"struct","members":[]}}}]} -> @/members/0/a/field-type: WrongKind
{"class":"dynamic-array","element-field-type":U8} -> @: WrongKind
{"class":"struct","members":[{"z":{"field-type":{"class":"static-array","length":2,"element-field-type":{"class":"static-array","length":0,"element-field-type":U8}}}}]} -> <event>: ZeroSizeRecord
{"class":"struct","members":[{"z":{"field-type":{"class":"static-array","length":0,"element-field-type":U8}}},{"s":{"field-type":{"class":"str"}}}]} -> accepted
{"class":"struct","members":[{"z":{"field-type":{"class":"uenum","size":1,"mappings":{"A":[1]}}}}]} -> accepted
"#;
