//! Strings and arrays as fields, and arrays of no element in a payload.

pub const FIELDS: &str = r#"
{"class":"str"} -> accepted
{"class":"string"} -> accepted
{"class":"str","size":8} -> @/size: Unknown
{"class":"static-array","length":3,"element-field-type":U8} -> accepted
{"class":"static-array","length":1048576,"element-field-type":U8} -> accepted
{"class":"static-array","length":1048577,"element-field-type":U8} -> @/length: OutOfRange
{"class":"static-array","length":-1,"element-field-type":U8} -> @/length: OutOfRange
{"class":"static-array","element-field-type":U8} -> @/length: Missing
{"class":"static-array","length":3} -> @/element-field-type: Missing
{"class":"static-array","length":3,"element-field-type":U8,"size":1} -> @/size: Unknown
{"class":"static-array","length":1024,"element-field-type":{"class":"static-array","length":1024,"element-field-type":U8}} -> accepted
{"class":"static-array","length":1024,"element-field-type":{"class":"static-array","length":1025,"element-field-type":U8}} -> @: Limit
# 17 times 61,681 is 2^20 and one more
{"class":"static-array","length":17,"element-field-type":{"class":"static-array","length":61681,"element-field-type":U8}} -> @: Limit
{"class":"static-array","length":61681,"element-field-type":{"class":"static-array","length":17,"element-field-type":U8}} -> @: Limit
{"class":"dynamic-array","element-field-type":{"class":"static-array","length":17,"element-field-type":{"class":"static-array","length":61681,"element-field-type":U8}}} -> @/element-field-type: Limit
{"class":"static-array","length":3,"element-field-type":{"class":"struct"}} -> @/element-field-type: WrongKind
{"class":"static-array","length":3,"element-field-type":{"class":"dynamic-array","element-field-type":U8}} -> @/element-field-type: WrongKind
{"class":"static-array","length":3,"element-field-type":{"class":"uint","size":65}} -> @/element-field-type/size: OutOfRange
{"class":"dynamic-array","element-field-type":U8} -> accepted
{"class":"dynamic-array"} -> @/element-field-type: Missing
{"class":"dynamic-array","element-field-type":U8,"length":3} -> @/length: Unknown
{"class":"dynamic-array","element-field-type":{"class":"dynamic-array","element-field-type":U8}} -> @/element-field-type: WrongKind
{"class":"dynamic-array","element-field-type":{"class":"struct"}} -> @/element-field-type: WrongKind
{"class":"dynamic-array","element-field-type":{"class":"static-array","length":0,"element-field-type":U8}} -> @/element-field-type: OutOfRange
{"class":"dynamic-array","element-field-type":{"class":"static-array","length":2,"element-field-type":U8}} -> accepted
{"class":"struct"} -> @: WrongKind
{"class":"structure","members":[]} -> @: WrongKind
# a structure where only a field stands: before the faults of its properties
{"class":"struct","minimum-alignment":3,"x":1} -> @: WrongKind
{"class":"dynamic-array","element-field-type":{"class":"struct","x":1}} -> @/element-field-type: WrongKind
# a members list of another form, whatever the class
{"class":"str","members":5} -> @/members: WrongKind
{"class":"static-array","length":null,"element-field-type":U8} -> @/length: WrongKind
{"class":"static-array","length":"3","element-field-type":U8} -> @/length: WrongKind
{"class":"static-array","length":3,"element-field-type":null} -> @/element-field-type: WrongKind
{"class":"static-array","length":3,"element-field-type":5} -> @/element-field-type: WrongKind
{"class":"static-array","length":3,"element-field-type":"nope"} -> @/element-field-type: NoSuchAlias
{"class":"static-array","length":3,"element-field-type":{"class":"str"}} -> accepted
{"class":"static-array","length":3,"element-field-type":{"class":"senum","size":8,"mappings":{"A":[-1]}}} -> accepted
{"class":"static-array","length":-1,"element-field-type":{"class":"uint","size":65}} -> @/element-field-type/size: OutOfRange
{"class":"dynamic-array","element-field-type":null} -> @/element-field-type: WrongKind
{"class":"dynamic-array","element-field-type":"nope"} -> @/element-field-type: NoSuchAlias
{"class":"dynamic-array","element-field-type":{"class":"str"}} -> accepted
{"class":"dynamic-array","element-field-type":{"class":"static-array","length":2,"element-field-type":{"class":"static-array","length":0,"element-field-type":U8}}} -> @/element-field-type: OutOfRange
{"class":"dynamic-array","element-field-type":{"class":"uint","size":65}} -> @/element-field-type/size: OutOfRange
{"class":"str","members":[]} -> @/members: Unknown
{"class":"static-array","length":1048576,"element-field-type":{"class":"static-array","length":2,"element-field-type":U8}} -> @: Limit
{"class":"dynamic-array","element-field-type":{"class":"static-array","length":1048576,"element-field-type":U8}} -> accepted
{"class":"dynamic-array","element-field-type":{"class":"static-array","length":1024,"element-field-type":{"class":"static-array","length":1024,"element-field-type":U8}}} -> accepted
{"class":"dynamic-array","element-field-type":{"class":"static-array","length":1024,"element-field-type":{"class":"static-array","length":1025,"element-field-type":U8}}} -> @/element-field-type: Limit
{"class":"dynamic-array","element-field-type":{"class":"uint","size":8,"alignment":8192}} -> @/element-field-type/alignment: Limit
{"class":"static-array","length":3,"element-field-type":{"class":"uint","size":8,"alignment":8192}} -> @/element-field-type/alignment: Limit
"#;

pub const PAYLOADS: &str = r#"
{"class":"struct","members":[{"v":{"field-type":{"class":"static-array","length":0,"element-field-type":U8}}},{"w":{"field-type":U8}}]} -> accepted
{"class":"struct","members":[{"v":{"field-type":{"class":"static-array","length":0,"element-field-type":{"class":"static-array","length":1048576,"element-field-type":U8}}}},{"w":{"field-type":U8}}]} -> accepted
{"class":"struct","members":[{"v":{"field-type":{"class":"static-array","length":0,"element-field-type":{"class":"static-array","length":1048576,"element-field-type":{"class":"static-array","length":2,"element-field-type":U8}}}}},{"w":{"field-type":U8}}]} -> @/members/0/v/field-type: Limit
{"class":"struct","members":[{"v":{"field-type":{"class":"static-array","length":1048576,"element-field-type":{"class":"static-array","length":0,"element-field-type":U8}}}},{"w":{"field-type":U8}}]} -> accepted
{"class":"struct","members":[{"v":{"field-type":{"class":"static-array","length":1048576,"element-field-type":{"class":"static-array","length":0,"element-field-type":{"class":"static-array","length":2,"element-field-type":U8}}}}},{"w":{"field-type":U8}}]} -> @/members/0/v/field-type: Limit
{"class":"struct","members":[{"v":{"field-type":{"class":"static-array","length":1048577,"element-field-type":{"class":"static-array","length":0,"element-field-type":U8}}}},{"w":{"field-type":U8}}]} -> @/members/0/v/field-type/length: OutOfRange
"#;
