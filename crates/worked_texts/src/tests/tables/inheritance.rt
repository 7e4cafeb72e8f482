//! Field types that inherit from others.

pub const FIELDS: &str = r#"
{"$inherit":5,"class":"uint","size":8} -> accepted
{"$inherit":true,"class":"uint","size":8} -> accepted
{"$inherit":[],"class":"uint","size":8} -> accepted
{"$inherit":null,"class":"uint","size":8} -> accepted
{"$inherit":5,"class":"uint","size":65} -> @/size: OutOfRange
{"$inherit":5,"class":"uint"} -> @/size: Missing
{"$inherit":{"class":"uint","size":65},"size":8} -> accepted
{"$inherit":{"class":"uint","size":8},"size":65} -> @/size: OutOfRange
{"$inherit":{"class":"uint","size":8},"extra":1} -> @/extra: Unknown
{"$inherit":{"class":"uint","size":8,"extra":1}} -> @/extra: Unknown
{"$inherit":{"class":"uint","size":8,"alignment":3},"alignment":null} -> accepted
{"$inherit":{"class":"uint","size":8},"size":null} -> @/size: WrongKind
{"$inherit":{"$inherit":{"class":"uint"},"size":65},"size":8} -> accepted
{"$inherit":{"class":"static-array","length":2,"element-field-type":{"class":"uint","size":65}},"element-field-type":{"size":8}} -> accepted
{"$inherit":{"class":"static-array","length":2,"element-field-type":{"class":"uint","size":8}},"element-field-type":{"size":65}} -> @/element-field-type/size: OutOfRange
{"$inherit":{"class":"static-array","length":2,"element-field-type":{"class":"uint","size":8}},"element-field-type":{"$inherit":{"class":"uint"}}} -> @/element-field-type/size: Missing
{"$inherit":{"class":"uenum","size":8,"mappings":{"members":[1],"$inherit":[2],"field-type":[3],"element-field-type":[4]}},"mappings":{"members":[5],"$inherit":[6],"field-type":[7],"element-field-type":[8]}} -> accepted
{"$inherit":{"class":"uenum","size":8,"mappings":{"A":[256]}},"mappings":{"A":[1]}} -> @/mappings/A/0: OutOfRange
{"$inherit":{"class":"uenum","size":8,"mappings":{"A":[1]}},"mappings":{"A":[256]}} -> @/mappings/A/1: OutOfRange
{"$inherit":{"class":"uenum","size":8,"mappings":{"A":[256]}},"mappings":{"A":null}} -> @/mappings/A: WrongKind
"#;

pub const PAYLOADS: &str = r#"
{"$inherit":{"class":"struct","members":[{"x":{"field-type":U8}}]},"members":null} -> <event>: ZeroSizeRecord
{"$inherit":{"class":"struct","members":[{"x":{"field-type":{"class":"uint","size":65}}}]},"members":[{"x":{"field-type":{"size":8}}}]} -> accepted
{"$inherit":{"class":"struct","members":[{"x":{"field-type":U8}}]},"members":[{"x":{"field-type":{"size":65}}}]} -> @/members/0/x/field-type/size: OutOfRange
{"$inherit":{"class":"struct","members":[{"x":{"field-type":U8}},{"y":{"field-type":U8}}]},"members":[{"z":{"field-type":{"class":"uint","size":65}}},{"x":{"field-type":U8}}]} -> @/members/2/z/field-type/size: OutOfRange
{"$inherit":{"class":"struct","members":[{"x":{"field-type":U8,"extra":1}}]},"members":[{"x":{"field-type":U8}}]} -> @/members/0/x/extra: Unknown
{"class":"struct","members":[{"x":{"$inherit":{"field-type":U8}}}]} -> accepted
{"class":"struct","members":[{"x":{"$inherit":{"field-type":{"class":"uint","size":65}},"field-type":{"size":8}}}]} -> accepted
{"class":"struct","members":[{"x":{"$inherit":{"field-type":U8},"extra":1}}]} -> @/members/0/x/extra: Unknown
"#;

pub const TRACE_TYPES: &str = r#"
{"trace-byte-order":"le","$field-type-aliases":{"rec":{"class":"struct","members":[{"x":{"field-type":U8,"extra":1}}]},"u8":U8},"data-stream-types":{"s":{"event-record-types":{"e":{"payload-field-type":{"$inherit":"rec","members":[{"x":"u8"}]}}}}}} -> accepted
{"trace-byte-order":"le","$field-type-aliases":{"rec":{"class":"struct","members":[{"x":{"field-type":U8,"extra":1}}]},"u8":U8},"data-stream-types":{"s":{"event-record-types":{"e":{"payload-field-type":{"$inherit":"rec","members":[{"x":{"field-type":"u8"}}]}}}}}} -> @/data-stream-types/s/event-record-types/e/payload-field-type/members/0/x/extra: Unknown
{"trace-byte-order":"le","$field-type-aliases":{"M":{"field-type":U8}},"data-stream-types":{"s":{"event-record-types":{"e":{"payload-field-type":{"class":"struct","members":[{"x":{"$inherit":"M"}}]}}}}}} -> accepted
{"trace-byte-order":"le","$field-type-aliases":{"M":{"field-type":"u8"},"u8":{"class":"uint","size":65}},"data-stream-types":{"s":{"event-record-types":{"e":{"payload-field-type":{"class":"struct","members":[{"x":{"$inherit":"M","field-type":{"size":8}}}]}}}}}} -> accepted
{"trace-byte-order":"le","$field-type-aliases":{"u8":U8},"data-stream-types":{"s":{"event-record-types":{"e":{"payload-field-type":{"class":"struct","members":[{"x":"u8"},{"y":{"field-type":"u8"}}]}}}}}} -> accepted
{"trace-byte-order":"le","$field-type-aliases":{"u8":{"class":"uint","size":65}},"data-stream-types":{"s":{"event-record-types":{"e":{"payload-field-type":{"class":"struct","members":[{"x":"u8"}]}}}}}} -> @/data-stream-types/s/event-record-types/e/payload-field-type/members/0/x/field-type/size: OutOfRange
{"trace-byte-order":"le","$field-type-aliases":{"odd":5},"data-stream-types":{"s":{"event-record-types":{"e":{"payload-field-type":{"class":"struct","members":[{"x":"odd"}]}}}}}} -> @/$field-type-aliases/odd: WrongKind
{"trace-byte-order":"le","$field-type-aliases":{"event":U8},"data-stream-types":{"s":{"event-record-types":{"e":{"payload-field-type":{"class":"struct","members":[{"x":"event"}]}}}}}} -> accepted
{"trace-byte-order":"le","$field-type-aliases":{"Z":{"$inherit":"nope"}},"data-stream-types":{"s":{"event-record-types":{"e":{"payload-field-type":"nope"}}}}} -> @/$field-type-aliases/Z/$inherit: NoSuchAlias
"#;
