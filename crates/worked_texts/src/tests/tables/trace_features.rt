//! Features of packet headers.

pub const FEATURES: &str = r#"
{"uuid-field-type":true} -> @/uuid-field-type: NoUuid
{"uuid-field-type":false} -> accepted
{"uuid-field-type":{"class":"uint"}} -> @/uuid-field-type: OutOfRange
{"uuid-field-type":{"class":"str","x":1}} -> @/uuid-field-type: OutOfRange
{"uuid-field-type":{"class":"struct","x":1}} -> @/uuid-field-type: OutOfRange
{"uuid-field-type":{"class":"nope"}} -> @/uuid-field-type/class: OutOfRange
{"uuid-field-type":{"size":8}} -> @/uuid-field-type/class: Missing
{"uuid-field-type":{"class":"static-array","length":16}} -> @/uuid-field-type/element-field-type: Missing
{"magic-field-type":false} -> accepted
{"magic-field-type":{"class":"uint","size":32}} -> accepted
{"magic-field-type":{"class":"uint","size":16}} -> @/magic-field-type: OutOfRange
{"magic-field-type":{"class":"sint","size":32}} -> @/magic-field-type: WrongKind
{"magic-field-type":5} -> @/magic-field-type: WrongKind
{"magic-field-type":"true"} -> @/magic-field-type: NoSuchAlias
{"packet":{}} -> @/packet: Unknown
{"data-stream-type-id-field-type":true} -> accepted
{"data-stream-type-id-field-type":null} -> accepted
{"data-stream-type-id-field-type":false} -> accepted
{"data-stream-type-id-field-type":{"class":"uint","size":32,"alignment":64}} -> accepted
{"data-stream-type-id-field-type":5} -> @/data-stream-type-id-field-type: WrongKind
{"data-stream-type-id-field-type":[]} -> @/data-stream-type-id-field-type: WrongKind
{"data-stream-type-id-field-type":{"class":"sint","size":8}} -> @/data-stream-type-id-field-type: WrongKind
{"data-stream-type-id-field-type":{"class":"str"}} -> @/data-stream-type-id-field-type: WrongKind
{"data-stream-type-id-field-type":{"class":"uenum","size":8,"mappings":{"A":[1]}}} -> @/data-stream-type-id-field-type: WrongKind
{"data-stream-type-id-field-type":BYTE} -> @/data-stream-type-id-field-type: WrongKind
{"data-stream-type-id-field-type":{"class":"uint","size":65}} -> @/data-stream-type-id-field-type/size: OutOfRange
{"data-stream-type-id-field-type":{"class":"uint"}} -> @/data-stream-type-id-field-type/size: Missing
{"data-stream-type-id-field-type":{"class":"uint","size":8,"alignment":8192}} -> @/data-stream-type-id-field-type/alignment: Limit
{"data-stream-type-id-field-type":"nope"} -> @/data-stream-type-id-field-type: NoSuchAlias
{"magic-field-type":true} -> accepted
{"magic-field-type":null} -> accepted
{"magic-field-type":{"class":"uint","size":32,"alignment":64,"preferred-display-base":"dec"}} -> accepted
{"magic-field-type":{"class":"uint","size":64}} -> @/magic-field-type: OutOfRange
{"magic-field-type":{"class":"uenum","size":32,"mappings":{"A":[1]}}} -> @/magic-field-type: WrongKind
{"magic-field-type":{"class":"str"}} -> @/magic-field-type: WrongKind
{"magic-field-type":{"class":"uint"}} -> @/magic-field-type/size: Missing
# a fault inside the magic number's type stands before that the number is not of 32 bits
{"magic-field-type":{"class":"uint","size":64,"alignment":3}} -> @/magic-field-type/alignment: OutOfRange
{"magic-field-type":{"class":"uint","size":64,"preferred-display-base":"x"}} -> @/magic-field-type/preferred-display-base: OutOfRange
{"magic-field-type":{"class":"uint","size":64,"length":3}} -> @/magic-field-type/length: Unknown
{"magic-field-type":{"class":"uint","size":65}} -> @/magic-field-type/size: OutOfRange
# a limit stands behind it
{"magic-field-type":{"class":"uint","size":64,"alignment":8192}} -> @/magic-field-type: OutOfRange
{"magic-field-type":{"class":"uint","size":32,"alignment":8192}} -> @/magic-field-type/alignment: Limit
{"uuid-field-type":null} -> accepted
{"uuid-field-type":5} -> @/uuid-field-type: WrongKind
{"uuid-field-type":"nope"} -> @/uuid-field-type: NoSuchAlias
{"uuid-field-type":{"class":"static-array","length":16,"element-field-type":U8}} -> @/uuid-field-type: NoUuid
# an identifier of another form stands before that there is no number for it
{"uuid-field-type":{"class":"static-array","length":15,"element-field-type":U8}} -> @/uuid-field-type: OutOfRange
{"x":"nope"} -> @/x: Unknown
{"x":5} -> @/x: Unknown
{"total-size-field-type":"nope"} -> @/total-size-field-type: Unknown
"#;

pub const TRACE_TYPES: &str = r#"
{"trace-byte-order":"le","uuid":"79e49040-21b5-42d4-a83b-646f78666b62","$features":{"uuid-field-type":true}} -> accepted
{"trace-byte-order":"le","uuid":"79e49040-21b5-42d4-a83b-646f78666b62","$features":{"uuid-field-type":false}} -> accepted
{"trace-byte-order":"le","uuid":"79e49040-21b5-42d4-a83b-646f78666b62","$features":{"uuid-field-type":null}} -> accepted
{"trace-byte-order":"le","uuid":"79e49040-21b5-42d4-a83b-646f78666b62","$features":{"uuid-field-type":{"class":"static-array","length":16,"element-field-type":U8}}} -> accepted
{"trace-byte-order":"le","uuid":"79e49040-21b5-42d4-a83b-646f78666b62","$features":{"uuid-field-type":{"class":"static-array","length":16,"element-field-type":{"class":"uint","size":8,"alignment":8,"preferred-display-base":"hex"}}}} -> accepted
{"trace-byte-order":"le","uuid":"79e49040-21b5-42d4-a83b-646f78666b62","$features":{"uuid-field-type":{"class":"static-array","length":15,"element-field-type":U8}}} -> @/$features/uuid-field-type: OutOfRange
{"trace-byte-order":"le","uuid":"79e49040-21b5-42d4-a83b-646f78666b62","$features":{"uuid-field-type":{"class":"static-array","length":17,"element-field-type":U8}}} -> @/$features/uuid-field-type: OutOfRange
{"trace-byte-order":"le","uuid":"79e49040-21b5-42d4-a83b-646f78666b62","$features":{"uuid-field-type":{"class":"static-array","length":16,"element-field-type":{"class":"sint","size":8}}}} -> @/$features/uuid-field-type: OutOfRange
{"trace-byte-order":"le","uuid":"79e49040-21b5-42d4-a83b-646f78666b62","$features":{"uuid-field-type":{"class":"static-array","length":16,"element-field-type":{"class":"uint","size":16}}}} -> @/$features/uuid-field-type: OutOfRange
{"trace-byte-order":"le","uuid":"79e49040-21b5-42d4-a83b-646f78666b62","$features":{"uuid-field-type":{"class":"static-array","length":16,"element-field-type":{"class":"uint","size":8,"alignment":16}}}} -> @/$features/uuid-field-type: OutOfRange
{"trace-byte-order":"le","uuid":"79e49040-21b5-42d4-a83b-646f78666b62","$features":{"uuid-field-type":{"class":"static-array","length":16,"element-field-type":{"class":"uint","size":8,"alignment":1}}}} -> @/$features/uuid-field-type: OutOfRange
{"trace-byte-order":"le","uuid":"79e49040-21b5-42d4-a83b-646f78666b62","$features":{"uuid-field-type":{"class":"static-array","length":16,"element-field-type":{"class":"uenum","size":8,"mappings":{"A":[1]}}}}} -> @/$features/uuid-field-type: OutOfRange
{"trace-byte-order":"le","uuid":"79e49040-21b5-42d4-a83b-646f78666b62","$features":{"uuid-field-type":{"class":"static-array","length":16,"element-field-type":{"class":"str"}}}} -> @/$features/uuid-field-type: OutOfRange
{"trace-byte-order":"le","uuid":"79e49040-21b5-42d4-a83b-646f78666b62","$features":{"uuid-field-type":{"class":"static-array","length":16,"element-field-type":{"class":"static-array","length":1,"element-field-type":U8}}}} -> @/$features/uuid-field-type: OutOfRange
{"trace-byte-order":"le","uuid":"79e49040-21b5-42d4-a83b-646f78666b62","$features":{"uuid-field-type":{"class":"static-array","length":4,"element-field-type":{"class":"static-array","length":4,"element-field-type":U8}}}} -> @/$features/uuid-field-type: OutOfRange
{"trace-byte-order":"le","uuid":"79e49040-21b5-42d4-a83b-646f78666b62","$features":{"uuid-field-type":{"class":"uint","size":8}}} -> @/$features/uuid-field-type: OutOfRange
{"trace-byte-order":"le","uuid":"79e49040-21b5-42d4-a83b-646f78666b62","$features":{"uuid-field-type":{"class":"uint","size":64}}} -> @/$features/uuid-field-type: OutOfRange
{"trace-byte-order":"le","uuid":"79e49040-21b5-42d4-a83b-646f78666b62","$features":{"uuid-field-type":{"class":"str"}}} -> @/$features/uuid-field-type: OutOfRange
{"trace-byte-order":"le","uuid":"79e49040-21b5-42d4-a83b-646f78666b62","$features":{"uuid-field-type":{"class":"dynamic-array","element-field-type":U8}}} -> @/$features/uuid-field-type: OutOfRange
{"trace-byte-order":"le","uuid":"79e49040-21b5-42d4-a83b-646f78666b62","$features":{"uuid-field-type":{"class":"struct"}}} -> @/$features/uuid-field-type: OutOfRange
{"trace-byte-order":"le","uuid":"79e49040-21b5-42d4-a83b-646f78666b62","$features":{"uuid-field-type":{"class":"static-array","length":0,"element-field-type":U8}}} -> @/$features/uuid-field-type: OutOfRange
# a fault inside the identifier's type stands before that it is not of 16 such numbers
{"trace-byte-order":"le","uuid":"79e49040-21b5-42d4-a83b-646f78666b62","$features":{"uuid-field-type":{"class":"static-array","length":15,"element-field-type":{"class":"uint","size":8,"alignment":3}}}} -> @/$features/uuid-field-type/element-field-type/alignment: OutOfRange
{"trace-byte-order":"le","uuid":"79e49040-21b5-42d4-a83b-646f78666b62","$features":{"uuid-field-type":{"class":"static-array","length":15,"element-field-type":{"class":"uint","size":65}}}} -> @/$features/uuid-field-type/element-field-type/size: OutOfRange
{"trace-byte-order":"le","uuid":"79e49040-21b5-42d4-a83b-646f78666b62","$features":{"uuid-field-type":{"class":"static-array","length":16,"element-field-type":{"class":"uint"}}}} -> @/$features/uuid-field-type/element-field-type/size: Missing
{"trace-byte-order":"le","uuid":"79e49040-21b5-42d4-a83b-646f78666b62","$features":{"uuid-field-type":{"class":"static-array","length":16,"element-field-type":{"class":"sint","size":8,"alignment":3}}}} -> @/$features/uuid-field-type/element-field-type/alignment: OutOfRange
{"trace-byte-order":"le","uuid":"79e49040-21b5-42d4-a83b-646f78666b62","$features":{"uuid-field-type":{"class":"static-array","length":16}}} -> @/$features/uuid-field-type/element-field-type: Missing
{"trace-byte-order":"le","uuid":"79e49040-21b5-42d4-a83b-646f78666b62","$features":{"uuid-field-type":{"class":"static-array","element-field-type":U8}}} -> @/$features/uuid-field-type/length: Missing
{"trace-byte-order":"le","uuid":"79e49040-21b5-42d4-a83b-646f78666b62","$features":{"uuid-field-type":{"class":"static-array","length":null,"element-field-type":U8}}} -> @/$features/uuid-field-type/length: WrongKind
{"trace-byte-order":"le","uuid":"79e49040-21b5-42d4-a83b-646f78666b62","$features":{"uuid-field-type":{"class":"static-array","length":-1,"element-field-type":U8}}} -> @/$features/uuid-field-type/length: OutOfRange
{"trace-byte-order":"le","uuid":"79e49040-21b5-42d4-a83b-646f78666b62","$features":{"uuid-field-type":{"class":"static-array","length":1048577,"element-field-type":U8}}} -> @/$features/uuid-field-type/length: OutOfRange
{"trace-byte-order":"le","uuid":"79e49040-21b5-42d4-a83b-646f78666b62","$features":{"uuid-field-type":{"class":"static-array","length":15,"element-field-type":U8,"size":8}}} -> @/$features/uuid-field-type/size: Unknown
# a limit stands behind it
{"trace-byte-order":"le","uuid":"79e49040-21b5-42d4-a83b-646f78666b62","$features":{"uuid-field-type":{"class":"static-array","length":16,"element-field-type":{"class":"uint","size":8,"alignment":8192}}}} -> @/$features/uuid-field-type: OutOfRange
{"trace-byte-order":"le","uuid":"79e49040-21b5-42d4-a83b-646f78666b62","$features":{"uuid-field-type":{"class":"static-array","length":17,"element-field-type":{"class":"static-array","length":61681,"element-field-type":U8}}}} -> @/$features/uuid-field-type: OutOfRange
"#;
