//! Configurations at each limit of size and one past it. What stands in angle brackets is a word.

pub const ENVIRONMENTS: &str = r#"
{<256 numbers>} -> accepted
{<256 numbers>,"x":1} -> @: Limit
{"<255 letters>":1} -> accepted
{"<255 letters>a":1} -> @/<255 letters>a: BadName
{"a":"<4,096 letters>"} -> accepted
{"a":"<4,096 letters>a"} -> @/a: Limit
"#;

pub const TRACE_TYPES: &str = r#"
{"trace-byte-order":"le","clock-types":{<64 objects>}} -> accepted
{"trace-byte-order":"le","clock-types":{<64 objects>,"x":{}}} -> @/clock-types: Limit
{"trace-byte-order":"le","data-stream-types":{<64 objects>}} -> accepted
{"trace-byte-order":"le","data-stream-types":{<64 objects>,"x":{}}} -> @/data-stream-types: Limit
{"trace-byte-order":"le","uuid":"auto","$log-level-aliases":{<1,024 numbers>}} -> @/uuid: NoUuid
{"trace-byte-order":"le","uuid":"auto","$log-level-aliases":{<1,024 numbers>,"x":1}} -> @/uuid: NoUuid
{"trace-byte-order":"le","$field-type-aliases":{<1,024 objects>},"more":1} -> @/more: Unknown
{"trace-byte-order":"le","$field-type-aliases":{<1,024 objects>,"x":{}},"more":1} -> @/more: Unknown
{"trace-byte-order":"le","uuid":"auto","$field-type-aliases":{<1,024 objects>}} -> @/uuid: NoUuid
{"trace-byte-order":"le","uuid":"auto","$field-type-aliases":{<1,024 objects>,"x":{}}} -> @/uuid: NoUuid
{"trace-byte-order":"le","$field-type-aliases":{<1,023 objects>,"x":"nope"}} -> @/$field-type-aliases/x: NoSuchAlias
{"trace-byte-order":"le","$field-type-aliases":{<1,024 objects>,"x":"nope"}} -> @/$field-type-aliases/x: NoSuchAlias
{"trace-byte-order":"le","clock-types":{"<255 letters>":{}}} -> accepted
{"trace-byte-order":"le","clock-types":{"<255 letters>a":{}}} -> @/clock-types/<255 letters>a: BadName
{"trace-byte-order":"le","data-stream-types":{"<255 letters>":{}}} -> accepted
{"trace-byte-order":"le","data-stream-types":{"<255 letters>a":{}}} -> @/data-stream-types/<255 letters>a: BadName
{"trace-byte-order":"le","$field-type-aliases":{"big":{"x":[<4,000 values>]}},"data-stream-types":{"s":{"packet-context-field-type-extra-members":[<10,000 heirs>]}}} -> @/data-stream-types/s/packet-context-field-type-extra-members: Limit
"#;

pub const LOG_LEVELS: &str = r#"
{<1,024 numbers>} -> accepted
{<1,024 numbers>,"x":1} -> @: Limit
{"<255 letters>":1} -> accepted
{"<255 letters>a":1} -> @/<255 letters>a: BadName
"#;

pub const FIELD_TYPES: &str = r#"
{<1,024 objects>} -> accepted
{<1,024 objects>,"x":{}} -> @: Limit
{"a":{"x":[<4,094 values>]}} -> accepted
{"a":{"x":[<4,094 values>,4094]}} -> @/a: Limit
{"<255 letters>":{}} -> accepted
{"<255 letters>a":{}} -> @/<255 letters>a: BadName
{"deep":<27 elements>5<27 closed>,"one":{"element-field-type":"deep"}} -> accepted
{"deep":{"element-field-type":<27 elements>5<27 closed>},"one":{"element-field-type":"deep"}} -> @/one/element-field-type/element-field-type/element-field-type/element-field-type/element-field-type/element-field-type/element-field-type/element-field-type/element-field-type/element-field-type/element-field-type/element-field-type/element-field-type/element-field-type/element-field-type/element-field-type/element-field-type/element-field-type/element-field-type/element-field-type/element-field-type/element-field-type/element-field-type/element-field-type/element-field-type/element-field-type/element-field-type/element-field-type: TooDeep
{"c":{"x":{"x":{"x":{"x":{"x":{"x":{"x":{"x":5}}}}}}}},"d":<24 elements>"c"<24 closed>} -> @/d/element-field-type/element-field-type/element-field-type/element-field-type/element-field-type/element-field-type/element-field-type/element-field-type/element-field-type/element-field-type/element-field-type/element-field-type/element-field-type/element-field-type/element-field-type/element-field-type/element-field-type/element-field-type/element-field-type/element-field-type/element-field-type/element-field-type/element-field-type/element-field-type/x/x/x/x: TooDeep
{"c":{"x":{"x":{"x":{"x":{"x":{"x":{"x":{"x":5}}}}}}}},"d":{"element-field-type":<24 elements>"c"<24 closed>}} -> @/d: TooDeep
"#;

pub const STREAMS: &str = r#"
{"event-record-types":{<1,024 objects>}} -> accepted
{"event-record-types":{<1,024 objects>,"x":{}}} -> @/event-record-types: Limit
{"event-record-common-context-field-type":{"class":"struct","members":[<256 bytes>]}} -> accepted
{"event-record-common-context-field-type":{"class":"struct","members":[<256 bytes>,{"x":{"field-type":U8}}]}} -> @/event-record-common-context-field-type/members: Limit
{"packet-context-field-type-extra-members":[<256 bytes>]} -> accepted
{"packet-context-field-type-extra-members":[<256 bytes>,{"x":{"field-type":U8}}]} -> @/packet-context-field-type-extra-members: Limit
{"packet-context-field-type-extra-members":[<256 lists>]} -> accepted
{"packet-context-field-type-extra-members":[<256 lists>,{"x":{"field-type":{"class":"dynamic-array","element-field-type":U8}}}]} -> @/packet-context-field-type-extra-members: Limit
{"event-record-types":{"<255 letters>":{}}} -> accepted
{"event-record-types":{"<255 letters>a":{}}} -> @/event-record-types/<255 letters>a: BadName
{"packet-context-field-type-extra-members":[{"<255 letters>":{"field-type":U8}}]} -> accepted
{"packet-context-field-type-extra-members":[{"<255 letters>a":{"field-type":U8}}]} -> @/packet-context-field-type-extra-members/0/<255 letters>a: BadName
"#;

pub const PAYLOADS: &str = r#"
{"class":"struct","members":[<256 texts>]} -> accepted
{"class":"struct","members":[<256 texts>,{"x":{"field-type":{"class":"str"}}}]} -> @/members: Limit
{"class":"struct","members":[<256 lists>]} -> accepted
{"class":"struct","members":[<256 lists>,{"x":{"field-type":{"class":"dynamic-array","element-field-type":U8}}}]} -> @/members: Limit
{"class":"struct","x":[<4,093 values>]} -> @/x: Unknown
{"class":"struct","x":[<4,093 values>,4093]} -> @: Limit
{"class":"struct","members":[{"<255 letters>":{"field-type":U8}}]} -> accepted
{"class":"struct","members":[{"<255 letters>a":{"field-type":U8}}]} -> @/members/0/<255 letters>a: BadName
{"class":"struct","members":[{"<255 letters>":{"field-type":{"class":"dynamic-array","element-field-type":U8}}}]} -> accepted
{"class":"struct","members":[{"<255 letters>a":{"field-type":{"class":"dynamic-array","element-field-type":U8}}}]} -> @/members/0/<255 letters>a: BadName
"#;

pub const EVENTS: &str = r#"
{"specific-context-field-type":{"class":"struct","members":[<256 bytes>]}} -> accepted
{"specific-context-field-type":{"class":"struct","members":[<256 bytes>,{"x":{"field-type":U8}}]}} -> @/specific-context-field-type/members: Limit
"#;

pub const FIELDS: &str = r#"
{"class":"uenum","size":16,"mappings":{"A":[<1,024 values>]}} -> accepted
{"class":"uenum","size":16,"mappings":{"A":[<1,024 values>,1024]}} -> @/mappings: Limit
{"class":"senum","size":16,"mappings":{"A":[0,[-5,5]],"B":[<1,022 ranges>]}} -> accepted
{"class":"senum","size":16,"mappings":{"A":[0,[-5,5]],"B":[<1,022 ranges>,[0,1022]]}} -> @/mappings: Limit
{"class":"uenum","size":16,"mappings":{<1,024 labels>}} -> accepted
{"class":"uenum","size":16,"mappings":{<1,024 labels>,"x":[1024]}} -> @/mappings: Limit
{"class":"uenum","size":8,"mappings":{"<4,096 letters>":[1]}} -> accepted
{"class":"uenum","size":8,"mappings":{"<4,096 letters>a":[1]}} -> @/mappings/<4,096 letters>a: Limit
<8 arrays>U8<8 closed> -> accepted
{"class":"static-array","length":2,"element-field-type":<8 arrays>U8<8 closed>} -> @: Limit
{"class":"dynamic-array","element-field-type":<8 arrays>U8<8 closed>} -> accepted
{"class":"dynamic-array","element-field-type":{"class":"static-array","length":2,"element-field-type":<8 arrays>U8<8 closed>}} -> @/element-field-type: Limit
"#;

pub const ROOTS: &str = r#"
{"trace":{"type":{"trace-byte-order":"le","uuid":"auto"},"environment":{<256 numbers>}}} -> trace/type/uuid: NoUuid
{"trace":{"type":{"trace-byte-order":"le","uuid":"auto"},"environment":{<256 numbers>,"x":1}}} -> trace/type/uuid: NoUuid
{"trace":{"type":{"trace-byte-order":"le","native-byte-order":"le"},"environment":{<256 numbers>}}} -> trace/type: TwoOrders
{"trace":{"type":{"trace-byte-order":"le","native-byte-order":"le"},"environment":{<256 numbers>,"x":1}}} -> trace/environment: Limit
{"trace":{"type":{"trace-byte-order":"le"}},"options":<31 brackets>5<31 closing brackets>} -> accepted
{"trace":{"type":{"trace-byte-order":"le"}},"options":[<31 brackets>5<31 closing brackets>]} -> options/0/0/0/0/0/0/0/0/0/0/0/0/0/0/0/0/0/0/0/0/0/0/0/0/0/0/0/0/0/0/0: TooDeep
"#;

pub const CLOCKS: &str = r#"
{"description":"<4,096 letters>"} -> accepted
{"description":"<4,096 letters>a"} -> @/description: Limit
"#;
