//! Trace types, and faults of whole configurations in their order.

pub const TRACE_TYPES: &str = r#"
{"trace-byte-order":"le","clock-types":{"other":{}},"data-stream-types":{"s":{"$default-clock-type-name":"clk"}}} -> @/data-stream-types/s/$default-clock-type-name: NoClock
{"trace-byte-order":"le","$log-level-aliases":{"LOUD":7},"data-stream-types":{"s":{"event-record-types":{"e":{"log-level":"LOUD"}}}}} -> accepted
{"trace-byte-order":"le","$field-type-aliases":{"u8":U8},"data-stream-types":{"s":{"$features":{"packet":{"total-size-field-type":"u8"}}}}} -> accepted
{} -> @/trace-byte-order: Missing
{"trace-byte-order":null} -> @/trace-byte-order: Missing
{"trace-byte-order":null,"native-byte-order":"be"} -> accepted
{"trace-byte-order":"little-endian"} -> accepted
{"trace-byte-order":"little"} -> accepted
{"trace-byte-order":"le"} -> accepted
{"native-byte-order":"big-endian"} -> accepted
{"native-byte-order":"big"} -> accepted
{"native-byte-order":"be"} -> accepted
{"trace-byte-order":"middle"} -> @/trace-byte-order: OutOfRange
{"trace-byte-order":5} -> @/trace-byte-order: WrongKind
{"native-byte-order":"middle"} -> @/native-byte-order: OutOfRange
{"trace-byte-order":"le","native-byte-order":"le"} -> @: TwoOrders
{"trace-byte-order":"le","native-byte-order":"le","x":1} -> @/x: Unknown
{"trace-byte-order":"le","uuid":"auto"} -> @/uuid: NoUuid
{"trace-byte-order":"le","uuid":"x"} -> @/uuid: OutOfRange
{"trace-byte-order":"le","uuid":5} -> @/uuid: WrongKind
{"trace-byte-order":"le","uuid":null} -> accepted
{"trace-byte-order":"le","uuid":"79e49040-21b5-42d4-a83b-646f78666b62"} -> accepted
{"trace-byte-order":"le","$features":{"data-stream-type-id-field-type":false},"data-stream-types":{"a":{},"b":{}}} -> @/$features/data-stream-type-id-field-type: FieldTooSmall
{"trace-byte-order":"le","$features":{"data-stream-type-id-field-type":ONE_BIT},"data-stream-types":{"a":{},"b":{}}} -> accepted
{"trace-byte-order":"le","data-stream-types":{"a":{"$is-default":true},"b":{"$is-default":true}}} -> @/data-stream-types/b/$is-default: OutOfRange
{"trace-byte-order":"le","data-stream-types":{"9a":{}}} -> @/data-stream-types/9a: BadName
{"trace-byte-order":"le","data-stream-types":5} -> @/data-stream-types: WrongKind
{"trace-byte-order":"le","clock-types":null} -> accepted
{"trace-byte-order":"le","clock-types":5} -> @/clock-types: WrongKind
{"trace-byte-order":"le","clock-types":{"9":{}}} -> @/clock-types/9: BadName
{"trace-byte-order":"le","clock-types":{"clock":{}}} -> @/clock-types/clock: ReservedName
{"trace-byte-order":null,"native-byte-order":null} -> @/trace-byte-order: Missing
{"trace-byte-order":"le","native-byte-order":null} -> accepted
{"trace-byte-order":"big-endian"} -> accepted
{"trace-byte-order":"big"} -> accepted
{"trace-byte-order":"be"} -> accepted
{"native-byte-order":"little-endian"} -> accepted
{"native-byte-order":"little"} -> accepted
{"native-byte-order":"le"} -> accepted
{"native-byte-order":5} -> @/native-byte-order: WrongKind
{"trace-byte-order":"LE"} -> @/trace-byte-order: OutOfRange
{"trace-byte-order":"le","native-byte-order":"middle"} -> @/native-byte-order: OutOfRange
{"trace-byte-order":"le","$features":5} -> @/$features: WrongKind
{"trace-byte-order":"le","$features":[]} -> @/$features: WrongKind
{"trace-byte-order":"le","$features":null} -> accepted
{"trace-byte-order":"le","$field-type-aliases":5} -> @/$field-type-aliases: WrongKind
{"trace-byte-order":"le","$field-type-aliases":[]} -> @/$field-type-aliases: WrongKind
{"trace-byte-order":"le","$field-type-aliases":null} -> accepted
{"trace-byte-order":"le","$log-level-aliases":5} -> @/$log-level-aliases: WrongKind
{"trace-byte-order":"le","$log-level-aliases":[]} -> @/$log-level-aliases: WrongKind
{"trace-byte-order":"le","$log-level-aliases":null} -> accepted
{"trace-byte-order":"le","data-stream-types":null} -> accepted
{"trace-byte-order":"le","data-stream-types":[]} -> @/data-stream-types: WrongKind
{"trace-byte-order":"le","data-stream-types":{}} -> accepted
{"trace-byte-order":"le","data-stream-types":{"a-b":{}}} -> @/data-stream-types/a-b: BadName
{"trace-byte-order":"le","clock-types":[]} -> @/clock-types: WrongKind
{"trace-byte-order":"le","clock-types":{"a-b":{}}} -> @/clock-types/a-b: BadName
{"trace-byte-order":"le","clock-types":{"clk":5}} -> @/clock-types/clk: WrongKind
{"trace-byte-order":"le","uuid":"79e4904021b542d4a83b646f78666b62"} -> accepted
{"trace-byte-order":"le","uuid":"{79e49040-21b5-42d4-a83b-646f78666b62}"} -> accepted
{"trace-byte-order":"le","uuid":"urn:uuid:79e49040-21b5-42d4-a83b-646f78666b62"} -> accepted
{"trace-byte-order":"le","uuid":"79e49040-21b5-42d4-a83b-646f78666b6"} -> @/uuid: OutOfRange
{"trace-byte-order":"le","uuid":""} -> @/uuid: OutOfRange
{"trace-byte-order":"le","uuid":"auto","$features":{"uuid-field-type":false}} -> @/uuid: NoUuid
{"trace-byte-order":"le","uuid":"auto","$features":{"uuid-field-type":true}} -> @/uuid: NoUuid
{"trace-byte-order":"le","data-stream-types":{"a":{"$is-default":true},"b":{"$is-default":false},"c":{"$is-default":null}}} -> accepted
{"trace-byte-order":"le","$features":{"data-stream-type-id-field-type":ONE_BIT},"data-stream-types":{"a":{},"b":{},"c":{}}} -> @/$features/data-stream-type-id-field-type: FieldTooSmall
{"trace-byte-order":"le","$features":{"data-stream-type-id-field-type":false},"data-stream-types":{"a":{}}} -> accepted
{"trace-byte-order":"le","$log-level-aliases":{"LOUD":7},"data-stream-types":{"s":{"event-record-types":{"e":{"log-level":"loud"}}}}} -> @/data-stream-types/s/event-record-types/e/log-level: NoSuchAlias
{"trace-byte-order":"le","native-byte-order":"le","uuid":"auto"} -> @/uuid: NoUuid
{"trace-byte-order":"le","native-byte-order":"le","$features":{"data-stream-type-id-field-type":false},"data-stream-types":{"a":{},"b":{}}} -> @/$features/data-stream-type-id-field-type: FieldTooSmall
{"trace-byte-order":"le","native-byte-order":"le","data-stream-types":{"s":{"$default-clock-type-name":"clk"}}} -> @/data-stream-types/s/$default-clock-type-name: NoClock
{"trace-byte-order":"le","native-byte-order":"le","clock-types":{"clk":{}},"data-stream-types":{"s":{"$default-clock-type-name":"clk","$features":{"event-record":{"timestamp-field-type":U8}}}}} -> @: TwoOrders
{"trace-byte-order":"le","uuid":"auto","data-stream-types":{"s":{"$default-clock-type-name":"clk"}}} -> @/data-stream-types/s/$default-clock-type-name: NoClock
{"trace-byte-order":"le","data-stream-types":{"b":{"$default-clock-type-name":"clk"},"a":{"$default-clock-type-name":"clk"}}} -> @/data-stream-types/a/$default-clock-type-name: NoClock
"#;
