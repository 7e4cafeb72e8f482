//! Data stream types and the extra members of their packet contexts.

pub const STREAMS: &str = r#"
{} -> accepted
null -> @: WrongKind
7 -> @: WrongKind
{"x":1} -> @/x: Unknown
{"$is-default":true} -> accepted
{"$is-default":1} -> @/$is-default: WrongKind
{"$default-clock-type-name":"clk"} -> @/$default-clock-type-name: NoClock
{"$default-clock-type-name":5} -> @/$default-clock-type-name: WrongKind
{"$default-clock-type-name":null} -> accepted
{"$features":{}} -> accepted
{"$features":null} -> accepted
{"$features":5} -> @/$features: WrongKind
{"$features":{"x":1}} -> @/$features/x: Unknown
{"$features":{"packet":null,"event-record":null}} -> accepted
{"$features":{"event-record":{"type-id-field-type":ONE_BIT}},"event-record-types":{"a":EMPTY,"b":EMPTY}} -> accepted
{"$features":{"event-record":{"type-id-field-type":ONE_BIT}},"event-record-types":{"a":EMPTY,"b":EMPTY,"c":EMPTY}} -> @/$features/event-record/type-id-field-type: FieldTooSmall
{"$features":{"event-record":{"type-id-field-type":false}},"event-record-types":{"a":FULL,"b":FULL}} -> @/$features/event-record/type-id-field-type: FieldTooSmall
{"$features":{"event-record":{"type-id-field-type":false}},"event-record-types":{"a":FULL}} -> accepted
{"packet-context-field-type-extra-members":[]} -> accepted
{"packet-context-field-type-extra-members":[{"cpu":{"field-type":U8}}]} -> accepted
{"packet-context-field-type-extra-members":5} -> @/packet-context-field-type-extra-members: WrongKind
{"packet-context-field-type-extra-members":[{"packet_size":{"field-type":U8}}]} -> @/packet-context-field-type-extra-members/0/packet_size: NameClash
{"packet-context-field-type-extra-members":[{"packet_seq_num":{"field-type":U8}}]} -> @/packet-context-field-type-extra-members/0/packet_seq_num: NameClash
{"event-record-common-context-field-type":BYTE} -> accepted
{"event-record-common-context-field-type":U8} -> @/event-record-common-context-field-type: WrongKind
{"event-record-types":null} -> accepted
{"event-record-types":[]} -> @/event-record-types: WrongKind
{"event-record-types":{"9a":EMPTY}} -> @/event-record-types/9a: BadName
{"event-record-types":{"event":EMPTY}} -> accepted
{"$is-default":false} -> accepted
{"$is-default":null} -> accepted
{"$is-default":"true"} -> @/$is-default: WrongKind
{"$default-clock-type-name":""} -> @/$default-clock-type-name: NoClock
{"event-record-common-context-field-type":null} -> accepted
{"event-record-common-context-field-type":{"class":"struct"}} -> accepted
{"event-record-common-context-field-type":"nope"} -> @/event-record-common-context-field-type: NoSuchAlias
{"event-record-common-context-field-type":false} -> @/event-record-common-context-field-type: WrongKind
{"packet-context-field-type-extra-members":null} -> accepted
{"packet-context-field-type-extra-members":{}} -> @/packet-context-field-type-extra-members: WrongKind
{"packet-context-field-type-extra-members":[5]} -> @/packet-context-field-type-extra-members/0: WrongKind
{"packet-context-field-type-extra-members":[{"cpu":null}]} -> @/packet-context-field-type-extra-members/0/cpu: WrongKind
{"packet-context-field-type-extra-members":[{"cpu":"nope"}]} -> @/packet-context-field-type-extra-members/0/cpu: NoSuchAlias
{"packet-context-field-type-extra-members":[{"cpu":{}}]} -> @/packet-context-field-type-extra-members/0/cpu/field-type: Missing
{"packet-context-field-type-extra-members":[{"9a":{"field-type":U8}}]} -> @/packet-context-field-type-extra-members/0/9a: BadName
{"packet-context-field-type-extra-members":[{"event":{"field-type":U8}}]} -> @/packet-context-field-type-extra-members/0/event: ReservedName
{"packet-context-field-type-extra-members":[{"x":{"field-type":U8}},{"x":{"field-type":U8}}]} -> @/packet-context-field-type-extra-members/1/x: NameClash
{"packet-context-field-type-extra-members":[{"x":{"field-type":{"class":"struct"}}}]} -> @/packet-context-field-type-extra-members/0/x/field-type: WrongKind
{"packet-context-field-type-extra-members":[{"x":{"field-type":{"class":"dynamic-array","element-field-type":U8}}}]} -> accepted
{"packet-context-field-type-extra-members":[{"x":{"field-type":{"class":"dynamic-array","element-field-type":U8}}},{"__x_len":{"field-type":U8}}]} -> @/packet-context-field-type-extra-members/1/__x_len: NameClash
{"packet-context-field-type-extra-members":[{"content_size":{"field-type":U8}}]} -> @/packet-context-field-type-extra-members/0/content_size: NameClash
{"packet-context-field-type-extra-members":[{"timestamp_begin":{"field-type":U8}}]} -> @/packet-context-field-type-extra-members/0/timestamp_begin: NameClash
{"packet-context-field-type-extra-members":[{"timestamp_end":{"field-type":U8}}]} -> @/packet-context-field-type-extra-members/0/timestamp_end: NameClash
{"packet-context-field-type-extra-members":[{"events_discarded":{"field-type":U8}}]} -> @/packet-context-field-type-extra-members/0/events_discarded: NameClash
{"$features":{"packet":{"discarded-event-records-counter-snapshot-field-type":false}},"packet-context-field-type-extra-members":[{"events_discarded":{"field-type":U8}}]} -> @/packet-context-field-type-extra-members/0/events_discarded: NameClash
{"packet-context-field-type-extra-members":[{"magic":{"field-type":U8}},{"stream_id":{"field-type":U8}},{"timestamp":{"field-type":U8}}]} -> accepted
{"event-record-types":{}} -> accepted
{"event-record-types":{"a":EMPTY,"b":null}} -> @/event-record-types/b: WrongKind
{"event-record-types":{"a-b":EMPTY}} -> @/event-record-types/a-b: BadName
{"$features":{"event-record":{"type-id-field-type":false}},"event-record-types":{"b":EMPTY,"c":EMPTY,"a":FULL}} -> @/$features/event-record/type-id-field-type: FieldTooSmall
{"$default-clock-type-name":"clk","$features":{"event-record":{"type-id-field-type":false,"timestamp-field-type":false}},"event-record-types":{"e":EMPTY}} -> @/event-record-types/e: ZeroSizeRecord
{"$default-clock-type-name":"clk","event-record-types":{"e":{"payload-field-type":U8}}} -> @/event-record-types/e/payload-field-type: WrongKind
"#;
