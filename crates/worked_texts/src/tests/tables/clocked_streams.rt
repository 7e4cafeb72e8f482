//! Timestamp features of data stream types with a default clock.

pub const CLOCKED_STREAMS: &str = r#"
{"$default-clock-type-name":"clk"} -> accepted
{"$default-clock-type-name":"clk","$features":{"event-record":{"timestamp-field-type":U8}}} -> accepted
{"$default-clock-type-name":"clk","$features":{"event-record":{"timestamp-field-type":U8},"packet":{"beginning-timestamp-field-type":false}}} -> @/$features/event-record/timestamp-field-type: TimestampSize
{"$default-clock-type-name":"clk","$features":{"event-record":{"timestamp-field-type":U8},"packet":{"beginning-timestamp-field-type":U8}}} -> @/$features/packet/beginning-timestamp-field-type: TimestampSize
{"$default-clock-type-name":"clk","$features":{"event-record":{"timestamp-field-type":U8},"packet":{"end-timestamp-field-type":U8}}} -> @/$features/packet/end-timestamp-field-type: TimestampSize
{"$default-clock-type-name":"clk","$features":{"event-record":{"timestamp-field-type":U8},"packet":{"end-timestamp-field-type":false}}} -> accepted
{"$default-clock-type-name":"clk","$features":{"event-record":{"timestamp-field-type":{"class":"uint","size":7}}}} -> @/$features/event-record/timestamp-field-type: TimestampSize
{"$default-clock-type-name":"clk","$features":{"event-record":{"timestamp-field-type":{"class":"uint","size":7}},"packet":{"beginning-timestamp-field-type":U8}}} -> @/$features/event-record/timestamp-field-type: TimestampSize
{"$default-clock-type-name":"clk","$features":{"event-record":{"timestamp-field-type":{"class":"uint","size":63}},"packet":{"beginning-timestamp-field-type":false}}} -> @/$features/event-record/timestamp-field-type: TimestampSize
{"$default-clock-type-name":"clk","$features":{"event-record":{"timestamp-field-type":{"class":"uint","size":64}},"packet":{"beginning-timestamp-field-type":false}}} -> accepted
{"$default-clock-type-name":"clk","$features":{"event-record":{"timestamp-field-type":{"class":"uint","size":64}}}} -> accepted
{"$default-clock-type-name":"clk","$features":{"packet":{"beginning-timestamp-field-type":U8}}} -> @/$features/packet/beginning-timestamp-field-type: TimestampSize
{"$default-clock-type-name":"clk","$features":{"packet":{"end-timestamp-field-type":U8}}} -> @/$features/packet/end-timestamp-field-type: TimestampSize
{"$default-clock-type-name":"clk","$features":{"packet":{"beginning-timestamp-field-type":true}}} -> accepted
{"$default-clock-type-name":"clk","$features":{"packet":{"beginning-timestamp-field-type":false}}} -> accepted
{"$default-clock-type-name":"clk","$features":{"packet":{"beginning-timestamp-field-type":null}}} -> accepted
{"$default-clock-type-name":"clk","$features":{"packet":{"beginning-timestamp-field-type":{"class":"uint","size":64,"alignment":32,"preferred-display-base":"hex"}}}} -> accepted
{"$default-clock-type-name":"clk","$features":{"packet":{"beginning-timestamp-field-type":{"class":"uint","size":63}}}} -> @/$features/packet/beginning-timestamp-field-type: TimestampSize
{"$default-clock-type-name":"clk","$features":{"packet":{"beginning-timestamp-field-type":{"class":"sint","size":64}}}} -> @/$features/packet/beginning-timestamp-field-type: WrongKind
{"$default-clock-type-name":"clk","$features":{"packet":{"beginning-timestamp-field-type":{"class":"uenum","size":64,"mappings":{"A":[1]}}}}} -> @/$features/packet/beginning-timestamp-field-type: WrongKind
{"$default-clock-type-name":"clk","$features":{"packet":{"beginning-timestamp-field-type":{"class":"uint","size":65}}}} -> @/$features/packet/beginning-timestamp-field-type/size: OutOfRange
{"$default-clock-type-name":"clk","$features":{"packet":{"beginning-timestamp-field-type":{"class":"uint","size":64,"alignment":8192}}}} -> @/$features/packet/beginning-timestamp-field-type/alignment: Limit
{"$default-clock-type-name":"clk","$features":{"packet":{"beginning-timestamp-field-type":5}}} -> @/$features/packet/beginning-timestamp-field-type: WrongKind
{"$default-clock-type-name":"clk","$features":{"packet":{"beginning-timestamp-field-type":{"class":"uint","size":64}}}} -> accepted
{"$default-clock-type-name":"clk","$features":{"packet":{"end-timestamp-field-type":true}}} -> accepted
{"$default-clock-type-name":"clk","$features":{"packet":{"end-timestamp-field-type":false}}} -> accepted
{"$default-clock-type-name":"clk","$features":{"packet":{"end-timestamp-field-type":null}}} -> accepted
{"$default-clock-type-name":"clk","$features":{"packet":{"end-timestamp-field-type":{"class":"uint","size":64,"alignment":32,"preferred-display-base":"hex"}}}} -> accepted
{"$default-clock-type-name":"clk","$features":{"packet":{"end-timestamp-field-type":{"class":"uint","size":63}}}} -> @/$features/packet/end-timestamp-field-type: TimestampSize
{"$default-clock-type-name":"clk","$features":{"packet":{"end-timestamp-field-type":{"class":"sint","size":64}}}} -> @/$features/packet/end-timestamp-field-type: WrongKind
{"$default-clock-type-name":"clk","$features":{"packet":{"end-timestamp-field-type":{"class":"uenum","size":64,"mappings":{"A":[1]}}}}} -> @/$features/packet/end-timestamp-field-type: WrongKind
{"$default-clock-type-name":"clk","$features":{"packet":{"end-timestamp-field-type":{"class":"uint","size":65}}}} -> @/$features/packet/end-timestamp-field-type/size: OutOfRange
{"$default-clock-type-name":"clk","$features":{"packet":{"end-timestamp-field-type":{"class":"uint","size":64,"alignment":8192}}}} -> @/$features/packet/end-timestamp-field-type/alignment: Limit
{"$default-clock-type-name":"clk","$features":{"packet":{"end-timestamp-field-type":5}}} -> @/$features/packet/end-timestamp-field-type: WrongKind
{"$default-clock-type-name":"clk","$features":{"packet":{"end-timestamp-field-type":{"class":"uint","size":64}}}} -> accepted
{"$default-clock-type-name":"clk","$features":{"event-record":{"timestamp-field-type":true}}} -> accepted
{"$default-clock-type-name":"clk","$features":{"event-record":{"timestamp-field-type":false}}} -> accepted
{"$default-clock-type-name":"clk","$features":{"event-record":{"timestamp-field-type":null}}} -> accepted
{"$default-clock-type-name":"clk","$features":{"event-record":{"timestamp-field-type":{"class":"uint","size":64,"alignment":32,"preferred-display-base":"hex"}}}} -> accepted
{"$default-clock-type-name":"clk","$features":{"event-record":{"timestamp-field-type":{"class":"uint","size":63}}}} -> accepted
{"$default-clock-type-name":"clk","$features":{"event-record":{"timestamp-field-type":{"class":"sint","size":64}}}} -> @/$features/event-record/timestamp-field-type: WrongKind
{"$default-clock-type-name":"clk","$features":{"event-record":{"timestamp-field-type":{"class":"uenum","size":64,"mappings":{"A":[1]}}}}} -> @/$features/event-record/timestamp-field-type: WrongKind
{"$default-clock-type-name":"clk","$features":{"event-record":{"timestamp-field-type":{"class":"uint","size":65}}}} -> @/$features/event-record/timestamp-field-type/size: OutOfRange
{"$default-clock-type-name":"clk","$features":{"event-record":{"timestamp-field-type":{"class":"uint","size":64,"alignment":8192}}}} -> @/$features/event-record/timestamp-field-type/alignment: Limit
{"$default-clock-type-name":"clk","$features":{"event-record":{"timestamp-field-type":5}}} -> @/$features/event-record/timestamp-field-type: WrongKind
"#;
