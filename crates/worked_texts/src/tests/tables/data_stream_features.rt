//! Features of packets and of event records.

pub const PACKETS: &str = r#"
5 -> @: WrongKind
{"x":true} -> @/x: Unknown
{"type-id-field-type":true} -> @/type-id-field-type: Unknown
{"total-size-field-type":false} -> @/total-size-field-type: OutOfRange
{"content-size-field-type":false} -> @/content-size-field-type: OutOfRange
{"total-size-field-type":true,"content-size-field-type":null} -> accepted
{"total-size-field-type":U8,"content-size-field-type":U8} -> accepted
{"total-size-field-type":5} -> @/total-size-field-type: WrongKind
{"total-size-field-type":{"class":"sint","size":8}} -> @/total-size-field-type: WrongKind
{"total-size-field-type":{"class":"str"}} -> @/total-size-field-type: WrongKind
{"total-size-field-type":{"class":"uint","size":65}} -> @/total-size-field-type/size: OutOfRange
{"total-size-field-type":"nope"} -> @/total-size-field-type: NoSuchAlias
{"sequence-number-field-type":U8} -> accepted
{"sequence-number-field-type":BYTE} -> @/sequence-number-field-type: WrongKind
{"discarded-event-records-counter-snapshot-field-type":false} -> accepted
{"beginning-timestamp-field-type":true} -> @/beginning-timestamp-field-type: NoClock
{"end-timestamp-field-type":true} -> @/end-timestamp-field-type: NoClock
{"total-size-field-type":true} -> accepted
{"total-size-field-type":null} -> accepted
{"total-size-field-type":{"class":"uint","size":32,"alignment":64}} -> accepted
{"total-size-field-type":[]} -> @/total-size-field-type: WrongKind
{"total-size-field-type":{"class":"uenum","size":8,"mappings":{"A":[1]}}} -> @/total-size-field-type: WrongKind
{"total-size-field-type":BYTE} -> @/total-size-field-type: WrongKind
{"total-size-field-type":{"class":"uint"}} -> @/total-size-field-type/size: Missing
{"total-size-field-type":{"class":"uint","size":8,"alignment":8192}} -> @/total-size-field-type/alignment: Limit
{"content-size-field-type":true} -> accepted
{"content-size-field-type":null} -> accepted
{"content-size-field-type":{"class":"uint","size":32,"alignment":64}} -> accepted
{"content-size-field-type":5} -> @/content-size-field-type: WrongKind
{"content-size-field-type":[]} -> @/content-size-field-type: WrongKind
{"content-size-field-type":{"class":"sint","size":8}} -> @/content-size-field-type: WrongKind
{"content-size-field-type":{"class":"str"}} -> @/content-size-field-type: WrongKind
{"content-size-field-type":{"class":"uenum","size":8,"mappings":{"A":[1]}}} -> @/content-size-field-type: WrongKind
{"content-size-field-type":BYTE} -> @/content-size-field-type: WrongKind
{"content-size-field-type":{"class":"uint","size":65}} -> @/content-size-field-type/size: OutOfRange
{"content-size-field-type":{"class":"uint"}} -> @/content-size-field-type/size: Missing
{"content-size-field-type":{"class":"uint","size":8,"alignment":8192}} -> @/content-size-field-type/alignment: Limit
{"content-size-field-type":"nope"} -> @/content-size-field-type: NoSuchAlias
{"discarded-event-records-counter-snapshot-field-type":true} -> accepted
{"discarded-event-records-counter-snapshot-field-type":null} -> accepted
{"discarded-event-records-counter-snapshot-field-type":{"class":"uint","size":32,"alignment":64}} -> accepted
{"discarded-event-records-counter-snapshot-field-type":5} -> @/discarded-event-records-counter-snapshot-field-type: WrongKind
{"discarded-event-records-counter-snapshot-field-type":[]} -> @/discarded-event-records-counter-snapshot-field-type: WrongKind
{"discarded-event-records-counter-snapshot-field-type":{"class":"sint","size":8}} -> @/discarded-event-records-counter-snapshot-field-type: WrongKind
{"discarded-event-records-counter-snapshot-field-type":{"class":"str"}} -> @/discarded-event-records-counter-snapshot-field-type: WrongKind
{"discarded-event-records-counter-snapshot-field-type":{"class":"uenum","size":8,"mappings":{"A":[1]}}} -> @/discarded-event-records-counter-snapshot-field-type: WrongKind
{"discarded-event-records-counter-snapshot-field-type":BYTE} -> @/discarded-event-records-counter-snapshot-field-type: WrongKind
{"discarded-event-records-counter-snapshot-field-type":{"class":"uint","size":65}} -> @/discarded-event-records-counter-snapshot-field-type/size: OutOfRange
{"discarded-event-records-counter-snapshot-field-type":{"class":"uint"}} -> @/discarded-event-records-counter-snapshot-field-type/size: Missing
{"discarded-event-records-counter-snapshot-field-type":{"class":"uint","size":8,"alignment":8192}} -> @/discarded-event-records-counter-snapshot-field-type/alignment: Limit
{"discarded-event-records-counter-snapshot-field-type":"nope"} -> @/discarded-event-records-counter-snapshot-field-type: NoSuchAlias
{"sequence-number-field-type":true} -> accepted
{"sequence-number-field-type":null} -> accepted
{"sequence-number-field-type":false} -> accepted
{"sequence-number-field-type":{"class":"uint","size":32,"alignment":64}} -> accepted
{"sequence-number-field-type":5} -> @/sequence-number-field-type: WrongKind
{"sequence-number-field-type":[]} -> @/sequence-number-field-type: WrongKind
{"sequence-number-field-type":{"class":"sint","size":8}} -> @/sequence-number-field-type: WrongKind
{"sequence-number-field-type":{"class":"str"}} -> @/sequence-number-field-type: WrongKind
{"sequence-number-field-type":{"class":"uenum","size":8,"mappings":{"A":[1]}}} -> @/sequence-number-field-type: WrongKind
{"sequence-number-field-type":{"class":"uint","size":65}} -> @/sequence-number-field-type/size: OutOfRange
{"sequence-number-field-type":{"class":"uint"}} -> @/sequence-number-field-type/size: Missing
{"sequence-number-field-type":{"class":"uint","size":8,"alignment":8192}} -> @/sequence-number-field-type/alignment: Limit
{"sequence-number-field-type":"nope"} -> @/sequence-number-field-type: NoSuchAlias
{"x":"nope"} -> @/x: Unknown
{"type-id-field-type":"nope"} -> @/type-id-field-type: Unknown
{"x":{"class":"nothing"}} -> @/x: Unknown
"#;

pub const RECORDS: &str = r#"
5 -> @: WrongKind
{"x":true} -> @/x: Unknown
{"timestamp-field-type":true} -> @/timestamp-field-type: NoClock
{"timestamp-field-type":false} -> accepted
{"type-id-field-type":true} -> accepted
{"type-id-field-type":null} -> accepted
{"type-id-field-type":false} -> accepted
{"type-id-field-type":{"class":"uint","size":32,"alignment":64}} -> accepted
{"type-id-field-type":5} -> @/type-id-field-type: WrongKind
{"type-id-field-type":[]} -> @/type-id-field-type: WrongKind
{"type-id-field-type":{"class":"sint","size":8}} -> @/type-id-field-type: WrongKind
{"type-id-field-type":{"class":"str"}} -> @/type-id-field-type: WrongKind
{"type-id-field-type":{"class":"uenum","size":8,"mappings":{"A":[1]}}} -> @/type-id-field-type: WrongKind
{"type-id-field-type":BYTE} -> @/type-id-field-type: WrongKind
{"type-id-field-type":{"class":"uint","size":65}} -> @/type-id-field-type/size: OutOfRange
{"type-id-field-type":{"class":"uint"}} -> @/type-id-field-type/size: Missing
{"type-id-field-type":{"class":"uint","size":8,"alignment":8192}} -> @/type-id-field-type/alignment: Limit
{"type-id-field-type":"nope"} -> @/type-id-field-type: NoSuchAlias
{"x":"nope"} -> @/x: Unknown
{"total-size-field-type":"nope"} -> @/total-size-field-type: Unknown
{"timestamp-field-type":{"class":"sint","size":64}} -> @/timestamp-field-type: WrongKind
{"timestamp-field-type":null} -> accepted
"#;
