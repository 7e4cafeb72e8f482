//! Whole texts.

pub const ROOTS: &str = r#"
{ -> NotJson
[] -> WrongKind
{} -> trace: Missing
{"trace":null} -> trace: WrongKind
{"trace":5} -> trace: WrongKind
{"trace":{}} -> trace/type: Missing
{"trace":{"type":5}} -> trace/type: WrongKind
{"trace":{"type":{"trace-byte-order":"le"}}} -> accepted
{"trace":{"type":{"trace-byte-order":"le"}},"x":1} -> x: Unknown
{"trace":{"type":{"trace-byte-order":"le"},"x":1}} -> trace/x: Unknown
{"trace":{"type":{"trace-byte-order":"le"}},"options":{"code":[null]}} -> accepted
{"trace":{"type":{"trace-byte-order":"le"}},"options":1.5} -> options: NotWhole
{"trace":1e3} -> trace: NotWhole
{"trace":18446744073709551616} -> trace: NotWhole
{"trace":1e999} -> NotJson
null -> WrongKind
5 -> WrongKind
"x" -> WrongKind
 -> NotJson
{"trace":{"type":{"trace-byte-order":"le"}},"options":null} -> accepted
{"trace":{"type":{"trace-byte-order":"le"}},"options":5} -> accepted
{"trace":{"type":null}} -> trace/type: WrongKind
{"trace":{"environment":5}} -> trace/type: Missing
{"trace":{"type":5,"environment":5}} -> trace/environment: WrongKind
{"trace":5,"x":1} -> trace: WrongKind
{"options":1} -> trace: Missing
{"trace":{"type":{"trace-byte-order":"middle"},"type":{"trace-byte-order":"le"}}} -> accepted
{"trace":{"type":{"trace-byte-order":-0}}} -> trace/type/trace-byte-order: NotWhole
"#;
