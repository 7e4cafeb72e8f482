//! Whole texts, judged with an identifier that is handed in.

pub const IDENTIFIED: &str = r#"
{"trace":{"type":{"trace-byte-order":"le","uuid":"auto"}}} -> accepted
{"trace":{"type":{"trace-byte-order":"le","uuid":"auto","$features":{"uuid-field-type":true}}}} -> accepted
{"trace":{"type":{"trace-byte-order":"le","uuid":"auto","$features":{"uuid-field-type":false}}}} -> accepted
{"trace":{"type":{"trace-byte-order":"le","uuid":"00000000-0000-0000-0000-000000000001"}}} -> accepted
{"trace":{"type":{"trace-byte-order":"le","uuid":"x"}}} -> trace/type/uuid: OutOfRange
{"trace":{"type":{"trace-byte-order":"le","$features":{"uuid-field-type":true}}}} -> trace/type/$features/uuid-field-type: NoUuid
{"trace":{"type":{"trace-byte-order":"le","uuid":null,"$features":{"uuid-field-type":true}}}} -> trace/type/$features/uuid-field-type: NoUuid
{"trace":{"type":{"trace-byte-order":"le","clock-types":{"clk":{"uuid":"auto"}}}}} -> trace/type/clock-types/clk/uuid: OutOfRange
"#;
