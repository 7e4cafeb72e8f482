//! Words that the metadata language uses itself, as names of each kind.

pub const PAYLOADS: &str = r#"
{"class":"struct","members":[{"align":{"field-type":U8}}]} -> @/members/0/align: ReservedName
{"class":"struct","members":[{"callsite":{"field-type":U8}}]} -> @/members/0/callsite: ReservedName
{"class":"struct","members":[{"char":{"field-type":U8}}]} -> @/members/0/char: ReservedName
{"class":"struct","members":[{"clock":{"field-type":U8}}]} -> @/members/0/clock: ReservedName
{"class":"struct","members":[{"const":{"field-type":U8}}]} -> @/members/0/const: ReservedName
{"class":"struct","members":[{"double":{"field-type":U8}}]} -> @/members/0/double: ReservedName
{"class":"struct","members":[{"enum":{"field-type":U8}}]} -> @/members/0/enum: ReservedName
{"class":"struct","members":[{"env":{"field-type":U8}}]} -> @/members/0/env: ReservedName
{"class":"struct","members":[{"event":{"field-type":U8}}]} -> @/members/0/event: ReservedName
{"class":"struct","members":[{"float":{"field-type":U8}}]} -> @/members/0/float: ReservedName
{"class":"struct","members":[{"floating_point":{"field-type":U8}}]} -> @/members/0/floating_point: ReservedName
{"class":"struct","members":[{"int":{"field-type":U8}}]} -> @/members/0/int: ReservedName
{"class":"struct","members":[{"integer":{"field-type":U8}}]} -> @/members/0/integer: ReservedName
{"class":"struct","members":[{"long":{"field-type":U8}}]} -> @/members/0/long: ReservedName
{"class":"struct","members":[{"short":{"field-type":U8}}]} -> @/members/0/short: ReservedName
{"class":"struct","members":[{"signed":{"field-type":U8}}]} -> @/members/0/signed: ReservedName
{"class":"struct","members":[{"stream":{"field-type":U8}}]} -> @/members/0/stream: ReservedName
{"class":"struct","members":[{"string":{"field-type":U8}}]} -> @/members/0/string: ReservedName
{"class":"struct","members":[{"struct":{"field-type":U8}}]} -> @/members/0/struct: ReservedName
{"class":"struct","members":[{"trace":{"field-type":U8}}]} -> @/members/0/trace: ReservedName
{"class":"struct","members":[{"typealias":{"field-type":U8}}]} -> @/members/0/typealias: ReservedName
{"class":"struct","members":[{"typedef":{"field-type":U8}}]} -> @/members/0/typedef: ReservedName
{"class":"struct","members":[{"unsigned":{"field-type":U8}}]} -> @/members/0/unsigned: ReservedName
{"class":"struct","members":[{"variant":{"field-type":U8}}]} -> @/members/0/variant: ReservedName
{"class":"struct","members":[{"void":{"field-type":U8}}]} -> @/members/0/void: ReservedName
{"class":"struct","members":[{"_Bool":{"field-type":U8}}]} -> @/members/0/_Bool: ReservedName
{"class":"struct","members":[{"_Complex":{"field-type":U8}}]} -> @/members/0/_Complex: ReservedName
{"class":"struct","members":[{"_Imaginary":{"field-type":U8}}]} -> @/members/0/_Imaginary: ReservedName
"#;

pub const STREAMS: &str = r#"
{"packet-context-field-type-extra-members":[{"align":{"field-type":U8}}]} -> @/packet-context-field-type-extra-members/0/align: ReservedName
{"packet-context-field-type-extra-members":[{"callsite":{"field-type":U8}}]} -> @/packet-context-field-type-extra-members/0/callsite: ReservedName
{"packet-context-field-type-extra-members":[{"char":{"field-type":U8}}]} -> @/packet-context-field-type-extra-members/0/char: ReservedName
{"packet-context-field-type-extra-members":[{"clock":{"field-type":U8}}]} -> @/packet-context-field-type-extra-members/0/clock: ReservedName
{"packet-context-field-type-extra-members":[{"const":{"field-type":U8}}]} -> @/packet-context-field-type-extra-members/0/const: ReservedName
{"packet-context-field-type-extra-members":[{"double":{"field-type":U8}}]} -> @/packet-context-field-type-extra-members/0/double: ReservedName
{"packet-context-field-type-extra-members":[{"enum":{"field-type":U8}}]} -> @/packet-context-field-type-extra-members/0/enum: ReservedName
{"packet-context-field-type-extra-members":[{"env":{"field-type":U8}}]} -> @/packet-context-field-type-extra-members/0/env: ReservedName
{"packet-context-field-type-extra-members":[{"event":{"field-type":U8}}]} -> @/packet-context-field-type-extra-members/0/event: ReservedName
{"packet-context-field-type-extra-members":[{"float":{"field-type":U8}}]} -> @/packet-context-field-type-extra-members/0/float: ReservedName
{"packet-context-field-type-extra-members":[{"floating_point":{"field-type":U8}}]} -> @/packet-context-field-type-extra-members/0/floating_point: ReservedName
{"packet-context-field-type-extra-members":[{"int":{"field-type":U8}}]} -> @/packet-context-field-type-extra-members/0/int: ReservedName
{"packet-context-field-type-extra-members":[{"integer":{"field-type":U8}}]} -> @/packet-context-field-type-extra-members/0/integer: ReservedName
{"packet-context-field-type-extra-members":[{"long":{"field-type":U8}}]} -> @/packet-context-field-type-extra-members/0/long: ReservedName
{"packet-context-field-type-extra-members":[{"short":{"field-type":U8}}]} -> @/packet-context-field-type-extra-members/0/short: ReservedName
{"packet-context-field-type-extra-members":[{"signed":{"field-type":U8}}]} -> @/packet-context-field-type-extra-members/0/signed: ReservedName
{"packet-context-field-type-extra-members":[{"stream":{"field-type":U8}}]} -> @/packet-context-field-type-extra-members/0/stream: ReservedName
{"packet-context-field-type-extra-members":[{"string":{"field-type":U8}}]} -> @/packet-context-field-type-extra-members/0/string: ReservedName
{"packet-context-field-type-extra-members":[{"struct":{"field-type":U8}}]} -> @/packet-context-field-type-extra-members/0/struct: ReservedName
{"packet-context-field-type-extra-members":[{"trace":{"field-type":U8}}]} -> @/packet-context-field-type-extra-members/0/trace: ReservedName
{"packet-context-field-type-extra-members":[{"typealias":{"field-type":U8}}]} -> @/packet-context-field-type-extra-members/0/typealias: ReservedName
{"packet-context-field-type-extra-members":[{"typedef":{"field-type":U8}}]} -> @/packet-context-field-type-extra-members/0/typedef: ReservedName
{"packet-context-field-type-extra-members":[{"unsigned":{"field-type":U8}}]} -> @/packet-context-field-type-extra-members/0/unsigned: ReservedName
{"packet-context-field-type-extra-members":[{"variant":{"field-type":U8}}]} -> @/packet-context-field-type-extra-members/0/variant: ReservedName
{"packet-context-field-type-extra-members":[{"void":{"field-type":U8}}]} -> @/packet-context-field-type-extra-members/0/void: ReservedName
{"packet-context-field-type-extra-members":[{"_Bool":{"field-type":U8}}]} -> @/packet-context-field-type-extra-members/0/_Bool: ReservedName
{"packet-context-field-type-extra-members":[{"_Complex":{"field-type":U8}}]} -> @/packet-context-field-type-extra-members/0/_Complex: ReservedName
{"packet-context-field-type-extra-members":[{"_Imaginary":{"field-type":U8}}]} -> @/packet-context-field-type-extra-members/0/_Imaginary: ReservedName
{"event-record-types":{"align":{},"callsite":{},"char":{},"clock":{},"const":{},"double":{},"enum":{},"env":{},"event":{},"float":{},"floating_point":{},"int":{},"integer":{},"long":{},"short":{},"signed":{},"stream":{},"string":{},"struct":{},"trace":{},"typealias":{},"typedef":{},"unsigned":{},"variant":{},"void":{},"_Bool":{},"_Complex":{},"_Imaginary":{}}} -> accepted
"#;

pub const TRACE_TYPES: &str = r#"
{"trace-byte-order":"le","clock-types":{"align":{}}} -> @/clock-types/align: ReservedName
{"trace-byte-order":"le","clock-types":{"callsite":{}}} -> @/clock-types/callsite: ReservedName
{"trace-byte-order":"le","clock-types":{"char":{}}} -> @/clock-types/char: ReservedName
{"trace-byte-order":"le","clock-types":{"clock":{}}} -> @/clock-types/clock: ReservedName
{"trace-byte-order":"le","clock-types":{"const":{}}} -> @/clock-types/const: ReservedName
{"trace-byte-order":"le","clock-types":{"double":{}}} -> @/clock-types/double: ReservedName
{"trace-byte-order":"le","clock-types":{"enum":{}}} -> @/clock-types/enum: ReservedName
{"trace-byte-order":"le","clock-types":{"env":{}}} -> @/clock-types/env: ReservedName
{"trace-byte-order":"le","clock-types":{"event":{}}} -> @/clock-types/event: ReservedName
{"trace-byte-order":"le","clock-types":{"float":{}}} -> @/clock-types/float: ReservedName
{"trace-byte-order":"le","clock-types":{"floating_point":{}}} -> @/clock-types/floating_point: ReservedName
{"trace-byte-order":"le","clock-types":{"int":{}}} -> @/clock-types/int: ReservedName
{"trace-byte-order":"le","clock-types":{"integer":{}}} -> @/clock-types/integer: ReservedName
{"trace-byte-order":"le","clock-types":{"long":{}}} -> @/clock-types/long: ReservedName
{"trace-byte-order":"le","clock-types":{"short":{}}} -> @/clock-types/short: ReservedName
{"trace-byte-order":"le","clock-types":{"signed":{}}} -> @/clock-types/signed: ReservedName
{"trace-byte-order":"le","clock-types":{"stream":{}}} -> @/clock-types/stream: ReservedName
{"trace-byte-order":"le","clock-types":{"string":{}}} -> @/clock-types/string: ReservedName
{"trace-byte-order":"le","clock-types":{"struct":{}}} -> @/clock-types/struct: ReservedName
{"trace-byte-order":"le","clock-types":{"trace":{}}} -> @/clock-types/trace: ReservedName
{"trace-byte-order":"le","clock-types":{"typealias":{}}} -> @/clock-types/typealias: ReservedName
{"trace-byte-order":"le","clock-types":{"typedef":{}}} -> @/clock-types/typedef: ReservedName
{"trace-byte-order":"le","clock-types":{"unsigned":{}}} -> @/clock-types/unsigned: ReservedName
{"trace-byte-order":"le","clock-types":{"variant":{}}} -> @/clock-types/variant: ReservedName
{"trace-byte-order":"le","clock-types":{"void":{}}} -> @/clock-types/void: ReservedName
{"trace-byte-order":"le","clock-types":{"_Bool":{}}} -> @/clock-types/_Bool: ReservedName
{"trace-byte-order":"le","clock-types":{"_Complex":{}}} -> @/clock-types/_Complex: ReservedName
{"trace-byte-order":"le","clock-types":{"_Imaginary":{}}} -> @/clock-types/_Imaginary: ReservedName
{"trace-byte-order":"le","data-stream-types":{"align":{},"callsite":{},"char":{},"clock":{},"const":{},"double":{},"enum":{},"env":{},"event":{},"float":{},"floating_point":{},"int":{},"integer":{},"long":{},"short":{},"signed":{},"stream":{},"string":{},"struct":{},"trace":{},"typealias":{},"typedef":{},"unsigned":{},"variant":{},"void":{},"_Bool":{},"_Complex":{},"_Imaginary":{}}} -> accepted
"#;

pub const ENVIRONMENTS: &str = r#"
{"align":1} -> @/align: ReservedName
{"callsite":1} -> @/callsite: ReservedName
{"char":1} -> @/char: ReservedName
{"clock":1} -> @/clock: ReservedName
{"const":1} -> @/const: ReservedName
{"double":1} -> @/double: ReservedName
{"enum":1} -> @/enum: ReservedName
{"env":1} -> @/env: ReservedName
{"event":1} -> @/event: ReservedName
{"float":1} -> @/float: ReservedName
{"floating_point":1} -> @/floating_point: ReservedName
{"int":1} -> @/int: ReservedName
{"integer":1} -> @/integer: ReservedName
{"long":1} -> @/long: ReservedName
{"short":1} -> @/short: ReservedName
{"signed":1} -> @/signed: ReservedName
{"stream":1} -> @/stream: ReservedName
{"string":1} -> @/string: ReservedName
{"struct":1} -> @/struct: ReservedName
{"trace":1} -> @/trace: ReservedName
{"typealias":1} -> @/typealias: ReservedName
{"typedef":1} -> @/typedef: ReservedName
{"unsigned":1} -> @/unsigned: ReservedName
{"variant":1} -> @/variant: ReservedName
{"void":1} -> @/void: ReservedName
{"_Bool":1} -> @/_Bool: ReservedName
{"_Complex":1} -> @/_Complex: ReservedName
{"_Imaginary":1} -> @/_Imaginary: ReservedName
"#;

pub const FIELD_TYPES: &str = r#"
{"align":U8,"callsite":U8,"char":U8,"clock":U8,"const":U8,"double":U8,"enum":U8,"env":U8,"event":U8,"float":U8,"floating_point":U8,"int":U8,"integer":U8,"long":U8,"short":U8,"signed":U8,"stream":U8,"string":U8,"struct":U8,"trace":U8,"typealias":U8,"typedef":U8,"unsigned":U8,"variant":U8,"void":U8,"_Bool":U8,"_Complex":U8,"_Imaginary":U8} -> accepted
"#;

pub const LOG_LEVELS: &str = r#"
{"align":1,"callsite":1,"char":1,"clock":1,"const":1,"double":1,"enum":1,"env":1,"event":1,"float":1,"floating_point":1,"int":1,"integer":1,"long":1,"short":1,"signed":1,"stream":1,"string":1,"struct":1,"trace":1,"typealias":1,"typedef":1,"unsigned":1,"variant":1,"void":1,"_Bool":1,"_Complex":1,"_Imaginary":1} -> accepted
"#;

pub const FIELDS: &str = r#"
{"class":"uenum","size":8,"mappings":{"align":[1],"callsite":[1],"char":[1],"clock":[1],"const":[1],"double":[1],"enum":[1],"env":[1],"event":[1],"float":[1],"floating_point":[1],"int":[1],"integer":[1],"long":[1],"short":[1],"signed":[1],"stream":[1],"string":[1],"struct":[1],"trace":[1],"typealias":[1],"typedef":[1],"unsigned":[1],"variant":[1],"void":[1],"_Bool":[1],"_Complex":[1],"_Imaginary":[1]}} -> accepted
"#;
