//! Clock types.

pub const CLOCKS: &str = r#"
{} -> accepted
null -> @: WrongKind
{"x":1} -> @/x: Unknown
{"frequency":0} -> @/frequency: OutOfRange
{"frequency":18446744073709551615} -> accepted
{"frequency":"fast"} -> @/frequency: WrongKind
{"precision":-1} -> @/precision: OutOfRange
{"offset":{"seconds":-9223372036854775808,"cycles":18446744073709551615}} -> accepted
{"offset":{"seconds":9223372036854775808}} -> @/offset/seconds: OutOfRange
{"offset":{"cycles":-1}} -> @/offset/cycles: OutOfRange
{"offset":{"x":1}} -> @/offset/x: Unknown
{"offset":5} -> @/offset: WrongKind
{"description":"a\u0001"} -> @/description: OutOfRange
{"description":"a\n\tb"} -> accepted
{"uuid":"auto"} -> @/uuid: OutOfRange
{"origin-is-unix-epoch":1} -> @/origin-is-unix-epoch: WrongKind
{"origin-is-unix-epoch":false,"$c-type":["x"]} -> accepted
{"frequency":1} -> accepted
{"frequency":null} -> accepted
{"frequency":-1} -> @/frequency: OutOfRange
{"frequency":18446744073709551616} -> @/frequency: NotWhole
{"precision":0} -> accepted
{"precision":18446744073709551615} -> accepted
{"precision":18446744073709551616} -> @/precision: NotWhole
{"precision":"x"} -> @/precision: WrongKind
{"precision":null} -> accepted
{"uuid":"79e49040-21b5-42d4-a83b-646f78666b62"} -> accepted
{"uuid":"79e4904021b542d4a83b646f78666b62"} -> accepted
{"uuid":"x"} -> @/uuid: OutOfRange
{"uuid":5} -> @/uuid: WrongKind
{"uuid":null} -> accepted
{"description":""} -> accepted
{"description":5} -> @/description: WrongKind
{"description":null} -> accepted
{"description":"\u001f"} -> @/description: OutOfRange
{"description":" \u007f é"} -> accepted
{"offset":{}} -> accepted
{"offset":null} -> accepted
{"offset":[]} -> @/offset: WrongKind
{"offset":{"seconds":9223372036854775807,"cycles":0}} -> accepted
{"offset":{"seconds":-9223372036854775808}} -> accepted
{"offset":{"seconds":-9223372036854775809}} -> @/offset/seconds: NotWhole
{"offset":{"seconds":"1"}} -> @/offset/seconds: WrongKind
{"offset":{"seconds":null,"cycles":null}} -> accepted
{"offset":{"cycles":18446744073709551615}} -> accepted
{"offset":{"cycles":18446744073709551616}} -> @/offset/cycles: NotWhole
{"offset":{"cycles":"1"}} -> @/offset/cycles: WrongKind
{"origin-is-unix-epoch":true} -> accepted
{"origin-is-unix-epoch":null} -> accepted
{"origin-is-unix-epoch":"true"} -> @/origin-is-unix-epoch: WrongKind
{"$c-type":5} -> accepted
{"$c-type":null} -> accepted
{"$c-type":1.5} -> @/$c-type: NotWhole
{"frequency":0,"description":5} -> @/description: WrongKind
"#;
