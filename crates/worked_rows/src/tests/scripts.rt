//! What the text of a script says: its streams, its events with values by their fields, and the first name that is refused.

use crate::tests::expected::same;
use ctf_types::Config;
use std::alloc::Global;
use std::test::Fail;
use trace_text::{names_fault, read_script};
use worked_fixtures::{CLOCKED, Changes, SMALL, WITH_BITS, changed, configured, granted};

/// `SMALL` or `CLOCKED` with changes, a script's text, and what it says.
static ROWS: &[(&str, Changes, &str, &str)] = &[
    (
        CLOCKED,
        &[],
        r#"{"streams":[{"name":"t0","type":"s","clock":[10,11,12]}],"events":[{"trace":"t0","event":"a","payload":[-2]},{"trace":"t0","event":"b","payload":["ok"]},{"close":"t0"},{"collect":"t0"}]}"#,
        r#"
[ScriptStream { name: Text { text: "t0" }, type_name: Text { text: "s" }, clock: ListOf { items: [10, 11, 12] }, extras: Values { items: [] } }]
[Event { stream: 0, act: Trace(0, Args { common: Values { items: [] }, specific: Values { items: [] }, payload: Values { items: [Signed(-2)] } }) }, Event { stream: 0, act: Trace(1, Args { common: Values { items: [] }, specific: Values { items: [] }, payload: Values { items: [Text(Bytes { bytes: [111, 107] })] } }) }, Event { stream: 0, act: ClosePacket }, Event { stream: 0, act: Collect }]
None
"#,
    ),
    (
        CLOCKED,
        &[],
        r#" {"events":[],"streams":[]} "#,
        r#"
[]
[]
None
"#,
    ),
    (
        CLOCKED,
        &[],
        r#"{"streams":[{"type":"s","name":"b","clock":null,"extras":null},{"name":"a","type":"s","clock":[0,0,18446744073709551615],"extras":[1,-1,"x",[2,[-3]]]},{"name":"a","type":"s"}],"events":[{"open":"a"},{"enable":"b"},{"disable":"a"}]}"#,
        r#"
[ScriptStream { name: Text { text: "b" }, type_name: Text { text: "s" }, clock: ListOf { items: [] }, extras: Values { items: [] } }, ScriptStream { name: Text { text: "a" }, type_name: Text { text: "s" }, clock: ListOf { items: [0, 0, 18446744073709551615] }, extras: Values { items: [Unsigned(1), Signed(-1), Text(Bytes { bytes: [120] }), List(Values { items: [Unsigned(2), List(Values { items: [Signed(-3)] })] })] } }, ScriptStream { name: Text { text: "a" }, type_name: Text { text: "s" }, clock: ListOf { items: [] }, extras: Values { items: [] } }]
[Event { stream: 1, act: OpenPacket }, Event { stream: 0, act: Enable(true) }, Event { stream: 1, act: Enable(false) }]
Some((2, SameName))
"#,
    ),
    (
        CLOCKED,
        &[],
        r#"{"streams":[{"name":"a","type":"s"}],"events":[{"trace":"a","event":"a","common":null,"specific":[3],"payload":[2,3]},{"trace":"a","event":"b","payload":[7]},{"trace":"a","event":"b","payload":[-9223372036854775808]}]}"#,
        r#"
[ScriptStream { name: Text { text: "a" }, type_name: Text { text: "s" }, clock: ListOf { items: [] }, extras: Values { items: [] } }]
[Event { stream: 0, act: Trace(0, Args { common: Values { items: [] }, specific: Values { items: [Unsigned(3)] }, payload: Values { items: [Signed(2), Unsigned(3)] } }) }, Event { stream: 0, act: Trace(1, Args { common: Values { items: [] }, specific: Values { items: [] }, payload: Values { items: [Unsigned(7)] } }) }, Event { stream: 0, act: Trace(1, Args { common: Values { items: [] }, specific: Values { items: [] }, payload: Values { items: [Signed(-9223372036854775808)] } }) }]
None
"#,
    ),
    (
        SMALL,
        WITH_BITS,
        r#"{"streams":[{"name":"a","type":"s"}],"events":[{"trace":"a","event":"e","payload":[1,[0,1]]},{"trace":"a","event":"e","payload":[[-1],-1]}]}"#,
        r#"
[ScriptStream { name: Text { text: "a" }, type_name: Text { text: "s" }, clock: ListOf { items: [] }, extras: Values { items: [] } }]
[Event { stream: 0, act: Trace(0, Args { common: Values { items: [] }, specific: Values { items: [] }, payload: Values { items: [Unsigned(1), List(Values { items: [Unsigned(0), Unsigned(1)] })] } }) }, Event { stream: 0, act: Trace(0, Args { common: Values { items: [] }, specific: Values { items: [] }, payload: Values { items: [List(Values { items: [Signed(-1)] }), Signed(-1)] } }) }]
None
"#,
    ),
];

#[test]
fn reads_streams_and_events(rt: HostRuntime) -> Result<(), Fail> {
    for (text, changes, script, want) in ROWS {
        let found = said(rt.alloc(), text, changes, script)?;
        same(&rt, found.as_str(), want.trim(), *script);
    }
    Ok(())
}

fn said(alloc: Global, text: &str, changes: Changes, script: &str) -> Result<String, Fail> {
    let text = changed(alloc, text, changes)?;
    let config = configured(alloc, text.as_str(), None)?;
    said_by(alloc, &config, script)
}

/// The streams, the events, and the first name that is refused, a line each.
fn said_by(alloc: Global, config: &Config, text: &str) -> Result<String, Fail> {
    let script = read_script(alloc, config, text.as_bytes())?;
    let (streams, events) = (script.streams.as_slice(), script.events.as_slice());
    let refused = names_fault(&script);
    granted(format!(in alloc; "{streams:?}\n{events:?}\n{refused:?}"))
}
