//! The parts of commands, defaults filled in.

use crate::tests::rows::same;
use command_words::command;
use std::test::Fail;

/// Words, and the command that they ask for.
static ROWS: &[(&[&str], &str)] = &[
    (&[], "Ok(FirstPath)"),
    (&["check", "a b"], "Ok(Check(\"a b\"))"),
    (
        &["metadata", "c"],
        "Ok(Metadata(MetadataCommand { config: \"c\", uuid: None }))",
    ),
    (
        &[
            "metadata",
            "--uuid=79e49040-21b5-42d4-a83b-646f78666b62",
            "c",
        ],
        "Ok(Metadata(MetadataCommand { config: \"c\", uuid: Some(79e49040-21b5-42d4-a83b-646f78666b62) }))",
    ),
    (
        &["trace", "c", "s", "d"],
        "Ok(Trace(TraceCommand { config: \"c\", script: \"s\", folder: \"d\", packet_bytes: 4096, buffers: 4, uuid: None, is_quiet: false, workers: None, resume: Anew }))",
    ),
    (
        &[
            "trace",
            "--packet=16",
            "c",
            "--quiet",
            "s",
            "--buffers",
            "+1024",
            "d",
        ],
        "Ok(Trace(TraceCommand { config: \"c\", script: \"s\", folder: \"d\", packet_bytes: 16, buffers: 1024, uuid: None, is_quiet: true, workers: None, resume: Anew }))",
    ),
    (
        &["trace", "c", "s", "d", "--packet", "1", "--buffers=1"],
        "Ok(Trace(TraceCommand { config: \"c\", script: \"s\", folder: \"d\", packet_bytes: 1, buffers: 1, uuid: None, is_quiet: false, workers: None, resume: Anew }))",
    ),
    (
        &["trace", "c", "s", "d", "--packet=1048576"],
        "Ok(Trace(TraceCommand { config: \"c\", script: \"s\", folder: \"d\", packet_bytes: 1048576, buffers: 4, uuid: None, is_quiet: false, workers: None, resume: Anew }))",
    ),
    (
        &["trace", "c", "s", "d", "--workers"],
        "Ok(Trace(TraceCommand { config: \"c\", script: \"s\", folder: \"d\", packet_bytes: 4096, buffers: 4, uuid: None, is_quiet: false, workers: Some(Quota { readings: 1000000 }), resume: Anew }))",
    ),
    (
        &[
            "trace",
            "--quota=288230376151711743",
            "c",
            "s",
            "--workers",
            "d",
        ],
        "Ok(Trace(TraceCommand { config: \"c\", script: \"s\", folder: \"d\", packet_bytes: 4096, buffers: 4, uuid: None, is_quiet: false, workers: Some(Quota { readings: 288230376151711743 }), resume: Anew }))",
    ),
    (
        &["trace", "c", "s", "d", "--quota", "0", "--workers"],
        "Ok(Trace(TraceCommand { config: \"c\", script: \"s\", folder: \"d\", packet_bytes: 4096, buffers: 4, uuid: None, is_quiet: false, workers: Some(Quota { readings: 0 }), resume: Anew }))",
    ),
    (
        &["trace", "--resume", "c", "s", "d"],
        "Ok(Trace(TraceCommand { config: \"c\", script: \"s\", folder: \"d\", packet_bytes: 4096, buffers: 4, uuid: None, is_quiet: false, workers: None, resume: Behind }))",
    ),
    (
        &["trace", "c", "s", "d", "--workers", "--resume", "--quota=1"],
        "Ok(Trace(TraceCommand { config: \"c\", script: \"s\", folder: \"d\", packet_bytes: 4096, buffers: 4, uuid: None, is_quiet: false, workers: Some(Quota { readings: 1 }), resume: Behind }))",
    ),
    (
        &["read", "d", "--quiet"],
        "Ok(Read(ReadCommand { folder: \"d\", is_quiet: true }))",
    ),
];

#[test]
fn asks_for_commands(rt: HostRuntime) -> Result<(), Fail> {
    for (words, asked) in ROWS {
        let found = format!(in rt.alloc(); "{:?}", command(rt.alloc(), words))?;
        same(&rt, found.as_str(), *asked, *words);
    }
    Ok(())
}
