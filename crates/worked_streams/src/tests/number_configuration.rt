//! The program's own configuration is what its JSON configures.

use crate::tests::expected::same;
use ctf_types::Config;
use number_packets::small_config;
use std::alloc::Global;
use std::test::Fail;
use tsdl_writer::write_metadata;
use worked_fixtures::configuration;

/// One stream type with one event record type of a byte.
const SMALL: &str =
    r#"{"trace":{"type":{"trace-byte-order":"le","$features":{"data-stream-type-id-field-type":false},"data-stream-types":{"s":{"$features":{"packet":{"total-size-field-type":{"class":"uint","size":32},"content-size-field-type":{"class":"uint","size":32},"discarded-event-records-counter-snapshot-field-type":false},"event-record":{"type-id-field-type":false}},"event-record-types":{"e":{"payload-field-type":{"class":"struct","members":[{"v":{"field-type":{"class":"uint","size":8}}}]}}}}}}}}"#;

/// The metadata text of a configuration, and a line for each stream type: its name, and whether it has no default clock and no extra members, with their alignment.
fn described(alloc: Global, config: &Config) -> Result<String, Fail> {
    let mut text = write_metadata(alloc, config)?;
    for stream in config.streams.as_slice() {
        let name = stream.name.as_str();
        let is_plain = stream.default_clock.is_none() && stream.extras.members.is_empty();
        writeln!(text, "{name} {is_plain} {}", stream.extras.min_align)?;
    }
    Ok(text)
}

/// The same of the configuration of this text, or of the program's own where there is none.
fn described_of(alloc: Global, json: Option<&str>) -> Result<String, Fail> {
    let config = match json {
        Some(json) => configuration(alloc, json)?,
        None => small_config(alloc)?,
    };
    described(alloc, &config)
}

/// They have the same metadata text, which says all of a configuration but the names of the stream types and of their default clocks, and these are the same.
#[test]
fn is_configured_by_its_json(rt: HostRuntime) -> Result<(), Fail> {
    let expected = described_of(rt.alloc(), None)?;
    let found = described_of(rt.alloc(), Some(SMALL))?;
    same(&rt, found.as_str(), expected.as_str(), SMALL);
    same(&rt, found.as_str().ends_with("s true 1\n"), true, SMALL);
    Ok(())
}
