//! Calls that are made once more where memory was wanting: they answer as with ample memory. A test passes then; where another request is refused it answers that
//! it is out of memory. The script beside the gate refuses each request of these tests in turn.

use crate::tests::rows::{Look, looked_up, same};
use conf_check::check;
use conf_inherit::resolve;
use conf_tree::{ConfFault, Tree, read_tree};
use ctf_types::{Config, Duplicate, Metadata};
use serde_json::Value;
use std::alloc::Global;
use std::test::Fail;
use tsdl_grammar::{MetaFault, MetaFaultKind, escape, tokens, unescape};
use tsdl_reader::{explain_fault, read_metadata};
use tsdl_writer::write_metadata;
use worked_fixtures::configuration;

/// An alias that inherits from another, and a payload that inherits from that.
const TEXT: &str =
    r#"{"trace":{"environment":{"host":"a\"b\n"},"type":{"native-byte-order":"be","clock-types":{"clk":{"description":"since boot"}},"$log-level-aliases":{"LOUD":7},"$field-type-aliases":{"u8":{"class":"uint","size":8},"u16":{"$inherit":"u8","size":16},"state":{"class":"uenum","size":8,"mappings":{"ON":[[1,3],9]}}},"data-stream-types":{"s":{"$default-clock-type-name":"clk","event-record-types":{"a":{"log-level":"LOUD","payload-field-type":{"class":"struct","members":[{"x":"u16"},{"y":"state"},{"l":{"field-type":{"class":"dynamic-array","element-field-type":"u8"}}}]}}}}}}}}"#;

/// What the second call answers, where the first one wanted memory and has no other fault.
fn at_last<T: Drop, E: Drop>(wanted_memory: bool, answer: Result<T, E>) -> Result<T, Fail> {
    match answer {
        Ok(value) if wanted_memory => Ok(value),
        Ok(_) => Err("a fault, and none in a second call".into()),
        Err(_) => Err("a second refusal".into()),
    }
}

fn tree(alloc: Global, json: &str) -> Result<Tree, Fail> {
    match read_tree(alloc, json.as_bytes()) {
        Ok(tree) => Ok(tree),
        Err(fault) => at_last(fault.is_memory(), read_tree(alloc, json.as_bytes())),
    }
}

/// A refusal spends the tree, so it is read anew.
fn resolved(alloc: Global, json: &str) -> Result<Tree, Fail> {
    match resolve(alloc, tree(alloc, json)?) {
        Ok(tree) => Ok(tree),
        Err(fault) => at_last(fault.is_memory(), resolve(alloc, tree(alloc, json)?)),
    }
}

/// The configuration, whose tree is made anew where it was spent.
fn checked(alloc: Global, json: &str) -> Result<Config, Fail> {
    match check(alloc, resolved(alloc, json)?, None) {
        Ok(config) => Ok(config),
        Err(fault) => at_last(
            fault.is_memory(),
            check(alloc, resolved(alloc, json)?, None),
        ),
    }
}

#[test]
fn judges_a_configuration(rt: HostRuntime) -> Result<(), Fail> {
    let config = checked(rt.alloc(), TEXT)?;
    let found = (config.streams.len(), config.clocks.len());
    same(&rt, found, (1, 1), "stream types, clock types");
    Ok(())
}

/// A look-up's fault, whose path copies a name.
fn fault_of(alloc: Global, value: &Value) -> Option<ConfFault> {
    let fault = looked_up(alloc, &Look::Digit, value).err()?;
    if fault.is_memory() {
        looked_up(alloc, &Look::Digit, value).err()
    } else {
        Some(fault)
    }
}

/// What is wrong with a tree, as it prints.
fn said_of(alloc: Global, json: &str) -> Result<String, Fail> {
    let tree = tree(alloc, json)?;
    match fault_of(alloc, &tree.value) {
        Some(fault) => Ok(format!(in alloc; "{fault}")?),
        None => Err("a number in place of a text".into()),
    }
}

/// Trees, and what is wrong with each.
static WRONG: &[(&str, &str)] = &[
    (
        r#"{"a":"x"}"#,
        "a: wrong kind of value: expected the kind that this place asks for",
    ),
    (
        r#"{"b":1}"#,
        "a: property is missing: expected a value here",
    ),
    (
        r#"{"a":10}"#,
        "a: value out of range: expected one that this place allows",
    ),
];

#[test]
fn looks_up_what_is_wrong(rt: HostRuntime) -> Result<(), Fail> {
    for (json, want) in WRONG {
        let said = said_of(rt.alloc(), json)?;
        same(&rt, said.as_str(), *want, *json);
    }
    Ok(())
}

fn written(alloc: Global, config: &Config) -> Result<String, Fail> {
    match write_metadata(alloc, config) {
        Ok(text) => Ok(text),
        Err(_) => at_last(true, write_metadata(alloc, config)),
    }
}

fn read(alloc: Global, metadata: &[u8]) -> Result<Metadata, Fail> {
    match read_metadata(alloc, metadata) {
        Ok(metadata) => Ok(metadata),
        Err(fault) => at_last(
            fault.kind == MetaFaultKind::OutOfMemory,
            read_metadata(alloc, metadata),
        ),
    }
}

#[test]
fn writes_and_reads_metadata(rt: HostRuntime) -> Result<(), Fail> {
    let text = written(rt.alloc(), &configuration(rt.alloc(), TEXT)?)?;
    let metadata = read(rt.alloc(), text.as_str().as_bytes())?;
    let (streams, clocks) = (metadata.streams.len(), metadata.clocks.len());
    let found = (streams, clocks, metadata.environment.len());
    same(&rt, found, (1, 1, 1), "streams, clocks, environment");
    Ok(())
}

/// How many stream types the copy of the configuration has, and its metadata.
fn copied_config(alloc: Global) -> Result<(usize, String), Fail> {
    let config = configuration(alloc, TEXT)?;
    let copied = match config.copy(alloc) {
        Ok(copied) => copied,
        Err(_) => at_last(true, config.copy(alloc))?,
    };
    Ok((copied.streams.len(), write_metadata(alloc, &config)?))
}

/// How many streams the copy of the metadata has.
fn copied_metadata(alloc: Global, text: &str) -> Result<usize, Fail> {
    let metadata = read_metadata(alloc, text.as_bytes())?;
    let copied = match metadata.copy(alloc) {
        Ok(copied) => copied,
        Err(_) => at_last(true, metadata.copy(alloc))?,
    };
    Ok(copied.streams.len())
}

#[test]
fn copies_both(rt: HostRuntime) -> Result<(), Fail> {
    let (stream_types, text) = copied_config(rt.alloc())?;
    let streams = copied_metadata(rt.alloc(), text.as_str())?;
    same(
        &rt,
        (stream_types, streams),
        (1, 1),
        "stream types, streams",
    );
    Ok(())
}

/// A text that is refused at its end.
const MISSPELT: &[u8] = b"/* CTF 1.8 */ env { a = \"b\\n\"; c = 0x10; }; trace { major = 2; };";

/// The number of a text's tokens.
fn token_count(alloc: Global, metadata: &[u8]) -> Result<usize, Fail> {
    let found = match tokens(alloc, metadata) {
        Ok(found) => Ok(found),
        Err(fault) => at_last(
            fault.kind == MetaFaultKind::OutOfMemory,
            tokens(alloc, metadata),
        ),
    };
    Ok(found?.len())
}

/// The first fault of a text, whose kind may copy a name.
fn first_fault(alloc: Global, metadata: &[u8]) -> Option<MetaFault> {
    let fault = read_metadata(alloc, metadata).err()?;
    if fault.kind == MetaFaultKind::OutOfMemory {
        read_metadata(alloc, metadata).err()
    } else {
        Some(fault)
    }
}

/// The first fault of a text, and what is said of it.
fn told(alloc: Global, metadata: &[u8]) -> Result<String, Fail> {
    let fault = first_fault(alloc, metadata).ok_or("version 2 was read")?;
    let said = match explain_fault(alloc, metadata, &fault) {
        Ok(said) => said,
        Err(_) => at_last(true, explain_fault(alloc, metadata, &fault))?,
    };
    Ok(format!(in alloc; "{:?} at {}\n{said}", fault.kind, fault.place)?)
}

#[test]
fn finds_the_first_fault_of_a_text(rt: HostRuntime) -> Result<(), Fail> {
    same(&rt, token_count(rt.alloc(), MISSPELT)?, 20, "tokens");
    let said = told(rt.alloc(), MISSPELT)?;
    same(
        &rt,
        said.as_str(),
        "Unsupported(\"major\") at 60\nbyte 60, line 1, column 61: found \"2\": `major` is not supported with this number: expected 1",
        "the fault",
    );
    Ok(())
}

/// A text between quotes and back.
#[test]
fn escapes_and_reads_back(rt: HostRuntime) -> Result<(), Fail> {
    let plain = b"a\"\\\n\tb".as_slice();
    let text = match escape(rt.alloc(), plain) {
        Ok(text) => text,
        Err(_) => at_last(true, escape(rt.alloc(), plain))?,
    };
    let expected = b"a\\\"\\\\\\n\\tb".as_slice();
    same(&rt, text.as_slice(), expected, "escaped");
    let back = match unescape(rt.alloc(), text.as_slice()) {
        Ok(back) => back,
        Err(_) => at_last(true, unescape(rt.alloc(), text.as_slice()))?,
    };
    same(&rt, back.as_slice(), plain, "unescaped");
    Ok(())
}
