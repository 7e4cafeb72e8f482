//! What metadata texts denote, beside its copy, and the copy of a configuration.

use crate::tests::rows::same;
use ctf_types::{ClockType, Duplicate, Event, Metadata, Stream, StructType};
use std::alloc::{AllocError, Global};
use std::test::Fail;
use tsdl_flaw::Stop;
use tsdl_grammar::{Atoms, atom_count};
use tsdl_meaning::{Survey, first_flaw};
use tsdl_parser::parse;
use tsdl_reader::read_metadata;
use tsdl_writer::write_metadata;
use worked_fixtures::small;

/// The metadata text of the small configuration, behind the first line.
const SMALL_TEXT: &str =
    "\n\ntrace {\n\tmajor = 1;\n\tminor = 8;\n\tbyte_order = le;\n\tpacket.header := struct {\n\t\tinteger { size = 32; align = 8; signed = false; base = 16; } magic;\n\t} align(8);\n};\n\nstream {\n\tid = 0;\n\tpacket.context := struct {\n\t\tinteger { size = 32; align = 8; signed = false; base = 10; } packet_size;\n\t\tinteger { size = 32; align = 8; signed = false; base = 10; } content_size;\n\t} align(8);\n};\n\nevent {\n\tname = \"e\";\n\tid = 0;\n\tstream_id = 0;\n\tfields := struct {\n\t\tinteger { size = 8; align = 8; signed = false; base = 10; } v;\n\t} align(1);\n};\n";

/// Two texts behind the first line that denote the same metadata.
static PAIRS: &[(&str, &str)] = &[
    // the smallest text in one line
    (
        SMALL_TEXT,
        " trace{byte_order=le;minor=8;major=1;/*x*/packet.header:=struct{integer{base=hex;signed=0;align=0x8;size=0x20;}magic;}align(8);};stream{packet.context:=struct{integer{size=32;align=8;}packet_size;integer{size=32;align=8;}content_size;}align(8);};event{name=e;fields:=struct{integer{size=8;}v;};};",
    ),
    // blocks in any order
    (
        " trace{major=1;minor=8;byte_order=le;};env{a=1;b=\"x\";};clock{name=c;};stream{packet.context:=struct{integer{size=8;}packet_size;integer{size=8;map=clock.c.value;}content_size;};};event{name=e;};",
        " event{name=e;};stream{packet.context:=struct{integer{size=8;}packet_size;integer{size=8;map=clock.c.value;}content_size;};};clock{name=c;};env{a=1;b=\"x\";};trace{major=1;minor=8;byte_order=le;};",
    ),
    // a byte order before and after the trace's
    (
        " trace{packet.header:=struct{integer{size=8;byte_order=be;}a;integer{byte_order=network;size=16;}b;integer{size=16;byte_order=native;}c;};byte_order=be;minor=8;major=1;};",
        " trace{byte_order=be;minor=8;major=1;packet.header:=struct{integer{size=8;}a;integer{size=16;byte_order=be;}b;integer{size=16;byte_order=network;}c;};};",
    ),
    // the defaults of clocks, and a clock's two forms of names
    (
        " trace{major=1;minor=8;byte_order=le;};clock{name=c;};",
        " clock{absolute=false;offset=0;offset_s=0;precision=0;freq=1000000000;name=\"c\";};trace{major=1;minor=8;byte_order=le;};",
    ),
    // the defaults of integers
    (
        " trace{major=1;minor=8;byte_order=le;packet.header:=struct{integer{size=8;}a;integer{size=7;}b;integer{size=64;}c;};};",
        " trace{major=1;minor=8;byte_order=le;packet.header:=struct{integer{size=8;align=8;signed=false;base=10;}a;integer{size=7;align=1;}b;integer{base=decimal;size=64;align=8;}c;};};",
    ),
    // numbers
    (
        " trace{major=1;minor=8;byte_order=le;packet.header:=struct{integer{size=32;align=8;}magic;}align(8);};",
        " trace{major=0x1;minor=010;byte_order=le;packet.header:=struct{integer{size=0x20u;align=+8;}magic;}align(0010ULL);};",
    ),
    // flags
    (
        " trace{major=1;minor=8;byte_order=le;packet.header:=struct{integer{size=8;signed=true;}a;integer{size=8;signed=true;}b;integer{size=8;signed=false;}c;};};clock{name=c;absolute=true;};",
        " trace{major=1;minor=8;byte_order=le;packet.header:=struct{integer{size=8;signed=1;}a;integer{size=8;signed=TRUE;}b;integer{size=8;signed=FALSE;}c;};};clock{name=c;absolute=0x1;};",
    ),
    // bases
    (
        " trace{major=1;minor=8;byte_order=le;packet.header:=struct{integer{size=8;base=2;}a;integer{size=8;base=2;}b;integer{size=8;base=8;}c;integer{size=8;base=8;}d;integer{size=8;base=8;}e;};};",
        " trace{major=1;minor=8;byte_order=le;packet.header:=struct{integer{size=8;base=binary;}a;integer{size=8;base=b;}b;integer{size=8;base=octal;}c;integer{size=8;base=oct;}d;integer{size=8;base=o;}e;};};",
    ),
    (
        " trace{major=1;minor=8;byte_order=le;packet.header:=struct{integer{size=8;base=10;}a;integer{size=8;base=10;}b;integer{size=8;base=10;}c;integer{size=8;}d;integer{size=8;base=0xa;}e;};};",
        " trace{major=1;minor=8;byte_order=le;packet.header:=struct{integer{size=8;base=decimal;}a;integer{size=8;base=dec;}b;integer{size=8;base=d;}c;integer{size=8;base=i;}d;integer{size=8;base=u;}e;};};",
    ),
    (
        " trace{major=1;minor=8;byte_order=le;packet.header:=struct{integer{size=8;base=16;}a;integer{size=8;base=16;}b;integer{size=8;base=16;}c;integer{size=8;base=16;}d;integer{size=8;base=16;}e;};};",
        " trace{major=1;minor=8;byte_order=le;packet.header:=struct{integer{size=8;base=hexadecimal;}a;integer{size=8;base=hex;}b;integer{size=8;base=x;}c;integer{size=8;base=X;}d;integer{size=8;base=p;}e;};};",
    ),
    // enumerations
    (
        " trace{major=1;minor=8;byte_order=le;packet.header:=struct{enum:integer{size=8;}{\"OFF\"=0,\"ON\"=1...3,\"ON\"=9}x;};};",
        " trace{major=1;minor=8;byte_order=le;packet.header:=struct{enum:integer{size=8;}{OFF=0...0,ON=1...3,ON=+9,}x;};};",
    ),
    // strings
    (
        " trace{major=1;minor=8;byte_order=le;packet.header:=struct{string x;string y[2];string z;};};",
        " trace{major=1;minor=8;byte_order=le;packet.header:=struct{string{}x;string{encoding=UTF8;}y[2];string{encoding=none;}z;};};",
    ),
    // structures without members, and the alignment that is left out
    (
        " trace{major=1;minor=8;byte_order=le;};stream{packet.context:=struct{integer{size=8;}packet_size;integer{size=8;}content_size;};};event{name=e;};",
        " trace{major=1;minor=8;byte_order=le;packet.header:=struct{};};stream{id=0;packet.context:=struct{integer{size=8;}packet_size;integer{size=8;}content_size;}align(1);event.header:=struct{}align(64);event.context:=struct{};};event{name=\"e\";id=0;stream_id=0;context:=struct{};fields:=struct{}align(8);};",
    ),
    // attributes that are passed over
    (
        " trace{major=1;minor=8;byte_order=le;packet.header:=struct{integer{size=8;}a;};};stream{packet.context:=struct{integer{size=8;}packet_size;integer{size=8;}content_size;};};event{name=e;};clock{name=c;};",
        " trace{major=1;minor=8;byte_order=le;domain=\"kernel\";a.b=c.d;n=-5;packet.header:=struct{integer{size=8;encoding=UTF8;}a;};};stream{name=\"s\";packet.context:=struct{integer{size=8;encoding=-1;}packet_size;integer{encoding=\"x\";size=8;}content_size;};};event{name=e;model.emf.uri=\"u\";};clock{name=c;id=x;};",
    ),
    // streams and events by number
    (
        " trace{major=1;minor=8;byte_order=le;};stream{packet.context:=struct{integer{size=8;}packet_size;integer{size=8;}content_size;};};stream{id=1;packet.context:=struct{integer{size=8;}packet_size;integer{size=8;}content_size;};};event{name=a;};event{name=b;id=1;};event{name=c;stream_id=1;};",
        " trace{major=1;minor=8;byte_order=le;};event{name=c;stream_id=1;};event{name=b;id=1;};stream{id=1;packet.context:=struct{integer{size=8;}packet_size;integer{size=8;}content_size;};};event{name=a;};stream{packet.context:=struct{integer{size=8;}packet_size;integer{size=8;}content_size;};};",
    ),
    // comments, blanks and escapes
    (
        " trace{major=1;minor=8;byte_order=le;uuid=\"2a6422d0-6cee-11e0-8c08-cb07d7b3a564\";};env{a=\"b?'\";};",
        "/*CTF*/trace\n{\t//}\nmajor/**/=/* 2 */1\r;minor\x0b=\x0c8;byte_order=le;uuid=\"2A6422D0-6CEE-11E0-8C08-CB07D7B3A564\";};env{a=\"b\\?\\'\";};//",
    ),
    // words of the grammar as names, a sequence and arrays
    (
        " trace{major=1;minor=8;byte_order=le;packet.header:=struct{integer{size=8;}event;string struct;integer{size=8;}align[event][2][3];string integer[0][4];};};",
        " trace { byte_order = le ; major = 1 ; minor = 8 ; packet . header := struct { integer { size = 8 ; } event ; string struct ; integer { size = 8 ; } align [ event ] [ 2 ] [ 3 ] ; string integer [ 0 ] [ 4 ] ; } ; } ;",
    ),
];

/// Texts behind the first line, and what each denotes.
static DENOTED: &[(&str, &str)] = &[
    // the smallest text: one stream of one kind of event record, whose payload is one byte
    (
        " trace{byte_order=le;minor=8;major=1;/*x*/packet.header:=struct{integer{base=hex;signed=0;align=0x8;size=0x20;}magic;}align(8);};stream{packet.context:=struct{integer{size=32;align=8;}packet_size;integer{size=32;align=8;}content_size;}align(8);};event{name=e;fields:=struct{integer{size=8;}v;};};",
        r#"Little None ListOf { items: [] }
struct 8
Some(("magic", Plain(Int(IntType { size: 32, align: 8, signed: false, base: Hex, clock: None }))))
stream 0
struct 8
Some(("packet_size", Plain(Int(IntType { size: 32, align: 8, signed: false, base: Dec, clock: None }))))
Some(("content_size", Plain(Int(IntType { size: 32, align: 8, signed: false, base: Dec, clock: None }))))
struct 1
struct 1
event 0 Text { text: "e" } None
struct 1
struct 1
Some(("v", Plain(Int(IntType { size: 8, align: 8, signed: false, base: Dec, clock: None }))))
"#,
    ),
    (
        " trace{major=1;minor=8;byte_order=be;packet.header:=struct{integer{size=8;}x;};};stream{id=2;packet.context:=struct{integer{size=32;}packet_size;integer{size=32;}content_size;};};event{id=3;stream_id=2;name=e;loglevel=6;fields:=struct{integer{size=16;}x;};};",
        r#"Big None ListOf { items: [] }
struct 1
Some(("x", Plain(Int(IntType { size: 8, align: 8, signed: false, base: Dec, clock: None }))))
stream 2
struct 1
Some(("packet_size", Plain(Int(IntType { size: 32, align: 8, signed: false, base: Dec, clock: None }))))
Some(("content_size", Plain(Int(IntType { size: 32, align: 8, signed: false, base: Dec, clock: None }))))
struct 1
struct 1
event 3 Text { text: "e" } Some(6)
struct 1
struct 1
Some(("x", Plain(Int(IntType { size: 16, align: 8, signed: false, base: Dec, clock: None }))))
"#,
    ),
    (
        " trace{major=1;minor=8;byte_order=be;};env{a=-1;b=\"two words\";};clock{name=c;description=\"a clock\";freq=1000;precision=2;offset_s=-3;offset=4;absolute=true;};",
        r#"Big None ListOf { items: [EnvironmentEntry { name: Text { text: "a" }, value: Whole(-1) }, EnvironmentEntry { name: Text { text: "b" }, value: Text(Text { text: "two words" }) }] }
clock Text { text: "c" } None Some(Text { text: "a clock" })
1000 2 true
-3 4
struct 1
"#,
    ),
];

/// What a copy of the metadata holds that a text denotes, line by line. The search for a first flaw passes over all of the text.
fn denoted(alloc: Global, row: &str) -> Result<String, Fail> {
    let text = format!(in alloc; "/* CTF 1.8 */{row}")?;
    if !is_passed_over(alloc, text.as_str().as_bytes())? {
        return Err("a flaw in what denotes metadata".into());
    }
    let metadata = read_metadata(alloc, text.as_str().as_bytes())?;
    Ok(described(alloc, &metadata.copy(alloc)?)?)
}

/// Whether the search for a first flaw comes to the end of the text.
fn is_passed_over(alloc: Global, text: &[u8]) -> Result<bool, Fail> {
    let Ok(blocks) = parse(alloc, Atoms::of(text)) else {
        return Ok(false);
    };
    match first_flaw(alloc, &Survey::of(alloc, text)?, &blocks) {
        Stop::Fault(fault) => Ok(fault.at == atom_count(text)),
        Stop::NoMemory => Ok(false),
    }
}

#[test]
fn reads_what_denotes_the_same_alike(rt: HostRuntime) -> Result<(), Fail> {
    for (text, alike) in PAIRS {
        let metadata = denoted(rt.alloc(), text)?;
        let other = denoted(rt.alloc(), alike)?;
        same(&rt, metadata.as_str(), other.as_str(), *alike);
    }
    Ok(())
}

#[test]
fn reads_and_copies_metadata(rt: HostRuntime) -> Result<(), Fail> {
    for (text, expected) in DENOTED {
        let metadata = denoted(rt.alloc(), text)?;
        same(&rt, metadata.as_str(), *expected, *text);
    }
    Ok(())
}

/// The metadata text of a copy of the small configuration; and of its stream type the name, the default clock, and how many extra members it has with their
/// alignment.
fn copied(alloc: Global) -> Result<String, Fail> {
    let copied = small(alloc, &[])?.copy(alloc)?;
    let text = write_metadata(alloc, &copied)?;
    let stream = copied.streams.get(0).ok_or("no stream type")?;
    let (name, clock) = (stream.name.as_str(), &stream.default_clock);
    let (extras, align) = (stream.extras.members.len(), stream.extras.min_align);
    Ok(format!(in alloc; "{text}{name} {clock:?} {extras} {align}")?)
}

/// The text says all of a configuration but what stands behind it.
#[test]
fn copies_a_configuration(rt: HostRuntime) -> Result<(), Fail> {
    let found = copied(rt.alloc())?;
    let expected = format!(in rt.alloc(); "/* CTF 1.8 */{SMALL_TEXT}s None 0 1")?;
    same(&rt, found.as_str(), expected.as_str(), "the configuration");
    Ok(())
}

/// All that is in metadata, line by line.
fn described(alloc: Global, metadata: &Metadata) -> Result<String, AllocError> {
    let mut out = format!(in alloc;
        "{:?} {:?} {:?}\n",
        metadata.order, metadata.uuid, metadata.environment
    )?;
    for clock in metadata.clocks.as_slice() {
        describe_clock(&mut out, clock)?;
    }
    describe(&mut out, &metadata.header)?;
    for stream in metadata.streams.as_slice() {
        describe_stream(&mut out, stream)?;
    }
    Ok(out)
}

fn describe_clock(out: &mut String, clock: &ClockType) -> Result<(), AllocError> {
    writeln!(
        out,
        "clock {:?} {:?} {:?}\n{} {} {}\n{} {}",
        clock.name,
        clock.uuid,
        clock.description,
        clock.frequency,
        clock.precision,
        clock.absolute,
        clock.offset_seconds,
        clock.offset_cycles
    )
}

fn describe_stream(out: &mut String, stream: &Stream) -> Result<(), AllocError> {
    writeln!(out, "stream {}", stream.id)?;
    describe(out, &stream.context)?;
    describe(out, &stream.event_header)?;
    describe(out, &stream.common)?;
    for event in stream.events.as_slice() {
        describe_event(out, event)?;
    }
    Ok(())
}

fn describe_event(out: &mut String, event: &Event) -> Result<(), AllocError> {
    writeln!(
        out,
        "event {} {:?} {:?}",
        event.id, event.name, event.log_level
    )?;
    describe(out, &event.specific)?;
    describe(out, &event.fields)
}

fn describe(out: &mut String, structure: &StructType) -> Result<(), AllocError> {
    writeln!(out, "struct {}", structure.min_align)?;
    for index in 0..structure.members.len() {
        writeln!(out, "{:?}", structure.members.get(index))?;
    }
    Ok(())
}
