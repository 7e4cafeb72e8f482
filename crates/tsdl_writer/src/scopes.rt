//! Structures of blocks, each under its name. One without members is left out.

ghost use Rattle.std.specs.Prelude.{◌≡◌, ◌++◌, OnOk, codes, flat_map};
ghost use Rattle.ctf_types.specs.MetadataOf.{header_members, context_numbers, event_header_members};
ghost use Rattle.tsdl_grammar.specs.declared.tree.Name.{Name};
ghost use Rattle.tsdl_grammar.specs.Spelling.{name_toks, item_toks};
ghost use Rattle.tsdl_writer.specs.{Trees.{two_words, scope_items, closing}, Prints.{Prints, token_toks}};

use crate::members::{feature, identifier, members, number};
use crate::printer::Token::{Mark, Number, Word};
use crate::printer::{Printed, Printer, Token};
use ctf_types::{EventFeatures, HeaderFeatures, StreamType, StructType};
use tsdl_grammar::Mark::{
    Assign, CloseBrace, CloseParenthesis, Dot, OpenBrace, OpenParenthesis, Semicolon,
};

/// What stands between a structure's name and its members.
const BEGIN: [Token<'static>; 3] = [Mark(Assign), Word("struct"), Mark(OpenBrace)];

/// A structure under the name that these tokens spell.
pub(crate) fn structure(out: &mut Printer, name: &[Token<'_>], structure: &StructType) -> Printed
    ensures { OnOk result ((n : Name) → name_toks n ≡ flat_map token_toks name.now → Prints out.old out.new (flat_map item_toks (scope_items n structure.now.members structure.now.min_align))) }
{
    if structure.members.is_empty() {
        return Ok(());
    }
    out.print(name)?;
    out.print(&BEGIN)?;
    members(out, &structure.members)?;
    close(out, structure.min_align)
}

/// The packet header: a member for each feature that is on.
pub(crate) fn header(out: &mut Printer, features: &HeaderFeatures) -> Printed
    ensures { OnOk result (Prints out.old out.new (flat_map item_toks (scope_items (two_words (codes "packet") (codes "header")) (header_members features.now) 8))) }
{
    if features.magic.is_none() && features.uuid.is_none() && features.stream_id.is_none() {
        return Ok(());
    }
    out.print(&[Word("packet"), Mark(Dot), Word("header")])?;
    out.print(&BEGIN)?;
    feature(out, "magic", &features.magic)?;
    identifier(out, &features.uuid)?;
    feature(out, "stream_id", &features.stream_id)?;
    close(out, 8)
}

/// The packet context: the tracer's own members, and then the extra ones.
pub(crate) fn context(out: &mut Printer, stream: &StreamType) -> Printed
    ensures { OnOk result (Prints out.old out.new (flat_map item_toks (scope_items (two_words (codes "packet") (codes "context")) (context_numbers stream.now.context ++ stream.now.extras.members) 8))) }
{
    out.print(&[Word("packet"), Mark(Dot), Word("context")])?;
    out.print(&BEGIN)?;
    let features = &stream.context;
    number(out, "packet_size", &features.packet_size)?;
    number(out, "content_size", &features.content_size)?;
    feature(out, "timestamp_begin", &features.timestamp_begin)?;
    feature(out, "timestamp_end", &features.timestamp_end)?;
    feature(out, "events_discarded", &features.events_discarded)?;
    feature(out, "packet_seq_num", &features.packet_seq_num)?;
    members(out, &stream.extras.members)?;
    close(out, 8)
}

/// The header of event records: a member for each feature that is on.
pub(crate) fn event_header(out: &mut Printer, features: &EventFeatures) -> Printed
    ensures { OnOk result (Prints out.old out.new (flat_map item_toks (scope_items (two_words (codes "event") (codes "header")) (event_header_members features.now) 8))) }
{
    if features.id.is_none() && features.timestamp.is_none() {
        return Ok(());
    }
    out.print(&[Word("event"), Mark(Dot), Word("header")])?;
    out.print(&BEGIN)?;
    feature(out, "id", &features.id)?;
    feature(out, "timestamp", &features.timestamp)?;
    close(out, 8)
}

/// `} align(n);`.
fn close(out: &mut Printer, align: u32) -> Printed
    ensures { OnOk result (Prints out.old out.new (closing align)) }
{
    out.print(&[Mark(CloseBrace), Word("align"), Mark(OpenParenthesis)])?;
    out.print(&[Number(u64::from(align)), Mark(CloseParenthesis)])?;
    out.token(Mark(Semicolon))
}
