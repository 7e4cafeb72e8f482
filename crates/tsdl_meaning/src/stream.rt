//! What stream blocks and event blocks mean (CTF 1.8.3, section 7).

ghost use Rattle.std.specs.Prelude.{◌≡◌, ◌&&◌, IfOk, codes};
ghost use Rattle.tsdl_meaning.specs.Words.{has_member, stream_meaning, event_meaning};

use crate::known::Known;
use crate::lookup::{attr_in, has_parts, name_in, number_or_zero};
use crate::scope_rule::{NamedRule, ScopeRule};
use crate::structure::{has_member, scope_meaning};
use crate::value::{Meant, natural_value};
use ctf_types::{Event, ListOf, Stream, StructType};
use std::alloc::Global;
use tsdl_grammar::Item;

pub(crate) const PACKET_CONTEXT: NamedRule = (&["packet", "context"], ScopeRule::PacketContext);

/// The member of a packet context that has the size of the packet.
pub(crate) const PACKET_SIZE: &str = "packet_size";

/// The member of a packet context that has the size of the packet's content.
pub(crate) const CONTENT_SIZE: &str = "content_size";

pub(crate) const EVENT_HEADER: NamedRule = (&["event", "header"], ScopeRule::EventHeader);

pub(crate) const EVENT_CONTEXT: NamedRule = (&["event", "context"], ScopeRule::AnyMembers);

pub(crate) const SPECIFIC_CONTEXT: NamedRule = (&["context"], ScopeRule::AnyMembers);

pub(crate) const FIELDS: NamedRule = (&["fields"], ScopeRule::AnyMembers);

/// The stream of a block, without its events. Its packet context has both sizes.
#[tactic(auto, unfolding(tsdl_grammar::specs::BlockMeaning::stream_meaning))]
pub(crate) fn stream_meaning(alloc: Global, known: &Known, items: &[Item]) -> Meant<Stream>
    ensures { IfOk result (λ s. s ≡ stream_meaning known.now items.now) }
{
    let scopes = [PACKET_CONTEXT.0, EVENT_HEADER.0, EVENT_CONTEXT.0];
    holds!(has_parts(alloc, &scopes, items)?);
    let id = meant!(number_or_zero("id", items));
    let context = meant!(scope_meaning(alloc, known, PACKET_CONTEXT, items)?);
    let event_header = meant!(scope_meaning(alloc, known, EVENT_HEADER, items)?);
    let common = meant!(scope_meaning(alloc, known, EVENT_CONTEXT, items)?);
    holds!(has_member(&context.members, PACKET_SIZE));
    holds!(has_member(&context.members, CONTENT_SIZE));
    Ok(Some(Stream {
        id,
        context,
        event_header,
        common,
        events: ListOf::new(alloc),
    }))
}

/// The event of a block, and the number of its stream.
#[tactic(auto, unfolding(tsdl_grammar::specs::BlockMeaning::event_meaning))]
pub(crate) fn event_meaning(alloc: Global, known: &Known, items: &[Item]) -> Meant<(u64, Event)>
    ensures { IfOk result (λ e. e ≡ event_meaning known.now items.now) }
{
    holds!(has_parts(alloc, &[SPECIFIC_CONTEXT.0, FIELDS.0], items)?);
    let name = meant!(name_in(items));
    let id = meant!(number_or_zero("id", items));
    let stream = meant!(number_or_zero("stream_id", items));
    let level = attr_in("loglevel", items);
    let log_level = meant!(level.map_or(Some(None), |value| natural_value(value).map(Some)));
    let specific = meant!(scope_meaning(alloc, known, SPECIFIC_CONTEXT, items)?);
    let fields = meant!(scope_meaning(alloc, known, FIELDS, items)?);
    let event = Event {
        id,
        name: name.copy(alloc)?,
        log_level,
        specific,
        fields,
    };
    Ok(Some((stream, event)))
}
