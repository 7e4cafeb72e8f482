//! Data stream types (barectf 3.1, "Data stream type object").
ghost use Rattle.std.specs.Prelude.{◌≡◌, Some, IsSome, IfOk, codes};
ghost use Rattle.serde_json.specs.View.{members_view};
ghost use Rattle.conf_draft.specs.Features.{context as context_in, event_header as event_header_in};
ghost use Rattle.conf_draft.specs.Streams.{feature_group, stream_types as stream_types_in, stream_type as stream_type_of};
ghost use Rattle.conf_draft.specs.Structures.{extra_members, structure as structure_in};

use crate::event_type::event_types;
use crate::features::{context, event_header};
use crate::lookup::{object_or, text};
use crate::members::listed;
use crate::structure::{made, structure};
use ctf_types::{ContextFeatures, EventFeatures, ListOf, StreamType, StructType, Text};
use plain_lists::both;
use serde_json::{Map, Value};
use std::alloc::{AllocError, Global};

/// The data stream types of a trace type, in byte order of their names.
#[tactic(auto, unfolding(crate::specs::Streams::stream_types))]
pub(crate) fn stream_types(
    alloc: Global,
    trace_type: &Map<String, Value>,
) -> Result<ListOf<StreamType>, AllocError>
    requires { IsSome (stream_types_in (members_view trace_type.now.entries)) }
    ensures { IfOk result (λ s. stream_types_in (members_view trace_type.now.entries) ≡ Some s) }
{
    let empty = Map::new(alloc);
    let levels = object_or(trace_type, "$log-level-aliases", &empty);
    let mut streams = ListOf::new(alloc);
    for (name, value) in object_or(trace_type, "data-stream-types", &empty).iter() {
        if let Value::Object(members) = value {
            streams.push(stream_type(alloc, name.as_str(), members, levels)?)?;
        }
    }
    Ok(streams)
}

#[tactic(auto, unfolding(crate::specs::Streams::stream_type))]
fn stream_type(
    alloc: Global,
    name: &str,
    members: &Map<String, Value>,
    levels: &Map<String, Value>,
) -> Result<StreamType, AllocError>
    requires { IsSome (stream_type_of (members_view levels.now.entries) name.now (members_view members.now.entries)) }
    ensures { IfOk result (λ s. stream_type_of (members_view levels.now.entries) name.now (members_view members.now.entries) ≡ Some s) }
{
    let default_clock = text(alloc, members, "$default-clock-type-name")?;
    let features = features(alloc, members, &default_clock);
    let head = both(Text::from_str(alloc, name), features);
    let types = both(
        structures(alloc, members),
        event_types(alloc, members, levels),
    );
    let ((name, (context, event_header)), ((extras, common), events)) = both(head, types)?;
    Ok(StreamType {
        name,
        default_clock,
        context,
        extras,
        event_header,
        common,
        events,
    })
}

/// The fields that the tracer fills itself, of a packet's context and of an event record's header.
fn features(
    alloc: Global,
    members: &Map<String, Value>,
    clock: &Option<Text>,
) -> Result<(ContextFeatures, EventFeatures), AllocError>
    requires context { IsSome (context_in clock.now (feature_group (codes "packet") (members_view members.now.entries))) }
    requires header { IsSome (event_header_in clock.now (feature_group (codes "event-record") (members_view members.now.entries))) }
    ensures context { IfOk result (λ f. context_in clock.now (feature_group (codes "packet") (members_view members.now.entries)) ≡ Some f.0) }
    ensures header { IfOk result (λ f. event_header_in clock.now (feature_group (codes "event-record") (members_view members.now.entries)) ≡ Some f.1) }
{
    let empty = Map::new(alloc);
    let features = object_or(members, "$features", &empty);
    let context = context(alloc, object_or(features, "packet", &empty), clock)?;
    let event_record = object_or(features, "event-record", &empty);
    let event_header = event_header(alloc, event_record, clock)?;
    Ok((context, event_header))
}

/// The extra members of a packet's context, and the common context of the event records.
#[tactic(auto, unfolding(crate::specs::Structures::extra_members))]
fn structures(
    alloc: Global,
    members: &Map<String, Value>,
) -> Result<(StructType, StructType), AllocError>
    requires extras { IsSome (extra_members (codes "packet-context-field-type-extra-members") (members_view members.now.entries)) }
    requires common { IsSome (structure_in (codes "event-record-common-context-field-type") (members_view members.now.entries)) }
    ensures extras { IfOk result (λ t. extra_members (codes "packet-context-field-type-extra-members") (members_view members.now.entries) ≡ Some t.0) }
    ensures common { IfOk result (λ t. structure_in (codes "event-record-common-context-field-type") (members_view members.now.entries) ≡ Some t.1) }
{
    let extras = listed(alloc, members, "packet-context-field-type-extra-members")?;
    let extras = made(extras, 1);
    let common = structure(alloc, members, "event-record-common-context-field-type")?;
    Ok((extras, common))
}
