//! The trace, its type, and the configuration around them (barectf 3.1, "Configuration object", "Trace object", "Trace type
//! object").
ghost use Rattle.std.specs.Prelude.{◌≡◌, ◌&&◌, not, is_some, Some, IsSome, IfOk};
ghost use Rattle.serde_json.specs.View.{view, members_view};
ghost use Rattle.conf_draft.specs.Traces.{draft_of as draft_of_value, order as order_in, trace_order, has_two_orders, asks_number, identifier_of};

use crate::clock_type::clock_types;
use crate::draft::Draft;
use crate::environment::environment;
use crate::features::header;
use crate::lookup::{object, object_or, word};
use crate::stream_type::stream_types;
use conf_values::{order_word, parsed};
use ctf_types::{ByteOrder, Config};
use serde_json::{Map, Value};
use std::alloc::{AllocError, Global};
use uuid::Uuid;

/// What a resolved configuration says, whose objects have no flaw. `number` is the trace's identifier where the configuration
/// asks for one to be handed in.
#[tactic(auto, unfolding(crate::specs::Traces::draft_of_root, crate::specs::Traces::draft_of_trace, crate::specs::Traces::draft_of_type))]
pub fn draft_of(alloc: Global, number: Option<Uuid>, value: &Value) -> Result<Draft, AllocError>
    requires { IsSome (draft_of_value number (view value.now)) }
    ensures { IfOk result (λ d. draft_of_value number (view value.now) ≡ Some d) }
{
    let trace = object(value.as_object().unwrap(), "trace").unwrap();
    let trace_type = object(trace, "type").unwrap();
    let environment = environment(alloc, trace)?;
    let clocks = clock_types(alloc, trace_type)?;
    let streams = stream_types(alloc, trace_type)?;
    let (order, two_orders) = byte_order(trace_type);
    let (uuid, lacks_number) = identifier(number, trace_type);
    let empty = Map::new(alloc);
    let features = object_or(trace_type, "$features", &empty);
    let header = header(features, word(trace_type, "uuid").is_some());
    Ok(Draft {
        config: Config {
            order,
            uuid,
            environment,
            clocks,
            header,
            streams,
        },
        lacks_number,
        two_orders,
    })
}

/// The byte order of a trace: the one that is given, of whichever name; and whether both names have one.
#[tactic(auto, unfolding(crate::specs::Traces::trace_order, crate::specs::Traces::has_two_orders))]
fn byte_order(trace_type: &Map<String, Value>) -> (ByteOrder, bool)
    ensures order { result.0 ≡ trace_order (members_view trace_type.now.entries) }
    ensures two { result.1 ≡ has_two_orders (members_view trace_type.now.entries) }
{
    let trace_order = order(trace_type, "trace-byte-order");
    let native_order = order(trace_type, "native-byte-order");
    (
        trace_order.or(native_order).unwrap_or(ByteOrder::Little),
        native_order.and(trace_order).is_some(),
    )
}

/// The identifier of a trace, which is `number` where it asks for one to be handed in; and whether there is none then.
#[tactic(auto, unfolding(crate::specs::Traces::asks_number, crate::specs::Lookups::identifier))]
fn identifier(number: Option<Uuid>, trace_type: &Map<String, Value>) -> (Option<Uuid>, bool)
    ensures identifier { result.0 ≡ identifier_of number (members_view trace_type.now.entries) }
    ensures lacks { result.1 ≡ (not (is_some number) && asks_number (members_view trace_type.now.entries)) }
{
    let uuid = word(trace_type, "uuid");
    if uuid.is_some_and(|word| word == "auto") {
        (number, number.is_none())
    } else {
        (uuid.and_then(|word| parsed(word)), false)
    }
}

/// The byte order that the property `name` is.
#[tactic(auto, unfolding(crate::specs::Traces::order))]
fn order(trace_type: &Map<String, Value>, name: &str) -> Option<ByteOrder>
    ensures { result ≡ order_in name.now (members_view trace_type.now.entries) }
{
    order_word(word(trace_type, name)?)
}
