//! The judgement of a resolved configuration.
ghost use Rattle.std.specs.Prelude.{◌≡◌, ◌⊎◌, IfOk, IfErr};
ghost use Rattle.serde_json.specs.View.{view};
ghost use Rattle.ctf_types.specs.AllowedConfig.{IsConfig};
ghost use Rattle.conf_tree.specs.Flaw.{flaw_of, IsMemory};
ghost use Rattle.conf_tree.specs.Reading.{Gives};
ghost use Rattle.conf_check.specs.Configuration.{IsConfigurationOf, IsNoConfiguration, IsInnocent};
ghost use Rattle.conf_check.specs.FirstFlaw.{IsFirstFlawOf};
ghost use Rattle.conf_check.specs.Judgement.{header_flaw, whole as whole_is};

use crate::stream_rule::{StreamRule, check_each, holds, in_type};
use conf_draft::{Draft, draft_of};
use conf_judge::{check_limits, check_objects};
use conf_tree::{At, ConfFault, FaultKind, Tree};
use ctf_types::Config;
use serde_json::Value;
use std::alloc::Global;
use uuid::Uuid;

/// The fault of a feature of the packet header.
#[tactic(auto, unfolding(crate::specs::Judgement::header_flaw))]
fn header_fault(alloc: Global, name: &str, kind: FaultKind) -> ConfFault
    ensures { IsMemory result ⊎ (flaw_of result ≡ header_flaw name.now kind) }
{
    let fault = At::Property(name).fault(alloc, kind);
    in_type(alloc, fault.in_property(alloc, "$features"))
}

/// Refuses what breaks a rule over the whole or passes a limit, kind by kind.
#[tactic(auto, unfolding(crate::specs::Judgement::whole, crate::specs::Judgement::stream_number_fits, crate::specs::Judgement::number_given, crate::specs::Judgement::identifier_given, crate::specs::Judgement::one_order))]
fn whole(alloc: Global, value: &Value, draft: &Draft) -> Result<(), ConfFault>
    ensures { Gives (λ _. tt) result (whole_is (view value.now) draft.now) }
{
    let config = &draft.config;
    let largest = config.streams.len().saturating_sub(1);
    if !holds(largest, &config.header.stream_id) {
        let kind = FaultKind::FieldTooSmall;
        return Err(header_fault(alloc, "data-stream-type-id-field-type", kind));
    }
    check_each(alloc, StreamRule::NumbersFit, config)?;
    check_each(alloc, StreamRule::RecordsHaveBits, config)?;
    check_each(alloc, StreamRule::ClocksAreThere, config)?;
    if draft.lacks_number {
        return Err(in_type(alloc, At::Property("uuid").fault(alloc, FaultKind::NoUuid)));
    }
    if config.header.uuid.is_some() && config.uuid.is_none() {
        return Err(header_fault(alloc, "uuid-field-type", FaultKind::NoUuid));
    }
    check_limits(alloc, value)?;
    if draft.two_orders {
        return Err(in_type(alloc, ConfFault::here(alloc, FaultKind::TwoOrders)));
    }
    check_each(alloc, StreamRule::TimestampsAreSized, config)
}

/// The configuration that the tree is. `number` is the trace's identifier where the configuration asks for one to be
/// handed in. The tree is spent on a refusal, which names the first fault: those of single objects in the order of a walk,
/// an object before its content and properties in byte order of their names, and then those of the whole, kind by kind in
/// the order of `FaultKind`.
pub fn check(alloc: Global, tree: Tree, number: Option<Uuid>) -> Result<Config, ConfFault>
    ensures rows { IfOk result (λ c. IsConfigurationOf (view tree.value) number c) }
    ensures allowed { IfOk result (λ c. IsConfig c) }

    // The fault is the first: of the objects in the order of a walk, and of the whole by kind and place.
    ensures first { IfErr result (λ fault. IsMemory fault ⊎ IsFirstFlawOf (view tree.value) number (flaw_of fault)) }

    // The fault's kind is that of a row which does not hold, or of a rule that is broken, and its path leads there.
    ensures refused { IfErr result (λ fault. IsMemory fault ⊎ IsNoConfiguration (view tree.value) number (flaw_of fault)) }

    // A tree of which all rows hold is refused for want of memory alone.
    ensures only { IfErr result (λ fault. IsInnocent (view tree.value) number fault) }
{
    let Tree { value } = tree;
    check_objects(alloc, &value)?;
    let Ok(draft) = draft_of(alloc, number, &value) else {
        return Err(ConfFault::memory(alloc));
    };
    whole(alloc, &value, &draft)?;
    Ok(draft.config)
}
