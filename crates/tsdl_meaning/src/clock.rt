//! What a clock block means (CTF 1.8.3, section 8).

ghost use Rattle.std.specs.Prelude.{◌≡◌, IfOk};
ghost use Rattle.tsdl_meaning.specs.Words.{clock_meaning};

use crate::lookup::{attr_in, has_parts, name_in, number_or_zero};
use crate::value::{Meant, flag_or_false, natural_or, text_value, uuid_if_there, whole_value};
use ctf_types::ClockType;
use std::alloc::Global;
use tsdl_grammar::Item;

/// The frequency of a clock that says none, in cycles a second.
const DEFAULT_FREQUENCY: u64 = 1_000_000_000;

/// The clock type of a block.
#[tactic(auto, unfolding(tsdl_grammar::specs::BlockMeaning::clock_meaning))]
pub(crate) fn clock_meaning(alloc: Global, items: &[Item]) -> Meant<ClockType>
    ensures { IfOk result (λ c. c ≡ clock_meaning items.now) }
{
    holds!(has_parts(alloc, &[], items)?);
    let name = meant!(name_in(items));
    let uuid = meant!(uuid_if_there(attr_in("uuid", items)));
    let description = match attr_in("description", items) {
        None => None,
        Some(value) => Some(meant!(text_value(value))),
    };
    let frequency = meant!(natural_or(DEFAULT_FREQUENCY, attr_in("freq", items)));
    let precision = meant!(number_or_zero("precision", items));
    let offset_seconds = meant!(attr_in("offset_s", items).map_or(Some(0), whole_value));
    let offset_cycles = meant!(number_or_zero("offset", items));
    let absolute = meant!(flag_or_false(attr_in("absolute", items)));
    let description = match description {
        None => None,
        Some(text) => Some(text.copy(alloc)?),
    };
    Ok(Some(ClockType {
        name: name.copy(alloc)?,
        uuid,
        description,
        frequency,
        precision,
        offset_seconds,
        offset_cycles,
        absolute,
    }))
}
