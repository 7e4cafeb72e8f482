//! Reads names, values and attributes.

ghost use Rattle.tsdl_parser.specs.Rules.{shown, Gives, dotted_at, name_at, value_at, attr_behind, attr_at};

use crate::expected::Expected;
use crate::halt::{Missing, SEMICOLON, back_to, expecting, going_on};
use crate::parsing::{Read, closed_by, mark_at, next_atom, number_at, word_at};
use crate::repetition::{Repeated, Start, all_at};
use ctf_types::Text;
use std::alloc::Global;
use tsdl_grammar::{Atom, Atoms, Attribute, Mark, Name, Value};

impl Repeated for Text {
    ghost item = { dotted_at };

    #[tactic(auto, unfolding(crate::specs::Rules::dotted_at))]
    fn item_at(alloc: Global, atoms: Atoms<'_>) -> Read<'_, Text> {
        word_at(alloc, mark_at(Mark::Dot, atoms)?, Expected::Identifier)
    }
}

#[tactic(auto, unfolding(crate::specs::Rules::name_at), using(crate::proofs::Repeated::shortens, crate::proofs::Attributes::dotted_spells))]
pub(crate) fn name_at(alloc: Global, atoms: Atoms<'_>, expected: Expected) -> Read<'_, Name>
    ensures { Gives (λ x. (x.0, shown x.1)) result (name_at (shown atoms.entry)) }
{
    let (first, behind) = word_at(alloc, atoms, expected)?;
    let (rest, behind) = back_to(all_at(alloc, behind, Start::Mark(Mark::Dot)), atoms)?;
    Ok((Name { first, rest }, behind))
}

#[tactic(auto, unfolding(crate::specs::Rules::value_at))]
fn value_at(alloc: Global, atoms: Atoms<'_>) -> Read<'_, Value>
    ensures { Gives (λ x. (x.0, shown x.1)) result (value_at (shown atoms.entry)) }
{
    let (first, rest) = next_atom(alloc, atoms)?;
    match first {
        Some(Atom::Text(text)) => Ok((Value::Text(text), rest)),
        Some(Atom::Word(_)) => {
            let (name, rest) = going_on(name_at(alloc, atoms, Expected::Value), &[Missing::Zero])?;
            Ok((Value::Name(name), rest))
        }
        _ => {
            let (number, rest) = number_at(alloc, atoms, Expected::Value)?;
            Ok((Value::Number(number), rest))
        }
    }
}

/// The rest of an attribute behind its name.
#[tactic(auto, unfolding(crate::specs::Rules::attr_behind))]
pub(crate) fn attr_behind(alloc: Global, name: Name, atoms: Atoms<'_>) -> Read<'_, Attribute>
    ensures { Gives (λ x. (x.0, shown x.1)) result (attr_behind name (shown atoms.entry)) }
{
    let rest = going_on(mark_at(Mark::Equals, atoms), &[Missing::Zero, SEMICOLON])?;
    let (value, rest) = going_on(value_at(alloc, rest), &[SEMICOLON])?;
    let expected = expected_behind(&value);
    let closed = closed_by(Mark::Semicolon, (Attribute { name, value }, rest));
    expecting(closed, expected)
}

/// What is expected behind the value of an attribute. The word of a structure is a name there.
fn expected_behind(value: &Value) -> Expected {
    match value {
        Value::Name(Name { first, rest }) if rest.is_empty() && first.as_str() == "struct" => {
            Expected::ScopeMark
        }
        Value::Name(_) | Value::Number(_) | Value::Text(_) => Expected::Mark(Mark::Semicolon),
    }
}

impl Repeated for Attribute {
    ghost item = { attr_at };

    #[tactic(auto, unfolding(crate::specs::Rules::attr_at))]
    fn item_at(alloc: Global, atoms: Atoms<'_>) -> Read<'_, Attribute> {
        let (name, rest) = name_at(alloc, atoms, Expected::Attribute)?;
        attr_behind(alloc, name, rest)
    }
}
