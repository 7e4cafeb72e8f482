//! What a structure means (CTF 1.8.3, section 4.2.1).

ghost use Rattle.std.specs.Prelude.{◌≡◌, ◌↔◌, [], option_map, IfOk, IsTrue, nat_lt, ◌&&◌, ◌==◌, ◌%◌, Some};
ghost use Rattle.tsdl_meaning.specs.Words.{LARGEST_ALIGN, Contains, names_in, provided, struct_type, has_member, members_meaning, struct_meaning, scope_meaning, scopes_in, texts_of, suits_rule};

use crate::known::Known;
use crate::lookup::scope_in;
use crate::member::member_meaning;
use crate::scope_rule::{ScopeRule, all_suit};
use crate::value::{Meant, natural};
use ctf_types::{LARGEST_ALIGN, MAX_MEMBERS, Members, StructType};
use std::alloc::Global;
use tsdl_grammar::{Item, MemberTree, Number, Structure};

/// The structure of the scope of this name in a block, without members where the scope is not there.
pub(crate) fn scope_meaning(
    alloc: Global,
    known: &Known,
    scope: (&[&str], ScopeRule),
    items: &[Item],
) -> Meant<StructType>
    ensures { IfOk result (λ t. t ≡ scope_meaning known.now (texts_of scope.entry.0.now) (suits_rule scope.entry.1) (scopes_in items.now)) }
{
    let (name, rule) = scope;
    let structure = match scope_in(name, items) {
        None => struct_type(Members::new(alloc), 1),
        Some(structure) => struct_meaning(alloc, known, structure)?,
    };
    Ok(structure.filter(|structure| all_suit(rule, &structure.members)))
}

/// The structure type of a tree: no more members than the limit, no two of one name, and the minimum alignment.
#[tactic(auto, unfolding(tsdl_grammar::specs::StructureMeaning::struct_meaning))]
fn struct_meaning(alloc: Global, known: &Known, structure: &Structure) -> Meant<StructType>
    ensures { IfOk result (λ t. t ≡ struct_meaning known.now structure.now) }
{
    holds!(structure.members.len() <= MAX_MEMBERS);
    let members = meant!(members_meaning(alloc, known, structure.members.as_slice())?);
    let align = match structure.align {
        None => 1,
        Some(number) => meant!(alignment(meant!(natural(number)))),
    };
    let align = if members.is_empty() { 1 } else { align };
    Ok(struct_type(members, align))
}

/// The members, each with those before it.
#[tactic(auto, unfolding(tsdl_grammar::specs::StructureMeaning::members_meaning))]
fn members_meaning(alloc: Global, known: &Known, members: &[MemberTree]) -> Meant<Members>
    ensures { IfOk result (λ ms. ms ≡ members_meaning known.now [] members.now) }
{
    let mut before = Members::with_capacity(alloc, members.len())?;
    for member in members {
        holds!(!has_member(&before, member.name.as_str()));
        let member_type = meant!(member_meaning(alloc, known, &before, member)?);
        let name = member.name.copy(alloc)?;
        before.push(name, member_type)?;
    }
    Ok(Some(before))
}

/// Whether a member of this name is there.
pub(crate) fn has_member(members: &Members, name: &str) -> bool
    ensures is { result ≡ has_member name.now members.now }
    ensures found { IsTrue result ↔ Contains (names_in members.now) name.now }
{
    members.contains(name)
}

/// The number as an alignment, if it is a power of two up to the largest one.
#[tactic(auto, using(crate::proofs::MemberNames::divisor_at_most))]
pub(crate) fn alignment(align: u64) -> Option<u32>
    ensures { result ≡ provided (nat_lt 0 align && (LARGEST_ALIGN % align == 0)) (Some align) }
{
    if align == 0 || LARGEST_ALIGN % align != 0 {
        return None;
    }
    Some(align as u32)
}

/// The structure type of these parts, where its alignment is one.
fn struct_type(members: Members, align: u32) -> Option<StructType>
    ensures { result ≡ struct_type members align }
{
    StructType::new(members, align)
}
