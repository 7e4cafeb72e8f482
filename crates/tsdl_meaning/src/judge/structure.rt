//! The first flaw of a scope's structure: its members in order, then its alignment.

ghost use Rattle.std.specs.Prelude.{◌≡◌, ◌<◌, false, List, [], ◌∷◌, length, IfOk, IfErr};
ghost use Rattle.tsdl_meaning.specs.Words.{MAX_MEMBERS, Contains, names_in, Kind, MemberTree, word, member_toks, struct_toks, has_member, StopsAmong, StopsWhere, AddsMember, IsFlawless, AreMembers, IsBehindMembers, IsBehindKind};

use crate::judge::block::Judging;
use crate::judge::brackets::judge_brackets;
use crate::judge::kind::judge_kind;
use crate::judge::value::judge_align;
use crate::member::member_meaning;
use crate::scope_rule::{ScopeRule, suits_rule, type_asked};
use crate::structure::has_member;
use ctf_types::{MAX_MEMBERS, Members, Text};
use tsdl_flaw::{Fault, Flaw, Limit, Remedy, Spelled, Stop};
use tsdl_grammar::{MemberTree, Structure};

/// `"struct" "{" { member } "}" [ "align" "(" number ")" ]`.
pub(crate) fn judge_structure(
    judging: &Judging,
    rule: ScopeRule,
    structure: &Structure,
    at: usize,
) -> Result<(), Stop>
    ensures fault { IfErr result (StopsAmong at (struct_toks structure.now)) }
    ensures flawless { IfOk result (λ _. IsFlawless judging.now.survey.now.known rule structure.now) }
{
    let mut members = Members::new(judging.alloc);
    let mut next = at.saturating_add(2);
    let trees = structure.members.as_slice();
    for tree in trees {
        judge_member(judging, rule, &mut members, tree, next)?;
        next = next.saturating_add(tree.length());
    }
    match structure.align {
        None => Ok(()),
        Some(number) => judge_align(&number, next.saturating_add(3)),
    }
}

/// `kind identifier { bracket } ";"`, a member behind these.
fn judge_member(
    judging: &Judging,
    rule: ScopeRule,
    members: &mut Members,
    tree: &MemberTree,
    at: usize,
) -> Result<(), Stop>
    ensures fault { IfErr result (λ s. (done : List MemberTree) → AreMembers done members.old → StopsWhere (IsBehindMembers done) at (member_toks tree.now) s) }
    ensures flawless { IfOk result (λ _. AddsMember judging.now.survey.now.known rule members.old tree.now members.new) }
{
    judge_kind(judging, &tree.kind, at)?;
    let at = at.saturating_add(tree.kind.length());
    judge_member_name(members, &tree.name, at)?;
    let behind = at.saturating_add(1);
    judge_brackets(judging.alloc, members, tree.brackets.as_slice(), behind)?;
    let Some(member) = member_meaning(judging.alloc, &judging.survey.known, members, tree)? else {
        unreachable!()
    };
    if !suits_rule(rule, tree.name.as_str(), &member) {
        let end = at.saturating_add(tree.brackets.length()).saturating_add(1);
        let name = String::from_str(judging.alloc, tree.name.as_str())?;
        let flaw = Flaw::Unsupported(name, Remedy::WithType(type_asked(rule, tree.name.as_str())));
        return Err(Stop::Fault(Fault { at, end, flaw }));
    }
    members.push(tree.name.copy(judging.alloc)?, member)?;
    Ok(())
}

/// The name of a member behind these, which is new.
fn judge_member_name(members: &Members, name: &Text, at: usize) -> Result<(), Stop>
    ensures fault { IfErr result (λ s. (done : List MemberTree) (kind : Kind) → AreMembers done members.now → StopsWhere (IsBehindKind done kind) at (word name.now ∷ []) s) }
    ensures fresh { IfOk result (λ _. Contains (names_in members.now) name.now → ⊥) }
    ensures new { IfOk result (λ _. has_member name.now members.now ≡ false) }
    ensures few { IfOk result (λ _. length members.now < MAX_MEMBERS) }
{
    if has_member(members, name.as_str()) {
        return Err(Stop::at_atom(at, Flaw::Duplicate));
    }
    if members.len() >= MAX_MEMBERS {
        return Err(Stop::at_atom(at, Flaw::Limit(Limit::Members)));
    }
    Ok(())
}
