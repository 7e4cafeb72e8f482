//! Which types the members of a scope have where their names have a meaning (CTF 1.8.3, sections 5.1 and 5.2).

ghost use Rattle.std.specs.Prelude.{◌≡◌, ◌<◌, length};
ghost use Rattle.tsdl_meaning.specs.Words.{list_all, is_unsigned_of, is_uuid, suits_header, suits, chain_of, texts_of, suits_rule, is_byte_chain, SuitsAt};

use crate::member::is_unsigned;
use ctf_types::{FieldType, MemberType, Members, OWN_NAMES, is_among};

/// The names that an event header gives a meaning.
const EVENT_HEADER_NAMES: [&str; 1] = ["id"];

/// What a scope asks of its members.
#[derive(Clone, Copy)]
pub(crate) enum ScopeRule {
    /// Nothing.
    AnyMembers,
    PacketHeader,
    PacketContext,
    EventHeader,
}

/// The name of a scope, and what the scope asks of its members.
pub(crate) type NamedRule = (&'static [&'static str], ScopeRule);

/// Whether each member is as the rule asks.
pub(crate) fn all_suit(rule: ScopeRule, members: &Members) -> bool
    ensures { result ≡ list_all (suits_rule rule) members.now }
{
    for index in 0..members.len() {
        if !suits_at(rule, members, index) {
            return false;
        }
    }
    true
}

fn suits_at(rule: ScopeRule, members: &Members, index: usize) -> bool
    requires { index < length members.now }
    ensures { SuitsAt rule members.now index result }
{
    suits_rule(rule, members.name_at(index), members.member_at(index))
}

pub(crate) fn suits_rule(rule: ScopeRule, name: &str, member: &MemberType) -> bool
    ensures { result ≡ suits_rule rule (name.now, member.now) }
{
    match rule {
        ScopeRule::AnyMembers => true,
        ScopeRule::PacketHeader => suits_header(name, member),
        ScopeRule::PacketContext => suits(&OWN_NAMES, name, member),
        ScopeRule::EventHeader => suits(&EVENT_HEADER_NAMES, name, member),
    }
}

/// The type that a rule asks of a member whose name has a meaning, in words.
pub(crate) fn type_asked(rule: ScopeRule, name: &str) -> &'static str {
    match rule {
        ScopeRule::PacketHeader => match name {
            "magic" => "an unsigned integer of 32 bits",
            "uuid" => "an array of 16 unsigned integers of 8 bits, aligned to 8 bits",
            _ => "an unsigned integer",
        },
        ScopeRule::AnyMembers | ScopeRule::PacketContext | ScopeRule::EventHeader => {
            "an unsigned integer"
        }
    }
}

/// `magic`, `uuid` and `stream_id` have their types.
fn suits_header(name: &str, member: &MemberType) -> bool
    ensures { result ≡ suits_header (name.now, member.now) }
{
    match name {
        "magic" => is_unsigned_of(32, member),
        "uuid" => is_uuid(member),
        "stream_id" => is_unsigned(member),
        _ => true,
    }
}

/// A member whose name has a meaning is an unsigned integer.
fn suits(names: &[&str], name: &str, member: &MemberType) -> bool
    ensures { result ≡ suits (texts_of names.now) (name.now, member.now) }
{
    !is_among(name, names) || is_unsigned(member)
}

/// Whether a member is an unsigned integer of this size.
fn is_unsigned_of(size: u8, member: &MemberType) -> bool
    ensures { result ≡ is_unsigned_of size member.now }
{
    matches!(member, MemberType::Plain(FieldType::Int(int)) if !int.is_signed() && int.size() == size)
}

/// Whether a member is an array of 16 unsigned integers of 8 bits on any byte.
fn is_uuid(member: &MemberType) -> bool
    ensures { result ≡ is_uuid member.now }
{
    matches!(
        member,
        MemberType::Plain(FieldType::Static(element, length)) if *length == 16 && is_byte(element.field_type())
    )
}

fn is_byte(field: &FieldType) -> bool
    ensures { result ≡ is_byte_chain (chain_of field.now) }
{
    matches!(field, FieldType::Int(int) if !int.is_signed() && int.size() == 8 && int.align() == 8)
}
