//! Values and structures.

ghost use Rattle.std.specs.Prelude.{◌≡◌, ℕ, List, ◌++◌, codes, map};
ghost use Rattle.ctf_types.specs.Datum.{Unsigned, Signed};
ghost use Rattle.ctf_types.specs.FieldTypes.{chain_of};
ghost use Rattle.ctf_types.specs.Values.{datum_of};
ghost use Rattle.trace_text.specs.PrintedPages.{Says};
ghost use Rattle.trace_text.specs.PrintedTexts.{listed, comma_before};
ghost use Rattle.trace_text.specs.PrintedValues.{value_text, leaf_of, member_text, member_texts, structure_text};

use crate::printing_numbers::{
    base_of, say_in_base, say_signed, say_signed_label, say_unsigned_label,
};
use crate::printing_page::{Page, say};
use crate::printing_texts::say_string;
use ctf_types::{FieldType, MemberType, Members, StructType, Value, Values};
use std::io::Write;

/// A structure behind what stands in front of its members, which has the name of its scope. One without members is not there.
#[inline(always)]
pub(crate) fn say_structure<W: Write>(
    writer: &mut W,
    page: &mut Page,
    head: &str,
    structure: &StructType,
    values: &Values,
)
    ensures { (name : List ℕ) → head.now ≡ codes " " ++ name ++ codes "{" → Says (W.contents writer.old) page.old (W.contents writer.new) page.new (structure_text name structure.now.members values.now) }
{
    if structure.members.is_empty() {
        return;
    }
    say(writer, page, head);
    say_members(writer, page, &structure.members, values);
    say(writer, page, "}");
}

/// The members that have a value.
fn say_members<W: Write>(writer: &mut W, page: &mut Page, members: &Members, values: &Values)
    ensures { Says (W.contents writer.old) page.old (W.contents writer.new) page.new (listed (member_texts members.now values.now)) }
{
    let held = values.as_slice();
    for index in 0..members.len().min(held.len()) {
        say_comma(writer, page, index);
        let name = members.name_at(index);
        say_member(writer, page, name, members.member_at(index), &held[index]);
    }
}

/// `name=value`.
fn say_member<W: Write>(
    writer: &mut W,
    page: &mut Page,
    name: &str,
    member: &MemberType,
    value: &Value,
)
    ensures { Says (W.contents writer.old) page.old (W.contents writer.new) page.new (member_text (name.now, member.now) (datum_of value.now)) }
{
    say(writer, page, name);
    say(writer, page, "=");
    say_value(writer, page, leaf_of(member), value);
}

/// What stands in front of an element of a list.
fn say_comma<W: Write>(writer: &mut W, page: &mut Page, index: usize)
    ensures { Says (W.contents writer.old) page.old (W.contents writer.new) page.new (comma_before index) }
{
    if index > 0 {
        say(writer, page, ", ");
    }
}

/// The type of what is no array, however deep it stands.
fn leaf_of(member: &MemberType) -> &FieldType
    ensures { (chain_of result.now).leaf ≡ leaf_of member.now }
{
    match member {
        MemberType::Plain(field) | MemberType::Dyn(field, _) => inner_of(field),
    }
}

fn inner_of(field: &FieldType) -> &FieldType
    ensures { (chain_of result.now).leaf ≡ (chain_of field.now).leaf }
{
    match field {
        FieldType::Int(_) | FieldType::Enum(_) | FieldType::Str => field,
        FieldType::Static(element, _) => inner_of(element.field_type()),
    }
}

/// A value of this type, or a list of such values.
#[cycle(say_value)]
fn say_value<W: Write>(writer: &mut W, page: &mut Page, leaf: &FieldType, value: &Value)
    ensures { Says (W.contents writer.old) page.old (W.contents writer.new) page.new (value_text (chain_of leaf.now).leaf (datum_of value.now)) }
{
    match value {
        Value::Unsigned(n) => say_unsigned(writer, page, leaf, *n),
        Value::Signed(n) => say_labelled(writer, page, leaf, *n),
        Value::Text(bytes) => say_string(writer, page, bytes.as_slice()),
        Value::List(values) => say_list(writer, page, leaf, values),
    }
}

#[cycle(say_value)]
fn say_list<W: Write>(writer: &mut W, page: &mut Page, leaf: &FieldType, values: &Values)
    ensures { Says (W.contents writer.old) page.old (W.contents writer.new) page.new (codes "[" ++ listed (map (value_text (chain_of leaf.now).leaf) values.now) ++ codes "]") }
{
    say(writer, page, "[");
    say_elements(writer, page, leaf, values);
    say(writer, page, "]");
}

#[cycle(say_value)]
fn say_elements<W: Write>(writer: &mut W, page: &mut Page, leaf: &FieldType, values: &Values)
    ensures { Says (W.contents writer.old) page.old (W.contents writer.new) page.new (listed (map (value_text (chain_of leaf.now).leaf) values.now)) }
{
    let held = values.as_slice();
    for index in 0..held.len() {
        say_comma(writer, page, index);
        say_value(writer, page, leaf, &held[index]);
    }
}

fn say_unsigned<W: Write>(writer: &mut W, page: &mut Page, leaf: &FieldType, n: u64)
    ensures { Says (W.contents writer.old) page.old (W.contents writer.new) page.new (value_text (chain_of leaf.now).leaf (Unsigned n)) }
{
    say_in_base(writer, page, base_of(leaf), n);
    say_unsigned_label(writer, page, leaf, n);
}

fn say_labelled<W: Write>(writer: &mut W, page: &mut Page, leaf: &FieldType, n: i64)
    ensures { Says (W.contents writer.old) page.old (W.contents writer.new) page.new (value_text (chain_of leaf.now).leaf (Signed n)) }
{
    say_signed(writer, page, n);
    say_signed_label(writer, page, leaf, n);
}
