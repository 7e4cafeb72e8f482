//! Numbers, and the labels of an enumeration's.

ghost use Rattle.std.specs.Prelude.{◌≡◌, ◌++◌, ℕ, ℤ, pos, List, Some, codes, option_map, OnOk, string_bytes, false};
ghost use Rattle.std.specs.Fmt.{decimal, signed_decimal};
ghost use Rattle.ctf_types.specs.declared.Base.TheVariants.{Bin, Oct, Hex};
ghost use Rattle.ctf_types.specs.FieldTypes.{chain_of};
ghost use Rattle.trace_text.specs.PrintedPages.{Says};
ghost use Rattle.trace_text.specs.PrintedNumbers.{in_base, base_of, label_in, ranges_of, in_parentheses, label_text, count_text};

use crate::printing_page::{Page, say, say_bytes, say_digits};
use crate::printing_texts::say_name;
use ctf_types::{Base, FieldType, Mapping, Text};
use itoa::{Buffer, write_digits};
use std::alloc::AllocError;
use std::io::Write;

/// The most digits of a number of 64 bits in decimal.
const VALUE_DIGITS: usize = 20;

/// A number that is not below 0, in decimal.
pub(crate) fn say_count<W: Write>(writer: &mut W, page: &mut Page, n: u128)
    ensures { Says (W.contents writer.old) page.old (W.contents writer.new) page.new (decimal n) }
{
    let mut buffer = Buffer::new();
    say(writer, page, buffer.format(n));
}

/// A number in decimal, or `-` where there is none.
pub(crate) fn say_optional_count<W: Write>(writer: &mut W, page: &mut Page, n: Option<u64>)
    ensures { Says (W.contents writer.old) page.old (W.contents writer.new) page.new (count_text n) }
{
    match n {
        None => say(writer, page, "-"),
        Some(n) => say_count(writer, page, u128::from(n)),
    }
}

/// A number that may be below 0, in decimal.
pub(crate) fn say_signed<W: Write>(writer: &mut W, page: &mut Page, n: i64)
    ensures { Says (W.contents writer.old) page.old (W.contents writer.new) page.new (signed_decimal n) }
{
    let mut buffer = Buffer::new();
    say(writer, page, buffer.format(n));
}

/// A number in a base, with the base's prefix.
pub(crate) fn say_in_base<W: Write>(writer: &mut W, page: &mut Page, base: Base, n: u64)
    ensures { Says (W.contents writer.old) page.old (W.contents writer.new) page.new (in_base base n) }
{
    match base {
        Base::Bin => say_binary(writer, page, n),
        Base::Oct => say_octal(writer, page, n),
        Base::Dec => say_decimal(writer, page, n),
        Base::Hex => say_hexadecimal(writer, page, n),
    }
}

/// A number of 64 bits that is not below 0, in decimal.
fn say_decimal<W: Write>(writer: &mut W, page: &mut Page, n: u64)
    ensures { Says (W.contents writer.old) page.old (W.contents writer.new) page.new (decimal n) }
{
    let mut buffer = Buffer::new();
    say(writer, page, buffer.format(n));
}

/// What stands behind the name of a clock: `:`, a value in decimal, and a space.
pub(crate) fn say_behind_clock<W: Write>(writer: &mut W, page: &mut Page, value: u64)
    ensures { Says (W.contents writer.old) page.old (W.contents writer.new) page.new (codes ":" ++ decimal value ++ codes " ") }
{
    let mut text = [b' '; VALUE_DIGITS + 2];
    let start = write_digits(value, &mut text, VALUE_DIGITS + 1) - 1;
    text[start] = b':';
    say_bytes(writer, page, &text[start..]);
}

fn say_binary<W: Write>(writer: &mut W, page: &mut Page, n: u64)
    ensures { Says (W.contents writer.old) page.old (W.contents writer.new) page.new (in_base Bin n) }
{
    let written = write_binary(&mut page.digits, n);
    say_digits(writer, page, written);
}

fn say_octal<W: Write>(writer: &mut W, page: &mut Page, n: u64)
    ensures { Says (W.contents writer.old) page.old (W.contents writer.new) page.new (in_base Oct n) }
{
    let written = write_octal(&mut page.digits, n);
    say_digits(writer, page, written);
}

fn say_hexadecimal<W: Write>(writer: &mut W, page: &mut Page, n: u64)
    ensures { Says (W.contents writer.old) page.old (W.contents writer.new) page.new (in_base Hex n) }
{
    let written = write_hexadecimal(&mut page.digits, n);
    say_digits(writer, page, written);
}

fn write_binary(digits: &mut String, n: u64) -> Result<(), AllocError>
    ensures { OnOk result (string_bytes digits.new ≡ in_base Bin n) }
{
    digits.clear();
    write!(digits, "0b{n:b}")
}

fn write_octal(digits: &mut String, n: u64) -> Result<(), AllocError>
    ensures { OnOk result (string_bytes digits.new ≡ in_base Oct n) }
{
    digits.clear();
    write!(digits, "0o{n:o}")
}

fn write_hexadecimal(digits: &mut String, n: u64) -> Result<(), AllocError>
    ensures { OnOk result (string_bytes digits.new ≡ in_base Hex n) }
{
    digits.clear();
    write!(digits, "0x{n:x}")
}

/// The label of a number that is not signed.
pub(crate) fn say_unsigned_label<W: Write>(
    writer: &mut W,
    page: &mut Page,
    leaf: &FieldType,
    n: u64,
)
    ensures { Says (W.contents writer.old) page.old (W.contents writer.new) page.new (label_text (chain_of leaf.now).leaf (pos n)) }
{
    say_label(writer, page, leaf, i128::from(n));
}

/// The label of a signed number.
pub(crate) fn say_signed_label<W: Write>(writer: &mut W, page: &mut Page, leaf: &FieldType, n: i64)
    ensures { Says (W.contents writer.old) page.old (W.contents writer.new) page.new (label_text (chain_of leaf.now).leaf n) }
{
    say_label(writer, page, leaf, i128::from(n));
}

/// The label of the first range that holds a number, in parentheses, where there is one.
fn say_label<W: Write>(writer: &mut W, page: &mut Page, leaf: &FieldType, n: i128)
    ensures { Says (W.contents writer.old) page.old (W.contents writer.new) page.new (label_text (chain_of leaf.now).leaf n) }
{
    match label_of(leaf, n) {
        None => {}
        Some(label) => say_in_parentheses(writer, page, label),
    }
}

fn say_in_parentheses<W: Write>(writer: &mut W, page: &mut Page, label: &Text)
    ensures { Says (W.contents writer.old) page.old (W.contents writer.new) page.new (in_parentheses (Some label.now)) }
{
    say(writer, page, "(");
    say_name(writer, page, label);
    say(writer, page, ")");
}

#[tactic(auto, unfolding(crate::specs::PrintedNumbers::label_in))]
fn label_of(leaf: &FieldType, n: i128) -> Option<&Text>
    ensures { option_map (λ t. t.now) result ≡ label_in (ranges_of (chain_of leaf.now).leaf) n }
{
    match leaf {
        FieldType::Enum(enumeration) => label_in(enumeration.mappings.as_slice(), n),
        FieldType::Int(_) | FieldType::Str => None,
        FieldType::Static(element, _) => label_of(element.field_type(), n),
    }
}

#[tactic(auto, unfolding(crate::specs::PrintedNumbers::label_in))]
fn label_in(mappings: &[Mapping], n: i128) -> Option<&Text>
    ensures { option_map (λ t. t.now) result ≡ label_in mappings.now n }
{
    let mut rest = mappings;
    while let [mapping, others @ ..] = rest {
        if mapping.low <= n && n <= mapping.high {
            return Some(&mapping.label);
        }
        rest = others;
    }
    None
}

/// The base of a type's numbers; where it has none, they are decimal.
pub(crate) fn base_of(leaf: &FieldType) -> Base
    ensures { result ≡ base_of (chain_of leaf.now).leaf }
{
    match leaf {
        FieldType::Int(int) => int.base(),
        FieldType::Enum(enumeration) => enumeration.int.base(),
        FieldType::Str => Base::Dec,
        FieldType::Static(element, _) => base_of(element.field_type()),
    }
}
