//! What helps to set a fault right, behind what was expected.

ghost use Rattle.std.specs.Prelude.{◌≡◌, ◌++◌, OnOk, string_bytes};
ghost use Rattle.conf_fault.specs.Explanation.{Adds};
ghost use Rattle.conf_fault.specs.Wanted.{IsClashHint, IsHint, IsInheritHint, IsMissingHint, IsNameHint, IsQuoteHint, IsRangeHint, IsWholeHint, end_name as name_of_end, include_words, there_words};

use crate::by_kind::is_whole;
use crate::expected::nearest;
use crate::found::Found;
use crate::shown::push_cut;
use crate::source::Source;
use conf_table::{Content, Place, content};
use conf_tree::{ConfFault, FaultKind, Step};
use ctf_types::is_own_name;
use std::alloc::AllocError;

/// Adds what helps where a property is missing, a name is at fault, or a value is written otherwise than what was meant.
pub(crate) fn push_hint(
    said: &mut String,
    found: &Found<'_>,
    fault: &ConfFault,
    name: &str,
) -> Result<(), AllocError>
    requires { name.now ≡ name_of_end fault.now.path }
    ensures { OnOk result (Adds (IsHint fault.now.kind fault.now.path) (string_bytes said.old) (string_bytes said.new)) }
{
    match fault.kind {
        FaultKind::Missing => push_missing_hint(said, found, fault.path.as_slice(), name),
        FaultKind::NameClash => push_name_hint(said, found, fault.path.as_slice(), name),
        FaultKind::OutOfRange => push_range_hint(said, found, fault.path.as_slice()),
        FaultKind::NotWhole => push_whole_hint(said, found),
        FaultKind::NoSuchAlias => push_quote_hint(said, found),
        FaultKind::Unknown => {
            if name != "$include" {
                return Ok(());
            }
            push_include_hint(said)
        }
        FaultKind::BadName => {
            if !name.as_bytes().contains(&b'-') {
                return Ok(());
            }
            said.push_str("; a hyphen stands in no name, `_` does")
        }
        _ => Ok(()),
    }
}

fn push_missing_hint(
    said: &mut String,
    found: &Found<'_>,
    path: &[Step],
    name: &str,
) -> Result<(), AllocError>
    ensures { OnOk result (Adds (IsMissingHint path.now name.now) (string_bytes said.old) (string_bytes said.new)) }
{
    if path.len() == 1 && is_of_barectf_2(found.source)? {
        return said.push_str(
            "; this looks like a configuration of barectf 2, and ctftrace reads those of barectf 3",
        );
    }
    let unknown = unknown_names(found)?;
    let words: Vec<&str> = unknown
        .iter()
        .map(|name| name.as_str())
        .collect(found.source.alloc)?;
    if words.iter().any(|word| *word == "$include") {
        return push_include_hint(said);
    }
    if name == "field-type" && words.iter().any(|word| *word == "class") {
        return said.push_str("; a member's field type stands under `field-type`");
    }
    let Some(word) = nearest(name, words.as_slice(), name.len().saturating_sub(1) / 2) else {
        return push_inherit_hint(said, name, words.as_slice());
    };
    push_there(said, word)
}

/// Adds that there is a property of this name.
fn push_there(said: &mut String, name: &str) -> Result<(), AllocError>
    ensures { OnOk result (string_bytes said.new ≡ string_bytes said.old ++ there_words name.now) }
{
    said.push_str("; there is `")?;
    push_cut(said, name)?;
    said.push_str("`")
}

/// Adds a name like `$inherit` where a class is missing, which a base would have.
fn push_inherit_hint(said: &mut String, name: &str, words: &[&str]) -> Result<(), AllocError>
    ensures { OnOk result (Adds (IsInheritHint name.now) (string_bytes said.old) (string_bytes said.new)) }
{
    if name != "class" {
        return Ok(());
    }
    let Some(word) = nearest("$inherit", words, "$inherit".len() / 2) else {
        return Ok(());
    };
    push_there(said, word)?;
    said.push_str(", but a base stands under `$inherit`")
}

fn push_include_hint(said: &mut String) -> Result<(), AllocError>
    ensures { OnOk result (string_bytes said.new ≡ string_bytes said.old ++ include_words) }
{
    said.push_str("; tools/yaml_to_json puts in what `$include` names")
}

/// The properties of an object that it cannot have.
fn unknown_names(found: &Found<'_>) -> Result<Vec<String>, AllocError> {
    let mut unknown = Vec::new(found.source.alloc);
    for layer in found.layers.iter() {
        let names = found.source.names(*layer)?;
        let mut others: Vec<String> = names
            .into_iter()
            .filter(|name| content(found.holder, name.as_str()).is_none())
            .collect(found.source.alloc)?;
        unknown.append(&mut others)?;
    }
    Ok(unknown)
}

/// Whether the configuration has a property of barectf 2.
fn is_of_barectf_2(source: Source<'_>) -> Result<bool, AllocError> {
    let root = source.root();
    Ok(source.member(root, "metadata")?.is_some() || source.member(root, "version")?.is_some())
}

/// Adds how a whole number is written, where the one that stands there is written otherwise.
fn push_whole_hint(said: &mut String, found: &Found<'_>) -> Result<(), AllocError>
    ensures { OnOk result (Adds IsWholeHint (string_bytes said.old) (string_bytes said.new)) }
{
    let written = found.source.written(found.layer().at)?;
    let number = written.as_ref().map_or("", |written| written.as_str());
    if number == "-0" {
        return said.push_str("; 0 is written without a sign");
    }
    if !is_whole(found.content) || !has_fraction(number) {
        return Ok(());
    }
    said.push_str("; a whole number is written without fraction or exponent")
}

/// Whether a number is written with a fraction or an exponent.
fn has_fraction(number: &str) -> bool {
    let bytes = number.as_bytes();
    bytes.contains(&b'.') || bytes.contains(&b'e') || bytes.contains(&b'E')
}

/// Adds how true and false are written, where one of them is taken for the name of an alias.
fn push_quote_hint(said: &mut String, found: &Found<'_>) -> Result<(), AllocError>
    ensures { OnOk result (Adds IsQuoteHint (string_bytes said.old) (string_bytes said.new)) }
{
    let Some(word) = found.text()? else {
        return Ok(());
    };
    if !can_be_on(found.content) || (word.as_str() != "true" && word.as_str() != "false") {
        return Ok(());
    }
    said.push_str("; `true` and `false` stand without quotes")
}

/// Whether a value of this content can be a feature that is on.
fn can_be_on(content: Option<Content>) -> bool {
    matches!(
        content,
        Some(Content::At(
            Place::Feature | Place::SizeFeature | Place::MagicFeature | Place::IdentifierFeature,
        ))
    )
}

/// Adds the numbers that the integer of an enumeration holds, where one of its ranges is at fault.
fn push_range_hint(said: &mut String, found: &Found<'_>, path: &[Step]) -> Result<(), AllocError>
    ensures { OnOk result (Adds IsRangeHint (string_bytes said.old) (string_bytes said.new)) }
{
    let Some(held) = held_numbers(found, path)? else {
        return Ok(());
    };
    said.push_str(format!(in found.source.alloc;
        "; the integer holds {} to {}",
        held.0, held.1
    )?.as_str())
}

/// The lowest and the highest number of the integer of the enumeration to whose range a path leads.
fn held_numbers(found: &Found<'_>, path: &[Step]) -> Result<Option<(i128, i128)>, AllocError> {
    if found.content != Some(Content::At(Place::Range)) {
        return Ok(None);
    }
    let enumeration = found
        .source
        .find(found.tree, &path[..path.len().saturating_sub(3)])?;
    let unused = match enumeration.number("size")? {
        Some(bits) if 1 <= bits && bits <= 64 => 64 - bits,
        _ => return Ok(None),
    };
    Ok(match enumeration.class()? {
        Place::SignedEnumeration => {
            Some((
                i128::from(i64::MIN >> unused),
                i128::from(i64::MAX >> unused),
            ))
        }
        Place::UnsignedEnumeration => Some((0, i128::from(u64::MAX >> unused))),
        _ => None,
    })
}

/// Adds which entry of its list has a name that is taken, or else whose it is.
fn push_name_hint(
    said: &mut String,
    found: &Found<'_>,
    path: &[Step],
    name: &str,
) -> Result<(), AllocError>
    ensures { OnOk result (Adds (IsNameHint name.now) (string_bytes said.old) (string_bytes said.new)) }
{
    let Some(index) = other_entry(found, path, name)? else {
        return push_clash_hint(said, found, path, name);
    };
    said.push_str(format!(in found.source.alloc; "; entry {index} has it")?.as_str())
}

/// The entry of the members list to which a path leads that has this name, but the one at the path's own index.
fn other_entry(found: &Found<'_>, path: &[Step], name: &str) -> Result<Option<usize>, AllocError> {
    let [.., Step::Index(own), Step::Key(_)] = path else {
        return Ok(None);
    };
    let list = found
        .source
        .find(found.tree, &path[..path.len().saturating_sub(2)])?;
    list.other_entry(*own, name)
}

/// Adds whose the name is where the list of members does not show it.
fn push_clash_hint(
    said: &mut String,
    found: &Found<'_>,
    path: &[Step],
    name: &str,
) -> Result<(), AllocError>
    ensures { OnOk result (Adds (IsClashHint name.now) (string_bytes said.old) (string_bytes said.new)) }
{
    if let [.., Step::Key(list), Step::Index(_), Step::Key(_)] = path
        && list.as_str() == "packet-context-field-type-extra-members"
        && is_own_name(name)
    {
        return said.push_str(
            "; a packet context has `packet_size`, `content_size`, `timestamp_begin`, `timestamp_end`, `events_discarded` and `packet_seq_num` itself, with its features on or off",
        );
    }
    if name.starts_with("__") && name.ends_with("_len") {
        return said.push_str("; a dynamic array `x` takes `__x_len` too");
    }
    let length = format!(in found.source.alloc; "__{name}_len")?;
    let list = found
        .source
        .find(found.tree, &path[..path.len().saturating_sub(2)])?;
    if !list.has_entry(length.as_str())? {
        return Ok(());
    }
    said.push_str("; a dynamic array `")?;
    push_cut(said, name)?;
    said.push_str("` takes `")?;
    push_cut(said, length.as_str())?;
    said.push_str("` too")
}
