//! What was expected, by the kind of a fault.

ghost use Rattle.std.specs.Prelude.{◌≡◌, ◌++◌, IfOk, OnOk, Some, map, option_map, string_bytes};
ghost use Rattle.std.specs.Option.{option_copied};
ghost use Rattle.std.specs.List.{list_any};
ghost use Rattle.conf_fault.specs.Explanation.{Adds, IsWanted, fixed_words as words_of_kind, name_words as words_of_name, same_words as words_without_limit};
ghost use Rattle.conf_fault.specs.Found.{data_of, end_of};
ghost use Rattle.conf_fault.specs.Wanted.{IsChoice, IsEnd, IsInRange, IsKnownName, IsOneOf, IsTold, IsToldAndHinted, IsToldOfKind, alias_map as map_of_aliases, alias_thing as alias_thing_of, can_be_whole, end_name as name_of_end, identifier_words, is_control, named_text, names_of, range_text};

use crate::expected::{classes_at, push_expected, push_nearest, push_words};
use crate::found::Found;
use crate::hints::push_hint;
use crate::named::{push_known, push_room};
use crate::path::{end_name, own_alias};
use crate::sizes::push_limit;
use conf_table::{Content, Place, rows, words_in};
use conf_tree::{ConfFault, FaultKind, MAX_LEVELS, Step};
use ctf_types::MAX_NAME_BYTES;
use std::alloc::{AllocError, Global};

/// What was expected where a fault stands.
pub(crate) fn wanted_words(found: &Found<'_>, fault: &ConfFault) -> Result<String, AllocError>
    requires { IsEnd found.now.source.text.now fault.now (end_of found.now) }
    ensures { IfOk result (λ words. IsWanted found.now.source.text.now fault.now (string_bytes words)) }
{
    match fixed_words(found.source.alloc, fault.kind)? {
        Some(words) => Ok(words),
        None => told_words(found, fault),
    }
}

/// What was expected by the kinds that are not the same everywhere, and a hint.
fn told_words(found: &Found<'_>, fault: &ConfFault) -> Result<String, AllocError>
    requires { IsEnd found.now.source.text.now fault.now (end_of found.now) }
    ensures { IfOk result (λ words. IsToldAndHinted found.now.source.text.now fault.now (string_bytes words)) }
{
    let mut words = String::new(found.source.alloc);
    push_wanted(&mut words, found, fault)?;
    Ok(words)
}

fn push_wanted(said: &mut String, found: &Found<'_>, fault: &ConfFault) -> Result<(), AllocError>
    requires { IsEnd found.now.source.text.now fault.now (end_of found.now) }
    ensures { OnOk result (Adds (IsToldAndHinted found.now.source.text.now fault.now) (string_bytes said.old) (string_bytes said.new)) }
{
    let name = end_name(fault.path.as_slice());
    push_told(said, found, fault, name)?;
    push_hint(said, found, fault, name)
}

fn push_told(
    said: &mut String,
    found: &Found<'_>,
    fault: &ConfFault,
    name: &str,
) -> Result<(), AllocError>
    requires { name.now ≡ name_of_end fault.now.path }
    ensures { OnOk result (Adds (IsTold found.now.source.text.now fault.now (end_of found.now)) (string_bytes said.old) (string_bytes said.new)) }
{
    match words_here(fault.kind, name, found.content) {
        Some(words) => said.push_str(words),
        None => push_told_of_kind(said, found, fault.kind, fault.path.as_slice()),
    }
}

fn push_told_of_kind(
    said: &mut String,
    found: &Found<'_>,
    kind: FaultKind,
    path: &[Step],
) -> Result<(), AllocError>
    ensures { OnOk result (Adds (IsToldOfKind found.now.source.text.now kind path.now (end_of found.now)) (string_bytes said.old) (string_bytes said.new)) }
{
    match kind {
        FaultKind::Unknown => push_properties(said, found, end_name(path)),
        FaultKind::OutOfRange => push_in_range(said, found),
        FaultKind::BadName => push_identifier(found.source.alloc, said),
        FaultKind::NoSuchAlias => push_known_alias(said, found, own_alias(path)),
        FaultKind::NoClock => push_known(said, found, "a clock type", "clock-types", ""),
        FaultKind::FieldTooSmall => push_room(said, found, path),
        FaultKind::Limit => push_limit(said, found),
        _ => push_expected(said, found),
    }
}

/// What is said of a name where a fault of this kind is the name's and not its value's.
#[tactic(auto, unfolding(crate::specs::Explanation::name_words))]
pub(crate) fn name_words(kind: FaultKind) -> Option<&'static str>
    ensures { option_copied result ≡ words_of_name kind }
{
    match kind {
        FaultKind::Unknown => Some("unknown property"),
        FaultKind::BadName => Some("bad name"),
        FaultKind::ReservedName => Some("reserved word"),
        FaultKind::NameClash => Some("name is taken"),
        _ => None,
    }
}

/// What is expected by the kinds of which that is the same everywhere.
fn fixed_words(alloc: Global, kind: FaultKind) -> Result<Option<String>, AllocError>
    ensures { IfOk result (λ words. option_map string_bytes words ≡ words_of_kind kind) }
{
    if let FaultKind::TooDeep = kind {
        let levels = format!(in alloc;
            "at most {MAX_LEVELS} levels of objects and lists with what is inherited"
        )?;
        return Ok(Some(levels));
    }
    match same_words(kind) {
        Some(words) => Ok(Some(String::from_str(alloc, words)?)),
        None => Ok(None),
    }
}

/// The same where no limit is named.
#[tactic(auto, unfolding(crate::specs::Explanation::same_words))]
fn same_words(kind: FaultKind) -> Option<&'static str>
    ensures { option_copied result ≡ words_without_limit kind }
{
    match kind {
        FaultKind::ReservedName => Some("a name that the metadata language does not use itself"),
        FaultKind::InheritCycle => Some(
            "a chain of aliases that ends: this one leads into a circle",
        ),
        FaultKind::ZeroSizeRecord => Some(
            "an integer, an enumeration or a string in its contexts or its payload",
        ),
        FaultKind::TwoOrders => Some("only one of `trace-byte-order` and `native-byte-order`"),
        FaultKind::NotJson
        | FaultKind::TooDeep
        | FaultKind::WrongKind
        | FaultKind::NotWhole
        | FaultKind::Missing
        | FaultKind::Unknown
        | FaultKind::BadName
        | FaultKind::NameClash
        | FaultKind::NoSuchAlias
        | FaultKind::OutOfRange
        | FaultKind::FieldTooSmall
        | FaultKind::NoClock
        | FaultKind::Limit
        | FaultKind::TimestampSize
        | FaultKind::NoUuid
        | FaultKind::OutOfMemory => None,
    }
}

/// What is expected by the kinds of which the property's name or what the table says of it tells all.
#[tactic(auto, unfolding(crate::specs::Wanted::named_text))]
fn words_here(kind: FaultKind, name: &str, content: Option<Content>) -> Option<&'static str>
    ensures { option_copied result ≡ named_text kind name.now content }
{
    match kind {
        FaultKind::Missing if name == "trace-byte-order" => Some(
            "just one of `trace-byte-order` and `native-byte-order`",
        ),
        FaultKind::NoClock if name != "$default-clock-type-name" => Some(
            "a `$default-clock-type-name` in this data stream type, or the feature off",
        ),
        FaultKind::TimestampSize if name == "timestamp-field-type" => Some(
            "a field of 8 to 64 bits, fewer than 64 only beside the packet's beginning timestamp, or the feature off",
        ),
        FaultKind::TimestampSize => Some("a field of 64 bits, or the feature off"),
        FaultKind::NoUuid if name == "uuid-field-type" => Some(
            "a UUID of the trace type, with `auto` one from the caller (--uuid of `metadata` and `trace`), or the feature off",
        ),
        FaultKind::NoUuid => Some(
            "a UUID of the trace type, or with `auto` one from the caller (--uuid of `metadata` and `trace`)",
        ),
        FaultKind::OutOfRange if name == "$is-default" => Some(
            "true at one data stream type at most",
        ),
        FaultKind::OutOfRange => range_words(name, content),
        FaultKind::NameClash => Some("a name that nothing else in this structure has"),
        FaultKind::NotWhole if !is_whole(content) => Some(
            "a whole number of 64 bits, without fraction or exponent",
        ),
        _ => None,
    }
}

/// What is expected at the places where what is out of range is no number and no word.
#[tactic(auto, unfolding(crate::specs::Wanted::range_text))]
fn range_words(name: &str, content: Option<Content>) -> Option<&'static str>
    ensures { option_copied result ≡ range_text name.now content }
{
    match content? {
        Content::At(Place::Mappings) => Some("one label at least"),
        Content::At(Place::Ranges) if has_control(name) => Some(
            "a label without control characters but newline and tab",
        ),
        Content::At(Place::Ranges) => Some("one range at least"),
        Content::At(Place::Range) => Some("a range inside the integer's numbers, the lowest first"),
        Content::At(Place::DynamicElementType) => Some("an element with bits"),
        _ => None,
    }
}

/// Whether a fault is that of a label, and not of its ranges.
pub(crate) fn is_of_label(found: &Found<'_>, fault: &ConfFault) -> bool {
    found.content == Some(Content::At(Place::Ranges))
        && match fault.kind {
            FaultKind::OutOfRange => has_control(end_name(fault.path.as_slice())),
            FaultKind::Limit => true,
            _ => false,
        }
}

/// Whether a text has a control character but newline and tab.
fn has_control(text: &str) -> bool
    ensures { result ≡ list_any is_control text.now }
{
    text.as_bytes()
        .iter()
        .any(|byte| *byte < 32 && *byte != b'\n' && *byte != b'\t')
}

/// Whether a value of this content can be a whole number.
#[tactic(auto, unfolding(crate::specs::Wanted::can_be_whole))]
pub(crate) fn is_whole(content: Option<Content>) -> bool
    ensures { result ≡ can_be_whole content }
{
    matches!(
        content,
        Some(
            Content::Whole { .. }
                | Content::PowerOfTwo { .. }
                | Content::Level { .. }
                | Content::WholeOrText { .. }
        )
    )
}

/// Adds what a name has to be.
fn push_identifier(alloc: Global, said: &mut String) -> Result<(), AllocError>
    ensures { OnOk result (string_bytes said.new ≡ string_bytes said.old ++ identifier_words) }
{
    said.push_str(format!(in alloc;
        "a letter or `_`, then letters, digits or `_`, {MAX_NAME_BYTES} bytes at most"
    )?.as_str())
}

/// Adds what was expected where a value is out of range.
#[tactic(auto, unfolding(crate::specs::Wanted::IsInRange))]
fn push_in_range(said: &mut String, found: &Found<'_>) -> Result<(), AllocError>
    ensures { OnOk result (Adds (IsInRange found.now.source.text.now (data_of found.now.value) found.now.content found.now.position) (string_bytes said.old) (string_bytes said.new)) }
{
    match found.content {
        Some(Content::Word(choice)) => push_choice(said, found, words_in(choice)),
        Some(Content::Class) => push_choice(said, found, classes_at(found)?.as_slice()),
        _ => push_expected(said, found),
    }
}

/// Adds the words allowed, and the one most like what stands there.
fn push_choice(said: &mut String, found: &Found<'_>, words: &[&str]) -> Result<(), AllocError>
    ensures { OnOk result (Adds (IsChoice found.now.source.text.now (data_of found.now.value) (map (λ w. w.now) words.now)) (string_bytes said.old) (string_bytes said.new)) }
{
    push_words(said, words)?;
    let Some(word) = found.text()? else {
        return Ok(());
    };
    push_nearest(said, word.as_str(), words)?;
    if word.as_str() == "real" {
        said.push_str("; there are no real numbers")?;
    }
    Ok(())
}

/// Adds the properties of an object, with the one most like `name`.
fn push_properties(said: &mut String, found: &Found<'_>, name: &str) -> Result<(), AllocError>
    ensures { OnOk result (Adds (IsOneOf (Some name.now) (names_of found.now.holder)) (string_bytes said.old) (string_bytes said.new)) }
{
    let names: Vec<&str> = rows(found.holder)
        .iter()
        .map(|(name, _, _)| *name)
        .collect(found.source.alloc)?;
    push_words(said, names.as_slice())?;
    push_nearest(said, name, names.as_slice())
}

/// Adds the aliases that can stand where none has the name that does; in the value of the alias `own` it is none of them.
fn push_known_alias(said: &mut String, found: &Found<'_>, own: &str) -> Result<(), AllocError>
    ensures { OnOk result (Adds (IsKnownName found.now.source.text.now (data_of found.now.value) (alias_thing_of own.now found.now.content) (map_of_aliases found.now.content) own.now) (string_bytes said.old) (string_bytes said.new)) }
{
    let thing = alias_thing(own, found.content);
    push_known(said, found, thing, alias_map(found.content), own)
}

/// The map of the trace type in which the aliases stand that a value of this content can name.
fn alias_map(content: Option<Content>) -> &'static str
    ensures { result.now ≡ map_of_aliases content }
{
    match content {
        Some(Content::Level { .. }) => "$log-level-aliases",
        _ => "$field-type-aliases",
    }
}

/// What an alias is called beside the alias `own`, in whose value its name would stand.
#[tactic(auto, unfolding(crate::specs::Wanted::alias_thing))]
fn alias_thing(own: &str, content: Option<Content>) -> &'static str
    ensures { result.now ≡ alias_thing_of own.now content }
{
    match content {
        Some(Content::Level { .. }) => "a log level alias",
        _ if own.is_empty() => "a field type alias",
        _ => "another field type alias",
    }
}
