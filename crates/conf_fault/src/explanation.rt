//! The explanation of a fault: the line and the column, the path, what stands there, and what was expected.

ghost use Rattle.std.specs.Prelude.{◌≡◌, ◌++◌, IfOk, OnOk, string_bytes};
ghost use Rattle.conf_fault.specs.Explanation.{Adds, IsAliasWords, IsExplanation, IsNamedValue, IsPlaced, IsSaidOf, IsStanding, IsValueWords, IsWritten, path_words, step_words};
ghost use Rattle.conf_fault.specs.Shown.{IsOneLine};

use crate::by_kind::{is_of_label, name_words, wanted_words};
use crate::found::Found;
use crate::layers::Layer;
use crate::line_column::{line_column, push_place};
use crate::not_json::push_not_json;
use crate::shown::{on_one_line, push_cut};
use crate::source::Source;
use conf_tree::{ConfFault, FaultKind, Step};
use std::alloc::{AllocError, Global};

/// Explains the fault of a configuration's text in one line, without its end: `line 2, column 9: trace: 2: expected an object`.
///
/// Lines and columns count from 1, columns in bytes. A value that stands in an alias or in a base is placed there, and the alias is named; what
/// is missing is placed at its object. An alias that does not fit where it is used is placed there, and its name and its value are shown. A value is
/// shown as it is written, without the white space between its parts. Names and values are cut at 60 characters.
pub fn explain_fault(alloc: Global, text: &[u8], fault: &ConfFault) -> Result<String, AllocError>
    ensures explains { IfOk result (λ said. IsExplanation text.now fault.now (string_bytes said)) }
    ensures one_line { IfOk result (λ said. IsOneLine (string_bytes said)) }
{
    let mut said = String::new(alloc);
    push_said(Source { alloc, text }, &mut said, fault)?;
    on_one_line(alloc, said.as_str())
}

fn push_said(source: Source<'_>, said: &mut String, fault: &ConfFault) -> Result<(), AllocError>
    ensures { OnOk result (Adds (IsSaidOf fault.now.kind source.entry.text.now fault.now) (string_bytes said.old) (string_bytes said.new)) }
{
    match fault.kind {
        FaultKind::NotJson => push_not_json(source, said),
        FaultKind::OutOfMemory => said.push_str("out of memory"),
        _ => push_placed(source, said, fault),
    }
}

fn push_placed(source: Source<'_>, said: &mut String, fault: &ConfFault) -> Result<(), AllocError>
    ensures { OnOk result (Adds (IsPlaced source.entry.text.now fault.now) (string_bytes said.old) (string_bytes said.new)) }
{
    let tree = source.tree()?;
    let found = source.find(tree.as_ref(), fault.path.as_slice())?;
    let layer = found.used_name(fault.kind).unwrap_or(found.layer());
    let at = place_at_fault(&found, layer, fault).min(source.text.len());
    push_place(source.alloc, said, line_column(source.text, at))?;
    push_path(source.alloc, said, fault.path.as_slice())?;
    push_alias(source, said, layer.alias)?;
    push_standing(said, &found, fault.kind, at)?;
    said.push_str(": expected ")?;
    said.push_str(wanted_words(&found, fault)?.as_str())
}

fn push_path(alloc: Global, said: &mut String, path: &[Step]) -> Result<(), AllocError>
    ensures { OnOk result (string_bytes said.new ≡ string_bytes said.old ++ path_words path.now) }
{
    let Some((first, others)) = path.split_first() else {
        return Ok(());
    };
    push_step(alloc, said, first)?;
    for step in others {
        said.push_str("/")?;
        push_step(alloc, said, step)?;
    }
    said.push_str(": ")
}

fn push_step(alloc: Global, said: &mut String, step: &Step) -> Result<(), AllocError>
    ensures { OnOk result (string_bytes said.new ≡ string_bytes said.old ++ step_words step.now) }
{
    match step {
        Step::Key(name) => push_cut(said, name.as_str()),
        Step::Index(index) => said.push_str(format!(in alloc; "{index}")?.as_str()),
    }
}

fn push_alias(source: Source<'_>, said: &mut String, alias: Option<usize>) -> Result<(), AllocError>
    ensures { OnOk result (Adds (IsAliasWords source.entry.text.now) (string_bytes said.old) (string_bytes said.new)) }
{
    let Some(at) = alias else {
        return Ok(());
    };
    let Some(name) = source.text_of(at)? else {
        return Ok(());
    };
    said.push_str("in the alias `")?;
    push_cut(said, name.as_str())?;
    said.push_str("`: ")
}

fn push_standing(
    said: &mut String,
    found: &Found<'_>,
    kind: FaultKind,
    at: usize,
) -> Result<(), AllocError>
    ensures { OnOk result (Adds (IsStanding kind found.now.source.text.now at) (string_bytes said.old) (string_bytes said.new)) }
{
    match name_words(kind) {
        Some(words) => said.push_str(words),
        None => push_value(said, found, kind, at),
    }
}

/// Adds what stands at the fault's place: the value, a label that is at fault, or the name of an alias and what it is.
fn push_value(
    said: &mut String,
    found: &Found<'_>,
    kind: FaultKind,
    at: usize,
) -> Result<(), AllocError>
    ensures { OnOk result (Adds (IsValueWords found.now.source.text.now at) (string_bytes said.old) (string_bytes said.new)) }
{
    if !found.is_there {
        return said.push_str("missing");
    }
    match found.used_name(kind) {
        Some(_) => push_named(said, found.source, at, found.layer().at),
        None => push_written(said, found.source, at),
    }
}

/// Adds the name of an alias, and the value that it stands for.
fn push_named(
    said: &mut String,
    source: Source<'_>,
    name: usize,
    at: usize,
) -> Result<(), AllocError>
    ensures { OnOk result (Adds (IsNamedValue source.entry.text.now name) (string_bytes said.old) (string_bytes said.new)) }
{
    push_written(said, source, name)?;
    said.push_str(", which is ")?;
    push_written(said, source, at)
}

/// Adds the value or the name that begins at a place, as it is written.
fn push_written(said: &mut String, source: Source<'_>, at: usize) -> Result<(), AllocError>
    ensures { OnOk result (Adds (IsWritten source.entry.text.now at) (string_bytes said.old) (string_bytes said.new)) }
{
    match source.written(at)? {
        Some(value) => push_cut(said, value.as_str()),
        None => said.push_str("a value"),
    }
}

/// Where a fault stands: at the name of the value where that is at fault, or else at the value.
fn place_at_fault(found: &Found<'_>, layer: Layer, fault: &ConfFault) -> usize {
    if name_words(fault.kind).is_some() || is_of_label(found, fault) {
        layer.key
    } else {
        layer.at
    }
}
