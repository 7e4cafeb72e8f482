//! Rows of tables: a text in its place, and what is said of it.

use crate::tests::tables::places::Place;
use crate::tests::words::spelled;
use conf_check::configure;
use conf_inherit::resolve;
use conf_tree::{At, ConfFault, Tree, flag, list, needed, object, optional, read_tree, whole};
use serde_json::Value;
use std::alloc::{AllocError, Global};
use std::fmt::Debug;
use std::process::Abort;
use std::test::Fail;
use uuid::Uuid;

/// What is asked of a text.
pub enum Asked {
    /// Whether it is a configuration, with this identifier where one is handed in.
    Configuration(Option<u128>),
    /// What stands at this place once it is resolved.
    Resolved(&'static str),
    /// What is looked up in its tree.
    Value(Look),
}

/// What is looked up in a tree: a number.
pub enum Look {
    /// The property `a`, from 0 to 9.
    Digit,
    /// The property `a`, from -2^63 to 2^64 - 1, or -1 where it is not there.
    NumberOrNone,
    /// The first item, a flag: 1 where it is true.
    FirstFlag,
    /// The number of bytes of the text that the value is.
    TextLen,
}

/// What is asked of each text, where it stands, and the rows, a line each.
pub type Table = (Asked, Place, &'static str);

/// Both are equal; else the test fails at the row that these words name.
pub fn same<T: PartialEq + Debug + Drop, S: Debug + Drop>(
    rt: &impl Abort,
    found: T,
    expected: T,
    row: S,
) {
    assert_eq!(rt; found, expected, "{row:?}");
}

/// Of each row of the tables is said what it expects.
pub fn all_are_said(rt: &impl Abort, alloc: Global, tables: &[Table]) -> Result<(), Fail> {
    for table in tables {
        are_said(rt, alloc, table)?;
    }
    Ok(())
}

fn are_said(rt: &impl Abort, alloc: Global, table: &Table) -> Result<(), Fail> {
    let (asked, place, rows) = table;
    for row in rows.lines() {
        is_said(rt, alloc, asked, place, row)?;
    }
    Ok(())
}

fn is_said(
    rt: &impl Abort,
    alloc: Global,
    asked: &Asked,
    place: &Place,
    row: &str,
) -> Result<(), Fail> {
    if row.is_empty() || row.starts_with("# ") {
        return Ok(());
    }
    let (before, behind, path) = place;
    let (text, answer) = row.split_once(" -> ").ok_or("a row without an answer")?;
    let text = spelled(alloc, text)?;
    let text = format!(in alloc; "{before}{text}{behind}")?;
    let found = said(alloc, asked, text.as_str())?;
    let answer = answer.replace(alloc, "@", path)?;
    let answer = spelled(alloc, answer.as_str())?;
    same(rt, found.as_str(), answer.as_str(), row);
    Ok(())
}

/// What is said of a text: what was found, or the place that is refused and why.
fn said(alloc: Global, asked: &Asked, text: &str) -> Result<String, AllocError> {
    match asked {
        Asked::Configuration(number) => {
            match configure(alloc, text.as_bytes(), (*number).map(Uuid::from_u128)) {
                Ok(_) => String::from_str(alloc, "accepted"),
                Err(fault) => format!(in alloc; "{fault}"),
            }
        }
        Asked::Resolved(part) => match resolved(alloc, text) {
            Ok(tree) => match tree.value.pointer(part) {
                Some(part) => part.to_string(alloc),
                None => String::from_str(alloc, "ok"),
            },
            Err(fault) => format!(in alloc; "{fault}"),
        },
        Asked::Value(look) => match looked_up_in(alloc, look, text) {
            Ok(number) => format!(in alloc; "{number}"),
            Err(fault) => format!(in alloc; "{fault}"),
        },
    }
}

fn resolved(alloc: Global, text: &str) -> Result<Tree, ConfFault> {
    resolve(alloc, read_tree(alloc, text.as_bytes())?)
}

fn looked_up_in(alloc: Global, look: &Look, text: &str) -> Result<i128, ConfFault> {
    let tree = read_tree(alloc, text.as_bytes())?;
    looked_up(alloc, look, &tree.value)
}

/// What is looked up in a value.
pub fn looked_up(alloc: Global, look: &Look, value: &Value) -> Result<i128, ConfFault> {
    match look {
        Look::Digit => {
            let members = object(alloc, At::Here, value)?;
            let value = needed(alloc, members, "a")?;
            whole(alloc, At::Property("a"), value, 0, 9)
        }
        Look::NumberOrNone => {
            let (low, high) = (i128::from(i64::MIN), i128::from(u64::MAX));
            match optional(object(alloc, At::Here, value)?, "a") {
                Some(value) => whole(alloc, At::Property("a"), value, low, high),
                None => Ok(-1),
            }
        }
        Look::FirstFlag => match list(alloc, At::Here, value)?.first() {
            Some(item) => Ok(i128::from(flag(alloc, At::Item(0), item)?)),
            None => Ok(0),
        },
        Look::TextLen => {
            let bytes = conf_tree::text(alloc, At::Here, value)?.len();
            Ok(i128::from(bytes as u64))
        }
    }
}
