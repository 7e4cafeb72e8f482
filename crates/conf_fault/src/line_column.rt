//! Lines and columns of a text.

ghost use Rattle.std.specs.Prelude.{◌≡◌, ◌++◌, take, OnOk, string_bytes};
ghost use Rattle.conf_fault.specs.LineColumn.{IsPlaceIn, line_behind, column_behind};
ghost use Rattle.conf_fault.specs.Explanation.{place_words};

use std::alloc::{AllocError, Global};

/// A place in a text: the line and the byte in the line, both from 1.
#[derive(Clone, Copy, Debug)]
pub struct LineColumn {
    pub line: usize,
    pub column: usize,
}

/// The line and the column of the byte at a place, and at the text's length those of its end.
pub(crate) fn line_column(text: &[u8], at: usize) -> LineColumn
    ensures line { result.line ≡ line_behind (take at text.now) }
    ensures column { result.column ≡ column_behind (take at text.now) }
    ensures lies { IsPlaceIn text.now result }
{
    let before = &text[..at.min(text.len())];
    let column = before
        .iter()
        .rev()
        .take_while(|byte| **byte != b'\n')
        .count();
    LineColumn {
        line: 1 + before.iter().filter(|byte| **byte == b'\n').count(),
        column: 1 + column,
    }
}

/// Adds where a fault stands.
pub(crate) fn push_place(alloc: Global, said: &mut String, at: LineColumn) -> Result<(), AllocError>
    ensures { OnOk result (string_bytes said.new ≡ string_bytes said.old ++ place_words at) }
{
    let numbers = format!(in alloc; "line {}, column {}: ", at.line, at.column)?;
    said.push_str(numbers.as_str())
}
