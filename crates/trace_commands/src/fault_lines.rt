//! The lines of faults: the program, the file, the place, what stands there, and what was expected.

ghost use Rattle.std.specs.Prelude.{◌≡◌, IfOk};
ghost use Rattle.trace_commands.specs.Checking.{IsExplainedIn};
ghost use Rattle.trace_commands.specs.FaultLines.{fault_line as line_of};

use conf_fault::{explain_fault, on_one_line};
use conf_tree::ConfFault;
use std::alloc::{AllocError, Global};

/// The line of what is said of a file: control characters, marks that turn the direction of a line and ends of lines by what stands for them in C, all
/// other characters as they are.
pub fn fault_line(alloc: Global, file: &str, said: &str) -> Result<Vec<u8>, AllocError>
    ensures { IfOk result (λ line. line.items ≡ line_of file.now said.now) }
{
    let file = on_one_line(alloc, file)?;
    let said = on_one_line(alloc, said)?;
    let line = format!(in alloc; "ctftrace: {file}: {said}\n")?;
    Ok(line.into_bytes())
}

/// The line of a configuration's fault: the line and the column, the path, what stands there, and what was expected.
pub fn configuration_line(
    alloc: Global,
    file: &str,
    text: &[u8],
    fault: &ConfFault,
) -> Result<Vec<u8>, AllocError>
    ensures { IfOk result (λ line. IsExplainedIn file.now text.now fault.now line.items) }
{
    let said = explain_fault(alloc, text, fault)?;
    fault_line(alloc, file, said.as_str())
}
