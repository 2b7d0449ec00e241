//! The lines that every command may write.

ghost use Rattle.std.specs.Prelude.{◌≡◌, IfOk, string_bytes};
ghost use Rattle.ebpf_command.specs.Lines.{fault_line};

use crate::done::FaultCode;
use std::alloc::{AllocError, Global};

/// The line of a fault: lines are counted from 1, and line 0 is said of what has no lines. It fails only where an allocation
/// fails.
pub fn fault_line(alloc: Global, code: FaultCode, line: usize) -> Result<String, AllocError>
    ensures { IfOk result (λ text. string_bytes text ≡ fault_line code line) }
{
    let name = code.name();
    format!(in alloc; "fault {name} line {line}\n")
}
