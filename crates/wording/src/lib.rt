// What commands and verdicts say to a person: one line of text each.
#![tactic(auto)]

ghost use Rattle.std.specs.Prelude.{◌≡◌, IfOk, string_bytes};
ghost use Rattle.runlist.specs.Format.{operands_of};
ghost use Rattle.wording.specs.Words.{line_of, verdict_of, again_of};

use runlist::{Placed, RefusedAt};
use std::alloc::{AllocError, Global};

// The line of a command: its offset, its name, its operands in decimal and its word in hexadecimal. A string, as callers keep it; what it is
// made of prints itself.
pub fn line(heap: Global, placed: Placed<'_>) -> Result<String, AllocError>
    ensures { IfOk result (λ s. string_bytes s ≡ line_of placed.entry.offset (operands_of placed.entry.command)) }
{
    let offset = placed.offset;
    match placed.command.operands() {
        Some(operands) => format!(in heap; "{offset} {operands}"),
        None => format!(in heap; "{offset} operands of the wrong width"),
    }
}

// The line that says whether a list of so many bytes is accepted.
pub fn verdict(
    heap: Global,
    accepted: Result<usize, RefusedAt>,
    bytes: usize,
) -> Result<String, AllocError>
    ensures { IfOk result (λ s. string_bytes s ≡ verdict_of accepted bytes) }
{
    match accepted {
        Ok(count) => format!(in heap; "accepted: {count} commands, {bytes} bytes"),
        Err(refused) => format!(in heap; "{refused}"),
    }
}

// The line that says that a list, written again, is the same.
pub fn written_again(heap: Global, bytes: usize) -> Result<String, AllocError>
    ensures { IfOk result (λ s. string_bytes s ≡ again_of bytes) }
{
    format!(in heap; "written again: the same {bytes} bytes")
}
