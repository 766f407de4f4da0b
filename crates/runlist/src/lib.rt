// Run lists: a reader that gives a list's commands one by one, and a writer that appends commands to a lent buffer.
// Both are proved equal to one definition of the format, and each to undo the other.
#![tactic(auto)]

mod command;
mod lists;
mod reader;
mod words;
mod writer;

pub use command::{Command, Operands};
pub use lists::{ReadError, accept, read_list, write_list};
pub use reader::{MOST_BYTES, Placed, Reader, RefusedAt};
pub use writer::Writer;
