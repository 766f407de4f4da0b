// What a reader holds, and what it gives.
ghost use Rattle.std.specs.Prelude.{◌≤◌, length};

use crate::command::Command;
use refusal::Refusal;

mod reads;

// No list is longer, so that an offset in it always fits the four bytes that an answer has for it, with room to spare.
pub const MOST_BYTES: usize = 65_536;

#[derive(Clone, Copy, PartialEq, Eq, Debug)]
pub struct RefusedAt {
    pub why: Refusal,
    pub offset: usize,
}

// A command with the offset of its letter.
#[derive(Clone, Copy, PartialEq, Eq, Debug)]
pub struct Placed<'a> {
    pub offset: usize,
    pub command: Command<'a>,
}

// Gives the commands of a list one by one, and after a refusal nothing more.
#[derive(Drop)]
pub struct Reader<'a> {
    list: &'a [u8],
    at: usize,
    // `at` tells it too, but not behind a refusal, and the definition of what is to come reads it
    opened: bool,
    ghost within: { at ≤ length list.now },
}
