// Appends commands to a list in a lent buffer. A refused append leaves buffer and length as they were.
ghost use Rattle.std.specs.Prelude.{◌≡◌, ◌+◌, length};
ghost use Rattle.runlist.specs.Format.{item};
ghost use Rattle.refusal.specs.Answers.{replied, unless_refused};
ghost use Rattle.runlist.specs.Lists.{bytes, append_refusal, overwritten};

use crate::command::Command;
use crate::reader::MOST_BYTES;
use refusal::Refusal;

// The caller lends the bytes, since nothing is allocated here: how far they are filled is counted beside them.
#[derive(Drop)]
pub struct Writer<'b> {
    buffer: &'b mut [u8],
    len: usize,
}

impl<'b> Writer<'b> {
    pub fn new(buffer: &'b mut [u8]) -> Writer<'b>
        ensures buffer { result.buffer.now ≡ buffer.old }
        ensures lent { result.buffer.ghost_name ≡ buffer.entry.ghost_name }
        ensures len { result.len ≡ 0 }
    {
        Writer { buffer, len: 0 }
    }

    pub fn len(&self) -> usize
        ensures { result ≡ self.now.len }
    {
        self.len // so the next command's offset
    }

    // What an append is refused by, before it writes anything.
    fn check(&self, command: Command<'_>) -> Result<(), Refusal>
        ensures { result ≡ replied (append_refusal (length self.now.buffer.now) self.now.len (item command.entry)) tt }
    {
        let operands = command.bytes().len();
        if operands >= MOST_BYTES.saturating_sub(self.len) {
            return Err(Refusal::ListTooLong);
        }
        if operands != command.width() {
            return Err(Refusal::CutShort);
        }
        if (command.letter() == 'O') == (self.len > 0) {
            return Err(Refusal::OpenMisplaced);
        }
        if self.len + 1 + operands > self.buffer.len() {
            return Err(Refusal::NoRoom);
        }
        Ok(())
    }

    pub fn append(&mut self, command: Command<'_>) -> Result<(), Refusal>
        ensures answer { result ≡ replied (append_refusal (length self.old.buffer.now) self.old.len (item command.entry)) tt }
        ensures buffer { self.new.buffer.now ≡ unless_refused (append_refusal (length self.old.buffer.now) self.old.len (item command.entry)) self.old.buffer.now (overwritten self.old.buffer.now self.old.len (bytes (item command.entry))) }
        ensures lent { self.new.buffer.ghost_name ≡ self.old.buffer.ghost_name }
        ensures len { self.new.len ≡ unless_refused (append_refusal (length self.old.buffer.now) self.old.len (item command.entry)) self.old.len (self.old.len + length (bytes (item command.entry))) }
    {
        self.check(command)?;
        let operands = command.bytes();
        let start = self.len + 1;
        let end = start + operands.len();
        self.buffer[self.len] = command.letter() as u8;
        self.buffer[start..end].copy_from_slice(operands);
        self.len = end;
        Ok(())
    }
}
