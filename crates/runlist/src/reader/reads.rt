// The front of a list, and the reader that goes over all of it.
ghost use Rattle.std.specs.Prelude.{◌≡◌, ◌+◌, ◌-◌, ◌<◌, length, IfNone};
ghost use Rattle.runlist.specs.Format.{width_of};
ghost use Rattle.runlist.specs.Lists.{next_of_width, read_list};
ghost use Rattle.runlist.specs.Reads.{found, cut_out, cut_to, to_come, given, first_of, nothing, Step};
ghost use Rattle.std.specs.Iterator.{at_most};

use crate::command::Command;
use crate::reader::{MOST_BYTES, Placed, Reader, RefusedAt};
use refusal::Refusal;

// The operand bytes of one command, borrowed from the list.
fn operand_bytes(rest: &[u8], width: usize) -> Result<&[u8], Refusal>
    ensures { cut_out result ≡ cut_to width rest.now }
{
    rest.get(..width).ok_or(Refusal::CutShort)
}

// The command of a letter: unknown letters first, then operands that are cut short, then an open that is misplaced.
fn front(opened: bool, letter: u8, rest: &[u8]) -> Result<Command<'_>, Refusal>
    ensures { found result ≡ next_of_width (width_of letter) opened letter rest.now }
{
    let command = match char::from(letter) {
        'O' => Command::Open(operand_bytes(rest, 4)?),
        'Q' => Command::Request(operand_bytes(rest, 2)?),
        'A' => Command::Answer(operand_bytes(rest, 10)?),
        'S' => Command::Send(operand_bytes(rest, 10)?),
        'M' => Command::Arrive(operand_bytes(rest, 5)?),
        'F' => Command::Fault(operand_bytes(rest, 1)?),
        'L' => Command::Alert(operand_bytes(rest, 2)?),
        'R' => Command::Resume(operand_bytes(rest, 0)?),
        'T' => Command::Trial(operand_bytes(rest, 1)?),
        'G' => Command::Collect(operand_bytes(rest, 0)?),
        'W' => Command::Read(operand_bytes(rest, 5)?),
        _ => return Err(Refusal::UnknownLetter),
    };
    if (letter == b'O') == opened {
        return Err(Refusal::OpenMisplaced);
    }
    Ok(command)
}

impl<'a> Reader<'a> {
    pub fn new(list: &'a [u8]) -> Reader<'a>
        ensures { to_come result ≡ read_list list.now }
    {
        Reader {
            list,
            at: 0,
            opened: false,
        }
    }

    // The command in front, or the refusal that ends the list; nothing at its end.
    fn found(&self) -> Option<Result<Placed<'a>, RefusedAt>>
        ensures first { given result ≡ first_of (to_come self.now).given (to_come self.now).ended }
        ensures last { IfNone result (Step (to_come self.now) nothing (to_come self.now)) }
    {
        let offset = self.at;
        let (letter, rest) = self.list[offset..].split_first()?;
        if self.list.len() > MOST_BYTES {
            return Some(Err(RefusedAt {
                why: Refusal::ListTooLong,
                offset: 0,
            }));
        }
        Some(
            front(self.opened, *letter, rest)
                .map(|command| Placed { offset, command })
                .map_err(|why| RefusedAt { why, offset }),
        )
    }
}

impl<'a> Iterator for Reader<'a> {
    type Item = Result<Placed<'a>, RefusedAt>;

    ghost next_gives = { λ s r t. Step (to_come s) (given r) (to_come t) };

    ghost remaining = { λ s. at_most (length s.list.now - s.at) };

    fn next(&mut self) -> Option<Result<Placed<'a>, RefusedAt>> {
        match self.found()? {
            Ok(placed) => {
                self.at = placed.offset + 1 + placed.command.bytes().len();
                self.opened = true;
                Some(Ok(placed))
            }
            Err(refused) => {
                self.at = self.list.len(); // nothing is read behind a refusal
                Some(Err(refused))
            }
        }
    }
}
