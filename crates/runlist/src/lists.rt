// Whole lists: whether one is accepted, its commands, and commands written as one.
ghost use Rattle.std.specs.Prelude.{◌≡◌, map, length, take, IfOk, MatchResult};
ghost use Rattle.runlist.specs.declared.lists.ReadError.TheVariants.{Memory, Refused as refused_because};
ghost use Rattle.runlist.specs.Format.{item};
ghost use Rattle.runlist.specs.Lists.{read_list, write_list, overwritten};
ghost use Rattle.runlist.specs.Reads.{accepted, Commands, NotRead};
ghost use Rattle.runlist.specs.Laws.{whole_of, RoundTrip};
ghost use Rattle.runlist.specs.Writes.{written};

use crate::command::Command;
use crate::reader::{Reader, RefusedAt};
use crate::writer::Writer;
use std::alloc::{AllocFailed, Global};

// How many commands the list has, or the refusal that ends it.
pub fn accept(list: &[u8]) -> Result<usize, RefusedAt>
    ensures { result ≡ accepted (read_list list.now) }
{
    Reader::new(list).try_fold(0, |count, read| read.map(|_| count + 1))
}

// Why a list has no commands to give.
#[derive(Clone, Copy, PartialEq, Eq, Debug)]
pub enum ReadError {
    Refused(RefusedAt),
    Memory,
}

impl From<RefusedAt> for ReadError {
    ghost from_gives = { λ e r. r ≡ refused_because e };

    fn from(e: RefusedAt) -> ReadError {
        ReadError::Refused(e)
    }
}

impl<T: Drop> From<AllocFailed<T>> for ReadError {
    ghost from_gives = { λ _ r. r ≡ Memory };

    fn from(_e: AllocFailed<T>) -> ReadError {
        ReadError::Memory
    }
}

// The commands of an accepted list.
pub fn read_list<'a>(heap: Global, list: &'a [u8]) -> Result<Vec<Command<'a>>, ReadError>
    ensures { MatchResult result (λ v. Commands list.now (map item v.items)) (λ e. NotRead list.now e) }
{
    let mut commands = Vec::new(heap);
    for read in Reader::new(list) {
        commands.push(read?.command)?;
    }
    Ok(commands)
}

// Writes a whole list, up to the first command that is refused.
pub fn write_list(commands: &[Command<'_>], buffer: &mut [u8]) -> Result<usize, RefusedAt>
    ensures answer { result ≡ written (write_list (length buffer.old) (map item commands.now)) }
    ensures after { buffer.new ≡ overwritten buffer.old 0 (write_list (length buffer.old) (map item commands.now)).wrote }
    ensures back { IfOk result (λ n. read_list (take n buffer.new) ≡ whole_of (map item commands.now)) }
    ensures law { RoundTrip }
{
    let mut writer = Writer::new(buffer);
    for command in commands {
        let offset = writer.len();
        writer
            .append(*command)
            .map_err(|why| RefusedAt { why, offset })?;
    }
    Ok(writer.len())
}
