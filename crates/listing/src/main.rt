// Reads a run list from standard input and prints what it says: a line for each command, whether the list is accepted,
// and that its commands, written again, are the same bytes.
#![tactic(auto)]

use anyhow::{anyhow, bail};
use runlist::{MOST_BYTES, ReadError, Reader};
use std::env;
use std::io::Read;
use std::process::ExitCode;

const HELP: &str = "usage: listing < LIST

Prints what a run list says, one line for each command: its offset in the
list, its name, its operands in decimal and its words in hexadecimal. Then
it says whether the list is accepted, or the number of the refusal that
ends it, what that means, and the offset of the command.

Ends with status 0 if the list is accepted, else with status 1.";

fn main(rt: HostRuntime) -> anyhow::Result<ExitCode> {
    match env::args(&rt)?.nth(1) {
        None => print_list(&rt, read_input(&rt)?.as_slice()),
        Some(arg) if arg.as_str() == "--help" => {
            println!(rt; "{HELP}")?;
            Ok(ExitCode::SUCCESS)
        }
        Some(arg) => bail!("unknown argument {arg}; try --help"),
    }
}

// One byte past the longest list is enough to see that it is too long.
fn read_input(rt: &HostRuntime) -> anyhow::Result<Vec<u8>> {
    let mut list = Vec::new(rt.alloc());
    rt.stdin()
        .take(MOST_BYTES as u64 + 1)
        .read_to_end(&mut list)?;
    Ok(list)
}

fn print_list(rt: &HostRuntime, list: &[u8]) -> anyhow::Result<ExitCode> {
    let heap = rt.alloc();
    for placed in Reader::new(list).filter_map(Result::ok) {
        println!(rt; "{}", wording::line(heap, placed)?)?;
    }
    let accepted = runlist::accept(list);
    println!(rt; "{}", wording::verdict(heap, accepted, list.len())?)?;
    if accepted.is_err() {
        // what is wrong with the list has been said
        return Ok(ExitCode::FAILURE);
    }
    print_again(rt, list)?;
    Ok(ExitCode::SUCCESS)
}

fn print_again(rt: &HostRuntime, list: &[u8]) -> anyhow::Result<()> {
    let heap = rt.alloc();
    let commands = runlist::read_list(heap, list).map_err(|why| match why {
        ReadError::Refused(_) => anyhow!("a list that was accepted is refused"),
        ReadError::Memory => anyhow!("out of memory"),
    })?;
    let mut buffer = vec![in heap; 0u8; list.len()]?;
    let written = runlist::write_list(commands.as_slice(), buffer.as_mut_slice());
    let len = written
        .ok()
        .filter(|_| buffer.as_slice() == list)
        .ok_or(anyhow!("written again, the list differs"))?;
    println!(rt; "{}", wording::written_again(heap, len)?)?;
    Ok(())
}
