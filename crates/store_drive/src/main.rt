// Drives stores of every kind through the same calls, two at a time, and compares their answers and their
// tables after every call.
#![tactic(auto)]

use anyhow::{Result, anyhow};
use drive::Run;
use journal::Journal;
use pair::Pair;
use slots::Slots;
use std::alloc::Global;
use store::{SidedStore, Store};

mod calls;
mod drive;

const TURNS: u32 = 400;

fn make_slots(heap: Global) -> Result<Slots> {
    // the texts stay as the program has always told them
    Slots::new(heap).map_err(|_| anyhow!("no memory"))
}

fn make_journal(heap: Global, bytes: &mut [u8]) -> Result<Journal<'_>> {
    Journal::new(heap, bytes).map_err(|_| anyhow!("no journal"))
}

fn slots_and_journal(heap: Global, bytes: &mut [u8]) -> Result<Run> {
    let mut slots = make_slots(heap)?;
    let mut journal = make_journal(heap, bytes)?;
    let mut run = Run::new(1);
    run.turns(&mut slots, &mut journal, 5 * TURNS);
    Ok(run)
}

// Calls while all sides stand, while the first is out, while all stand again, and so with the second.
fn with_losses<A: Store, B: SidedStore>(a: &mut A, b: &mut B) -> Run {
    let mut run = Run::new(2);
    run.turns(a, b, TURNS);
    let _ = b.lose(1);
    run.turns(a, b, TURNS);
    let _ = b.rebuild(1);
    run.turns(a, b, TURNS);
    let _ = b.lose(2);
    run.turns(a, b, TURNS);
    let _ = b.rebuild(2);
    run.turns(a, b, TURNS);
    run
}

fn slots_and_pair(heap: Global, bytes: &mut [u8]) -> Result<Run> {
    let mut slots = make_slots(heap)?;
    let mut pair = Pair::new(make_slots(heap)?, make_journal(heap, bytes)?);
    Ok(with_losses(&mut slots, &mut pair))
}

fn slots_and_nested(heap: Global, bytes: &mut [u8]) -> Result<Run> {
    let mut slots = make_slots(heap)?;
    let inner = Pair::new(make_slots(heap)?, make_slots(heap)?);
    let mut nested = Pair::new(inner, make_journal(heap, bytes)?);
    Ok(with_losses(&mut slots, &mut nested))
}

fn main(rt: HostRuntime) -> Result<()> {
    let heap = rt.alloc();
    let mut bytes = vec![in heap; 0u8; 16832]?;
    let run = slots_and_journal(heap, bytes.as_mut_slice())?;
    println!(rt; "slots and journal: {run}")?;
    let run = slots_and_pair(heap, bytes.as_mut_slice())?;
    println!(rt; "slots and pair: {run}")?;
    let run = slots_and_nested(heap, bytes.as_mut_slice())?;
    println!(rt; "slots and nested pair: {run}")?;
    Ok(())
}
