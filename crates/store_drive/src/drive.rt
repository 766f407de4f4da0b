// What is done with two stores at a time, whatever they are.
use crate::calls::{Call, Calls, step};
use refusal::StoreRefusal;
use std::fmt;
use store::{RowKey, Store};

// What a call answered, and a number that stands for what it told.
type Answer = Result<u64, StoreRefusal>;

// A run of calls on two stores, and what came of it so far: whether the two were alike after every call, and
// a number made of all answers and tables.
#[derive(Clone, Copy, PartialEq, Eq, Debug)]
pub struct Run {
    calls: Calls,
    alike: bool,
    digest: u64,
    accepted: u32,
    refused: u32,
}

// A number into a digest, so that the order matters.
fn mix(digest: u64, number: u64) -> u64 {
    step(digest ^ number)
}

fn fill_words(words: &mut [u64], seed: u64) {
    let mut state = seed;
    for word in words.iter_mut() {
        state = step(state);
        *word = state;
    }
}

// The stored output hangs on the numbers that these two make.
fn sum_words(words: &[u64]) -> u64 {
    words.iter().fold(0, |sum, word| mix(sum, *word))
}

fn key_number(key: RowKey) -> u64 {
    mix(u64::from(key.cluster), u64::from(key.number))
}

// The side of a full refusal is left out: it differs between a store and a pair.
fn sideless(why: StoreRefusal) -> StoreRefusal {
    match why {
        StoreRefusal::Full(_) => StoreRefusal::Full(0),
        why => why,
    }
}

// An answer as a number, by the letter of its refusal.
fn answer_number(answer: Answer) -> u64 {
    match answer {
        Ok(told) => told ^ u64::from('.'),
        Err(why) => u64::from(why.letter()),
    }
}

fn keep<S: Store>(store: &mut S, key: RowKey, count: usize, seed: u64) -> Answer {
    let mut words = [0; 40];
    fill_words(&mut words, seed);
    store.keep(key, &words[0..count.min(40)])?;
    Ok(0)
}

// The whole buffer counts, so that a rest that changed is seen.
fn read_into<S: Store>(store: &S, key: RowKey, buffer: &mut [u64]) -> Answer {
    let count = store.read(key, buffer)?;
    Ok(mix(count as u64, sum_words(buffer)))
}

fn read<S: Store>(store: &S, key: RowKey, room: usize) -> Answer {
    let mut buffer = [7; 40];
    read_into(store, key, &mut buffer[0..room.min(40)])
}

fn make<S: Store>(store: &mut S, call: Call) -> Answer {
    let answer = match call {
        Call::Keep { key, count, seed } => keep(store, key, count, seed),
        Call::Discard { key } => store.discard(key).map(|()| 0),
        Call::Read { key, room } => read(store, key, room),
        Call::Position { at } => store.position(at).map(key_number),
    };
    answer.map_err(sideless)
}

// A number made of all rows of a store, which it tells by position.
fn table_digest<S: Store>(store: &S) -> u64 {
    (0..store.count())
        .filter_map(|at| store.position(at).ok())
        .fold(0, |digest, key| {
            mix(
                mix(digest, key_number(key)),
                read(store, key, 32).unwrap_or(0),
            )
        })
}

impl Run {
    pub fn new(seed: u64) -> Run {
        Run {
            calls: Calls::new(seed),
            alike: true,
            digest: 1,
            accepted: 0,
            refused: 0,
        }
    }

    // Makes so many calls on both.
    pub fn turns<A: Store, B: Store>(&mut self, a: &mut A, b: &mut B, count: u32) {
        for _ in 0..count {
            let call = self.calls.next();
            self.turn(a, b, call);
        }
    }

    fn turn<A: Store, B: Store>(&mut self, a: &mut A, b: &mut B, call: Call) {
        let answer = make(a, call);
        let other = make(b, call);
        let table = table_digest(a);
        self.alike = self.alike && answer == other && table == table_digest(b);
        self.digest = mix(mix(self.digest, answer_number(answer)), table);
        match answer {
            Ok(_) => self.accepted = self.accepted.saturating_add(1),
            Err(_) => self.refused = self.refused.saturating_add(1),
        }
    }
}

impl fmt::Display for Run {
    fn fmt<W: fmt::Write>(&self, f: &mut fmt::Formatter<W>) -> fmt::Result {
        let alike = if self.alike { "alike" } else { "NOT ALIKE" };
        write!(
            f,
            "{alike}, {} accepted, {} refused, digest {:016x}",
            self.accepted, self.refused, self.digest
        )
    }
}
