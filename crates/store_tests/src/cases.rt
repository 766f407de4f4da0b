// Calls on a store that begins empty, each with its answer but for what that tells.
use refusal::StoreRefusal;
use refusal::StoreRefusal::{Held, NotHeld, WordCount};
use store::{RowKey, Store};

// Written out by hand, where the calls that drive two stores (a type of that program) are made from a seed.
#[derive(Clone, Copy, PartialEq, Eq, Debug)]
enum Call {
    Keep(u8, u32, usize),
    Discard(u8, u32),
    Read(u8, u32, usize),
    Position(usize),
}

static CASES: [(Call, Result<(), StoreRefusal>); 16] = [
    (Call::Position(0), Err(WordCount)),
    (Call::Keep(1, 1, 0), Err(WordCount)),
    (Call::Keep(1, 1, 33), Err(WordCount)),
    (Call::Keep(1, 1, 32), Ok(())),
    (Call::Keep(1, 1, 1), Err(Held)),
    (Call::Keep(0, 9, 3), Ok(())),
    (Call::Position(1), Ok(())),
    (Call::Position(2), Err(WordCount)),
    (Call::Read(1, 1, 31), Err(WordCount)),
    (Call::Read(1, 1, 32), Ok(())),
    (Call::Read(1, 2, 0), Err(NotHeld)),
    (Call::Read(0, 9, 2), Err(WordCount)),
    (Call::Discard(1, 2), Err(NotHeld)),
    (Call::Discard(1, 1), Ok(())),
    (Call::Discard(1, 1), Err(NotHeld)),
    (Call::Discard(0, 9), Ok(())),
];

fn make<S: Store>(store: &mut S, call: Call) -> Result<(), StoreRefusal> {
    let words = [5; 40];
    let mut buffer = [0; 40];
    match call {
        Call::Keep(cluster, number, count) => {
            store.keep(RowKey { cluster, number }, &words[0..count.min(40)])
        }
        Call::Discard(cluster, number) => store.discard(RowKey { cluster, number }),
        Call::Read(cluster, number, room) => store
            .read(RowKey { cluster, number }, &mut buffer[0..room.min(40)])
            .map(|_| ()),
        Call::Position(at) => store.position(at).map(|_| ()),
    }
}

// The first case that answers otherwise, with that answer.
pub fn answers<S: Store>(store: &mut S) -> Option<(usize, Result<(), StoreRefusal>)> {
    CASES.iter().enumerate().find_map(|(i, (call, expected))| {
        let told = make(store, *call);
        (told != *expected).then_some((i, told))
    })
}

// Keeps a row under every number up to 64, and then one more.
pub fn filled<S: Store>(store: &mut S) -> Result<(), StoreRefusal> {
    for number in 1..65 {
        store.keep(RowKey { cluster: 3, number }, &[9])?;
    }
    store.keep(
        RowKey {
            cluster: 3,
            number: 65,
        },
        &[9],
    )
}
