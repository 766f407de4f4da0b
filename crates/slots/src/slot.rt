// A row in memory, with room for the words of any checkpoint.
ghost use Rattle.std.specs.Prelude.{◌≡◌, ◌≤◌, length};
ghost use Rattle.store.specs.Table.{key_of};
ghost use Rattle.slots.specs.Rows.{row_of};

use arrayvec::ArrayVec;
use ordered::Keyed;
use store::{MOST_WORDS, RowKey};

#[derive(Drop)]
pub struct Slot {
    pub key: RowKey,
    pub words: ArrayVec<u64, MOST_WORDS>,
}

impl Slot {
    pub fn new(key: RowKey, words: &[u64]) -> Slot
        requires { length words.now ≤ 32 }
        ensures { row_of result ≡ record { cluster = key.cluster; number = key.number; words = words.now } }
    {
        Slot {
            key,
            words: ArrayVec::try_from(words).unwrap(),
        }
    }
}

impl Keyed for Slot {
    type Key = RowKey;

    ghost key = { λ slot. key_of (row_of slot) };

    fn key(&self) -> RowKey {
        self.key
    }
}
