// The interface of every store: a table from cluster and number to words, proved against one meaning, so
// that whatever is built on it is proved once for all stores. A store's maker implements `Store`.
#![tactic(auto)]

ghost use Rattle.std.specs.Prelude.{◌≡◌, ℕ, length, is_some};
ghost use Rattle.refusal.specs.Answers.{replied};
ghost use Rattle.store.specs.Table.{Model, lookup, limited, keep_refusal, keep_model, drop_refusal, drop_model, read_refusal, read_count, read_buffer, position_at};
ghost use Rattle.store.specs.Formed.{Formed};
ghost use Rattle.store.specs.Sides.{lose_refusal, lose_out, rebuild_refusal, rebuild_out};

use refusal::StoreRefusal;

mod compare;
mod copy;
mod find;

pub use compare::agree;
pub use copy::copy_words;
pub use find::key_at;

// The words of a checkpoint: one for each node of a cluster, and a cluster has at most 32 nodes.
pub const MOST_WORDS: usize = 32;

// What a row is kept under; rows stand in this order, by cluster, then number.
#[derive(Clone, Copy, PartialEq, Eq, PartialOrd, Ord, Debug)]
pub struct RowKey {
    pub cluster: u8,
    pub number: u32,
}

// How many rows may be kept, and the side that a refusal names when there are as many; 0 where there are no sides.
#[derive(Clone, Copy, PartialEq, Eq, Debug)]
pub struct Limit {
    pub capacity: usize,
    pub side: u8,
}

pub trait Store {
    // What the store means.
    ghost model: { Self → Model };

    // Adds a row. Key and words come apart: a type for both would borrow the words for the length of a call, and hold nothing more.
    fn keep(&mut self, key: RowKey, words: &[u64]) -> Result<(), StoreRefusal>
        ensures answer { result ≡ replied (keep_refusal (model self.old) key.cluster key.number words.now) tt }
        ensures after { model self.new ≡ keep_model (model self.old) key.cluster key.number words.now };

    // Drops a row.
    fn discard(&mut self, key: RowKey) -> Result<(), StoreRefusal>
        ensures answer { result ≡ replied (drop_refusal (model self.old) key.cluster key.number) tt }
        ensures after { model self.new ≡ drop_model (model self.old) key.cluster key.number };

    // Copies a row's words to the front of the buffer, which the caller lends, and tells how many they are.
    fn read(&self, key: RowKey, buffer: &mut [u64]) -> Result<usize, StoreRefusal>
        ensures answer { result ≡ replied (read_refusal (model self.now) key.cluster key.number (length buffer.old)) (read_count (model self.now) key.cluster key.number) }
        ensures buffer { buffer.new ≡ read_buffer (model self.now) key.cluster key.number buffer.old };

    // How many rows there are; and whoever asks learns that they are as a table has to be.
    fn count(&self) -> usize
        ensures answer { result ≡ length (model self.now).table }
        ensures formed { Formed (model self.now) };

    fn capacity(&self) -> usize
        ensures { result ≡ (model self.now).capacity };

    // What the row at a position is kept under; the first row is at 0.
    fn position(&self, at: usize) -> Result<RowKey, StoreRefusal>
        ensures { result ≡ position_at (model self.now) at };

    fn holds(&self, key: RowKey) -> bool
        ensures { result ≡ is_some (lookup (model self.now).table key.cluster key.number) }
    {
        let mut buffer = [0; MOST_WORDS];
        !matches!(self.read(key, &mut buffer), Err(StoreRefusal::NotHeld))
    }

    // Refuses what a store with these rows under this limit refuses to keep.
    fn check_keep(&self, limit: Limit, key: RowKey, words: &[u64]) -> Result<(), StoreRefusal>
        ensures { result ≡ replied (keep_refusal (limited (model self.now).table limit.capacity limit.side) key.cluster key.number words.now) tt }
    {
        if words.is_empty() || words.len() > MOST_WORDS {
            return Err(StoreRefusal::WordCount);
        }
        if self.holds(key) {
            return Err(StoreRefusal::Held);
        }
        if self.count() >= limit.capacity {
            return Err(StoreRefusal::Full(limit.side));
        }
        Ok(())
    }

    // The table of every store is formed.
    ghost formed: { (s : Self) → Formed (model s) };
}

// A store that can lose one of its sides and rebuild it. Its table is changed by neither.
pub trait SidedStore: Store {
    ghost sides: { Self → ℕ };

    // The side that is out, 0 where none is.
    ghost out: { Self → ℕ };

    // Empties a side; until it is rebuilt, calls reach the rest.
    fn lose(&mut self, side: u8) -> Result<(), StoreRefusal>
        ensures answer { result ≡ replied (lose_refusal (sides self.old) (out self.old) side) tt }
        ensures after { Self.Store.model self.new ≡ Self.Store.model self.old }
        ensures out { out self.new ≡ lose_out (sides self.old) (out self.old) side }
        ensures sides { sides self.new ≡ sides self.old };

    // Fills a side that is out from the rest.
    fn rebuild(&mut self, side: u8) -> Result<(), StoreRefusal>
        ensures answer { result ≡ replied (rebuild_refusal (sides self.old) (out self.old) side) tt }
        ensures after { Self.Store.model self.new ≡ Self.Store.model self.old }
        ensures out { out self.new ≡ rebuild_out (sides self.old) (out self.old) side }
        ensures sides { sides self.new ≡ sides self.old };
}
