// A store in bytes that are lent to it: a record is written for every row that is kept or dropped, and
// when one does not fit, only the records of the rows that are held stay, oldest first.
#![tactic(auto)]

ghost use Rattle.std.specs.Prelude.{◌≡◌, ◌≤◌, length, take, vec_capacity};
ghost use Rattle.journal.specs.Places.{Sound, sound_prop};

use records::{
    Held, compact, first_of, insert_ordered, read_words, reindex, write_drop, write_keep,
};
use refusal::StoreRefusal;
use std::alloc::Global;
use store::{Limit, RowKey, Store, key_at};

mod make;

pub use make::MakeRefusal;

// As many rows as slots hold, and just the bytes for that many records of 32 words.
pub const CAPACITY: usize = 64;

const LIMIT: Limit = Limit {
    capacity: CAPACITY,
    side: 0,
};

pub const SIZE: usize = 16_832;

#[derive(Drop)]
pub struct Journal<'a> {
    // lent, so that a journal needs no memory for its records: how many of them are used is counted beside them; a slice and no array, since
    // a wrong size is refused
    bytes: &'a mut [u8],
    // the bytes of the records
    used: usize,
    // oldest first
    held: Vec<Held>,
    // the same records in order of cluster, then number; no map, which would want memory at each keep, where this is reserved once
    index: Vec<Held>,
    ghost size: { length bytes.now ≡ 16832 },
    ghost within: { used ≤ 16832 },
    ghost held_room: { 64 ≤ vec_capacity held },
    ghost index_room: { 64 ≤ vec_capacity index },
    ghost sound: { Sound (take used bytes.now) used held.items index.items } by { sound_prop (take used bytes.now) used held.items index.items },
}

impl<'a> Journal<'a> {
    ghost use Rattle.std.specs.Prelude.{◌≡◌, ◌+◌, ◌*◌, ◌<◌, ◌≤◌, [], ◌∷◌, ◌++◌, length, IfSome, if◌then◌else◌, Some, None, MatchResult, nat_eq, nat_le};
    ghost use Rattle.std.specs.Option.{option_map};
    ghost use Rattle.refusal.specs.Answers.{unless_refused, replied};
    ghost use Rattle.store.specs.Table.{lookup, remove, keep_refusal, keep_model, drop_refusal, drop_model, over, read_refused};
    ghost use Rattle.records.specs.Encode.{keep_bytes, drop_bytes, rows_bytes};
    ghost use Rattle.records.specs.Layout.{size_of, row_in};
    ghost use Rattle.journal.specs.State.{records_of, rows_of, journal_model, keep_records, drop_records};

    pub fn new(heap: Global, bytes: &'a mut [u8]) -> Result<Journal<'a>, MakeRefusal>
        ensures { MatchResult result (λ j. (records_of j ≡ []) × (journal_model j ≡ record { table = []; capacity = 64; full = 0 })) (λ why. why ≡ (if nat_eq (length bytes.old) 16832 then MakeRefusal.Memory else MakeRefusal.Size)) }
    {
        if bytes.len() != SIZE {
            return Err(MakeRefusal::Size);
        }
        Ok(Journal {
            bytes,
            used: 0,
            held: Vec::with_capacity(heap, CAPACITY)?,
            index: Vec::with_capacity(heap, CAPACITY)?,
        })
    }

    // The record of a row that is held.
    fn find(&self, key: RowKey) -> Option<Held>
        ensures held { lookup (journal_model self.now).table key.cluster key.number ≡ option_map (λ h. (row_in (records_of self.now) h).words) result }
        ensures within { IfSome result (λ h. h.at + size_of h.count ≤ self.now.used) }
    {
        let i = first_of(self.held.as_slice(), key)?;
        Some(self.held[i])
    }

    // Copies the words of a record to the front of a buffer, and tells how many they are.
    fn copy_out(&self, place: Held, buffer: &mut [u64]) -> Result<usize, StoreRefusal>
        requires { place.at + size_of place.count ≤ self.now.used }
        ensures answer { result ≡ replied (read_refused (Some (row_in (records_of self.now) place).words) (length buffer.old)) (length (row_in (records_of self.now) place).words) }
        ensures buffer { buffer.new ≡ unless_refused (read_refused (Some (row_in (records_of self.now) place).words) (length buffer.old)) buffer.old (over (row_in (records_of self.now) place).words buffer.old) }
    {
        let count = place.count;
        if count > buffer.len() {
            return Err(StoreRefusal::WordCount);
        }
        let from = place.at + 7;
        read_words(&self.bytes[from..from + 8 * count], count, buffer);
        Ok(count)
    }

    // Keeps only the records of the rows that are held, oldest first.
    fn squeeze(&mut self)
        ensures records { records_of self.new ≡ rows_bytes (rows_of self.old) }
        ensures rows { rows_of self.new ≡ rows_of self.old }
        ensures small { self.new.used ≤ 263 * length (rows_of self.old) }
    {
        let Journal {
            bytes,
            used,
            held,
            index,
        } = self;
        *used = compact(bytes, held.as_mut_slice());
        reindex(held.as_slice(), index);
    }

    // Whether so many bytes fit behind the records; one that ends at the last byte does.
    fn fits(&self, size: usize) -> bool
        requires { size ≤ 263 }
        ensures { result ≡ nat_le (self.now.used + size) 16832 }
    {
        self.used + size <= SIZE
    }

    // Makes so many bytes free behind the records.
    fn make_room(&mut self, size: usize)
        requires small { size ≤ 263 }
        requires few { length (rows_of self.old) < 64 }
        ensures records { records_of self.new ≡ (if nat_le (self.old.used + size) 16832 then records_of self.old else rows_bytes (rows_of self.old)) }
        ensures rows { rows_of self.new ≡ rows_of self.old }
        ensures room { self.new.used + size ≤ 16832 }
    {
        if !self.fits(size) {
            self.squeeze();
        }
    }

    // Writes the record of a row behind the others.
    fn append(&mut self, key: RowKey, words: &[u64])
        requires free { keep_refusal (journal_model self.old) key.cluster key.number words.now ≡ None }
        requires room { self.old.used + size_of (length words.now) ≤ 16832 }
        ensures records { records_of self.new ≡ records_of self.old ++ keep_bytes (record { cluster = key.cluster; number = key.number; words = words.now }) }
        ensures rows { rows_of self.new ≡ rows_of self.old ++ record { cluster = key.cluster; number = key.number; words = words.now } ∷ [] }
    {
        let Journal {
            bytes,
            used,
            held,
            index,
        } = self;
        let new = Held {
            key,
            at: *used,
            count: words.len(),
        };
        *used = write_keep(bytes, *used, key, words);
        held.push_reserved(new);
        insert_ordered(index, new);
    }

    // Forgets a row, and leaves its record where it is.
    fn forget(&mut self, key: RowKey) -> Result<(), StoreRefusal>
        ensures answer { result ≡ replied (drop_refusal (journal_model self.old) key.cluster key.number) tt }
        ensures records { records_of self.new ≡ records_of self.old }
        ensures rows { rows_of self.new ≡ remove (rows_of self.old) key.cluster key.number }
    {
        let Some(i) = first_of(self.held.as_slice(), key) else {
            return Err(StoreRefusal::NotHeld);
        };
        self.held.remove(i);
        reindex(self.held.as_slice(), &mut self.index);
        Ok(())
    }

    // Writes behind the other records that a row was dropped.
    fn note_drop(&mut self, key: RowKey)
        requires { self.old.used + 6 ≤ 16832 }
        ensures records { records_of self.new ≡ records_of self.old ++ drop_bytes key.cluster key.number }
        ensures rows { rows_of self.new ≡ rows_of self.old }
    {
        let used = self.used;
        self.used = write_drop(self.bytes, used, key);
    }

    // Keeps a row, as `keep` does, and says which records there are then.
    pub fn keep_row(&mut self, key: RowKey, words: &[u64]) -> Result<(), StoreRefusal>
        ensures answer { result ≡ replied (keep_refusal (journal_model self.old) key.cluster key.number words.now) tt }
        ensures after { journal_model self.new ≡ keep_model (journal_model self.old) key.cluster key.number words.now }
        ensures records { records_of self.new ≡ unless_refused (keep_refusal (journal_model self.old) key.cluster key.number words.now) (records_of self.old) (keep_records (records_of self.old) (rows_of self.old) (record { cluster = key.cluster; number = key.number; words = words.now })) }
        ensures rows { rows_of self.new ≡ unless_refused (keep_refusal (journal_model self.old) key.cluster key.number words.now) (rows_of self.old) (rows_of self.old ++ record { cluster = key.cluster; number = key.number; words = words.now } ∷ []) }
    {
        self.check_keep(LIMIT, key, words)?;
        self.make_room(7 + 8 * words.len());
        self.append(key, words);
        Ok(())
    }

    // Drops a row, as `discard` does, and says which records there are then.
    pub fn drop_row(&mut self, key: RowKey) -> Result<(), StoreRefusal>
        ensures answer { result ≡ replied (drop_refusal (journal_model self.old) key.cluster key.number) tt }
        ensures after { journal_model self.new ≡ drop_model (journal_model self.old) key.cluster key.number }
        ensures records { records_of self.new ≡ unless_refused (drop_refusal (journal_model self.old) key.cluster key.number) (records_of self.old) (drop_records (records_of self.old) (rows_of self.old) key.cluster key.number) }
        ensures rows { rows_of self.new ≡ remove (rows_of self.old) key.cluster key.number }
    {
        self.forget(key)?;
        if self.fits(6) {
            self.note_drop(key);
        } else {
            self.squeeze();
        }
        Ok(())
    }
}

impl<'a> Store for Journal<'a> {
    ghost use Rattle.journal.specs.State.{journal_model};
    ghost use Rattle.std.proofs.Common.{rules};

    ghost model = { journal_model };

    ghost formed = { Prim.search rules };

    fn keep(&mut self, key: RowKey, words: &[u64]) -> Result<(), StoreRefusal> {
        self.keep_row(key, words)
    }

    fn discard(&mut self, key: RowKey) -> Result<(), StoreRefusal> {
        self.drop_row(key)
    }

    fn read(&self, key: RowKey, buffer: &mut [u64]) -> Result<usize, StoreRefusal> {
        let place = self.find(key).ok_or(StoreRefusal::NotHeld)?;
        self.copy_out(place, buffer)
    }

    fn count(&self) -> usize {
        self.held.len()
    }

    fn capacity(&self) -> usize {
        CAPACITY
    }

    fn holds(&self, key: RowKey) -> bool {
        self.find(key).is_some()
    }

    fn position(&self, at: usize) -> Result<RowKey, StoreRefusal> {
        key_at(self.index.as_slice(), at).ok_or(StoreRefusal::WordCount)
    }
}
