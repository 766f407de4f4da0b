// The records of a journal as bytes: written one behind another, read back, and moved together when the
// journal is full of records that no longer count.
#![tactic(auto)]

ghost use Rattle.std.specs.Prelude.{◌≡◌, ℕ, ◌+◌, ◌*◌, ◌≤◌, List, ◌++◌, length, take};
ghost use Rattle.store.specs.Table.{over};
ghost use Rattle.records.specs.Layout.{size_of, parts, relaid, total, Laid};
ghost use Rattle.records.specs.Encode.{keep_bytes, drop_bytes, words_bytes, words_in};

use store::RowKey;

mod order;

pub use order::{first_of, insert_ordered, reindex};

// Where the record of a row that is kept begins, and how many words it has.
#[derive(Clone, Copy, PartialEq, Eq, Debug)]
pub struct Held {
    pub key: RowKey,
    pub at: usize,
    pub count: usize,
}

// Writes a part at a place, and tells the place behind it. What lies further on may change.
fn put(bytes: &mut [u8], at: usize, part: &[u8]) -> usize
    requires { at + length part.now ≤ length bytes.old }
    ensures end { result ≡ at + length part.now }
    ensures front { take result bytes.new ≡ take at bytes.old ++ part.now }
{
    let end = at + part.len();
    bytes[at..end].copy_from_slice(part);
    end
}

fn put_words(bytes: &mut [u8], at: usize, words: &[u64]) -> usize
    requires { at + 8 * length words.now ≤ length bytes.old }
    ensures end { result ≡ at + 8 * length words.now }
    ensures front { take result bytes.new ≡ take at bytes.old ++ words_bytes words.now }
{
    let mut end = at;
    for word in words {
        end = put(bytes, end, &word.to_be_bytes());
    }
    end
}

// Writes the record of a row that is kept, and tells the place behind it.
pub fn write_keep(bytes: &mut [u8], at: usize, key: RowKey, words: &[u64]) -> usize
    requires fits { at + size_of (length words.now) ≤ length bytes.old }
    requires few { length words.now ≤ 32 }
    ensures end { result ≡ at + size_of (length words.now) }
    ensures front { take result bytes.new ≡ take at bytes.old ++ keep_bytes (record { cluster = key.cluster; number = key.number; words = words.now }) }
    ensures reads { (rest : List ℕ) → words_in (length words.now) (words_bytes words.now ++ rest) ≡ words.now }
{
    let at = put(bytes, at, &[b'K', key.cluster]);
    let at = put(bytes, at, &key.number.to_be_bytes());
    let at = put(bytes, at, &[words.len() as u8]);
    put_words(bytes, at, words)
}

// Writes the record of a row that is dropped, and tells the place behind it.
pub fn write_drop(bytes: &mut [u8], at: usize, key: RowKey) -> usize
    requires { at + 6 ≤ length bytes.old }
    ensures end { result ≡ at + 6 }
    ensures front { take result bytes.new ≡ take at bytes.old ++ drop_bytes key.cluster key.number }
{
    let at = put(bytes, at, &[b'X', key.cluster]);
    put(bytes, at, &key.number.to_be_bytes())
}

// Reads so many words from the front of the bytes to the front of a buffer.
pub fn read_words(bytes: &[u8], count: usize, buffer: &mut [u64])
    requires there { 8 * count ≤ length bytes.now }
    requires room { count ≤ length buffer.old }
    ensures { buffer.new ≡ over (words_in count bytes.now) buffer.old }
{
    let (words, _) = bytes.as_chunks::<8>();
    // tried: `buffer.iter_mut().zip(words)`; the proof did not close, its invariant would speak of a buffer that is lent to the chain
    for (i, word) in words[..count].iter().enumerate() {
        buffer[i] = u64::from_be_bytes(*word);
    }
}

// Moves the records together at the front, in their order, and tells the place behind them.
pub fn compact(bytes: &mut [u8], held: &mut [Held]) -> usize
    requires { Laid 0 held.old (length bytes.old) }
    ensures end { result ≡ total held.old }
    ensures front { take result bytes.new ≡ parts bytes.old held.old }
    ensures held { held.new ≡ relaid 0 held.old }
{
    let mut end = 0;
    for record in held.iter_mut() {
        let size = 7 + 8 * record.count;
        bytes.copy_within(record.at..record.at + size, end);
        record.at = end;
        end += size;
    }
    end
}
