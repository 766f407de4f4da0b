// What leaves the book, the log and the store when clusters go back to their places, and when what no later fault can need
// is collected.
#![tactic(auto)]

ghost use Rattle.std.specs.Prelude.{◌≡◌, true, vec_len, slice_index};
ghost use Rattle.law.specs.Restarts.{back_to};
ghost use Rattle.law.specs.Trials.{from_bounds};
ghost use Rattle.book.specs.View.{view};

use book::Book;
use store::Store;

mod cut;
mod log;

pub use book::STAYS;
pub use log::{again, log_back, log_from};

// Where clusters go back to: the place of each.
#[derive(Clone, Copy)]
struct Back {
    places: [u32; 8],
}

// What a collect leaves: from the bound of each cluster on.
#[derive(Clone, Copy)]
struct Collect {
    bounds: [u32; 8],
}

// The entry of a cluster, or 0 where there is none.
fn entry(row: &[u32; 8], cluster: u8) -> u32
    ensures { result ≡ slice_index row.now cluster }
{
    row.get(usize::from(cluster)).copied().unwrap_or(0)
}

// Every cluster back at its place: later checkpoints are gone from the book and the store, and the row is as it was there.
pub fn back_to<S: Store>(book: &mut Book, store: &mut S, places: [u32; 8])
    ensures { view book.new (S.Store.model store.new) ≡ back_to places (vec_len book.old.clusters) (view book.old (S.Store.model store.old)) }
{
    cut::prune(book, store, &Back { places });
}

// Every cluster without its checkpoints below its bound, in the book and in the store.
pub fn from_bounds<S: Store>(book: &mut Book, store: &mut S, bounds: [u32; 8])
    ensures { view book.new (S.Store.model store.new) ≡ from_bounds bounds (vec_len book.old.clusters) (view book.old (S.Store.model store.old)) }
{
    cut::prune(book, store, &Collect { bounds });
}
