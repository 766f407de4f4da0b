// One cluster: its own position in the federation, its row, its kept checkpoints, the oldest first, and its open round.
ghost use Rattle.std.specs.Prelude.{◌≡◌, ◌<◌, ◌≤◌, true, is_some, vec_len, vec_capacity};
ghost use Rattle.std.specs.Ordering.{nat_cmp};
ghost use Rattle.ordered.specs.Seek.{ascending};
ghost use Rattle.law.specs.Book.{entry, most_kept};
ghost use Rattle.book.specs.Rules.{number_of, topped, can_end};

use law::{Checkpoint, Round};

mod changes;

#[derive(Drop)]
pub struct Cluster {
    // where its row has its number
    pub own: usize,
    pub row: [u32; 8],
    pub kept: Vec<Checkpoint>,
    pub round: Option<Round>,
    pub ghost within: { own < 8 },
    pub ghost room: { most_kept ≤ vec_capacity kept },
    pub ghost few: { vec_len kept ≤ most_kept },
    pub ghost ascends: { ascending nat_cmp number_of kept.items ≡ true },
    pub ghost topped: { topped own (entry row own) kept.items ≡ true },
    pub ghost ends: { can_end (is_some round) (vec_len kept) (entry row own) ≡ true },
}
