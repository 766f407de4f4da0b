// Kept checkpoints are found by their number and messages by their id, both by the one search.
ghost use Rattle.std.specs.Prelude.{◌≡◌, ◌<◌, true, length};
ghost use Rattle.std.specs.Ordering.{nat_cmp};
ghost use Rattle.ordered.specs.Seek.{ascending};
ghost use Rattle.law.specs.Book.{checkpoint_at, logged};
ghost use Rattle.book.specs.Rules.{number_of, id_of};
ghost use Rattle.book.specs.Finding.{LoggedAt};

use law::{Checkpoint, Logged};
use ordered::find;

// The kept checkpoint with this number.
pub fn checkpoint_at(kept: &[Checkpoint], number: u32) -> Option<Checkpoint>
    requires { ascending nat_cmp number_of kept.now ≡ true }
    ensures { result ≡ checkpoint_at kept.now number }
{
    let at = find(kept, number).ok()?;
    Some(kept[at])
}

// Where the message with this id stands in the log.
pub fn logged_at(log: &[Logged], id: u32) -> Option<usize>
    requires { ascending nat_cmp id_of log.now ≡ true }
    ensures { LoggedAt log.now id result }
{
    find(log, id).ok()
}
