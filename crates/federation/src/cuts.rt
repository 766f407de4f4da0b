// Resume and collect: what leaves the book, its log and the store. These two come apart and not as a federation, so that nothing here is
// proved for each rule.
ghost use Rattle.std.specs.Prelude.{◌≡◌, ◌-◌, ◌≤◌, true, map, length, take, None, vec_len};
ghost use Rattle.store.specs.Table.{Model};
ghost use Rattle.law.specs.Book.{with_log, with_restart};
ghost use Rattle.law.specs.Restarts.{resumed_to, tells_places, log_back, again as go_again, resume_tells, resume_book};
ghost use Rattle.law.specs.Trials.{bounds as bounds_of, from_bounds, log_from, kept_in, collected, collect_tells, collect_book};
ghost use Rattle.book.specs.View.{view, bare, group, groups};
ghost use Rattle.federation.specs.Collecting.{spent, collected_of, collect_told, resume_told};
ghost use Rattle.federation.specs.Tickets.{numbered};

use crate::restarts::opened;
use crate::sight::count;
use crate::tickets::TicketNumbers;
use crate::told::{Collected, Resumed};
use arrayvec::ArrayVec;
use book::{Book, Cluster};
use pruning::{again, back_to, from_bounds, log_back, log_from};
use recovery::{bounds, told_places};
use refusal::Refusal;
use store::Store;

// The log after clusters went back to their places, with the restart ended; tells the ids of the messages that go again.
fn undo_messages(book: &mut Book, places: &[u32; 8]) -> ArrayVec<u32, 128>
    ensures value { result.items ≡ go_again places.now (log_back places.now book.old.log.items) }
    ensures after { (m : Model) → view book.new m ≡ with_restart (with_log (view book.old m) (log_back places.now book.old.log.items)) None }
{
    log_back(&mut book.log, places);
    book.restart = None;
    again(book.log.as_slice(), places)
}

// Every cluster goes back to its place, and the restart ends.
pub(crate) fn go_back<S: Store>(book: &mut Book, store: &mut S, places: [u32; 8]) -> Resumed
    ensures answer { (result.places.items ≡ tells_places (vec_len book.old.clusters) places) × (result.ids.items ≡ go_again places (log_back places book.old.log.items)) }
    ensures after { view book.new (S.Store.model store.new) ≡ resumed_to places (view book.old (S.Store.model store.old)) }
{
    let clusters = count(book);
    back_to(book, store, places);
    let ids = undo_messages(book, &places);
    Resumed {
        places: told_places(&places, clusters),
        ids,
    }
}

// Ends a restart that is settled: every cluster goes back to its place.
pub(crate) fn resume<S: Store>(
    book: &mut Book,
    store: &mut S,
    ticket: TicketNumbers,
) -> Result<Resumed, Refusal>
    ensures answer { resume_told result ≡ resume_tells (view book.old (S.Store.model store.old)) (numbered ticket) }
    ensures after { view book.new (S.Store.model store.new) ≡ resume_book (view book.old (S.Store.model store.old)) (numbered ticket) }
{
    let places = opened(book, ticket, true)?.places;
    Ok(go_back(book, store, places))
}

// How many checkpoints these clusters keep: of more than eight, the byte that tells it might be too small.
fn kept_in(clusters: &[Cluster]) -> u8
    requires { length clusters.now ≤ 8 }
    ensures { result ≡ kept_in (map group clusters.now) }
{
    let kept: usize = clusters.iter().map(|cluster| cluster.kept.len()).sum();
    kept as u8
}

// Below these numbers no later fault can need a checkpoint. The restart is as it was.
fn lowest_bounds(book: &mut Book) -> [u32; 8]
    ensures value { result ≡ bounds_of (bare book.old) }
    ensures same { (m : Model) → view book.new m ≡ view book.old m }
{
    bounds(&mut book.restart, book.clusters.as_slice())
}

// Drops the checkpoints below their cluster's bound, and tells how many they were.
fn drop_checkpoints<S: Store>(book: &mut Book, store: &mut S, bounds: [u32; 8]) -> u8
    ensures value { result ≡ kept_in (groups book.old) - kept_in (groups book.new) }
    ensures after { view book.new (S.Store.model store.new) ≡ from_bounds bounds (vec_len book.old.clusters) (view book.old (S.Store.model store.old)) }
{
    let before = kept_in(book.clusters.as_slice());
    from_bounds(book, store, bounds);
    before - kept_in(book.clusters.as_slice())
}

// Drops the messages received below their receiver's bound, and tells how many they were.
fn drop_messages(book: &mut Book, bounds: &[u32; 8]) -> u8
    ensures value { result ≡ length book.old.log.items - length book.new.log.items }
    ensures after { (m : Model) → view book.new m ≡ with_log (view book.old m) (log_from bounds.now book.old.log.items) }
{
    let before = book.log.len();
    log_from(&mut book.log, bounds);
    (before - book.log.len()) as u8
}

// Drops what no later fault can need.
pub(crate) fn drop_spent<S: Store>(book: &mut Book, store: &mut S) -> Collected
    ensures answer { collected_of result ≡ spent (view book.old (S.Store.model store.old)) }
    ensures after { view book.new (S.Store.model store.new) ≡ collected (view book.old (S.Store.model store.old)) }
{
    let lowest = lowest_bounds(book);
    let clusters = count(book);
    let checkpoints = drop_checkpoints(book, store, lowest);
    let messages = drop_messages(book, &lowest);
    let mut bounds = ArrayVec::from(lowest);
    bounds.truncate(clusters);
    Collected {
        bounds,
        checkpoints,
        messages,
    }
}

// Drops what no later fault can need, unless a restart is open.
pub(crate) fn collect<S: Store>(book: &mut Book, store: &mut S) -> Result<Collected, Refusal>
    ensures answer { collect_told result ≡ collect_tells (view book.old (S.Store.model store.old)) }
    ensures after { view book.new (S.Store.model store.new) ≡ collect_book (view book.old (S.Store.model store.old)) }
{
    if book.restart.is_some() {
        return Err(Refusal::RestartOpen);
    }
    Ok(drop_spent(book, store))
}
