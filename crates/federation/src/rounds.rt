// Request and answer, as far as they are the book's.
ghost use Rattle.std.specs.Prelude.{◌≡◌, suc, ◌<◌, ◌≤◌, true, is_some, IfOk, IfErr, OnOk, Some, None, Ok, vec_len};
ghost use Rattle.store.specs.Table.{Model};
ghost use Rattle.law.specs.Book.{at, number as number_in, logged as find, with_cluster, with_round};
ghost use Rattle.law.specs.Rounds.{request_refusal, request_tells, request_book, saved, deliver_waiting, deliver_logged};
ghost use Rattle.federation.specs.Answerable.{answerable as may_answer};
ghost use Rattle.book.specs.View.{view, bare};

use crate::answers::requested;
use crate::sight::{cluster as cluster_at, count, logged, may_open, nodes};
use book::Book;
use law::Round;
use refusal::Refusal;

// Whether a request is accepted, and why not.
fn may_request(book: &Book, cluster: u8, rank: u8) -> Result<(), Refusal>
    ensures accepts { OnOk result (request_refusal (bare book.now) cluster rank ≡ None) }
    ensures refuses { IfErr result (λ why. request_refusal (bare book.now) cluster rank ≡ Some why) }
{
    let i = usize::from(cluster);
    if i >= count(book) {
        return Err(Refusal::NoCluster);
    }
    if rank >= book.nodes {
        return Err(Refusal::NoRank);
    }
    if book.restart.is_some() {
        return Err(Refusal::RestartOpen);
    }
    if cluster_at(book, i).round.is_some() {
        return Ok(());
    }
    may_open(book, i)
}

// Opens a round with this initiator, or takes an open one over where the rank is lower.
pub(crate) fn request(book: &mut Book, cluster: u8, rank: u8) -> Result<u8, Refusal>
    ensures answer { (m : Model) → result ≡ request_tells (view book.old m) cluster rank }
    ensures after { (m : Model) → view book.new m ≡ request_book (view book.old m) cluster rank }
{
    may_request(book, cluster, rank)?;
    let i = usize::from(cluster);
    let round = requested(rank, cluster_at(book, i).round);
    book.set_round(i, Some(round));
    Ok(round.initiator)
}

// The open round in which this node may answer.
pub(crate) fn answerable(book: &Book, cluster: u8, rank: u8) -> Result<Round, Refusal>
    ensures value { result ≡ may_answer (bare book.now) cluster rank }
    ensures within { IfOk result (λ round. (cluster < vec_len book.now.clusters) × (rank < 32) × (is_some (at (bare book.now) cluster).round ≡ true)) }
{
    let i = usize::from(cluster);
    if i >= count(book) {
        return Err(Refusal::NoCluster);
    }
    if rank >= nodes(book) {
        return Err(Refusal::NoRank);
    }
    if book.restart.is_some() {
        return Err(Refusal::RestartOpen);
    }
    let round = cluster_at(book, i).round.ok_or(Refusal::NoRound)?;
    if round.answers[usize::from(rank)].is_some() {
        return Err(Refusal::Answered);
    }
    Ok(round)
}

// A word that is not the last: the round goes on.
pub(crate) fn note(book: &mut Book, cluster: u8, round: Round)
    requires within { cluster < vec_len book.old.clusters }
    requires opened { is_some (at (bare book.old) cluster).round ≡ true }
    ensures { (m : Model) → view book.new m ≡ with_cluster (view book.old m) cluster (with_round (at (view book.old m) cluster) (Some round)) }
{
    book.set_round(usize::from(cluster), Some(round));
}

// The last word: the checkpoint is committed, and then the message that waited for it is delivered.
pub(crate) fn commit(book: &mut Book, cluster: u8, waiting: Option<u32>)
    requires within { cluster < vec_len book.old.clusters }
    requires opened { is_some (at (bare book.old) cluster).round ≡ true }
    ensures { (m : Model) → view book.new m ≡ deliver_waiting (with_cluster (view book.old m) cluster (saved cluster (at (view book.old m) cluster))) waiting }
{
    book.commit(usize::from(cluster));
    if let Some(id) = waiting {
        deliver_logged(book, id);
    }
}

// Delivers the message with this id, if the log has it.
fn deliver_logged(book: &mut Book, id: u32)
    ensures { (m : Model) → view book.new m ≡ deliver_logged (view book.old m) (find book.old.log.items id) }
{
    if let Some(place) = logged(book, id) {
        book.deliver(place);
    }
}

// The number of the checkpoint to come where a round is open.
pub(crate) fn next_number(book: &Book, cluster: u8) -> u32
    requires within { cluster < vec_len book.now.clusters }
    requires opened { is_some (at (bare book.now) cluster).round ≡ true }
    ensures { result ≡ suc (number_in (bare book.now) cluster) }
{
    let i = usize::from(cluster);
    cluster_at(book, i).row[i] + 1
}
