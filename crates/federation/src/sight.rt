// What the calls look at before they change anything. Positions are clauses here, as in the book.
ghost use Rattle.std.specs.Prelude.{◌≡◌, ◌<◌, ◌≤◌, true, IfErr, OnOk, Some, None, vec_len};
ghost use Rattle.law.specs.Book.{at, checkpoint_at, count as counted};
ghost use Rattle.federation.specs.Reading.{not_kept};
ghost use Rattle.law.specs.Messages.{round_refusal};
ghost use Rattle.book.specs.Finding.{LoggedAt};
ghost use Rattle.book.specs.View.{bare, group};

use book::{Book, Cluster, LAST_NUMBER, MOST_KEPT, checkpoint_at, logged_at};
use law::Checkpoint;
use refusal::Refusal;

pub(crate) fn count(book: &Book) -> usize
    ensures value { result ≡ counted (bare book.now) }
    ensures len { result ≡ vec_len book.now.clusters }
    ensures few { result ≤ 8 }
{
    book.count()
}

pub(crate) fn nodes(book: &Book) -> u8
    ensures value { result ≡ book.now.nodes }
    ensures few { result ≤ 32 }
{
    book.nodes
}

// Where the message with this id stands in the log.
pub(crate) fn logged(book: &Book, id: u32) -> Option<usize>
    ensures { LoggedAt book.now.log.items id result }
{
    logged_at(&book.log, id)
}

pub(crate) fn cluster(book: &Book, i: usize) -> &Cluster
    requires { i < vec_len book.now.clusters }
    ensures { group result.now ≡ at (bare book.now) i }
{
    book.cluster(i)
}

// Whether a round can open at this cluster, and why not.
pub(crate) fn may_open(book: &Book, i: usize) -> Result<(), Refusal>
    requires { i < vec_len book.now.clusters }
    ensures accepts { OnOk result (round_refusal (bare book.now) i ≡ None) }
    ensures refuses { IfErr result (λ why. round_refusal (bare book.now) i ≡ Some why) }
{
    let cluster = cluster(book, i);
    if cluster.kept.len() >= MOST_KEPT {
        return Err(Refusal::KeptFull);
    }
    if cluster.row[i] >= LAST_NUMBER {
        return Err(Refusal::NumbersSpent);
    }
    Ok(())
}

// Whether a checkpoint is kept; else there is no such cluster, or it does not keep it. Cluster and number are the operands of read.
pub(crate) fn is_kept(book: &Book, cluster: u8, number: u32) -> Result<(), Refusal>
    ensures accepts { OnOk result (not_kept (bare book.now) cluster number ≡ None) }
    ensures refuses { IfErr result (λ why. not_kept (bare book.now) cluster number ≡ Some why) }
{
    let i = usize::from(cluster);
    if i >= count(book) {
        return Err(Refusal::NoCluster);
    }
    if kept_at(book, i, number).is_none() {
        return Err(Refusal::NotKept);
    }
    Ok(())
}

fn kept_at(book: &Book, i: usize, number: u32) -> Option<Checkpoint>
    requires { i < vec_len book.now.clusters }
    ensures { result ≡ checkpoint_at (at (bare book.now) i).kept number }
{
    checkpoint_at(&cluster(book, i).kept, number)
}
