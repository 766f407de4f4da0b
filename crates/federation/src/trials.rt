// Trial: where a fault would lead.
ghost use Rattle.std.specs.Prelude.{◌≡◌, true, IfErr, OnOk, Some, None};
ghost use Rattle.store.specs.Table.{Model};
ghost use Rattle.law.specs.Trials.{trial_refusal, trial_tells};
ghost use Rattle.book.specs.View.{view, bare};
ghost use Rattle.federation.specs.Told.{told_list};

use crate::sight::count;
use arrayvec::ArrayVec;
use book::Book;
use recovery::{told_places, trial as tried};
use refusal::Refusal;

// Whether a trial is accepted, and why not.
pub(crate) fn may_try(book: &Book, cluster: u8) -> Result<(), Refusal>
    ensures accepts { OnOk result (trial_refusal (bare book.now) cluster ≡ None) }
    ensures refuses { IfErr result (λ why. trial_refusal (bare book.now) cluster ≡ Some why) }
{
    if usize::from(cluster) >= count(book) {
        return Err(Refusal::NoCluster);
    }
    if book.restart.is_some() {
        return Err(Refusal::RestartOpen);
    }
    Ok(())
}

// The places to which a fault of this cluster would lead. The book is as it was.
pub(crate) fn trial(book: &mut Book, cluster: u8) -> Result<ArrayVec<u32, 8>, Refusal>
    ensures answer { (m : Model) → told_list result ≡ trial_tells (view book.old m) cluster }
    ensures after { (m : Model) → view book.new m ≡ view book.old m }
{
    may_try(book, cluster)?;
    let places = tried(
        &mut book.restart,
        book.clusters.as_slice(),
        usize::from(cluster),
    );
    Ok(told_places(&places, count(book)))
}
