// Fault, alert and finish: a restart is opened, its alerts are carried, and it is settled.
ghost use Rattle.std.specs.Prelude.{◌≡◌, ◌<◌, true, is_some, IfOk, IfErr, OnOk, Some, None};
ghost use Rattle.store.specs.Table.{Model};
ghost use Rattle.refusal.specs.Answers.{replied};
ghost use Rattle.law.specs.Book.{number as number_in};
ghost use Rattle.law.specs.Restarts.{fault_refusal, fault_book, ticket as newest, waits as waits_in, holds as holds_in, alert_refusal, alert_tells, alert_book, finish_tells, finish_book};
ghost use Rattle.book.specs.View.{view, bare};
ghost use Rattle.federation.specs.Tickets.{numbered, stage_refusal};

use crate::sight::count as count_of;
use crate::tickets::TicketNumbers;
use crate::trials::may_try;
use book::{Book, LAST_NUMBER};
use law::{Carried, Restart};
use recovery::{begin, carry, drain, told};
use refusal::Refusal;

// Whether a fault is accepted, and why not.
fn may_fault(book: &Book, cluster: u8) -> Result<(), Refusal>
    ensures accepts { OnOk result (fault_refusal (bare book.now) cluster ≡ None) }
    ensures refuses { IfErr result (λ why. fault_refusal (bare book.now) cluster ≡ Some why) }
{
    may_try(book, cluster)?;
    if book.restarts >= LAST_NUMBER {
        return Err(Refusal::NumbersSpent);
    }
    Ok(())
}

// A cluster has failed: every open round is dropped, and a restart opens. Tells the place of the failed cluster.
pub(crate) fn fault(book: &mut Book, cluster: u8) -> Result<u32, Refusal>
    ensures answer { (m : Model) → result ≡ replied (fault_refusal (view book.old m) cluster) (number_in (view book.old m) cluster) }
    ensures after { (m : Model) → view book.new m ≡ fault_book (view book.old m) cluster }
{
    may_fault(book, cluster)?;
    let i = usize::from(cluster);
    let restart = begin(book.clusters.as_slice(), i);
    book.drop_rounds();
    book.restarts += 1;
    book.restart = Some(restart);
    Ok(restart.places[i])
}

// The numbers of the restart that is open, or was the last.
pub(crate) fn newest(book: &Book) -> TicketNumbers
    ensures { numbered result ≡ newest (bare book.now) }
{
    TicketNumbers {
        name: book.name,
        count: book.restarts,
    }
}

// Whether the ticket is that of the restart that is open, or was the last.
fn holds(book: &Book, ticket: TicketNumbers) -> bool
    ensures { result ≡ holds_in (bare book.now) (numbered ticket) }
{
    ticket == newest(book)
}

// Whether an alert waits between the two clusters.
fn waits(restart: &Restart, from: usize, to: usize) -> bool
    requires origin { from < 8 }
    requires target { to < 8 }
    ensures { result ≡ waits_in restart.now from to }
{
    restart.waiting[from].to[to]
}

// Whether this alert waits in the open restart and may be carried on this ticket. No copy of the restart is handed on.
fn alerted(book: &Book, ticket: TicketNumbers, from: u8, to: u8) -> Result<(), Refusal>
    ensures opened { OnOk result (is_some book.now.restart ≡ true) }
    ensures accepts { OnOk result (alert_refusal (bare book.now) (numbered ticket) from to ≡ None) }
    ensures refuses { IfErr result (λ why. alert_refusal (bare book.now) (numbered ticket) from to ≡ Some why) }
{
    let i = usize::from(from);
    let j = usize::from(to);
    if i >= count_of(book) || j >= count_of(book) {
        return Err(Refusal::NoCluster);
    }
    if from == to {
        return Err(Refusal::SameCluster);
    }
    let Some(restart) = &book.restart else {
        return Err(Refusal::NoRestart);
    };
    if !waits(restart, i, j) {
        return Err(Refusal::NoAlert);
    }
    if !holds(book, ticket) || restart.settled {
        return Err(Refusal::WrongTicket);
    }
    Ok(())
}

// Carries one alert of the open restart.
pub(crate) fn alert(
    book: &mut Book,
    ticket: TicketNumbers,
    from: u8,
    to: u8,
) -> Result<Carried, Refusal>
    ensures answer { (m : Model) → result ≡ alert_tells (view book.old m) (numbered ticket) from to }
    ensures after { (m : Model) → view book.new m ≡ alert_book (view book.old m) (numbered ticket) from to }
{
    alerted(book, ticket, from, to)?;
    let j = usize::from(to);
    let Some(restart) = &mut book.restart else {
        return Err(Refusal::NoRestart);
    };
    let moved = carry(restart, book.clusters.as_slice(), usize::from(from), j);
    Ok(Carried {
        moved,
        place: told(restart.places[j]),
    })
}

// The open restart, if the ticket is its own and it is settled, or is not, as asked.
pub(crate) fn opened(book: &Book, ticket: TicketNumbers, settled: bool) -> Result<&Restart, Refusal>
    ensures opened { IfOk result (λ restart. book.now.restart ≡ Some restart.now) }
    ensures accepts { OnOk result (stage_refusal settled (bare book.now) (numbered ticket) ≡ None) }
    ensures refuses { IfErr result (λ why. stage_refusal settled (bare book.now) (numbered ticket) ≡ Some why) }
{
    let Some(restart) = &book.restart else {
        return Err(Refusal::NoRestart);
    };
    if holds(book, ticket) && restart.settled == settled {
        Ok(restart)
    } else {
        Err(Refusal::WrongTicket)
    }
}

// Carries every alert that waits, and settles the restart.
pub(crate) fn finish(book: &mut Book, ticket: TicketNumbers) -> Result<(), Refusal>
    ensures answer { (m : Model) → result ≡ finish_tells (view book.old m) (numbered ticket) }
    ensures after { (m : Model) → view book.new m ≡ finish_book (view book.old m) (numbered ticket) }
{
    opened(book, ticket, false)?;
    let Some(restart) = &mut book.restart else {
        return Err(Refusal::NoRestart);
    };
    drain(restart, book.clusters.as_slice());
    restart.settled = true;
    Ok(())
}
