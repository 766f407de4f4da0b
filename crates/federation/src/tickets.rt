// Tickets of a restart. A fault hands out a travelling ticket, on which alerts are carried; finish turns it into a settled one,
// and resume spends that. They are told apart by the federation's name and the count of its restarts only: two federations of
// one name can hold equal tickets.
ghost use Rattle.std.specs.Prelude.{◌≡◌};
ghost use Rattle.federation.specs.Tickets.{named, numbered, of_no_restart};

use refusal::Refusal;
use std::marker::PhantomData;

// The name of a federation and the count of its restarts, for a caller that notes down what it asked on which ticket.
#[derive(Clone, Copy, PartialEq, Eq, Debug)]
pub struct TicketNumbers {
    pub name: u32,
    pub count: u32,
}

// The stage of a ticket whose alerts travel.
pub struct Travelling;

// The stage of a ticket whose alerts have all been carried.
pub struct Settled;

// The ticket of a restart at one of these stages. It has neither Drop nor Copy, so it has to be used, and once only.
pub struct Ticket<S> {
    pub(crate) numbers: TicketNumbers,
    stage: PhantomData<S>,
}

// What an accepted fault tells: the place of the failed cluster, and the ticket of the restart.
pub struct Faulted {
    pub place: u32,
    pub ticket: Ticket<Travelling>,
}

// A refusal that gives the ticket back.
pub struct Returned<S> {
    pub why: Refusal,
    pub ticket: Ticket<S>,
}

impl<S> Ticket<S> {
    // A ticket of no restart, to show where none is held: restarts are counted from 1.
    pub fn of_no_restart() -> Ticket<S>
        ensures { named result ≡ of_no_restart }
    {
        Ticket {
            numbers: TicketNumbers { name: 0, count: 0 },
            stage: PhantomData,
        }
    }

    pub fn numbers(&self) -> TicketNumbers
        ensures { numbered result ≡ named self.now }
    {
        self.numbers
    }

    // A ticket that is no longer wanted, as where its federation is gone.
    pub fn give_up(self) {
        let Ticket {
            numbers: _,
            stage: _,
        } = self;
    }
}

impl Ticket<Travelling> {
    // The ticket of a restart that has just begun.
    pub(crate) fn of_restart(numbers: TicketNumbers) -> Ticket<Travelling>
        ensures { named result ≡ numbered numbers }
    {
        Ticket {
            numbers,
            stage: PhantomData,
        }
    }

    // The same ticket at its next stage.
    pub(crate) fn settle(self) -> Ticket<Settled>
        ensures { named result ≡ named self }
    {
        let Ticket { numbers, stage: _ } = self;
        Ticket {
            numbers,
            stage: PhantomData,
        }
    }
}
