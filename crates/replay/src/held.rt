// The ticket that is held between two calls, if one is.
use federation::{Settled, Ticket, Travelling};

pub enum Held {
    Travelling(Ticket<Travelling>),
    Settled(Ticket<Settled>),
}

impl Held {
    // The ticket is no longer wanted.
    pub fn give_up(self) {
        match self {
            Held::Travelling(ticket) => ticket.give_up(),
            Held::Settled(ticket) => ticket.give_up(),
        }
    }
}
