// The calls of a restart unit.
#![tactic(auto)]

mod answers;
mod cuts;
mod federation;
mod messages;
mod restarts;
mod rounds;
mod sight;
mod tickets;
mod told;
mod trials;

pub use federation::{Closed, Federation, NotOpened};
pub use tickets::{Faulted, Returned, Settled, Ticket, TicketNumbers, Travelling};
pub use told::{Collected, Resumed};
