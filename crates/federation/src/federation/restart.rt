// A restart: the fault, its alerts, and the way back. And trials of faults.
ghost use Rattle.std.specs.Prelude.{◌≡◌};
ghost use Rattle.law.specs.Restarts.{fault_tells, fault_book, alert_tells, alert_book, finish_tells, finish_book, resume_tells, resume_book};
ghost use Rattle.law.specs.Trials.{trial_tells, collect_tells, collect_book};
ghost use Rattle.federation.specs.Shown.{shown};
ghost use Rattle.federation.specs.Tickets.{named, fault_told, finish_told, finish_ticket, resume_answer, GivenBack};
ghost use Rattle.federation.specs.Collecting.{collect_told};
ghost use Rattle.federation.specs.Told.{told_list};

use super::Federation;
use crate::tickets::{Faulted, Returned, Settled, Ticket, Travelling};
use crate::told::{Collected, Resumed};
use crate::{cuts, restarts, trials};
use arrayvec::ArrayVec;
use law::Carried;
use refusal::Refusal;
use rule::ForcingRule;
use store::Store;

impl<S: Store, R: ForcingRule> Federation<S, R> {
    // A cluster has failed: every open round is dropped, and alerts from it wait for all others. Tells its place, and hands out
    // the ticket of the restart.
    pub fn fault(&mut self, cluster: u8) -> Result<Faulted, Refusal>
        ensures answer { fault_told result ≡ fault_tells (shown S.Store.model self.old) cluster }
        ensures after { shown S.Store.model self.new ≡ fault_book (shown S.Store.model self.old) cluster }
        ensures store { self.new.store ≡ self.old.store }
    {
        let place = restarts::fault(&mut self.book, cluster)?;
        let ticket = Ticket::of_restart(restarts::newest(&self.book));
        Ok(Faulted { place, ticket })
    }

    // Carries one waiting alert.
    pub fn alert(
        &mut self,
        ticket: &Ticket<Travelling>,
        from: u8,
        to: u8,
    ) -> Result<Carried, Refusal>
        ensures answer { result ≡ alert_tells (shown S.Store.model self.old) (named ticket.now) from to }
        ensures after { shown S.Store.model self.new ≡ alert_book (shown S.Store.model self.old) (named ticket.now) from to }
        ensures store { self.new.store ≡ self.old.store }
    {
        restarts::alert(&mut self.book, ticket.numbers, from, to)
    }

    // Carries all alerts that wait. The ticket is settled then, or given back.
    pub fn finish(
        &mut self,
        ticket: Ticket<Travelling>,
    ) -> Result<Ticket<Settled>, Returned<Travelling>>
        ensures answer { finish_told result ≡ finish_tells (shown S.Store.model self.old) (named ticket) }
        ensures ticket { finish_ticket result ≡ named ticket }
        ensures after { shown S.Store.model self.new ≡ finish_book (shown S.Store.model self.old) (named ticket) }
        ensures store { self.new.store ≡ self.old.store }
    {
        match restarts::finish(&mut self.book, ticket.numbers) {
            Ok(()) => Ok(ticket.settle()),
            // no `?`: a refusal hands the ticket back
            Err(why) => Err(Returned { why, ticket }),
        }
    }

    // Every cluster called back goes back to its place. Tells every place, and the messages to send again; the ticket is spent, or
    // given back.
    pub fn resume(&mut self, ticket: Ticket<Settled>) -> Result<Resumed, Returned<Settled>>
        ensures answer { resume_answer result ≡ resume_tells (shown S.Store.model self.old) (named ticket) }
        ensures ticket { GivenBack result (named ticket) }
        ensures after { shown S.Store.model self.new ≡ resume_book (shown S.Store.model self.old) (named ticket) }
    {
        match cuts::resume(&mut self.book, &mut self.store, ticket.numbers) {
            Ok(resumed) => {
                ticket.give_up();
                Ok(resumed)
            }
            // no `?`, as above
            Err(why) => Err(Returned { why, ticket }),
        }
    }

    // Drops the checkpoints and messages that no later fault can need.
    pub fn collect(&mut self) -> Result<Collected, Refusal>
        ensures answer { collect_told result ≡ collect_tells (shown S.Store.model self.old) }
        ensures after { shown S.Store.model self.new ≡ collect_book (shown S.Store.model self.old) }
    {
        cuts::collect(&mut self.book, &mut self.store)
    }

    // The places to which a fault of this cluster would lead.
    pub fn trial(&mut self, cluster: u8) -> Result<ArrayVec<u32, 8>, Refusal>
        ensures answer { told_list result ≡ trial_tells (shown S.Store.model self.old) cluster }
        ensures after { shown S.Store.model self.new ≡ shown S.Store.model self.old }
        ensures store { self.new.store ≡ self.old.store }
    {
        trials::trial(&mut self.book, cluster)
    }
}
