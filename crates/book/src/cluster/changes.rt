// What is done to one cluster.
ghost use Rattle.std.specs.Prelude.{◌≡◌, ◌<◌, true, length, is_some, IfOk, ◌≢◌};
ghost use Rattle.law.specs.Book.{entry as entry_of, raised, with_round};
ghost use Rattle.law.specs.Opening.{first_cluster};
ghost use Rattle.law.specs.Rounds.{saved};
ghost use Rattle.book.specs.View.{group};
ghost use Rattle.book.specs.Rules.{can_end};

use super::Cluster;
use crate::MOST_KEPT;
use law::{Checkpoint, Round};
use std::alloc::{AllocError, Global};

impl Cluster {
    // At its beginning a cluster has checkpoint 1, and has heard of no other.
    pub fn new(own: usize, heap: Global) -> Result<Cluster, AllocError>
        requires { own < 8 }
        ensures { IfOk result (λ c. (group c ≡ first_cluster own) × (c.own ≡ own)) }
    {
        let mut kept = Vec::with_capacity(heap, MOST_KEPT)?;
        let mut row = [0; 8];
        row[own] = 1;
        kept.push_reserved(Checkpoint { number: 1, row });
        Ok(Cluster {
            own,
            row,
            kept,
            round: None,
        })
    }

    // Opens, changes or ends the round.
    pub fn set_round(&mut self, round: Option<Round>)
        requires { can_end (is_some round) (length (group self.old).kept) (entry_of self.old.row self.old.own) ≡ true }
        ensures after { group self.new ≡ with_round (group self.old) round }
        ensures own { self.new.own ≡ self.old.own }
    {
        self.round = round;
    }

    // The checkpoint that ends a round: the row is kept as it is, before the message that waits is delivered.
    pub fn commit(&mut self)
        requires { is_some self.old.round ≡ true }
        ensures after { group self.new ≡ saved self.old.own (group self.old) }
        ensures own { self.new.own ≡ self.old.own }
    {
        let number = self.row[self.own] + 1;
        self.row[self.own] = number;
        let row = self.row;
        self.kept.push_reserved(Checkpoint { number, row });
        self.round = None;
    }

    // Raises the entry for a sender to the number that its message brings, if that is higher.
    pub fn hear(&mut self, from: usize, number: u32)
        requires from_within { from < 8 }
        requires apart { from ≢ self.old.own }
        ensures after { group self.new ≡ record { row = raised self.old.row from number; kept = (group self.old).kept; round = self.old.round } }
        ensures own { self.new.own ≡ self.old.own }
    {
        if self.row[from] < number {
            self.row[from] = number;
        }
    }
}
