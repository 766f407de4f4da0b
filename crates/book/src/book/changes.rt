// What the calls do to the book: a round, a checkpoint, a message, a delivery. The words of checkpoints are the store's. That a position is one
// of a cluster or of a message, or that a round is open there, are clauses: a type would say it of one book, and until the next call only.
ghost use Rattle.std.specs.Prelude.{◌≡◌, ◌<◌, ◌≤◌, true, map, length, is_some, vec_len, slice_index_or};
ghost use Rattle.store.specs.Table.{Model};
ghost use Rattle.law.specs.Book.{at as cluster_at, nobody, entry as entry_of, with_cluster, with_clusters, with_round, with_log, most_messages, last_number};
ghost use Rattle.law.specs.Rounds.{saved};
ghost use Rattle.law.specs.Messages.{sent, deliver as delivered, receive as received};
ghost use Rattle.law.specs.Restarts.{drop_rounds};
ghost use Rattle.book.specs.View.{groups, view};
ghost use Rattle.book.specs.Rules.{can_end, is_between};
ghost use Rattle.book.specs.Logs.{message_at, heard_from};

use super::Book;
use law::{Logged, Message, Round};

impl Book {
    // Opens or changes a cluster's round.
    pub fn set_round(&mut self, i: usize, round: Option<Round>)
        requires within { i < vec_len self.old.clusters }
        requires ends { can_end (is_some round) (length (slice_index_or (groups self.old) i nobody).kept) (entry_of (slice_index_or (groups self.old) i nobody).row i) ≡ true }
        ensures { (m : Model) → view self.new m ≡ with_cluster (view self.old m) i (with_round (cluster_at (view self.old m) i) round) }
    {
        self.clusters[i].set_round(round);
    }

    // The checkpoint that ends a cluster's round.
    pub fn commit(&mut self, i: usize)
        requires within { i < vec_len self.old.clusters }
        requires opened { is_some (slice_index_or (groups self.old) i nobody).round ≡ true }
        ensures { (m : Model) → view self.new m ≡ with_cluster (view self.old m) i (saved i (cluster_at (view self.old m) i)) }
    {
        self.clusters[i].commit();
    }

    // A message enters the log, undelivered, with the next id and its sender's number.
    pub fn log_message(&mut self, from: u8, to: u8, word: u64)
        requires addressed { is_between (vec_len self.old.clusters) from to ≡ true }
        requires free { vec_len self.old.log < most_messages }
        requires numbered { self.old.next_id ≤ last_number }
        ensures { (m : Model) → view self.new m ≡ sent (view self.old m) from to word }
    {
        let i = usize::from(from);
        let message = Message {
            id: self.next_id,
            from,
            to,
            word,
            number: self.clusters[i].row[i],
        };
        self.log.push_reserved(Logged {
            message,
            receipt: None,
        });
        self.next_id += 1;
    }

    // A cluster has heard of the sender of a message.
    fn hear(&mut self, i: usize, from: usize, number: u32)
        requires { is_between (vec_len self.old.clusters) from i ≡ true }
        ensures after { (m : Model) → view self.new m ≡ with_cluster (view self.old m) i (heard_from from number (cluster_at (view self.old m) i)) }
        ensures log { self.new.log ≡ self.old.log }
    {
        self.clusters[i].hear(from, number);
    }

    // The message at this place of the log has this receipt number.
    fn receive(&mut self, place: usize, number: u32)
        requires { place < vec_len self.old.log }
        ensures { (m : Model) → view self.new m ≡ with_log (view self.old m) (map (received (message_at self.old.log.items place).id number) self.old.log.items) }
    {
        self.log[place].receipt = Some(number);
    }

    // Delivers the message at this place of the log: its receipt number is its receiver's number, and the receiver has heard
    // of its sender.
    pub fn deliver(&mut self, place: usize)
        requires { place < vec_len self.old.log }
        ensures { (m : Model) → view self.new m ≡ delivered (view self.old m) (message_at self.old.log.items place) }
    {
        let message = self.log[place].message;
        let to = usize::from(message.to);
        let receipt = self.clusters[to].row[to];
        self.hear(to, usize::from(message.from), message.number);
        self.receive(place, receipt);
    }

    // Every open round is dropped. A message that waited in one may arrive again.
    pub fn drop_rounds(&mut self)
        ensures { (m : Model) → view self.new m ≡ with_clusters (view self.old m) (drop_rounds (groups self.old)) }
    {
        for cluster in self.clusters.iter_mut() {
            cluster.round = None;
        }
    }
}
