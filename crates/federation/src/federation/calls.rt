// The calls. What is the book's stands in modules of its own; here the store and the rule come to it.
ghost use Rattle.std.specs.Prelude.{◌≡◌, ◌<◌, true, is_some, Some, vec_len};
ghost use Rattle.refusal.specs.Answers.{unless_refused, replied};
ghost use Rattle.law.specs.Book.{at};
ghost use Rattle.law.specs.Messages.{send_tells, send_book, arrive_tells, arrive_book, forces as forces_at};
ghost use Rattle.law.specs.Rounds.{request_tells, request_book, answer_tells, answer_book, answer_keeps, answered, answered_tells, noted};
ghost use Rattle.book.specs.Logs.{message_at};
ghost use Rattle.book.specs.View.{bare};
ghost use Rattle.federation.specs.Shown.{shown};
ghost use Rattle.federation.specs.Answerable.{commit_tells, commit_book};

use super::Federation;
use crate::answers::{missing, with_word, words_of};
use crate::{messages, rounds, sight};
use law::{Arrived, Noted, Round, Sent};
use refusal::Refusal;
use rule::ForcingRule;
use store::{RowKey, Store};

impl<S: Store, R: ForcingRule> Federation<S, R> {
    // Opens a round with this initiator, or takes an open one over where the rank is lower. Tells the initiator that holds.
    pub fn request(&mut self, cluster: u8, rank: u8) -> Result<u8, Refusal>
        ensures answer { result ≡ request_tells (shown S.Store.model self.old) cluster rank }
        ensures after { shown S.Store.model self.new ≡ request_book (shown S.Store.model self.old) cluster rank }
        ensures store { self.new.store ≡ self.old.store }
    {
        rounds::request(&mut self.book, cluster, rank)
    }

    // Notes one node's word. With the last one the store keeps the words, the checkpoint is committed, and a message that
    // waited for it is delivered.
    pub fn answer(&mut self, cluster: u8, rank: u8, word: u64) -> Result<Noted, Refusal>
        ensures answer { result ≡ answer_tells (shown S.Store.model self.old) cluster rank word }
        ensures after { shown S.Store.model self.new ≡ answer_book (shown S.Store.model self.old) cluster rank word }
    {
        let round = rounds::answerable(&self.book, cluster, rank)?;
        self.note_word(cluster, rank, word, round)
    }

    fn note_word(
        &mut self,
        cluster: u8,
        rank: u8,
        word: u64,
        round: Round,
    ) -> Result<Noted, Refusal>
        requires within { cluster < vec_len self.old.book.clusters }
        requires ranked { rank < 32 }
        requires opened { is_some (at (bare self.old.book) cluster).round ≡ true }
        ensures answer { result ≡ replied (answer_keeps (shown S.Store.model self.old) cluster (noted (shown S.Store.model self.old) round rank word)) (answered_tells (shown S.Store.model self.old) cluster rank word (Some round)) }
        ensures after { shown S.Store.model self.new ≡ unless_refused (answer_keeps (shown S.Store.model self.old) cluster (noted (shown S.Store.model self.old) round rank word)) (shown S.Store.model self.old) (answered (shown S.Store.model self.old) cluster rank word (Some round)) }
    {
        let round = with_word(round, usize::from(rank), word);
        let nodes = usize::from(sight::nodes(&self.book));
        let left = missing(&round.answers[0..nodes]);
        if left == 0 {
            return self.commit(cluster, round);
        }
        rounds::note(&mut self.book, cluster, round);
        Ok(Noted::Missing(left))
    }

    // Every node has answered. Where the store refuses, the round stays open.
    fn commit(&mut self, cluster: u8, round: Round) -> Result<Noted, Refusal>
        requires within { cluster < vec_len self.old.book.clusters }
        requires opened { is_some (at (bare self.old.book) cluster).round ≡ true }
        ensures answer { result ≡ commit_tells (shown S.Store.model self.old) cluster round }
        ensures after { shown S.Store.model self.new ≡ commit_book (shown S.Store.model self.old) cluster round }
    {
        let nodes = usize::from(sight::nodes(&self.book));
        let words = words_of(&round.answers);
        let number = rounds::next_number(&self.book, cluster);
        self.store
            .keep(RowKey { cluster, number }, &words[0..nodes])?;
        rounds::commit(&mut self.book, cluster, round.waiting);
        Ok(Noted::Committed(number, round.waiting))
    }

    // A message enters the log. Tells its id and its sender's number.
    pub fn send(&mut self, from: u8, to: u8, word: u64) -> Result<Sent, Refusal>
        ensures answer { result ≡ send_tells (shown S.Store.model self.old) from to word }
        ensures after { shown S.Store.model self.new ≡ send_book (shown S.Store.model self.old) from to word }
        ensures store { self.new.store ≡ self.old.store }
    {
        messages::send(&mut self.book, from, to, word)
    }

    // A message reaches its receiver: it is delivered, or forces a checkpoint first.
    pub fn arrive(&mut self, id: u32, rank: u8) -> Result<Arrived, Refusal>
        ensures answer { result ≡ arrive_tells R.ForcingRule.says (shown S.Store.model self.old) id rank }
        ensures after { shown S.Store.model self.new ≡ arrive_book R.ForcingRule.says (shown S.Store.model self.old) id rank }
        ensures store { self.new.store ≡ self.old.store }
    {
        let place = messages::arrivable(&self.book, id, rank)?;
        if self.forces(place) {
            messages::force(&mut self.book, place, rank)
        } else {
            Ok(messages::deliver(&mut self.book, place))
        }
    }

    // The rule's answer on the message at this place of the log.
    fn forces(&self, place: usize) -> bool
        requires { place < vec_len self.now.book.log }
        ensures { result ≡ forces_at R.ForcingRule.says (shown S.Store.model self.now) (message_at self.now.book.log.items place) }
    {
        let message = messages::message_at(&self.book, place);
        let receiver = sight::cluster(&self.book, usize::from(message.to));
        self.rule.forces(
            receiver.row[usize::from(message.from)],
            message.number,
            receiver.kept.len(),
        )
    }
}
