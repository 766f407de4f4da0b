// Send and arrive, as far as they are the book's.
ghost use Rattle.std.specs.Prelude.{◌≡◌, ◌<◌, true, is_some, IfOk, IfErr, OnOk, Some, None, vec_len};
ghost use Rattle.law.specs.declared.Arrived.TheVariants.{Delivered};
ghost use Rattle.store.specs.Table.{Model};
ghost use Rattle.law.specs.Book.{at, number as number_in};
ghost use Rattle.law.specs.Messages.{send_refusal, send_tells, send_book, deliver as delivered};
ghost use Rattle.book.specs.View.{view, bare};
ghost use Rattle.book.specs.Logs.{message_at};
ghost use Rattle.federation.specs.Arrivable.{arrivable as may_arrive, placed, force_tells, force_book};

use crate::answers::new_round;
use crate::sight::{cluster as cluster_at, count, logged, may_open, nodes};
use book::{Book, LAST_NUMBER, MOST_MESSAGES};
use law::{Arrived, Message, Sent};
use refusal::Refusal;

// Whether the call is accepted, and why not.
fn may_send(book: &Book, from: u8, to: u8) -> Result<(), Refusal>
    ensures accepts { OnOk result (send_refusal (bare book.now) from to ≡ None) }
    ensures refuses { IfErr result (λ why. send_refusal (bare book.now) from to ≡ Some why) }
{
    let i = usize::from(from);
    if i >= count(book) || usize::from(to) >= count(book) {
        return Err(Refusal::NoCluster);
    }
    if from == to {
        return Err(Refusal::SameCluster);
    }
    if book.restart.is_some() {
        return Err(Refusal::RestartOpen);
    }
    if cluster_at(book, i).round.is_some() {
        return Err(Refusal::RoundOpen);
    }
    if book.log.len() >= MOST_MESSAGES {
        return Err(Refusal::LogFull);
    }
    if book.next_id > LAST_NUMBER {
        return Err(Refusal::NumbersSpent);
    }
    Ok(())
}

pub(crate) fn send(book: &mut Book, from: u8, to: u8, word: u64) -> Result<Sent, Refusal>
    ensures answer { (m : Model) → result ≡ send_tells (view book.old m) from to word }
    ensures after { (m : Model) → view book.new m ≡ send_book (view book.old m) from to word }
{
    may_send(book, from, to)?;
    let i = usize::from(from);
    let sent = Sent {
        id: book.next_id,
        number: cluster_at(book, i).row[i],
    };
    book.log_message(from, to, word);
    Ok(sent)
}

// Whether a round is open at the message's receiver.
fn round_open(book: &Book, message: Message) -> bool
    requires { message.to < vec_len book.now.clusters }
    ensures { result ≡ is_some (at (bare book.now) message.to).round }
{
    cluster_at(book, usize::from(message.to)).round.is_some()
}

// Where the message stands that may arrive now.
pub(crate) fn arrivable(book: &Book, id: u32, rank: u8) -> Result<usize, Refusal>
    ensures value { placed book.now.log.items result ≡ may_arrive (bare book.now) id rank }
    ensures within { IfOk result (λ place. place < vec_len book.now.log) }
{
    if rank >= nodes(book) {
        return Err(Refusal::NoRank);
    }
    if book.restart.is_some() {
        return Err(Refusal::RestartOpen);
    }
    let place = logged(book, id).ok_or(Refusal::NotInLog)?;
    let found = book.log[place];
    if found.receipt.is_some() {
        return Err(Refusal::Delivered);
    }
    if round_open(book, found.message) {
        return Err(Refusal::RoundOpen);
    }
    Ok(place)
}

// The message at a place of the log: it goes between clusters that exist.
pub(crate) fn message_at(book: &Book, place: usize) -> Message
    requires { place < vec_len book.now.log }
    ensures value { result ≡ message_at book.now.log.items place }
    ensures to { result.to < vec_len book.now.clusters }
    ensures few { (result.to < 8) × (result.from < 8) }
{
    book.log[place].message
}

// The rule forces a checkpoint: a round opens at the receiver, and the message waits.
pub(crate) fn force(book: &mut Book, place: usize, rank: u8) -> Result<Arrived, Refusal>
    requires within { place < vec_len book.old.log }
    requires closed { (at (bare book.old) (message_at book.old.log.items place).to).round ≡ None }
    ensures answer { (m : Model) → result ≡ force_tells (view book.old m) (message_at book.old.log.items place) }
    ensures after { (m : Model) → view book.new m ≡ force_book (view book.old m) (message_at book.old.log.items place) rank }
{
    let message = message_at(book, place);
    let to = usize::from(message.to);
    may_open(book, to)?;
    let number = cluster_at(book, to).row[to];
    book.set_round(to, Some(new_round(rank, Some(message.id))));
    Ok(Arrived::Forced(number + 1))
}

// The rule lets the message pass: it is delivered now.
pub(crate) fn deliver(book: &mut Book, place: usize) -> Arrived
    requires { place < vec_len book.old.log }
    ensures answer { result ≡ Delivered (number_in (bare book.old) (message_at book.old.log.items place).to) }
    ensures after { (m : Model) → view book.new m ≡ delivered (view book.old m) (message_at book.old.log.items place) }
{
    let to = usize::from(message_at(book, place).to);
    let number = cluster_at(book, to).row[to];
    book.deliver(place);
    Arrived::Delivered(number)
}
