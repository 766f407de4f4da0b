// One call made on a federation, with the ticket that is held; where none fits, a ticket of no restart is shown, and the answer is
// the refusal that applies.
ghost use Rattle.std.specs.Prelude.{◌≡◌};
ghost use Rattle.federation.specs.Shown.{shown};
ghost use Rattle.replay.specs.declared.exchange.Call.TheVariants.{Finish as finish_call, Resume as resume_call, Alert as alert_call, Fault as fault_call};
ghost use Rattle.replay.specs.Exchanges.{Stepped};

use crate::exchange::{Began, Call, Exchange};
use crate::held::Held;
use federation::{Faulted, Federation, Returned, Settled, Ticket, Travelling};
use rule::ForcingRule;
use store::{SidedStore, Store};

// What a call leaves: the exchange, and the ticket that is held now.
pub(crate) struct Made {
    pub(crate) exchange: Exchange,
    pub(crate) held: Option<Held>,
}

// A ticket that was held is no longer wanted.
fn give_up(held: Option<Held>) {
    if let Some(held) = held {
        held.give_up();
    }
}

impl Made {
    // The same exchange, with another ticket held.
    fn keeping(self, held: Option<Held>) -> Made
        ensures { result.exchange ≡ self.exchange }
    {
        let Made {
            exchange,
            held: spent,
        } = self;
        give_up(spent);
        Made { exchange, held }
    }
}

fn fault<S: SidedStore, R: ForcingRule>(
    federation: &mut Federation<S, R>,
    held: Option<Held>,
    cluster: u8,
) -> Made
    ensures { Stepped R.ForcingRule.says (shown S.Store.model federation.old) (shown S.Store.model federation.new) (fault_call cluster) result.exchange }
{
    match federation.fault(cluster) {
        Ok(Faulted { place, ticket }) => {
            give_up(held);
            let answer = Ok(Began {
                place,
                ticket: ticket.numbers(),
            });
            Made {
                exchange: Exchange::Fault { cluster, answer },
                held: Some(Held::Travelling(ticket)),
            }
        }
        Err(why) => Made {
            exchange: Exchange::Fault {
                cluster,
                answer: Err(why),
            },
            held,
        },
    }
}

fn alert_on<S: SidedStore, R: ForcingRule>(
    federation: &mut Federation<S, R>,
    ticket: &Ticket<Travelling>,
    from: u8,
    to: u8,
) -> Exchange
    ensures { Stepped R.ForcingRule.says (shown S.Store.model federation.old) (shown S.Store.model federation.new) (alert_call from to) result }
{
    let answer = federation.alert(ticket, from, to);
    Exchange::Alert {
        ticket: ticket.numbers(),
        from,
        to,
        answer,
    }
}

// Finish and resume are two functions each: their tickets are of two stages, and their exchanges of two cases.
fn finish_on<S: SidedStore, R: ForcingRule>(
    federation: &mut Federation<S, R>,
    ticket: Ticket<Travelling>,
) -> Made
    ensures { Stepped R.ForcingRule.says (shown S.Store.model federation.old) (shown S.Store.model federation.new) finish_call result.exchange }
{
    let numbers = ticket.numbers();
    match federation.finish(ticket) {
        Ok(settled) => Made {
            exchange: Exchange::Finish {
                ticket: numbers,
                answer: Ok(()),
            },
            held: Some(Held::Settled(settled)),
        },
        Err(Returned { why, ticket }) => Made {
            exchange: Exchange::Finish {
                ticket: numbers,
                answer: Err(why),
            },
            held: Some(Held::Travelling(ticket)),
        },
    }
}

fn resume_on<S: SidedStore, R: ForcingRule>(
    federation: &mut Federation<S, R>,
    ticket: Ticket<Settled>,
) -> Made
    ensures { Stepped R.ForcingRule.says (shown S.Store.model federation.old) (shown S.Store.model federation.new) resume_call result.exchange }
{
    let numbers = ticket.numbers();
    match federation.resume(ticket) {
        Ok(resumed) => Made {
            exchange: Exchange::Resume {
                ticket: numbers,
                answer: Ok(resumed),
            },
            held: None,
        },
        Err(back) => {
            let Returned { why, ticket } = back;
            Made {
                exchange: Exchange::Resume {
                    ticket: numbers,
                    answer: Err(why),
                },
                held: Some(Held::Settled(ticket)),
            }
        }
    }
}

fn alert<S: SidedStore, R: ForcingRule>(
    federation: &mut Federation<S, R>,
    held: Option<Held>,
    from: u8,
    to: u8,
) -> Made
    ensures { Stepped R.ForcingRule.says (shown S.Store.model federation.old) (shown S.Store.model federation.new) (alert_call from to) result.exchange }
{
    match held {
        Some(Held::Travelling(ticket)) => {
            let exchange = alert_on(federation, &ticket, from, to);
            Made {
                exchange,
                held: Some(Held::Travelling(ticket)),
            }
        }
        held => {
            let none = Ticket::of_no_restart();
            let exchange = alert_on(federation, &none, from, to);
            none.give_up();
            Made { exchange, held }
        }
    }
}

fn finish<S: SidedStore, R: ForcingRule>(
    federation: &mut Federation<S, R>,
    held: Option<Held>,
) -> Made
    ensures { Stepped R.ForcingRule.says (shown S.Store.model federation.old) (shown S.Store.model federation.new) finish_call result.exchange }
{
    match held {
        Some(Held::Travelling(ticket)) => finish_on(federation, ticket),
        held => {
            let made = finish_on(federation, Ticket::of_no_restart());
            made.keeping(held)
        }
    }
}

fn resume<S: SidedStore, R: ForcingRule>(
    federation: &mut Federation<S, R>,
    held: Option<Held>,
) -> Made
    ensures { Stepped R.ForcingRule.says (shown S.Store.model federation.old) (shown S.Store.model federation.new) resume_call result.exchange }
{
    match held {
        Some(Held::Settled(ticket)) => resume_on(federation, ticket),
        held => {
            let made = resume_on(federation, Ticket::of_no_restart());
            made.keeping(held)
        }
    }
}

// Makes one call.
pub(crate) fn make<S: SidedStore, R: ForcingRule>(
    federation: &mut Federation<S, R>,
    held: Option<Held>,
    call: Call,
) -> Made
    ensures { Stepped R.ForcingRule.says (shown S.Store.model federation.old) (shown S.Store.model federation.new) call result.exchange }
{
    let exchange = match call {
        Call::Fault { cluster } => return fault(federation, held, cluster),
        Call::Alert { from, to } => return alert(federation, held, from, to),
        Call::Finish => return finish(federation, held),
        Call::Resume => return resume(federation, held),
        Call::Request { cluster, rank } => Exchange::Request {
            cluster,
            rank,
            answer: federation.request(cluster, rank),
        },
        Call::Answer {
            cluster,
            rank,
            word,
        } => Exchange::Answer {
            cluster,
            rank,
            word,
            answer: federation.answer(cluster, rank, word),
        },
        Call::Send { from, to, word } => Exchange::Send {
            from,
            to,
            word,
            answer: federation.send(from, to, word),
        },
        Call::Arrive { id, rank } => Exchange::Arrive {
            id,
            rank,
            answer: federation.arrive(id, rank),
        },
        Call::Trial { cluster } => Exchange::Trial {
            cluster,
            answer: federation.trial(cluster),
        },
        Call::Collect => Exchange::Collect {
            answer: federation.collect(),
        },
        Call::Read { cluster, number } => Exchange::Read {
            cluster,
            number,
            answer: federation.read(cluster, number),
        },
        Call::Lose { side } => Exchange::Lose {
            side,
            answer: federation.lose(side),
        },
        Call::Rebuild { side } => Exchange::Rebuild {
            side,
            answer: federation.rebuild(side),
        },
    };
    Made { exchange, held }
}
