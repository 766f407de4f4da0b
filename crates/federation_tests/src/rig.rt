// What a rig does with a federation, so that tests read as the protocol: it opens one, runs the rounds of its clusters, carries
// messages and restarts clusters.
use federation::{
    Closed, Collected, Faulted, Federation, NotOpened, Resumed, Returned, Settled, Ticket,
    Travelling,
};
use law::{Arrived, Carried, Noted, Sent};
use refusal::Refusal;
use rule::{ForcingRule, OnNews};
use slots::Slots;
use std::alloc::Global;
use std::fmt::Debug;
use std::process::Abort;
use std::test::Fail;
use store::Store;

// Asserts that two values are the same: a function, so that what the macro does is proved once, and not in every test.
pub fn same<T: PartialEq + Debug>(rt: &impl Abort, told: &T, expected: &T) {
    assert_eq!(rt; told, expected);
}

// Opens a federation with the name 0.
pub fn open_over<S: Store + Drop, R: ForcingRule + Drop>(
    heap: Global,
    clusters: u8,
    nodes: u8,
    rule: R,
    store: S,
) -> Result<Federation<S, R>, Closed> {
    Federation::open(0, clusters, nodes, rule, store, heap).map_err(|back| {
        let NotOpened {
            why,
            store: _,
            rule: _,
        } = back;
        why
    })
}

// A federation over slots, under the rule that forces only on news.
pub fn open(heap: Global, clusters: u8, nodes: u8) -> Result<Federation<Slots, OnNews>, Fail> {
    Ok(open_over(heap, clusters, nodes, OnNews, Slots::new(heap)?)?)
}

// Every node of a cluster answers the open round with its word. Tells what the last answer tells.
pub fn answer_all<S: Store, R: ForcingRule>(
    federation: &mut Federation<S, R>,
    cluster: u8,
    words: &[u64],
) -> Result<Noted, Refusal> {
    let mut told = Noted::Missing(0);
    for (rank, word) in (0u8..=31).zip(words) {
        told = federation.answer(cluster, rank, *word)?;
    }
    Ok(told)
}

// A round that node 0 begins.
pub fn round<S: Store, R: ForcingRule>(
    federation: &mut Federation<S, R>,
    cluster: u8,
    words: &[u64],
) -> Result<Noted, Refusal> {
    federation.request(cluster, 0)?;
    answer_all(federation, cluster, words)
}

// A message reaches node 0 of its receiver, whose nodes answer with these words where that forces a checkpoint. Tells its receipt number.
pub fn deliver<S: Store, R: ForcingRule>(
    federation: &mut Federation<S, R>,
    id: u32,
    to: u8,
    words: &[u64],
) -> Result<u32, Refusal> {
    match federation.arrive(id, 0)? {
        Arrived::Delivered(receipt) => Ok(receipt),
        Arrived::Forced(number) => {
            answer_all(federation, to, words)?;
            Ok(number)
        }
    }
}

// A finish that has to be refused for this reason; the ticket comes back.
pub fn refused_finish<S: Store, R: ForcingRule>(
    rt: &impl Abort,
    federation: &mut Federation<S, R>,
    ticket: Ticket<Travelling>,
    expected: Refusal,
) -> Ticket<Travelling> {
    match federation.finish(ticket) {
        Ok(settled) => {
            settled.give_up();
            panic!(rt; "finished")
        }
        Err(Returned { why, ticket }) => {
            same(rt, &why, &expected);
            ticket
        }
    }
}

// A resume that has to be refused for this reason; the ticket comes back.
pub fn refused_resume<S: Store, R: ForcingRule>(
    rt: &impl Abort,
    federation: &mut Federation<S, R>,
    ticket: Ticket<Settled>,
    expected: Refusal,
) -> Ticket<Settled> {
    match federation.resume(ticket) {
        Ok(_) => panic!(rt; "resumed"),
        Err(back) => {
            let Returned { why, ticket } = back;
            same(rt, &why, &expected);
            ticket
        }
    }
}

// Carries all alerts. A ticket that is refused is given up.
pub fn finish<S: Store, R: ForcingRule>(
    federation: &mut Federation<S, R>,
    ticket: Ticket<Travelling>,
) -> Result<Ticket<Settled>, Refusal> {
    federation.finish(ticket).map_err(|back| {
        let Returned { why, ticket } = back;
        ticket.give_up();
        why
    })
}

// Ends a settled restart. A ticket that is refused is given up.
pub fn resume<S: Store, R: ForcingRule>(
    federation: &mut Federation<S, R>,
    ticket: Ticket<Settled>,
) -> Result<Resumed, Refusal> {
    federation.resume(ticket).map_err(|back| {
        let Returned { why, ticket } = back;
        ticket.give_up();
        why
    })
}

// A cluster fails: the ticket of the restart that begins.
pub fn fault<S: Store, R: ForcingRule>(
    federation: &mut Federation<S, R>,
    cluster: u8,
) -> Result<Ticket<Travelling>, Refusal> {
    let Faulted { place: _, ticket } = federation.fault(cluster)?;
    Ok(ticket)
}

// Why a fault is refused. The ticket of an accepted one is given up.
pub fn fault_refusal<S: Store, R: ForcingRule>(
    federation: &mut Federation<S, R>,
    cluster: u8,
) -> Option<Refusal> {
    match federation.fault(cluster) {
        Ok(Faulted { place: _, ticket }) => {
            ticket.give_up();
            None
        }
        Err(why) => Some(why),
    }
}

// A cluster fails, all alerts are carried, and the restart ends.
pub fn restart<S: Store, R: ForcingRule>(
    federation: &mut Federation<S, R>,
    cluster: u8,
) -> Result<Resumed, Refusal> {
    let ticket = fault(federation, cluster)?;
    let settled = finish(federation, ticket)?;
    resume(federation, settled)
}

// What an accepted send tells.
pub fn sent(id: u32, number: u32) -> Result<Sent, Refusal> {
    Ok(Sent { id, number })
}

// What an alert tells that does not call its receiver back.
pub fn stays(place: u32) -> Result<Carried, Refusal> {
    Ok(Carried {
        moved: false,
        place,
    })
}

// What an alert tells that calls its receiver back to this place.
pub fn moved(place: u32) -> Result<Carried, Refusal> {
    Ok(Carried { moved: true, place })
}

// Whether a checkpoint is kept with these words.
pub fn reads<S: Store, R: ForcingRule>(
    federation: &Federation<S, R>,
    cluster: u8,
    number: u32,
    words: &[u64],
) -> bool {
    match federation.read(cluster, number) {
        Ok(kept) => kept.as_slice() == words,
        Err(_) => false,
    }
}

// Whether a resume told these places, and these messages to send again.
pub fn told(resumed: &Resumed, places: &[u32], ids: &[u32]) -> bool {
    resumed.places.as_slice() == places && resumed.ids.as_slice() == ids
}

// Whether a collect told these bounds, and so many checkpoints and messages gone.
pub fn dropped(collected: &Collected, bounds: &[u32], checkpoints: u8, messages: u8) -> bool {
    collected.bounds.as_slice() == bounds
        && collected.checkpoints == checkpoints
        && collected.messages == messages
}
