// Restarts in which one cluster calls back the next.
use crate::rig::{
    deliver, fault, finish, moved, open, reads, restart, resume, round, same, sent, stays, told,
};
use federation::{Faulted, Federation, Ticket, Travelling};
use law::Noted::Committed;
use refusal::Refusal;
use refusal::Refusal::{NoAlert, NotInLog, NotKept};
use rule::OnNews;
use slots::Slots;
use std::process::Abort;
use std::test::Fail;

// Where a fault of cluster 0 leads after the chain below: cluster 1 to before the delivery of message 2, cluster 2 to before that of
// message 3, cluster 3 to before that of message 4, and the others stay.
const PLACES: [u32; 8] = [2, 3, 2, 2, 0, 0, 0, 0];

// A chain of three hops over eight clusters: 0 to 1, 1 to 2 and 2 to 3, each sent after a checkpoint of its sender. Before it a message
// of cluster 4 is delivered.
fn chain(rt: &impl Abort, federation: &mut Federation<Slots, OnNews>) {
    same(rt, &federation.send(4, 1, 40), &sent(1, 1));
    same(rt, &deliver(federation, 1, 1, &[12]), &Ok(2));
    same(rt, &round(federation, 0, &[2]), &Ok(Committed(2, None)));
    same(rt, &federation.send(0, 1, 41), &sent(2, 2));
    same(rt, &deliver(federation, 2, 1, &[13]), &Ok(3));
    same(rt, &round(federation, 1, &[14]), &Ok(Committed(4, None)));
    same(rt, &federation.send(1, 2, 42), &sent(3, 4));
    same(rt, &deliver(federation, 3, 2, &[22]), &Ok(2));
    same(rt, &round(federation, 2, &[23]), &Ok(Committed(3, None)));
    same(rt, &federation.send(2, 3, 43), &sent(4, 3));
    same(rt, &deliver(federation, 4, 3, &[32]), &Ok(2));
}

// Beside the chain, all from clusters that stay: a message to cluster 3, delivered after the chain; one to cluster 2 and one to cluster
// 7, both on their way.
fn beside(rt: &impl Abort, federation: &mut Federation<Slots, OnNews>) {
    same(rt, &federation.send(5, 3, 44), &sent(5, 1));
    same(rt, &deliver(federation, 5, 3, &[33]), &Ok(3));
    same(rt, &federation.send(6, 2, 45), &sent(6, 1));
    same(rt, &federation.send(6, 7, 46), &sent(7, 1));
}

// A chain of three hops: the fault of its first cluster calls back the other three, each to its checkpoint before the hop, and nobody
// else. What was sent by clusters that stay, and is not delivered any more to clusters called back, goes again.
#[test]
fn a_chain_of_three_hops(rt: HostRuntime) -> Result<(), Fail> {
    let mut federation = open(rt.alloc(), 8, 1)?;
    chain(&rt, &mut federation);
    beside(&rt, &mut federation);
    same(&rt, &federation.trial(0)?.as_slice(), &PLACES.as_slice());
    let resumed = restart(&mut federation, 0)?;
    assert!(rt; told(&resumed, &PLACES, &[5, 6]));
    Ok(())
}

// After that restart each cluster called back keeps its checkpoints up to its place, with their words.
#[test]
fn words_after_a_chain(rt: HostRuntime) -> Result<(), Fail> {
    let mut federation = open(rt.alloc(), 8, 1)?;
    chain(&rt, &mut federation);
    beside(&rt, &mut federation);
    assert!(rt; reads(&federation, 1, 4, &[14]));
    restart(&mut federation, 0)?;
    for (cluster, place, word) in [(0, 2, 2), (1, 2, 12), (1, 3, 13), (2, 2, 22), (3, 2, 32)] {
        assert!(rt;
            reads(&federation, cluster, place, &[word]),
            "cluster {cluster}"
        );
    }
    for (cluster, number) in [(0, 3), (1, 4), (2, 3), (3, 3)] {
        assert_eq!(rt;
            federation.read(cluster, number).err(),
            Some(NotKept),
            "cluster {cluster}"
        );
    }
    Ok(())
}

// After that restart the messages of the chain are in the log no more, a delivery from before it stands, and the others arrive.
#[test]
fn messages_after_a_chain(rt: HostRuntime) -> Result<(), Fail> {
    let mut federation = open(rt.alloc(), 8, 1)?;
    chain(&rt, &mut federation);
    beside(&rt, &mut federation);
    restart(&mut federation, 0)?;
    for id in [2, 3, 4] {
        assert_eq!(rt; federation.arrive(id, 0), Err(NotInLog), "message {id}");
    }
    same(&rt, &federation.arrive(1, 0), &Err(Refusal::Delivered));
    same(&rt, &deliver(&mut federation, 5, 3, &[34]), &Ok(3));
    same(&rt, &deliver(&mut federation, 6, 2, &[24]), &Ok(3));
    same(&rt, &deliver(&mut federation, 7, 7, &[72]), &Ok(2));
    // ids go on
    same(&rt, &federation.send(0, 1, 47), &sent(8, 2));
    Ok(())
}

// Carries every alert of the chain's restart: first the three that call a cluster back, then the rest, which call nobody back.
fn carry_all(
    rt: &impl Abort,
    federation: &mut Federation<Slots, OnNews>,
    ticket: &Ticket<Travelling>,
) {
    same(rt, &federation.alert(ticket, 0, 1), &moved(3));
    same(rt, &federation.alert(ticket, 1, 2), &moved(2));
    same(rt, &federation.alert(ticket, 2, 3), &moved(2));
    for from in 0..4 {
        for (to, place) in (0u8..8).zip(PLACES) {
            if to != from && !(to <= 3 && to == from + 1) {
                assert_eq!(rt;
                    federation.alert(ticket, from, to),
                    stays(place),
                    "from {from} to {to}"
                );
            }
        }
    }
}

// The same restart with every alert carried by a call of its own: finish finds none that waits, and resume tells the same.
#[test]
fn a_chain_carried_alert_by_alert(rt: HostRuntime) -> Result<(), Fail> {
    let mut federation = open(rt.alloc(), 8, 1)?;
    chain(&rt, &mut federation);
    beside(&rt, &mut federation);
    let Faulted { place, ticket } = federation.fault(0)?;
    same(&rt, &place, &2);
    carry_all(&rt, &mut federation, &ticket);
    for from in 0..8 {
        for to in 0..8 {
            if from != to {
                assert_eq!(rt;
                    federation.alert(&ticket, from, to),
                    Err(NoAlert),
                    "from {from} to {to}"
                );
            }
        }
    }
    let settled = finish(&mut federation, ticket)?;
    let resumed = resume(&mut federation, settled)?;
    assert!(rt; told(&resumed, &PLACES, &[5, 6]));
    Ok(())
}

// A fault in the middle of the chain calls back only what comes after it.
#[test]
fn a_fault_in_the_middle_of_a_chain(rt: HostRuntime) -> Result<(), Fail> {
    let mut federation = open(rt.alloc(), 8, 1)?;
    chain(&rt, &mut federation);
    beside(&rt, &mut federation);
    let resumed = restart(&mut federation, 2)?;
    assert!(rt; told(&resumed, &[0, 0, 3, 2, 0, 0, 0, 0], &[5, 6]));
    // from cluster 1 to cluster 2
    same(&rt, &federation.arrive(3, 0), &Err(Refusal::Delivered));
    // from cluster 2 to cluster 3
    same(&rt, &federation.arrive(4, 0), &Err(NotInLog));
    Ok(())
}

// Cluster 2 hears first of cluster 0 and then, by way of cluster 1, of an earlier delivery that has to go: it is called back twice, and
// its alerts wait again.
#[test]
fn a_cluster_is_called_back_twice(rt: HostRuntime) -> Result<(), Fail> {
    let mut federation = open(rt.alloc(), 3, 1)?;
    same(&rt, &federation.send(0, 1, 7), &sent(1, 1));
    same(&rt, &deliver(&mut federation, 1, 1, &[12]), &Ok(2));
    same(&rt, &federation.send(1, 2, 8), &sent(2, 2));
    same(&rt, &deliver(&mut federation, 2, 2, &[22]), &Ok(2));
    same(
        &rt,
        &round(&mut federation, 2, &[23]),
        &Ok(Committed(3, None)),
    );
    same(&rt, &federation.send(0, 2, 9), &sent(3, 1));
    same(&rt, &deliver(&mut federation, 3, 2, &[24]), &Ok(4));
    let ticket = fault(&mut federation, 0)?;
    same(&rt, &federation.alert(&ticket, 0, 2), &moved(4));
    same(&rt, &federation.alert(&ticket, 2, 1), &stays(0));
    same(&rt, &federation.alert(&ticket, 2, 1), &Err(NoAlert));
    same(&rt, &federation.alert(&ticket, 0, 1), &moved(2));
    same(&rt, &federation.alert(&ticket, 1, 2), &moved(2));
    // it waits again
    same(&rt, &federation.alert(&ticket, 2, 1), &stays(2));
    let settled = finish(&mut federation, ticket)?;
    let resumed = resume(&mut federation, settled)?;
    assert!(rt; told(&resumed, &[1, 2, 2], &[]));
    Ok(())
}
