// Messages: send and arrive, and the two forcing rules.
use crate::rig::{deliver, fault, open, open_over, reads, restart, round, same, sent, told};
use law::Arrived;
use law::Arrived::Forced;
use law::Noted::Committed;
use refusal::Refusal;
use refusal::Refusal::{NoCluster, NoRank, NotInLog, NotKept, RestartOpen, RoundOpen, SameCluster};
use rule::{Always, ForcingRule, OnNews};
use slots::Slots;
use std::process::Abort;
use std::test::Fail;
use store::Store;

// Ids are counted over all clusters, and the number is the sender's at sending.
#[test]
fn ids_and_numbers(rt: HostRuntime) -> Result<(), Fail> {
    let mut federation = open(rt.alloc(), 3, 1)?;
    same(&rt, &federation.send(0, 1, 7), &sent(1, 1));
    same(
        &rt,
        &round(&mut federation, 2, &[5]),
        &Ok(Committed(2, None)),
    );
    same(
        &rt,
        &round(&mut federation, 2, &[6]),
        &Ok(Committed(3, None)),
    );
    same(&rt, &federation.send(2, 1, 8), &sent(2, 3));
    same(&rt, &federation.send(1, 0, 9), &sent(3, 1));
    Ok(())
}

// No such cluster, both the same, a restart is open, a round is open at the sender: in this order. A refused send takes no id.
#[test]
fn refused_sends(rt: HostRuntime) -> Result<(), Fail> {
    let mut federation = open(rt.alloc(), 2, 1)?;
    same(&rt, &federation.request(0, 0), &Ok(0));
    for (from, to, why) in [
        (2, 2, NoCluster),
        (2, 0, NoCluster),
        (0, 2, NoCluster),
        (0, 0, SameCluster),
        (0, 1, RoundOpen),
    ] {
        same(&rt, &federation.send(from, to, 7), &Err(why));
    }
    // the receiver's round is no hindrance
    same(&rt, &federation.send(1, 0, 7), &sent(1, 1));
    let ticket = fault(&mut federation, 0)?;
    for (from, to, why) in [(0, 2, NoCluster), (1, 1, SameCluster), (1, 0, RestartOpen)] {
        same(&rt, &federation.send(from, to, 7), &Err(why));
    }
    ticket.give_up();
    Ok(())
}

// No such rank, message not in the log, delivered already, a round is open at the receiver: in this order.
#[test]
fn refused_arrivals(rt: HostRuntime) -> Result<(), Fail> {
    let mut federation = open(rt.alloc(), 2, 2)?;
    same(&rt, &federation.arrive(1, 0), &Err(NotInLog));
    same(&rt, &federation.send(0, 1, 7), &sent(1, 1));
    same(&rt, &federation.send(0, 1, 8), &sent(2, 1));
    same(&rt, &deliver(&mut federation, 1, 1, &[5, 6]), &Ok(2));
    same(&rt, &federation.request(1, 0), &Ok(0));
    for (id, rank, why) in [
        (3, 2, NoRank),
        (3, 0, NotInLog),
        (0, 0, NotInLog),
        (1, 0, Refusal::Delivered),
        (2, 0, RoundOpen),
    ] {
        same(&rt, &federation.arrive(id, rank), &Err(why));
    }
    let ticket = fault(&mut federation, 0)?;
    for (id, rank, why) in [(3, 2, NoRank), (3, 0, RestartOpen), (1, 0, RestartOpen)] {
        same(&rt, &federation.arrive(id, rank), &Err(why));
    }
    ticket.give_up();
    Ok(())
}

// A message that waits for a forced checkpoint is not yet delivered, and a copy of it finds the round open.
#[test]
fn a_copy_of_a_waiting_message_is_refused(rt: HostRuntime) -> Result<(), Fail> {
    let mut federation = open(rt.alloc(), 2, 1)?;
    same(&rt, &federation.send(0, 1, 7), &sent(1, 1));
    same(&rt, &federation.arrive(1, 0), &Ok(Forced(2)));
    same(&rt, &federation.arrive(1, 0), &Err(RoundOpen));
    // it is delivered once
    same(&rt, &federation.answer(1, 0, 9), &Ok(Committed(2, Some(1))));
    same(&rt, &federation.arrive(1, 0), &Err(Refusal::Delivered));
    Ok(())
}

// A late copy of a message that was delivered is refused, also after later checkpoints of both clusters; once a collect has dropped the
// message from the log, a copy of it is of no message there.
#[test]
fn a_late_copy_is_refused(rt: HostRuntime) -> Result<(), Fail> {
    let mut federation = open(rt.alloc(), 2, 1)?;
    same(&rt, &federation.send(0, 1, 7), &sent(1, 1));
    same(&rt, &deliver(&mut federation, 1, 1, &[5]), &Ok(2));
    same(&rt, &federation.arrive(1, 0), &Err(Refusal::Delivered));
    same(
        &rt,
        &round(&mut federation, 0, &[6]),
        &Ok(Committed(2, None)),
    );
    same(
        &rt,
        &round(&mut federation, 1, &[7]),
        &Ok(Committed(3, None)),
    );
    same(&rt, &federation.arrive(1, 0), &Err(Refusal::Delivered));
    same(&rt, &federation.collect()?.messages, &1);
    same(&rt, &federation.arrive(1, 0), &Err(NotInLog));
    Ok(())
}

// A late copy of a message whose sending is undone is of no message in the log; the id is not given again.
#[test]
fn a_copy_of_an_undone_message_is_refused(rt: HostRuntime) -> Result<(), Fail> {
    let mut federation = open(rt.alloc(), 2, 1)?;
    same(&rt, &federation.send(0, 1, 7), &sent(1, 1));
    let resumed = restart(&mut federation, 0)?;
    assert!(rt; told(&resumed, &[1, 0], &[]));
    same(&rt, &federation.arrive(1, 0), &Err(NotInLog));
    same(&rt, &federation.send(0, 1, 7), &sent(2, 1));
    Ok(())
}

// Two messages sent at number 1, of which the second arrives first and forces a checkpoint under both rules.
fn overtaken<S: Store, R: ForcingRule>(
    rt: &impl Abort,
    federation: &mut federation::Federation<S, R>,
) {
    same(rt, &federation.send(0, 1, 7), &sent(1, 1));
    same(rt, &federation.send(0, 1, 8), &sent(2, 1));
    same(rt, &federation.arrive(2, 0), &Ok(Forced(2)));
    same(rt, &federation.answer(1, 0, 9), &Ok(Committed(2, Some(2))));
}

// The late older message is no news, and is delivered at once.
#[test]
fn on_news_lets_an_older_message_pass(rt: HostRuntime) -> Result<(), Fail> {
    let mut federation = open_over(rt.alloc(), 2, 1, OnNews, Slots::new(rt.alloc())?)?;
    overtaken(&rt, &mut federation);
    same(&rt, &federation.arrive(1, 0), &Ok(Arrived::Delivered(2)));
    same(&rt, &federation.read(1, 3).err(), &Some(NotKept));
    Ok(())
}

// The rule that always forces has it wait for a checkpoint, too.
#[test]
fn always_forces_before_an_older_message(rt: HostRuntime) -> Result<(), Fail> {
    let mut federation = open_over(rt.alloc(), 2, 1, Always, Slots::new(rt.alloc())?)?;
    overtaken(&rt, &mut federation);
    same(&rt, &federation.arrive(1, 0), &Ok(Forced(3)));
    same(
        &rt,
        &federation.answer(1, 0, 10),
        &Ok(Committed(3, Some(1))),
    );
    assert!(rt; reads(&federation, 1, 3, &[10]));
    Ok(())
}
