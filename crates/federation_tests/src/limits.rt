// What is full, and what is spent: kept checkpoints, the log and the numbers.
use crate::rig::{deliver, dropped, fault, finish, open, restart, resume, round, same, sent, told};
use federation::Federation;
use law::Arrived;
use law::Arrived::Forced;
use law::Noted::Committed;
use refusal::Refusal;
use refusal::Refusal::{
    KeptFull, LogFull, NoRank, NoRound, NotInLog, NumbersSpent, RestartOpen, RoundOpen, SameCluster,
};
use rule::OnNews;
use slots::Slots;
use std::test::Fail;

// A cluster keeps 16 checkpoints; a further round is refused until a collect drops 15 of them.
#[test]
fn sixteen_checkpoints_are_kept(rt: HostRuntime) -> Result<(), Fail> {
    let mut federation = open(rt.alloc(), 2, 1)?;
    for number in 2..=16 {
        same(
            &rt,
            &round(&mut federation, 0, &[7]),
            &Ok(Committed(number, None)),
        );
    }
    same(&rt, &federation.request(0, 0), &Err(KeptFull));
    // before full
    same(&rt, &federation.request(0, 1), &Err(NoRank));
    // none was opened
    same(&rt, &federation.answer(0, 0, 8), &Err(NoRound));
    // the other cluster
    same(
        &rt,
        &round(&mut federation, 1, &[9]),
        &Ok(Committed(2, None)),
    );
    let collected = federation.collect()?;
    assert!(rt; dropped(&collected, &[16, 2], 16, 0));
    same(
        &rt,
        &round(&mut federation, 0, &[8]),
        &Ok(Committed(17, None)),
    );
    Ok(())
}

// A restart comes before full, and gives no checkpoint back.
#[test]
fn a_restart_comes_before_sixteen_kept(rt: HostRuntime) -> Result<(), Fail> {
    let mut federation = open(rt.alloc(), 2, 1)?;
    for _ in 0..15 {
        round(&mut federation, 0, &[7])?;
    }
    let ticket = fault(&mut federation, 0)?;
    same(&rt, &federation.request(0, 0), &Err(RestartOpen));
    let settled = finish(&mut federation, ticket)?;
    let resumed = resume(&mut federation, settled)?;
    assert!(rt; told(&resumed, &[16, 0], &[]));
    same(&rt, &federation.request(0, 0), &Err(KeptFull));
    Ok(())
}

// A receiver that keeps 16 checkpoints takes a message that is no news; news is refused until a collect.
#[test]
fn news_for_a_full_receiver(rt: HostRuntime) -> Result<(), Fail> {
    let mut federation = open(rt.alloc(), 2, 1)?;
    same(&rt, &federation.send(0, 1, 7), &sent(1, 1));
    same(&rt, &federation.send(0, 1, 8), &sent(2, 1));
    same(&rt, &deliver(&mut federation, 1, 1, &[5]), &Ok(2));
    for number in 3..=16 {
        same(
            &rt,
            &round(&mut federation, 1, &[6]),
            &Ok(Committed(number, None)),
        );
    }
    same(
        &rt,
        &round(&mut federation, 0, &[4]),
        &Ok(Committed(2, None)),
    );
    same(&rt, &federation.send(0, 1, 9), &sent(3, 2));
    same(&rt, &federation.arrive(3, 0), &Err(KeptFull));
    // before full
    same(&rt, &federation.arrive(1, 0), &Err(Refusal::Delivered));
    // no round was opened
    same(&rt, &federation.arrive(2, 0), &Ok(Arrived::Delivered(16)));
    // only what came below the bound
    let collected = federation.collect()?;
    assert!(rt; dropped(&collected, &[2, 16], 16, 1));
    same(&rt, &federation.arrive(1, 0), &Err(NotInLog));
    same(&rt, &federation.arrive(2, 0), &Err(Refusal::Delivered));
    same(&rt, &federation.arrive(3, 0), &Ok(Forced(17)));
    Ok(())
}

// The log takes 128 messages, and a further send is refused; what is undelivered stays in a collect.
#[test]
fn a_full_log(rt: HostRuntime) -> Result<(), Fail> {
    let mut federation = open(rt.alloc(), 2, 1)?;
    for id in 1..=128 {
        same(&rt, &federation.send(0, 1, 7), &sent(id, 1));
    }
    same(&rt, &federation.send(0, 1, 7), &Err(LogFull));
    // one log for all
    same(&rt, &federation.send(1, 0, 7), &Err(LogFull));
    // before full
    same(&rt, &federation.send(1, 1, 7), &Err(SameCluster));
    same(&rt, &federation.request(0, 0), &Ok(0));
    // before full
    same(&rt, &federation.send(0, 1, 7), &Err(RoundOpen));
    same(&rt, &federation.collect()?.messages, &0);
    same(&rt, &federation.send(1, 0, 7), &Err(LogFull));
    let ticket = fault(&mut federation, 1)?;
    // before full
    same(&rt, &federation.send(0, 1, 7), &Err(RestartOpen));
    ticket.give_up();
    Ok(())
}

// Of a full log the 64 undelivered messages to a cluster that fails go again. Those to another do not, and stay in the log.
#[test]
fn a_full_log_goes_again(rt: HostRuntime) -> Result<(), Fail> {
    let mut federation = open(rt.alloc(), 3, 1)?;
    for _ in 0..64 {
        federation.send(0, 1, 7)?;
        federation.send(0, 2, 8)?;
    }
    let resumed = restart(&mut federation, 2)?;
    same(&rt, &resumed.places.as_slice(), &[0, 0, 1].as_slice());
    same(&rt, &resumed.ids.len(), &64);
    for (id, even) in resumed.ids.iter().zip((2u32..=128).step_by(2)) {
        same(&rt, &*id, &even);
    }
    same(&rt, &federation.send(1, 0, 9).err(), &Some(LogFull));
    let resumed = restart(&mut federation, 0)?;
    same(&rt, &resumed.ids.len(), &0);
    // with their sender's fault all are undone
    same(&rt, &federation.send(1, 0, 9), &sent(129, 1));
    Ok(())
}

// Sends of cluster 0, and its fault, which undoes them.
fn undone_sends(federation: &mut Federation<Slots, OnNews>, count: u32) -> Result<(), Refusal> {
    for _ in 0..count {
        federation.send(0, 1, 7)?;
    }
    restart(federation, 0)?;
    Ok(())
}

// Ids end at 1,000,000, whatever became of their messages. A full log comes before that.
#[test]
fn ids_are_spent(rt: HostRuntime) -> Result<(), Fail> {
    let mut federation = open(rt.alloc(), 2, 1)?;
    undone_sends(&mut federation, 64)?;
    for _ in 0..7_811 {
        undone_sends(&mut federation, 128)?;
    }
    for id in 999_873..=1_000_000 {
        same(&rt, &federation.send(0, 1, 7), &sent(id, 1));
    }
    // before spent
    same(&rt, &federation.send(0, 1, 7), &Err(LogFull));
    restart(&mut federation, 0)?;
    same(&rt, &federation.send(0, 1, 7), &Err(NumbersSpent));
    same(&rt, &federation.arrive(1_000_000, 0), &Err(NotInLog));
    Ok(())
}
