// Trial, collect and read.
use crate::rig::{
    deliver, dropped, fault, finish, open, reads, restart, resume, round, same, sent, told,
};
use federation::Faulted;
use law::Noted::{Committed, Missing};
use refusal::Refusal;
use refusal::Refusal::{NoCluster, NotInLog, NotKept, RestartOpen};
use std::test::Fail;

// No such cluster, a restart is open: in this order.
#[test]
fn refused_trials(rt: HostRuntime) -> Result<(), Fail> {
    let mut federation = open(rt.alloc(), 2, 1)?;
    same(&rt, &federation.trial(2).err(), &Some(NoCluster));
    let ticket = fault(&mut federation, 0)?;
    // before the restart
    same(&rt, &federation.trial(2).err(), &Some(NoCluster));
    same(&rt, &federation.trial(1).err(), &Some(RestartOpen));
    let settled = finish(&mut federation, ticket)?;
    let resumed = resume(&mut federation, settled)?;
    // the refused trial left the places
    assert!(rt; told(&resumed, &[1, 0], &[]));
    Ok(())
}

// A trial tells the places to which the fault then leads, and leaves rounds, messages and checkpoints as they are.
#[test]
fn a_trial_changes_nothing(rt: HostRuntime) -> Result<(), Fail> {
    let mut federation = open(rt.alloc(), 2, 2)?;
    same(&rt, &federation.send(0, 1, 7), &sent(1, 1));
    same(&rt, &deliver(&mut federation, 1, 1, &[5, 6]), &Ok(2));
    same(&rt, &federation.request(1, 0), &Ok(0));
    same(&rt, &federation.answer(1, 1, 8), &Ok(Missing(1)));
    same(&rt, &federation.trial(0)?.as_slice(), &[1, 2].as_slice());
    same(&rt, &federation.trial(1)?.as_slice(), &[0, 2].as_slice());
    // the round is as it was
    same(&rt, &federation.answer(1, 0, 7), &Ok(Committed(3, None)));
    same(&rt, &federation.arrive(1, 0), &Err(Refusal::Delivered));
    let Faulted { place, ticket } = federation.fault(0)?;
    same(&rt, &place, &1);
    // a trial is no restart
    same(&rt, &ticket.numbers().count, &1);
    let settled = finish(&mut federation, ticket)?;
    let resumed = resume(&mut federation, settled)?;
    assert!(rt; told(&resumed, &[1, 2], &[]));
    Ok(())
}

// A collect drops what is below the lowest place that any fault leads to: cluster 0 at 1 needs cluster 1 at 2, before the delivery.
#[test]
fn a_collect_keeps_what_a_fault_can_need(rt: HostRuntime) -> Result<(), Fail> {
    let mut federation = open(rt.alloc(), 2, 1)?;
    same(&rt, &federation.send(0, 1, 7), &sent(1, 1));
    same(&rt, &deliver(&mut federation, 1, 1, &[9]), &Ok(2));
    same(
        &rt,
        &round(&mut federation, 1, &[10]),
        &Ok(Committed(3, None)),
    );
    // received at the bound
    let collected = federation.collect()?;
    assert!(rt; dropped(&collected, &[1, 2], 1, 0));
    assert!(rt; reads(&federation, 0, 1, &[0]));
    same(&rt, &federation.read(1, 1).err(), &Some(NotKept));
    assert!(rt; reads(&federation, 1, 2, &[9]));
    let resumed = restart(&mut federation, 0)?;
    same(&rt, &resumed.places.as_slice(), &[1, 2].as_slice());
    Ok(())
}

// Once the sender has a checkpoint after the send, the collect drops the delivered message and all but the newest checkpoints.
#[test]
fn a_collect_drops_what_no_fault_can_need(rt: HostRuntime) -> Result<(), Fail> {
    let mut federation = open(rt.alloc(), 2, 1)?;
    same(&rt, &federation.send(0, 1, 7), &sent(1, 1));
    same(&rt, &federation.send(0, 1, 8), &sent(2, 1));
    same(&rt, &deliver(&mut federation, 1, 1, &[9]), &Ok(2));
    same(
        &rt,
        &round(&mut federation, 0, &[5]),
        &Ok(Committed(2, None)),
    );
    same(
        &rt,
        &round(&mut federation, 1, &[10]),
        &Ok(Committed(3, None)),
    );
    // the other is undelivered
    let collected = federation.collect()?;
    assert!(rt; dropped(&collected, &[2, 3], 3, 1));
    let collected = federation.collect()?;
    assert!(rt; dropped(&collected, &[2, 3], 0, 0));
    same(&rt, &federation.arrive(1, 0), &Err(NotInLog));
    // no news
    same(&rt, &deliver(&mut federation, 2, 1, &[11]), &Ok(3));
    Ok(())
}

// A collect leaves an open round and its answers.
#[test]
fn a_collect_leaves_rounds(rt: HostRuntime) -> Result<(), Fail> {
    let mut federation = open(rt.alloc(), 2, 2)?;
    same(
        &rt,
        &round(&mut federation, 0, &[5, 6]),
        &Ok(Committed(2, None)),
    );
    same(&rt, &federation.request(0, 1), &Ok(1));
    same(&rt, &federation.answer(0, 1, 8), &Ok(Missing(1)));
    same(&rt, &federation.collect()?.checkpoints, &1);
    same(&rt, &federation.answer(0, 0, 7), &Ok(Committed(3, None)));
    assert!(rt; reads(&federation, 0, 3, &[7, 8]));
    Ok(())
}

// While a restart is open a collect is refused, settled or not, and drops nothing.
#[test]
fn a_refused_collect(rt: HostRuntime) -> Result<(), Fail> {
    let mut federation = open(rt.alloc(), 2, 1)?;
    same(
        &rt,
        &round(&mut federation, 0, &[5]),
        &Ok(Committed(2, None)),
    );
    let ticket = fault(&mut federation, 1)?;
    same(&rt, &federation.collect().err(), &Some(RestartOpen));
    let settled = finish(&mut federation, ticket)?;
    // settled
    same(&rt, &federation.collect().err(), &Some(RestartOpen));
    let resumed = resume(&mut federation, settled)?;
    assert!(rt; told(&resumed, &[0, 1], &[]));
    assert!(rt; reads(&federation, 0, 1, &[0]));
    same(&rt, &federation.collect()?.checkpoints, &1);
    Ok(())
}

// No such cluster, not kept: in this order. A read is answered in a restart, too: what is called back goes only with the resume.
#[test]
fn refused_reads(rt: HostRuntime) -> Result<(), Fail> {
    let mut federation = open(rt.alloc(), 2, 1)?;
    same(&rt, &federation.send(0, 1, 7), &sent(1, 1));
    same(&rt, &deliver(&mut federation, 1, 1, &[5]), &Ok(2));
    same(
        &rt,
        &round(&mut federation, 1, &[6]),
        &Ok(Committed(3, None)),
    );
    // before not kept
    same(&rt, &federation.read(2, 9).err(), &Some(NoCluster));
    // not yet taken
    same(&rt, &federation.read(1, 4).err(), &Some(NotKept));
    // they count from 1
    same(&rt, &federation.read(1, 0).err(), &Some(NotKept));
    let ticket = fault(&mut federation, 0)?;
    let settled = finish(&mut federation, ticket)?;
    same(&rt, &federation.read(1, 3).map(|words| words.len()), &Ok(1));
    same(&rt, &federation.read(2, 1).err(), &Some(NoCluster));
    let resumed = resume(&mut federation, settled)?;
    assert!(rt; told(&resumed, &[1, 2], &[]));
    // undone
    same(&rt, &federation.read(1, 3).err(), &Some(NotKept));
    assert!(rt; reads(&federation, 1, 2, &[5]));
    Ok(())
}
