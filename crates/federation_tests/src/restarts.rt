// Restarts: fault, alert, finish and resume.
use crate::rig::{
    answer_all, deliver, fault, fault_refusal, finish, open, reads, restart, resume, round, same,
    sent, stays, told,
};
use federation::{Faulted, Ticket, TicketNumbers};
use law::Arrived;
use law::Arrived::Forced;
use law::Noted::{Committed, Missing};
use refusal::Refusal;
use refusal::Refusal::{
    NoAlert, NoCluster, NoRestart, NoRound, NotInLog, RestartOpen, SameCluster, WrongTicket,
};
use std::test::Fail;

// A message forces a checkpoint, and its sender fails: the receiver goes back to before the delivery, and the message, undone, is gone.
#[test]
fn the_receiver_goes_back_with_its_sender(rt: HostRuntime) -> Result<(), Fail> {
    let mut federation = open(rt.alloc(), 2, 1)?;
    same(&rt, &federation.send(0, 1, 7), &sent(1, 1));
    same(&rt, &deliver(&mut federation, 1, 1, &[9]), &Ok(2));
    let resumed = restart(&mut federation, 0)?;
    assert!(rt; told(&resumed, &[1, 2], &[]));
    same(&rt, &federation.arrive(1, 0), &Err(NotInLog));
    assert!(rt; reads(&federation, 1, 2, &[9]));
    Ok(())
}

// A message that was delivered right after a forced checkpoint goes again after its receiver's fault: the delivery came after the
// checkpoint, though its receipt number is the checkpoint's.
#[test]
fn a_delivery_after_a_forced_checkpoint_goes_again(rt: HostRuntime) -> Result<(), Fail> {
    let mut federation = open(rt.alloc(), 2, 1)?;
    same(&rt, &federation.send(0, 1, 7), &sent(1, 1));
    same(&rt, &deliver(&mut federation, 1, 1, &[9]), &Ok(2));
    let resumed = restart(&mut federation, 1)?;
    assert!(rt; told(&resumed, &[0, 2], &[1]));
    // it is news again
    same(&rt, &federation.arrive(1, 0), &Ok(Forced(3)));
    same(
        &rt,
        &federation.answer(1, 0, 10),
        &Ok(Committed(3, Some(1))),
    );
    same(&rt, &federation.arrive(1, 0), &Err(Refusal::Delivered));
    Ok(())
}

// The later message arrives before the earlier one, and their sender fails after a checkpoint between the two: only the earlier one was
// sent before it, and goes again.
#[test]
fn of_two_out_of_order_only_the_older_goes_again(rt: HostRuntime) -> Result<(), Fail> {
    let mut federation = open(rt.alloc(), 2, 1)?;
    same(&rt, &federation.send(0, 1, 7), &sent(1, 1));
    same(
        &rt,
        &round(&mut federation, 0, &[5]),
        &Ok(Committed(2, None)),
    );
    same(&rt, &federation.send(0, 1, 8), &sent(2, 2));
    same(&rt, &deliver(&mut federation, 2, 1, &[9]), &Ok(2));
    same(&rt, &federation.arrive(1, 0), &Ok(Arrived::Delivered(2)));
    let resumed = restart(&mut federation, 0)?;
    assert!(rt; told(&resumed, &[2, 2], &[1]));
    same(&rt, &federation.arrive(2, 0), &Err(NotInLog));
    same(&rt, &deliver(&mut federation, 1, 1, &[10]), &Ok(3));
    Ok(())
}

// A delivery from before the checkpoint stands, and its message does not go again.
#[test]
fn a_delivery_before_the_checkpoint_stands(rt: HostRuntime) -> Result<(), Fail> {
    let mut federation = open(rt.alloc(), 2, 1)?;
    same(&rt, &federation.send(0, 1, 7), &sent(1, 1));
    same(&rt, &deliver(&mut federation, 1, 1, &[9]), &Ok(2));
    same(
        &rt,
        &round(&mut federation, 1, &[10]),
        &Ok(Committed(3, None)),
    );
    let resumed = restart(&mut federation, 1)?;
    assert!(rt; told(&resumed, &[0, 3], &[]));
    same(&rt, &federation.arrive(1, 0), &Err(Refusal::Delivered));
    Ok(())
}

// A fault drops every open round, also that of a cluster that stays; a message that waited for its checkpoint goes again.
#[test]
fn a_fault_drops_every_round(rt: HostRuntime) -> Result<(), Fail> {
    let mut federation = open(rt.alloc(), 2, 2)?;
    same(&rt, &federation.send(0, 1, 7), &sent(1, 1));
    same(&rt, &federation.arrive(1, 0), &Ok(Forced(2)));
    same(&rt, &federation.request(0, 1), &Ok(1));
    same(&rt, &federation.answer(0, 0, 5), &Ok(Missing(1)));
    let resumed = restart(&mut federation, 1)?;
    assert!(rt; told(&resumed, &[0, 1], &[1]));
    same(&rt, &federation.answer(0, 1, 6), &Err(NoRound));
    same(&rt, &federation.answer(1, 1, 6), &Err(NoRound));
    same(&rt, &federation.arrive(1, 1), &Ok(Forced(2)));
    same(
        &rt,
        &answer_all(&mut federation, 1, &[8, 9]),
        &Ok(Committed(2, Some(1))),
    );
    Ok(())
}

// No such cluster, a restart is open: in this order. A refused fault begins no restart, so it is not counted.
#[test]
fn refused_faults(rt: HostRuntime) -> Result<(), Fail> {
    let mut federation = open(rt.alloc(), 2, 1)?;
    same(&rt, &fault_refusal(&mut federation, 2), &Some(NoCluster));
    let Faulted { place, ticket } = federation.fault(0)?;
    same(&rt, &place, &1);
    same(&rt, &ticket.numbers(), &TicketNumbers { name: 0, count: 1 });
    // before the restart
    same(&rt, &fault_refusal(&mut federation, 2), &Some(NoCluster));
    same(&rt, &fault_refusal(&mut federation, 1), &Some(RestartOpen));
    same(&rt, &fault_refusal(&mut federation, 0), &Some(RestartOpen));
    let settled = finish(&mut federation, ticket)?;
    let resumed = resume(&mut federation, settled)?;
    assert!(rt; told(&resumed, &[1, 0], &[]));
    let ticket = fault(&mut federation, 1)?;
    same(&rt, &ticket.numbers(), &TicketNumbers { name: 0, count: 2 });
    ticket.give_up();
    Ok(())
}

// No such cluster, both the same, no restart is open: in this order.
#[test]
fn alerts_without_a_restart(rt: HostRuntime) -> Result<(), Fail> {
    let mut federation = open(rt.alloc(), 3, 1)?;
    let none = Ticket::of_no_restart();
    for (from, to, why) in [
        (3, 3, NoCluster),
        (3, 0, NoCluster),
        (0, 3, NoCluster),
        (1, 1, SameCluster),
        (0, 1, NoRestart),
    ] {
        same(&rt, &federation.alert(&none, from, to), &Err(why));
    }
    none.give_up();
    Ok(())
}

// In a restart: no such cluster, both the same, no such alert waits, not its ticket: in this order. A refused alert still waits.
#[test]
fn refused_alerts(rt: HostRuntime) -> Result<(), Fail> {
    let mut federation = open(rt.alloc(), 3, 1)?;
    let ticket = fault(&mut federation, 0)?;
    let none = Ticket::of_no_restart();
    for (from, to, why) in [
        (3, 3, NoCluster),
        (1, 1, SameCluster),
        (1, 0, NoAlert),
        (0, 1, WrongTicket),
    ] {
        same(&rt, &federation.alert(&none, from, to), &Err(why));
    }
    none.give_up();
    // only the failed cluster alerts
    same(&rt, &federation.alert(&ticket, 1, 2), &Err(NoAlert));
    same(&rt, &federation.alert(&ticket, 0, 1), &stays(0));
    // it was carried
    same(&rt, &federation.alert(&ticket, 0, 1), &Err(NoAlert));
    same(&rt, &federation.alert(&ticket, 0, 2), &stays(0));
    let settled = finish(&mut federation, ticket)?;
    let resumed = resume(&mut federation, settled)?;
    assert!(rt; told(&resumed, &[1, 0, 0], &[]));
    Ok(())
}
