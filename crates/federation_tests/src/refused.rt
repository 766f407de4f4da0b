// Refused calls change nothing: they are made between the calls of a run, and its answers are as if they had not been made.
use crate::rig::{
    deliver, dropped, fault_refusal, finish, open, reads, refused_finish, refused_resume, resume,
    same, sent, stays, told,
};
use federation::{Faulted, Federation, Ticket, TicketNumbers};
use law::Arrived::Forced;
use law::Noted::{Committed, Missing};
use refusal::Refusal;
use refusal::Refusal::{
    NoCluster, NoRank, NoRestart, NotInLog, NotKept, RestartOpen, SameCluster, WrongTicket,
};
use rule::OnNews;
use slots::Slots;
use std::process::Abort;
use std::test::Fail;

// Calls on clusters, ranks and numbers that are none, in a federation of two clusters of two nodes.
fn none_such(rt: &impl Abort, federation: &mut Federation<Slots, OnNews>) {
    for (cluster, rank, why) in [(2, 0, NoCluster), (0, 2, NoRank), (1, 2, NoRank)] {
        same(rt, &federation.request(cluster, rank), &Err(why));
        same(rt, &federation.answer(cluster, rank, 99), &Err(why));
    }
    same(rt, &federation.send(0, 2, 99), &Err(NoCluster));
    same(rt, &federation.send(1, 1, 99), &Err(SameCluster));
    same(rt, &federation.arrive(1, 2), &Err(NoRank));
    same(rt, &federation.trial(2).err(), &Some(NoCluster));
    same(rt, &federation.read(2, 1).err(), &Some(NoCluster));
    same(rt, &federation.read(0, 9).err(), &Some(NotKept));
    same(rt, &fault_refusal(federation, 2), &Some(NoCluster));
}

// Calls on a ticket that is none of this federation, refused for this reason.
fn no_ticket(rt: &impl Abort, federation: &mut Federation<Slots, OnNews>, why: Refusal) {
    let ticket = Ticket::of_no_restart();
    same(rt, &federation.alert(&ticket, 0, 2), &Err(NoCluster));
    same(rt, &federation.alert(&ticket, 1, 1), &Err(SameCluster));
    refused_finish(rt, federation, ticket, why).give_up();
    refused_resume(rt, federation, Ticket::of_no_restart(), why).give_up();
}

// What is refused in every state without a restart.
fn while_no_restart_is_open(rt: &impl Abort, federation: &mut Federation<Slots, OnNews>) {
    none_such(rt, federation);
    no_ticket(rt, federation, NoRestart);
    same(rt, &federation.arrive(9, 0), &Err(NotInLog));
}

// What is refused in every restart, settled or not.
fn while_a_restart_is_open(rt: &impl Abort, federation: &mut Federation<Slots, OnNews>) {
    none_such(rt, federation);
    no_ticket(rt, federation, WrongTicket);
    for cluster in 0..2 {
        same(rt, &federation.request(cluster, 0), &Err(RestartOpen));
        same(rt, &federation.answer(cluster, 0, 99), &Err(RestartOpen));
        same(rt, &federation.trial(cluster).err(), &Some(RestartOpen));
        same(rt, &fault_refusal(federation, cluster), &Some(RestartOpen));
    }
    same(rt, &federation.send(0, 1, 99), &Err(RestartOpen));
    same(rt, &federation.arrive(1, 0), &Err(RestartOpen));
    same(rt, &federation.collect().err(), &Some(RestartOpen));
}

// Between the steps of a round that a message forces.
#[test]
fn refused_calls_leave_a_round(rt: HostRuntime) -> Result<(), Fail> {
    let mut federation = open(rt.alloc(), 2, 2)?;
    while_no_restart_is_open(&rt, &mut federation);
    same(&rt, &federation.send(0, 1, 7), &sent(1, 1));
    while_no_restart_is_open(&rt, &mut federation);
    same(&rt, &federation.arrive(1, 1), &Ok(Forced(2)));
    while_no_restart_is_open(&rt, &mut federation);
    same(&rt, &federation.answer(1, 1, 6), &Ok(Missing(1)));
    while_no_restart_is_open(&rt, &mut federation);
    // nobody took it over
    same(&rt, &federation.request(1, 1), &Ok(1));
    same(&rt, &federation.answer(1, 0, 5), &Ok(Committed(2, Some(1))));
    while_no_restart_is_open(&rt, &mut federation);
    assert!(rt; reads(&federation, 1, 2, &[5, 6]));
    same(&rt, &federation.trial(0)?.as_slice(), &[1, 2].as_slice());
    same(&rt, &federation.send(0, 1, 8), &sent(2, 1));
    let collected = federation.collect()?;
    assert!(rt; dropped(&collected, &[1, 2], 1, 0));
    Ok(())
}

// Between the steps of a restart: while its alerts travel, once it is settled, and after it.
#[test]
fn refused_calls_leave_a_restart(rt: HostRuntime) -> Result<(), Fail> {
    let mut federation = open(rt.alloc(), 2, 2)?;
    same(&rt, &federation.send(0, 1, 7), &sent(1, 1));
    same(&rt, &deliver(&mut federation, 1, 1, &[5, 6]), &Ok(2));
    let Faulted { place, ticket } = federation.fault(1)?;
    same(&rt, &place, &2);
    same(&rt, &ticket.numbers(), &TicketNumbers { name: 0, count: 1 });
    while_a_restart_is_open(&rt, &mut federation);
    same(&rt, &federation.alert(&ticket, 1, 0), &stays(0));
    while_a_restart_is_open(&rt, &mut federation);
    let settled = finish(&mut federation, ticket)?;
    while_a_restart_is_open(&rt, &mut federation);
    let resumed = resume(&mut federation, settled)?;
    assert!(rt; told(&resumed, &[0, 2], &[1]));
    while_no_restart_is_open(&rt, &mut federation);
    same(&rt, &federation.arrive(1, 0), &Ok(Forced(3)));
    same(&rt, &federation.send(0, 1, 8), &sent(2, 1));
    assert!(rt; reads(&federation, 1, 2, &[5, 6]));
    Ok(())
}
