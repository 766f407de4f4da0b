// Tickets: those of another restart, of no restart, of the wrong stage, and given up. A ticket is used up once, so what could be left of
// an earlier restart is the ticket of a twin: another federation of the same name.
use crate::rig::{
    fault, fault_refusal, finish, reads, refused_finish, refused_resume, restart, resume, round,
    same, stays, told,
};
use federation::{Federation, NotOpened, Ticket, TicketNumbers};
use refusal::Refusal::{NoAlert, NoRestart, RestartOpen, WrongTicket};
use rule::OnNews;
use slots::Slots;
use std::alloc::Global;
use std::test::Fail;

// Two clusters of one node, under this name.
fn named(heap: Global, name: u32) -> Result<Federation<Slots, OnNews>, Fail> {
    let opened = Federation::open(name, 2, 1, OnNews, Slots::new(heap)?, heap);
    opened.map_err(|back| {
        let NotOpened {
            why: _,
            store: _,
            rule: _,
        } = back;
        Fail::new("not opened")
    })
}

// The name of the federation, and the count of its restarts; finish hands the same on.
#[test]
fn a_ticket_has_name_and_count(rt: HostRuntime) -> Result<(), Fail> {
    let mut federation = named(rt.alloc(), 7)?;
    restart(&mut federation, 1)?;
    let ticket = fault(&mut federation, 0)?;
    same(&rt, &ticket.numbers(), &TicketNumbers { name: 7, count: 2 });
    let settled = finish(&mut federation, ticket)?;
    same(
        &rt,
        &settled.numbers(),
        &TicketNumbers { name: 7, count: 2 },
    );
    let resumed = resume(&mut federation, settled)?;
    assert!(rt; told(&resumed, &[1, 0], &[]));
    Ok(())
}

// The ticket of an earlier restart carries no alert, and finishes and resumes nothing: the open restart goes on with its own.
#[test]
fn a_ticket_of_an_earlier_restart(rt: HostRuntime) -> Result<(), Fail> {
    let mut federation = named(rt.alloc(), 7)?;
    let mut twin = named(rt.alloc(), 7)?;
    restart(&mut federation, 0)?;
    let earlier = fault(&mut twin, 0)?;
    let newest = fault(&mut federation, 0).expect(&rt, "fault");
    same(
        &rt,
        &earlier.numbers(),
        &TicketNumbers { name: 7, count: 1 },
    );
    same(&rt, &newest.numbers(), &TicketNumbers { name: 7, count: 2 });
    same(&rt, &federation.alert(&earlier, 0, 1), &Err(WrongTicket));
    let earlier = refused_finish(&rt, &mut federation, earlier, WrongTicket);
    same(
        &rt,
        &earlier.numbers(),
        &TicketNumbers { name: 7, count: 1 },
    );
    // it still waited
    same(&rt, &federation.alert(&newest, 0, 1), &stays(0));
    let newest = finish(&mut federation, newest).expect(&rt, "finish");
    let earlier = finish(&mut twin, earlier).expect(&rt, "finish");
    let earlier = refused_resume(&rt, &mut federation, earlier, WrongTicket);
    let resumed = resume(&mut federation, newest).expect(&rt, "resume");
    same(&rt, &resumed.places.as_slice(), &[1, 0].as_slice());
    let resumed = resume(&mut twin, earlier)?;
    assert!(rt; told(&resumed, &[1, 0], &[]));
    Ok(())
}

// The ticket of a restart that is over, when no restart is open.
#[test]
fn a_ticket_after_its_restart(rt: HostRuntime) -> Result<(), Fail> {
    let mut federation = named(rt.alloc(), 7)?;
    let mut twin = named(rt.alloc(), 7)?;
    restart(&mut federation, 0)?;
    let ticket = fault(&mut twin, 0)?;
    same(&rt, &federation.alert(&ticket, 0, 1), &Err(NoRestart));
    let ticket = refused_finish(&rt, &mut federation, ticket, NoRestart);
    let settled = finish(&mut twin, ticket)?;
    let settled = refused_resume(&rt, &mut federation, settled, NoRestart);
    let resumed = resume(&mut twin, settled)?;
    assert!(rt; told(&resumed, &[1, 0], &[]));
    Ok(())
}

// The ticket of a federation of another name, though the counts are equal.
#[test]
fn a_ticket_of_another_federation(rt: HostRuntime) -> Result<(), Fail> {
    let mut federation = named(rt.alloc(), 7)?;
    let mut other = named(rt.alloc(), 8)?;
    let own = fault(&mut federation, 0)?;
    let foreign = fault(&mut other, 0).expect(&rt, "fault");
    same(
        &rt,
        &foreign.numbers(),
        &TicketNumbers { name: 8, count: 1 },
    );
    same(&rt, &federation.alert(&foreign, 0, 1), &Err(WrongTicket));
    let foreign = refused_finish(&rt, &mut federation, foreign, WrongTicket);
    let own = finish(&mut federation, own).expect(&rt, "finish");
    let foreign = finish(&mut other, foreign).expect(&rt, "finish");
    refused_resume(&rt, &mut federation, foreign, WrongTicket).give_up();
    let resumed = resume(&mut federation, own)?;
    assert!(rt; told(&resumed, &[1, 0], &[]));
    Ok(())
}

// Tickets are told apart by name and count only: that of a twin's first restart serves in the federation's first.
#[test]
fn a_ticket_of_a_twin_serves(rt: HostRuntime) -> Result<(), Fail> {
    let mut federation = named(rt.alloc(), 7)?;
    let mut twin = named(rt.alloc(), 7)?;
    fault(&mut federation, 0)?.give_up();
    let ticket = fault(&mut twin, 1)?;
    same(&rt, &federation.alert(&ticket, 0, 1), &stays(0));
    let settled = finish(&mut federation, ticket)?;
    let resumed = resume(&mut federation, settled)?;
    assert!(rt; told(&resumed, &[1, 0], &[]));
    Ok(())
}

// A settled ticket does not resume while alerts travel, and a travelling one carries and finishes nothing once the restart is settled.
#[test]
fn a_ticket_of_another_stage(rt: HostRuntime) -> Result<(), Fail> {
    let mut federation = named(rt.alloc(), 7)?;
    let mut twin = named(rt.alloc(), 7)?;
    let mut third = named(rt.alloc(), 7)?;
    let own = fault(&mut federation, 0)?;
    let travelling = fault(&mut twin, 0).expect(&rt, "fault");
    let settled = finish(&mut twin, travelling).expect(&rt, "finish");
    let settled = refused_resume(&rt, &mut federation, settled, WrongTicket);
    // the restart goes on
    same(&rt, &federation.alert(&own, 0, 1), &stays(0));
    let own = finish(&mut federation, own).expect(&rt, "finish");
    resume(&mut twin, settled).expect(&rt, "resume");
    let travelling = fault(&mut third, 0).expect(&rt, "fault");
    // before the ticket
    same(&rt, &federation.alert(&travelling, 0, 1), &Err(NoAlert));
    refused_finish(&rt, &mut federation, travelling, WrongTicket).give_up();
    let resumed = resume(&mut federation, own)?;
    assert!(rt; told(&resumed, &[1, 0], &[]));
    Ok(())
}

// A ticket of no restart has the name and the count 0. Where no restart is open this is what is refused, else the ticket is.
#[test]
fn a_ticket_of_no_restart(rt: HostRuntime) -> Result<(), Fail> {
    let mut federation = named(rt.alloc(), 0)?;
    let travelling = Ticket::of_no_restart();
    same(
        &rt,
        &travelling.numbers(),
        &TicketNumbers { name: 0, count: 0 },
    );
    same(&rt, &federation.alert(&travelling, 0, 1), &Err(NoRestart));
    let travelling = refused_finish(&rt, &mut federation, travelling, NoRestart);
    let settled = Ticket::of_no_restart();
    let settled = refused_resume(&rt, &mut federation, settled, NoRestart);
    let own = fault(&mut federation, 0).expect(&rt, "fault");
    same(&rt, &federation.alert(&travelling, 0, 1), &Err(WrongTicket));
    refused_finish(&rt, &mut federation, travelling, WrongTicket).give_up();
    let settled = refused_resume(&rt, &mut federation, settled, WrongTicket);
    let own = finish(&mut federation, own).expect(&rt, "finish");
    refused_resume(&rt, &mut federation, settled, WrongTicket).give_up();
    let resumed = resume(&mut federation, own)?;
    assert!(rt; told(&resumed, &[1, 0], &[]));
    Ok(())
}

// A ticket that is given up ends nothing: its restart stays open, and only what needs no ticket is answered.
#[test]
fn a_ticket_given_up(rt: HostRuntime) -> Result<(), Fail> {
    let mut federation = named(rt.alloc(), 7)?;
    let ticket = fault(&mut federation, 0)?;
    finish(&mut federation, ticket)?.give_up();
    same(&rt, &fault_refusal(&mut federation, 1), &Some(RestartOpen));
    same(&rt, &round(&mut federation, 1, &[5]), &Err(RestartOpen));
    same(&rt, &federation.collect().err(), &Some(RestartOpen));
    let none = Ticket::of_no_restart();
    refused_resume(&rt, &mut federation, none, WrongTicket).give_up();
    assert!(rt; reads(&federation, 1, 1, &[0]));
    Ok(())
}
