// The examples of the page on the calls, in its order.
use crate::rig::{finish, open, open_over, resume, same, told};
use federation::Faulted;
use law::{Arrived, Carried, Noted, Sent};
use pair::Pair;
use refusal::{Refusal, StoreRefusal};
use rule::OnNews;
use slots::Slots;
use std::test::Fail;

#[test]
fn checkpoints_and_messages(rt: HostRuntime) -> Result<(), Fail> {
    let mut federation = open(rt.alloc(), 2, 1)?;
    same(&rt, &federation.read(0, 1).map(|words| words.len()), &Ok(1));
    same(&rt, &federation.request(0, 0), &Ok(0));
    same(&rt, &federation.request(2, 0), &Err(Refusal::NoCluster));
    same(
        &rt,
        &federation.answer(0, 0, 0xa0),
        &Ok(Noted::Committed(2, None)),
    );
    same(&rt, &federation.answer(0, 0, 0xa0), &Err(Refusal::NoRound));
    same(
        &rt,
        &federation.read(0, 2)?.as_slice(),
        &[0xa0u64].as_slice(),
    );
    assert!(rt; federation.read(0, 3).is_err());
    same(
        &rt,
        &federation.send(0, 1, 0x77),
        &Ok(Sent { id: 1, number: 2 }),
    );
    same(&rt, &federation.send(1, 1, 0), &Err(Refusal::SameCluster));
    same(&rt, &federation.arrive(1, 0), &Ok(Arrived::Forced(2)));
    same(
        &rt,
        &federation.answer(1, 0, 0xb0),
        &Ok(Noted::Committed(2, Some(1))),
    );
    same(&rt, &federation.arrive(1, 0), &Err(Refusal::Delivered));
    same(&rt, &federation.trial(0)?.as_slice(), &[2u32, 2].as_slice());
    let collected = federation.collect()?;
    same(&rt, &collected.bounds.as_slice(), &[2u32, 2].as_slice());
    same(&rt, &(collected.checkpoints, collected.messages), &(2, 0));
    Ok(())
}

#[test]
fn a_restart(rt: HostRuntime) -> Result<(), Fail> {
    let mut federation = open(rt.alloc(), 2, 1)?;
    same(&rt, &federation.request(0, 0), &Ok(0));
    same(
        &rt,
        &federation.answer(0, 0, 0xa0),
        &Ok(Noted::Committed(2, None)),
    );
    same(
        &rt,
        &federation.send(0, 1, 0x77),
        &Ok(Sent { id: 1, number: 2 }),
    );
    same(&rt, &federation.arrive(1, 0), &Ok(Arrived::Forced(2)));
    same(
        &rt,
        &federation.answer(1, 0, 0xb0),
        &Ok(Noted::Committed(2, Some(1))),
    );
    let Faulted { place, ticket } = federation.fault(0)?;
    same(&rt, &place, &2);
    same(&rt, &federation.send(0, 1, 0), &Err(Refusal::RestartOpen));
    let carried = Carried {
        moved: true,
        place: 2,
    };
    same(&rt, &federation.alert(&ticket, 0, 1), &Ok(carried));
    same(
        &rt,
        &federation.alert(&ticket, 0, 1),
        &Err(Refusal::NoAlert),
    );
    let settled = finish(&mut federation, ticket)?;
    same(&rt, &federation.request(0, 0), &Err(Refusal::RestartOpen));
    let resumed = resume(&mut federation, settled)?;
    assert!(rt; told(&resumed, &[2, 2], &[]));
    Ok(())
}

#[test]
fn sides(rt: HostRuntime) -> Result<(), Fail> {
    let heap = rt.alloc();
    let store = Pair::new(Slots::new(heap)?, Slots::new(heap)?);
    let mut federation = open_over(heap, 2, 1, OnNews, store)?;
    let out = Refusal::Store(StoreRefusal::SideOut);
    same(&rt, &federation.lose(1), &Ok(()));
    same(&rt, &federation.lose(2), &Err(out));
    same(&rt, &federation.rebuild(1), &Ok(()));
    Ok(())
}
