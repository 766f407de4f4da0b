// The same calls over every store: slots, a journal, a pair, and stores that are taken for ones with sides.
use crate::rig::{
    answer_all, deliver, dropped, fault, open_over, reads, restart, round, same, sent, told,
};
use federation::Federation;
use journal::{Journal, SIZE};
use law::Arrived::Forced;
use law::Noted::{Committed, Missing};
use pair::Pair;
use refusal::Refusal::{Answered, NotKept, RoundOpen};
use refusal::{Refusal, StoreRefusal};
use rule::OnNews;
use sideless::Sideless;
use slots::Slots;
use std::process::Abort;
use std::test::Fail;
use store::{SidedStore, Store};

// Rounds, messages, a restart and a collect over any store, with what each call answers.
fn answers<S: Store>(rt: &impl Abort, federation: &mut Federation<S, OnNews>) -> Result<(), Fail> {
    same(
        rt,
        &round(federation, 0, &[10, 11]),
        &Ok(Committed(2, None)),
    );
    same(rt, &federation.send(0, 1, 7), &sent(1, 2));
    same(rt, &federation.arrive(1, 1), &Ok(Forced(2)));
    same(
        rt,
        &answer_all(federation, 1, &[20, 21]),
        &Ok(Committed(2, Some(1))),
    );
    same(
        rt,
        &round(federation, 1, &[22, 23]),
        &Ok(Committed(3, None)),
    );
    same(rt, &federation.send(1, 2, 8), &sent(2, 3));
    same(rt, &deliver(federation, 2, 2, &[30, 31]), &Ok(2));
    same(rt, &federation.trial(0)?.as_slice(), &[2, 2, 2].as_slice());
    let resumed = restart(federation, 1)?;
    assert!(rt; told(&resumed, &[0, 3, 2], &[]));
    same(
        rt,
        &round(federation, 2, &[32, 33]),
        &Ok(Committed(3, None)),
    );
    let collected = federation.collect()?;
    assert!(rt; dropped(&collected, &[2, 2, 3], 4, 0));
    Ok(())
}

// What is kept after these calls, and no more.
fn words<S: Store>(rt: &impl Abort, federation: &Federation<S, OnNews>) {
    for (cluster, number, words) in [
        (0, 2, [10, 11]),
        (1, 2, [20, 21]),
        (1, 3, [22, 23]),
        (2, 3, [32, 33]),
    ] {
        assert!(rt;
            reads(federation, cluster, number, &words),
            "cluster {cluster}"
        );
    }
    for (cluster, number) in [(0, 1), (0, 3), (1, 1), (1, 4), (2, 1), (2, 2), (2, 4)] {
        assert_eq!(rt;
            federation.read(cluster, number).err(),
            Some(NotKept),
            "cluster {cluster}"
        );
    }
}

// Over slots and over a journal every call answers the same.
#[test]
fn slots_and_a_journal_answer_the_same(rt: HostRuntime) -> Result<(), Fail> {
    let mut over_slots = open_over(rt.alloc(), 3, 2, OnNews, Slots::new(rt.alloc())?)?;
    answers(&rt, &mut over_slots)?;
    words(&rt, &over_slots);
    let mut bytes = vec![in rt.alloc(); 0u8; SIZE]?;
    let journal = Journal::new(rt.alloc(), bytes.as_mut_slice())?;
    let mut over_journal = open_over(rt.alloc(), 3, 2, OnNews, journal)?;
    answers(&rt, &mut over_journal)?;
    words(&rt, &over_journal);
    Ok(())
}

// A pair answers the same, and a pair that loses a side between the calls and goes on without it.
#[test]
fn pairs_answer_the_same(rt: HostRuntime) -> Result<(), Fail> {
    for lost in 0..3 {
        let mut bytes = vec![in rt.alloc(); 0u8; SIZE]?;
        let journal = Journal::new(rt.alloc(), bytes.as_mut_slice())?;
        let pair = Pair::new(Slots::new(rt.alloc())?, journal);
        let mut federation = open_over(rt.alloc(), 3, 2, OnNews, pair)?;
        if lost > 0 {
            same(&rt, &federation.lose(lost), &Ok(()));
        }
        answers(&rt, &mut federation)?;
        words(&rt, &federation);
    }
    Ok(())
}

// A pair loses a side, goes on, and rebuilds it; then it loses the other side and reads the same words from the one rebuilt.
fn lose_and_rebuild<S: SidedStore>(
    rt: &impl Abort,
    federation: &mut Federation<S, OnNews>,
    lost: u8,
    other: u8,
) -> Result<(), Fail> {
    same(rt, &federation.lose(lost), &Ok(()));
    answers(rt, federation)?;
    words(rt, federation);
    same(rt, &federation.rebuild(lost), &Ok(()));
    words(rt, federation);
    same(rt, &federation.lose(other), &Ok(()));
    words(rt, federation);
    Ok(())
}

// Each side of a pair of slots and a journal is lost and rebuilt in turn.
#[test]
fn a_rebuilt_side_has_the_same_words(rt: HostRuntime) -> Result<(), Fail> {
    for (lost, other) in [(1, 2), (2, 1)] {
        let mut bytes = vec![in rt.alloc(); 0u8; SIZE]?;
        let journal = Journal::new(rt.alloc(), bytes.as_mut_slice())?;
        let pair = Pair::new(Slots::new(rt.alloc())?, journal);
        let mut federation = open_over(rt.alloc(), 3, 2, OnNews, pair)?;
        lose_and_rebuild(&rt, &mut federation, lost, other)?;
    }
    Ok(())
}

const NO_SIDE: Result<(), Refusal> = Err(Refusal::Store(StoreRefusal::NoSide));

const SIDE_OUT: Result<(), Refusal> = Err(Refusal::Store(StoreRefusal::SideOut));

// No such side comes before a side that is out; of two sides only one is out at a time, and only that one is rebuilt. All of it goes on
// while a restart is open.
#[test]
fn refused_sides(rt: HostRuntime) -> Result<(), Fail> {
    let pair = Pair::new(Slots::new(rt.alloc())?, Slots::new(rt.alloc())?);
    let mut federation = open_over(rt.alloc(), 2, 1, OnNews, pair)?;
    // sides count from 1
    same(&rt, &federation.lose(0), &NO_SIDE);
    same(&rt, &federation.lose(3), &NO_SIDE);
    // before not out
    same(&rt, &federation.rebuild(3), &NO_SIDE);
    // it is not out
    same(&rt, &federation.rebuild(1), &SIDE_OUT);
    let ticket = fault(&mut federation, 0)?;
    same(&rt, &federation.lose(1), &Ok(()));
    // before a side is out
    same(&rt, &federation.lose(3), &NO_SIDE);
    same(&rt, &federation.lose(1), &SIDE_OUT);
    same(&rt, &federation.lose(2), &SIDE_OUT);
    same(&rt, &federation.rebuild(2), &SIDE_OUT);
    same(&rt, &federation.rebuild(0), &NO_SIDE);
    same(&rt, &federation.rebuild(1), &Ok(()));
    same(&rt, &federation.rebuild(1), &SIDE_OUT);
    // now the other can go
    same(&rt, &federation.lose(2), &Ok(()));
    ticket.give_up();
    Ok(())
}

// A store without sides has none to lose or to rebuild, and otherwise answers the same.
#[test]
fn a_store_without_sides(rt: HostRuntime) -> Result<(), Fail> {
    let store = Sideless {
        store: Slots::new(rt.alloc())?,
    };
    let mut federation = open_over(rt.alloc(), 3, 2, OnNews, store)?;
    for side in 0..=3 {
        same(&rt, &federation.lose(side), &NO_SIDE);
        same(&rt, &federation.rebuild(side), &NO_SIDE);
    }
    answers(&rt, &mut federation)?;
    words(&rt, &federation);
    Ok(())
}

// Eight checkpoints of eight clusters of two nodes fill a store of 64 rows. The last answer of one more round is refused as the store
// refuses; that node has not answered then, the others have, and after a collect it answers again and the checkpoint commits.
fn full_store<S: Store>(
    rt: &impl Abort,
    federation: &mut Federation<S, OnNews>,
    full: StoreRefusal,
) -> Result<(), Fail> {
    for cluster in 0..8 {
        for number in 2..=8 {
            same(
                rt,
                &round(federation, cluster, &[7, 8]),
                &Ok(Committed(number, None)),
            );
        }
    }
    same(rt, &federation.request(3, 0), &Ok(0));
    same(rt, &federation.answer(3, 1, 6), &Ok(Missing(1)));
    same(rt, &federation.answer(3, 1, 6), &Err(Answered));
    same(rt, &federation.answer(3, 0, 5), &Err(Refusal::Store(full)));
    // not answered
    same(rt, &federation.answer(3, 0, 5), &Err(Refusal::Store(full)));
    same(rt, &federation.read(3, 9).err(), &Some(NotKept));
    // the round is open
    same(rt, &federation.request(3, 1), &Ok(0));
    same(rt, &federation.collect()?.checkpoints, &56);
    same(rt, &federation.answer(3, 0, 4), &Ok(Committed(9, None)));
    assert!(rt; reads(federation, 3, 9, &[4, 6]));
    Ok(())
}

// Slots are full without a side.
#[test]
fn an_answer_refused_by_full_slots_comes_again(rt: HostRuntime) -> Result<(), Fail> {
    let mut federation = open_over(rt.alloc(), 8, 2, OnNews, Slots::new(rt.alloc())?)?;
    full_store(&rt, &mut federation, StoreRefusal::Full(0))
}

// So is a journal.
#[test]
fn an_answer_refused_by_a_full_journal_comes_again(rt: HostRuntime) -> Result<(), Fail> {
    let mut bytes = vec![in rt.alloc(); 0u8; SIZE]?;
    let journal = Journal::new(rt.alloc(), bytes.as_mut_slice())?;
    let mut federation = open_over(rt.alloc(), 8, 2, OnNews, journal)?;
    full_store(&rt, &mut federation, StoreRefusal::Full(0))
}

// A full pair names the first side whose capacity is reached.
#[test]
fn an_answer_refused_by_a_full_pair_comes_again(rt: HostRuntime) -> Result<(), Fail> {
    let pair = Pair::new(Slots::new(rt.alloc())?, Slots::new(rt.alloc())?);
    let mut federation = open_over(rt.alloc(), 8, 2, OnNews, pair)?;
    full_store(&rt, &mut federation, StoreRefusal::Full(1))
}

// A message that waits for a checkpoint that a full store refuses is delivered when the answer comes again.
#[test]
fn a_full_store_holds_a_message_up(rt: HostRuntime) -> Result<(), Fail> {
    let mut federation = open_over(rt.alloc(), 8, 1, OnNews, Slots::new(rt.alloc())?)?;
    for cluster in 0..8 {
        for number in 2..=8 {
            same(
                &rt,
                &round(&mut federation, cluster, &[7]),
                &Ok(Committed(number, None)),
            );
        }
    }
    same(&rt, &federation.send(0, 1, 9), &sent(1, 8));
    same(&rt, &federation.arrive(1, 0), &Ok(Forced(9)));
    same(
        &rt,
        &federation.answer(1, 0, 6),
        &Err(Refusal::Store(StoreRefusal::Full(0))),
    );
    // it is not delivered
    same(&rt, &federation.arrive(1, 0), &Err(RoundOpen));
    same(&rt, &federation.collect()?.messages, &0);
    same(&rt, &federation.answer(1, 0, 6), &Ok(Committed(9, Some(1))));
    same(&rt, &federation.arrive(1, 0), &Err(Refusal::Delivered));
    Ok(())
}
