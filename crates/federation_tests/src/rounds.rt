// Rounds: request and answer.
use crate::rig::{answer_all, fault, open, reads, round, same, sent};
use law::Arrived::Forced;
use law::Noted::{Committed, Missing};
use refusal::Refusal;
use refusal::Refusal::{Answered, NoCluster, NoRank, NoRound, NotKept, RestartOpen};
use std::test::Fail;

// The answers come in any order, and the last one commits the checkpoint with the word of every node.
#[test]
fn the_last_answer_commits(rt: HostRuntime) -> Result<(), Fail> {
    let mut federation = open(rt.alloc(), 2, 3)?;
    same(&rt, &federation.request(1, 2), &Ok(2));
    same(&rt, &federation.answer(1, 1, 20), &Ok(Missing(2)));
    same(&rt, &federation.answer(1, 0, 10), &Ok(Missing(1)));
    same(&rt, &federation.answer(1, 2, 30), &Ok(Committed(2, None)));
    assert!(rt; reads(&federation, 1, 2, &[10, 20, 30]));
    // the other cluster
    same(&rt, &federation.read(0, 2).err(), &Some(NotKept));
    Ok(())
}

// Two rounds side by side: each cluster has its own.
#[test]
fn clusters_have_rounds_of_their_own(rt: HostRuntime) -> Result<(), Fail> {
    let mut federation = open(rt.alloc(), 2, 2)?;
    same(&rt, &federation.request(0, 1), &Ok(1));
    same(&rt, &federation.request(1, 0), &Ok(0));
    same(&rt, &federation.answer(0, 0, 5), &Ok(Missing(1)));
    same(&rt, &federation.answer(1, 0, 7), &Ok(Missing(1)));
    same(&rt, &federation.answer(0, 1, 6), &Ok(Committed(2, None)));
    same(&rt, &federation.answer(0, 1, 6), &Err(NoRound));
    same(&rt, &federation.answer(1, 1, 8), &Ok(Committed(2, None)));
    assert!(rt; reads(&federation, 0, 2, &[5, 6]));
    assert!(rt; reads(&federation, 1, 2, &[7, 8]));
    Ok(())
}

// A round taken over by a lower rank: the earlier answers no longer count, and no word of them is kept. A request of the same or a
// higher rank is told who holds the round, and takes nothing.
#[test]
fn a_lower_rank_takes_a_round_over(rt: HostRuntime) -> Result<(), Fail> {
    let mut federation = open(rt.alloc(), 2, 3)?;
    same(&rt, &federation.request(0, 2), &Ok(2));
    same(&rt, &federation.answer(0, 0, 5), &Ok(Missing(2)));
    same(&rt, &federation.answer(0, 1, 6), &Ok(Missing(1)));
    // a lower rank
    same(&rt, &federation.request(0, 1), &Ok(1));
    // nobody had answered
    same(&rt, &federation.answer(0, 2, 12), &Ok(Missing(2)));
    // a higher rank
    same(&rt, &federation.request(0, 2), &Ok(1));
    // the same rank
    same(&rt, &federation.request(0, 1), &Ok(1));
    // the answer stands
    same(&rt, &federation.answer(0, 2, 7), &Err(Answered));
    same(&rt, &federation.answer(0, 0, 10), &Ok(Missing(1)));
    same(&rt, &federation.answer(0, 1, 11), &Ok(Committed(2, None)));
    assert!(rt; reads(&federation, 0, 2, &[10, 11, 12]));
    Ok(())
}

// The message that waits for a round's end still waits when the round is taken over.
#[test]
fn a_round_taken_over_keeps_its_message(rt: HostRuntime) -> Result<(), Fail> {
    let mut federation = open(rt.alloc(), 2, 3)?;
    same(&rt, &federation.send(1, 0, 7), &sent(1, 1));
    // node 2 begins the round
    same(&rt, &federation.arrive(1, 2), &Ok(Forced(2)));
    same(&rt, &federation.answer(0, 1, 5), &Ok(Missing(2)));
    same(&rt, &federation.request(0, 0), &Ok(0));
    same(
        &rt,
        &answer_all(&mut federation, 0, &[10, 11, 12]),
        &Ok(Committed(2, Some(1))),
    );
    assert!(rt; reads(&federation, 0, 2, &[10, 11, 12]));
    same(&rt, &federation.arrive(1, 0), &Err(Refusal::Delivered));
    Ok(())
}

// No such cluster, no such rank, a restart is open: in this order. A refused request opens no round.
#[test]
fn refused_requests(rt: HostRuntime) -> Result<(), Fail> {
    let mut federation = open(rt.alloc(), 2, 3)?;
    for (cluster, rank, why) in [(2, 3, NoCluster), (2, 0, NoCluster), (1, 3, NoRank)] {
        same(&rt, &federation.request(cluster, rank), &Err(why));
    }
    same(&rt, &federation.answer(1, 0, 5), &Err(NoRound));
    let ticket = fault(&mut federation, 0)?;
    for (cluster, rank, why) in [(2, 3, NoCluster), (1, 3, NoRank), (1, 2, RestartOpen)] {
        same(&rt, &federation.request(cluster, rank), &Err(why));
    }
    ticket.give_up();
    Ok(())
}

// A request with a rank that is none takes no round over.
#[test]
fn a_refused_request_takes_nothing_over(rt: HostRuntime) -> Result<(), Fail> {
    let mut federation = open(rt.alloc(), 2, 2)?;
    same(&rt, &federation.request(0, 1), &Ok(1));
    same(&rt, &federation.answer(0, 0, 5), &Ok(Missing(1)));
    same(&rt, &federation.request(0, 2), &Err(NoRank));
    same(&rt, &federation.request(2, 0), &Err(NoCluster));
    same(&rt, &federation.request(0, 1), &Ok(1));
    same(&rt, &federation.answer(0, 1, 6), &Ok(Committed(2, None)));
    Ok(())
}

// No such cluster, no such rank, a restart is open, no round is open: in this order.
#[test]
fn refused_answers(rt: HostRuntime) -> Result<(), Fail> {
    let mut federation = open(rt.alloc(), 2, 2)?;
    same(&rt, &federation.request(0, 0), &Ok(0));
    // cluster 1 has no round
    for (cluster, rank, why) in [(2, 2, NoCluster), (1, 2, NoRank), (1, 1, NoRound)] {
        same(&rt, &federation.answer(cluster, rank, 5), &Err(why));
    }
    let ticket = fault(&mut federation, 1)?;
    // the round of cluster 0 is dropped, too
    for (cluster, rank, why) in [(2, 2, NoCluster), (0, 2, NoRank), (0, 0, RestartOpen)] {
        same(&rt, &federation.answer(cluster, rank, 5), &Err(why));
    }
    ticket.give_up();
    Ok(())
}

// A node answers once in a round: a second word is refused and not noted.
#[test]
fn a_second_answer_is_refused(rt: HostRuntime) -> Result<(), Fail> {
    let mut federation = open(rt.alloc(), 2, 2)?;
    same(&rt, &federation.request(0, 0), &Ok(0));
    same(&rt, &federation.answer(0, 1, 6), &Ok(Missing(1)));
    same(&rt, &federation.answer(0, 1, 7), &Err(Answered));
    same(&rt, &federation.answer(0, 0, 5), &Ok(Committed(2, None)));
    assert!(rt; reads(&federation, 0, 2, &[5, 6]));
    // again in the next round
    same(
        &rt,
        &round(&mut federation, 0, &[8, 9]),
        &Ok(Committed(3, None)),
    );
    Ok(())
}
