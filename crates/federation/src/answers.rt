// Rounds as values: how one begins, and what its nodes have answered.
ghost use Rattle.std.specs.Prelude.{◌≡◌, ◌<◌, ◌≤◌, length, Some, None, slice_index, slice_index_or, slice_set, unwrap_or, EachIndex};
ghost use Rattle.law.specs.Messages.{new_round as fresh_round};
ghost use Rattle.law.specs.Rounds.{requested as asked, missing as lacking};

use law::Round;

// A round with this initiator in which nobody has answered.
pub(crate) fn new_round(initiator: u8, waiting: Option<u32>) -> Round
    ensures { result ≡ fresh_round initiator waiting }
{
    Round {
        initiator,
        answers: [None; 32],
        waiting,
    }
}

// A lower rank takes an open round over, and every answer is cleared; the waiting message stays.
pub(crate) fn requested(rank: u8, round: Option<Round>) -> Round
    ensures { result ≡ asked rank round }
{
    match round {
        None => new_round(rank, None),
        Some(open) => {
            if rank < open.initiator {
                new_round(rank, open.waiting)
            } else {
                open
            }
        }
    }
}

// The round with one node's word noted.
pub(crate) fn with_word(round: Round, rank: usize, word: u64) -> Round
    requires { rank < 32 }
    ensures { result ≡ record { initiator = round.initiator; answers = slice_set round.answers rank (Some word); waiting = round.waiting } }
{
    let mut noted = round;
    noted.answers[rank] = Some(word);
    noted
}

// How many nodes have not answered.
pub(crate) fn missing(answers: &[Option<u64>]) -> u8
    requires { length answers.now ≤ 32 }
    ensures { result ≡ lacking answers.now }
{
    let left: usize = answers
        .iter()
        .map(|answer| usize::from(answer.is_none()))
        .sum();
    left as u8
}

// The words that the nodes have given.
pub(crate) fn words_of(answers: &[Option<u64>; 32]) -> [u64; 32]
    ensures { EachIndex result (λ i. slice_index result i ≡ unwrap_or (slice_index_or answers.now i None) 0) }
{
    std::array::from_fn(|i| answers[i].unwrap_or(0))
}
