// The protocol of the restart unit, defined once. Nothing runs here: the plain records of the book are declared, with the
// keys by which they are found; specs/ says what every call does to them and what the whole promises, and proofs/ shows it.
#![tactic(auto)]

ghost use Rattle.law.specs.WorkedRuns.{WorkedRuns};
ghost use Rattle.law.specs.Law.{LawOfLostWork};
ghost use Rattle.law.specs.Slips.{Slips};

use ordered::Keyed;

// Records of fixed size: a row, places and alerts are eight, whatever the number of clusters, and answers thirty-two. That the law's own
// records are these is why places and alerts stand side by side, and why a restart says by itself that it is settled.

// A message as it was sent.
#[derive(Clone, Copy, PartialEq, Eq, Debug)]
pub struct Message {
    pub id: u32,
    pub from: u8,
    pub to: u8,
    pub word: u64,
    // the sender's number at sending
    pub number: u32,
}

// A message in the log, with its receipt number once it is delivered.
#[derive(Clone, Copy, PartialEq, Eq, Debug)]
pub struct Logged {
    pub message: Message,
    pub receipt: Option<u32>,
}

// A kept checkpoint, with the row from before the message that forced it.
#[derive(Clone, Copy, PartialEq, Eq, Debug)]
pub struct Checkpoint {
    pub number: u32,
    pub row: [u32; 8],
}

// An open round: who holds it, what each node has answered, and the message that waits for its end.
#[derive(Clone, Copy, PartialEq, Eq, Debug)]
pub struct Round {
    pub initiator: u8,
    pub answers: [Option<u64>; 32],
    pub waiting: Option<u32>,
}

// The clusters to which an alert of one cluster still travels.
#[derive(Clone, Copy, PartialEq, Eq, Debug)]
pub struct Alerts {
    pub to: [bool; 8],
}

// An open restart: the place of each cluster and the alerts that wait. Settled once none waits and finish was called.
#[derive(Clone, Copy, PartialEq, Eq, Debug)]
pub struct Restart {
    pub places: [u32; 8],
    pub waiting: [Alerts; 8],
    pub settled: bool,
}

// What an accepted answer tells: how many nodes are missing, or the checkpoint and the message delivered with it.
#[derive(Clone, Copy, PartialEq, Eq, Debug)]
pub enum Noted {
    Missing(u8),
    Committed(u32, Option<u32>),
}

// What an accepted send tells: the message's id, and its sender's number.
#[derive(Clone, Copy, PartialEq, Eq, Debug)]
pub struct Sent {
    pub id: u32,
    pub number: u32,
}

// What an accepted arrival tells: the receipt number, or the number of the checkpoint that has to come first.
#[derive(Clone, Copy, PartialEq, Eq, Debug)]
pub enum Arrived {
    Delivered(u32),
    Forced(u32),
}

// What a carried alert tells: whether the cluster was called back by it, and its place now.
#[derive(Clone, Copy, PartialEq, Eq, Debug)]
pub struct Carried {
    pub moved: bool,
    pub place: u32,
}

// Kept checkpoints are found by their number.
impl Keyed for Checkpoint {
    type Key = u32;

    ghost key = { λ c. c.number };

    fn key(&self) -> u32 {
        self.number
    }
}

// Messages are found by their id.
impl Keyed for Logged {
    type Key = u32;

    ghost key = { λ m. m.message.id };

    fn key(&self) -> u32 {
        self.message.id
    }
}

// Short runs get, on the definitions, the very answers that docs/PROTOCOL.md tells of them.
pub fn worked_runs_hold() -> u8
    ensures { WorkedRuns }
{
    0
}

// The law of lost work holds of every list of calls on a new federation, over every store and every forcing rule.
pub fn law_of_lost_work_holds() -> u8
    ensures { LawOfLostWork }
{
    0
}

// The law turns away ten slips, each by a short run that can be computed.
pub fn slips_break_the_law() -> u8
    ensures { Slips }
{
    0
}
