// A call as data, and an exchange: a call with its answer.
use arrayvec::ArrayVec;
use federation::{Collected, Resumed, TicketNumbers};
use law::{Arrived, Carried, Noted, Sent};
use refusal::Refusal;

// A call with its arguments. Calls on a ticket use the one that is held.
#[derive(Clone, Copy, PartialEq, Eq, Debug)]
pub enum Call {
    Request { cluster: u8, rank: u8 },
    Answer { cluster: u8, rank: u8, word: u64 },
    Send { from: u8, to: u8, word: u64 },
    Arrive { id: u32, rank: u8 },
    Fault { cluster: u8 },
    Alert { from: u8, to: u8 },
    Finish,
    Resume,
    Trial { cluster: u8 },
    Collect,
    Read { cluster: u8, number: u32 },
    Lose { side: u8 },
    Rebuild { side: u8 },
}

// What a fault tells: the place of the failed cluster, and the numbers of the ticket. A type of its own beside `Faulted`, whose ticket has to
// be used up: this one is copied and compared.
#[derive(Clone, Copy, PartialEq, Eq, Debug)]
pub struct Began {
    pub place: u32,
    pub ticket: TicketNumbers,
}

// A call that was made, the ticket it was made on, and its answer.
#[derive(Drop)]
pub enum Exchange {
    Request {
        cluster: u8,
        rank: u8,
        answer: Result<u8, Refusal>,
    },
    Answer {
        cluster: u8,
        rank: u8,
        word: u64,
        answer: Result<Noted, Refusal>,
    },
    Send {
        from: u8,
        to: u8,
        word: u64,
        answer: Result<Sent, Refusal>,
    },
    Arrive {
        id: u32,
        rank: u8,
        answer: Result<Arrived, Refusal>,
    },
    Fault {
        cluster: u8,
        answer: Result<Began, Refusal>,
    },
    Alert {
        ticket: TicketNumbers,
        from: u8,
        to: u8,
        answer: Result<Carried, Refusal>,
    },
    Finish {
        ticket: TicketNumbers,
        answer: Result<(), Refusal>,
    },
    Resume {
        ticket: TicketNumbers,
        answer: Result<Resumed, Refusal>,
    },
    Trial {
        cluster: u8,
        answer: Result<ArrayVec<u32, 8>, Refusal>,
    },
    Collect {
        answer: Result<Collected, Refusal>,
    },
    Read {
        cluster: u8,
        number: u32,
        answer: Result<ArrayVec<u64, 32>, Refusal>,
    },
    Lose {
        side: u8,
        answer: Result<(), Refusal>,
    },
    Rebuild {
        side: u8,
        answer: Result<(), Refusal>,
    },
}
