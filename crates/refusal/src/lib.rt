// Every refusal of the product, in one place: its number, its layer, the side of a store that it names,
// and what it says to a person. A number never changes its meaning: rig makers store it in their logs.
// It has two bytes, number and side, and two letters, its own and its layer's: each is a method with a name, since no `From` would be the one.
#![tactic(auto)]

ghost use Rattle.std.specs.Prelude.{◌≡◌, Some};
ghost use Rattle.refusal.specs.declared.Refusal.TheVariants.{Store as from_store};
ghost use Rattle.refusal.specs.Refusals.{number_of, layer_of, layer_letter, letter_of, side_of, store_side, words_of, store_words};

use std::error::Error;
use std::fmt;

// Where a refusal comes from: the list of commands, the book of the federation, or the store below it.
#[derive(Clone, Copy, PartialEq, Eq, Debug)]
pub enum Layer {
    List,
    Book,
    Store,
}

// What a store refuses, each told apart by a letter.
#[derive(Clone, Copy, PartialEq, Eq, Debug)]
pub enum StoreRefusal {
    WordCount,
    Held,
    NotHeld,
    // the side that is full, counted from 1; 0 where the store has no sides, as an answer's one byte for it has it
    Full(u8),
    NoSide,
    SideOut,
}

#[derive(Clone, Copy, PartialEq, Eq, Debug)]
pub enum Refusal {
    UnknownLetter,
    CutShort,
    OpenMisplaced,
    BadOpen,
    NoCluster,
    SameCluster,
    NoRank,
    ListTooLong,
    RestartOpen,
    NoRestart,
    NotInLog,
    Delivered,
    RoundOpen,
    NoRound,
    Answered,
    LogFull,
    KeptFull,
    NumbersSpent,
    Store(StoreRefusal),
    NotKept,
    NoAlert,
    WrongTicket,
    NoRoom,
}

impl Layer {
    pub fn letter(self) -> char
        ensures { result ≡ layer_letter self }
    {
        match self {
            Layer::List => 'L',
            Layer::Book => 'B',
            Layer::Store => 'S',
        }
    }
}

impl StoreRefusal {
    pub fn letter(self) -> char
        ensures { result ≡ letter_of self }
    {
        match self {
            StoreRefusal::WordCount => 'w',
            StoreRefusal::Held => 'h',
            StoreRefusal::NotHeld => 'm',
            StoreRefusal::Full(_) => 'f',
            StoreRefusal::NoSide => 's',
            StoreRefusal::SideOut => 'o',
        }
    }

    pub fn side(self) -> u8
        ensures { result ≡ store_side self }
    {
        match self {
            StoreRefusal::Full(side) => side,
            _ => 0,
        }
    }

    // What it says to a person.
    pub fn words(self) -> &'static str
        ensures { result.now ≡ store_words self }
    {
        match self {
            StoreRefusal::WordCount => "word count wrong, buffer short, or no such position",
            StoreRefusal::Held => "held already",
            StoreRefusal::NotHeld => "not held",
            StoreRefusal::Full(_) => "full",
            StoreRefusal::NoSide => "no such side",
            StoreRefusal::SideOut => "a side is out, or the side to rebuild is not",
        }
    }
}

impl Refusal {
    pub fn number(self) -> u8
        ensures { result ≡ number_of self }
    {
        match self {
            Refusal::UnknownLetter => 1,
            Refusal::CutShort => 2,
            Refusal::OpenMisplaced => 3,
            Refusal::BadOpen => 4,
            Refusal::NoCluster => 5,
            Refusal::SameCluster => 6,
            Refusal::NoRank => 7,
            Refusal::ListTooLong => 8,
            Refusal::RestartOpen => 9,
            Refusal::NoRestart => 10,
            Refusal::NotInLog => 11,
            Refusal::Delivered => 12,
            Refusal::RoundOpen => 13,
            Refusal::NoRound => 14,
            Refusal::Answered => 15,
            Refusal::LogFull => 16,
            Refusal::KeptFull => 17,
            Refusal::NumbersSpent => 18,
            Refusal::Store(_) => 19,
            Refusal::NotKept => 20,
            Refusal::NoAlert => 21,
            Refusal::WrongTicket => 22,
            Refusal::NoRoom => 23,
        }
    }

    pub fn layer(self) -> Layer
        ensures { result ≡ layer_of self }
    {
        match self {
            Refusal::UnknownLetter
            | Refusal::CutShort
            | Refusal::OpenMisplaced
            | Refusal::BadOpen
            | Refusal::ListTooLong
            | Refusal::NoRoom => Layer::List,
            Refusal::Store(_) => Layer::Store,
            _ => Layer::Book,
        }
    }

    // The side of a store that is full, 0 for every other refusal.
    pub fn side(self) -> u8
        ensures { result ≡ side_of self }
    {
        match self {
            Refusal::Store(why) => why.side(),
            _ => 0,
        }
    }

    // What it says to a person.
    pub fn words(self) -> &'static str
        ensures { result.now ≡ words_of self }
    {
        match self {
            Refusal::UnknownLetter => "unknown letter",
            Refusal::CutShort => "command cut short",
            Refusal::OpenMisplaced => "the first command is not open, or open comes again",
            Refusal::BadOpen => "sizes, rule or store wrong",
            Refusal::NoCluster => "no such cluster",
            Refusal::SameCluster => "both clusters the same",
            Refusal::NoRank => "no such rank",
            Refusal::ListTooLong => "list over 65536 bytes",
            Refusal::RestartOpen => "a restart is open",
            Refusal::NoRestart => "no restart is open",
            Refusal::NotInLog => "message not in the log",
            Refusal::Delivered => "message delivered already",
            Refusal::RoundOpen => "a round is open",
            Refusal::NoRound => "no round is open",
            Refusal::Answered => "this rank has answered",
            Refusal::LogFull => "log full",
            Refusal::KeptFull => "sixteen checkpoints kept",
            Refusal::NumbersSpent => "the number to come is above 1000000",
            Refusal::Store(_) => "the store refused",
            Refusal::NotKept => "checkpoint not kept",
            Refusal::NoAlert => "no such alert waits",
            Refusal::WrongTicket => "ticket not of this restart at this stage",
            Refusal::NoRoom => "does not fit the buffer",
        }
    }
}

impl fmt::Display for StoreRefusal {
    ghost output = { λ x. Some (store_words x) };

    fn fmt<W: fmt::Write>(&self, f: &mut fmt::Formatter<W>) -> fmt::Result {
        f.write_str(StoreRefusal::words(*self))
    }
}

impl fmt::Display for Refusal {
    ghost output = { λ x. Some (words_of x) };

    fn fmt<W: fmt::Write>(&self, f: &mut fmt::Formatter<W>) -> fmt::Result {
        f.write_str(Refusal::words(*self))
    }
}

// What a store refuses, a call above it refuses as the store's.
impl From<StoreRefusal> for Refusal {
    ghost from_gives = { λ why r. r ≡ from_store why };

    fn from(refused: StoreRefusal) -> Refusal {
        Refusal::Store(refused)
    }
}

impl Error for StoreRefusal {}

impl Error for Refusal {}
