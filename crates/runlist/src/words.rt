// What operands and refusals say to a person.
ghost use Rattle.std.specs.Prelude.{Some};
ghost use Rattle.runlist.specs.Words.{mark_of, operands_text, refused_text, unread_text};

use crate::command::Operands;
use crate::lists::ReadError;
use crate::reader::RefusedAt;
use std::error::Error;
use std::fmt;

// A rule or a store goes by its letter; a byte that is no capital letter is shown as a number.
#[derive(Clone, Copy)]
struct Mark(u8);

impl fmt::Display for Mark {
    ghost output = { λ m. Some (mark_of m.0) };

    fn fmt<W: fmt::Write>(&self, f: &mut fmt::Formatter<W>) -> fmt::Result {
        match self.0 {
            b'A'..=b'Z' => write!(f, "{}", char::from(self.0)),
            _ => write!(f, "{}", self.0),
        }
    }
}

// The name of a command and its operands, in decimal and a word in hexadecimal.
impl fmt::Display for Operands {
    ghost output = { λ o. Some (operands_text o) };

    fn fmt<W: fmt::Write>(&self, f: &mut fmt::Formatter<W>) -> fmt::Result {
        match *self {
            Operands::Open {
                clusters,
                nodes,
                rule,
                store,
            } => write!(
                f,
                "open clusters {clusters} nodes {nodes} rule {} store {}",
                Mark(rule),
                Mark(store)
            ),
            Operands::Request { cluster, rank } => {
                write!(f, "request cluster {cluster} rank {rank}")
            }
            Operands::Answer {
                cluster,
                rank,
                word,
            } => write!(f, "answer cluster {cluster} rank {rank} word 0x{word:016x}"),
            Operands::Send { from, to, word } => {
                write!(f, "send from {from} to {to} word 0x{word:016x}")
            }
            Operands::Arrive { id, rank } => write!(f, "arrive id {id} rank {rank}"),
            Operands::Fault { cluster } => write!(f, "fault cluster {cluster}"),
            Operands::Alert { from, to } => write!(f, "alert from {from} to {to}"),
            Operands::Resume => write!(f, "resume"),
            Operands::Trial { cluster } => write!(f, "trial cluster {cluster}"),
            Operands::Collect => write!(f, "collect"),
            Operands::Read { cluster, number } => {
                write!(f, "read cluster {cluster} number {number}")
            }
        }
    }
}

impl fmt::Display for RefusedAt {
    ghost output = { λ e. Some (refused_text e) };

    fn fmt<W: fmt::Write>(&self, f: &mut fmt::Formatter<W>) -> fmt::Result {
        let RefusedAt { why, offset } = *self;
        write!(f, "refused by {} ({why}) at offset {offset}", why.number())
    }
}

impl fmt::Display for ReadError {
    ghost output = { λ e. Some (unread_text e) };

    fn fmt<W: fmt::Write>(&self, f: &mut fmt::Formatter<W>) -> fmt::Result {
        match self {
            ReadError::Refused(refused) => write!(f, "{refused}"),
            ReadError::Memory => write!(f, "out of memory"),
        }
    }
}

impl Error for RefusedAt {}

impl Error for ReadError {}
