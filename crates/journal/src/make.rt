// Why a journal was not made.
ghost use Rattle.std.specs.Prelude.{◌≡◌, Some};
ghost use Rattle.journal.specs.Make.{make_words};

use std::alloc::AllocError;
use std::error::Error;
use std::fmt;

#[derive(Clone, Copy, PartialEq, Eq, Debug)]
pub enum MakeRefusal {
    Size,
    Memory,
}

impl From<AllocError> for MakeRefusal {
    ghost use Rattle.journal.specs.declared.make.MakeRefusal.TheVariants.{Memory};

    ghost from_gives = { λ _ why. why ≡ Memory };

    fn from(_: AllocError) -> Self {
        Self::Memory
    }
}

impl fmt::Display for MakeRefusal {
    ghost output = { λ why. Some (make_words why) };

    fn fmt<W: fmt::Write>(&self, f: &mut fmt::Formatter<W>) -> fmt::Result {
        f.write_str(match self {
            MakeRefusal::Size => "a journal takes 16832 bytes",
            MakeRefusal::Memory => "no memory",
        })
    }
}

impl Error for MakeRefusal {}
