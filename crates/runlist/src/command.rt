// One command of a run list: its letter as a case, its operand bytes as they lie in the list.
ghost use Rattle.std.specs.Prelude.{◌≡◌, Some};
ghost use Rattle.runlist.specs.Format.{item, operands_of, width_of};

#[derive(Clone, Copy, PartialEq, Eq, Debug)]
pub enum Command<'a> {
    Open(&'a [u8]),
    Request(&'a [u8]),
    Answer(&'a [u8]),
    Send(&'a [u8]),
    Arrive(&'a [u8]),
    Fault(&'a [u8]),
    Alert(&'a [u8]),
    Resume(&'a [u8]),
    Trial(&'a [u8]),
    Collect(&'a [u8]),
    Read(&'a [u8]),
}

#[derive(Clone, Copy, PartialEq, Eq, Debug)]
pub enum Operands {
    Open {
        clusters: u8,
        nodes: u8,
        // bytes and no enums: a list reads back as it was written, whatever rule and store it names
        rule: u8,
        store: u8,
    },
    Request {
        cluster: u8,
        rank: u8,
    },
    Answer {
        cluster: u8,
        rank: u8,
        word: u64,
    },
    Send {
        from: u8,
        to: u8,
        word: u64,
    },
    Arrive {
        id: u32,
        rank: u8,
    },
    Fault {
        cluster: u8,
    },
    Alert {
        from: u8,
        to: u8,
    },
    Resume,
    Trial {
        cluster: u8,
    },
    Collect,
    Read {
        cluster: u8,
        number: u32,
    },
}

impl<'a> Command<'a> {
    // The letters stand here, from a command to its byte, and in the reader, from a byte to its command: one match cannot be both.
    pub fn letter(self) -> char
        ensures { result ≡ (item self.entry).letter }
    {
        match self {
            Command::Open(_) => 'O',
            Command::Request(_) => 'Q',
            Command::Answer(_) => 'A',
            Command::Send(_) => 'S',
            Command::Arrive(_) => 'M',
            Command::Fault(_) => 'F',
            Command::Alert(_) => 'L',
            Command::Resume(_) => 'R',
            Command::Trial(_) => 'T',
            Command::Collect(_) => 'G',
            Command::Read(_) => 'W',
        }
    }

    pub fn bytes(self) -> &'a [u8]
        ensures { result.now ≡ (item self.entry).operands }
    {
        match self {
            Command::Open(bytes)
            | Command::Request(bytes)
            | Command::Answer(bytes)
            | Command::Send(bytes)
            | Command::Arrive(bytes)
            | Command::Fault(bytes)
            | Command::Alert(bytes)
            | Command::Resume(bytes)
            | Command::Trial(bytes)
            | Command::Collect(bytes)
            | Command::Read(bytes) => bytes,
        }
    }

    // How many operand bytes its letter asks for.
    pub fn width(self) -> usize
        ensures { width_of (item self.entry).letter ≡ Some result }
    {
        match self {
            Command::Open(_) => 4,
            Command::Request(_) => 2,
            Command::Answer(_) => 10,
            Command::Send(_) => 10,
            Command::Arrive(_) => 5,
            Command::Fault(_) => 1,
            Command::Alert(_) => 2,
            Command::Resume(_) => 0,
            Command::Trial(_) => 1,
            Command::Collect(_) => 0,
            Command::Read(_) => 5,
        }
    }

    // The operands as numbers; none where the bytes have not the width that the letter asks for. No TryFrom: an error could say no more.
    pub fn operands(self) -> Option<Operands>
        ensures { result ≡ operands_of self.entry }
    {
        Some(match self {
            Command::Open(&[clusters, nodes, rule, store]) => Operands::Open {
                clusters,
                nodes,
                rule,
                store,
            },
            Command::Request(&[cluster, rank]) => Operands::Request { cluster, rank },
            Command::Answer(&[cluster, rank, ref word @ ..]) => Operands::Answer {
                cluster,
                rank,
                word: u64::from_be_bytes(word.try_into().ok()?),
            },
            Command::Send(&[from, to, ref word @ ..]) => Operands::Send {
                from,
                to,
                word: u64::from_be_bytes(word.try_into().ok()?),
            },
            Command::Arrive(&[ref id @ .., rank]) => Operands::Arrive {
                id: u32::from_be_bytes(id.try_into().ok()?),
                rank,
            },
            Command::Fault(&[cluster]) => Operands::Fault { cluster },
            Command::Alert(&[from, to]) => Operands::Alert { from, to },
            Command::Resume(&[]) => Operands::Resume,
            Command::Trial(&[cluster]) => Operands::Trial { cluster },
            Command::Collect(&[]) => Operands::Collect,
            Command::Read(&[cluster, ref number @ ..]) => Operands::Read {
                cluster,
                number: u32::from_be_bytes(number.try_into().ok()?),
            },
            _ => return None,
        })
    }
}
