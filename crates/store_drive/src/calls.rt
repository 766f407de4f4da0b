// A long sequence of calls that is the same on every run.
ghost use Rattle.std.specs.Prelude.{◌<◌, ◌≤◌};

use store::RowKey;

#[derive(Clone, Copy, PartialEq, Eq, Debug)]
pub enum Call {
    Keep {
        key: RowKey,
        count: usize,
        seed: u64,
    },
    Discard {
        key: RowKey,
    },
    Read {
        key: RowKey,
        room: usize,
    },
    Position {
        at: usize,
    },
}

// A linear congruential generator: each state gives the next one.
#[derive(Clone, Copy, PartialEq, Eq, Debug)]
pub struct Calls {
    state: u64,
}

pub fn step(state: u64) -> u64 {
    state
        .wrapping_mul(6364136223846793005)
        .wrapping_add(1442695040888963407)
}

impl Calls {
    pub fn new(seed: u64) -> Calls {
        Calls { state: seed }
    }

    // A number below the limit, from the high bits, which repeat late.
    fn below(&mut self, limit: u64) -> u64
        requires { 0 < limit }
        ensures { result < limit }
    {
        self.state = step(self.state);
        (self.state >> 33) % limit
    }

    // More pairs of cluster and number than a store holds, so that it fills up; and now and then a word
    // count or a buffer that is refused. No Iterator: it never ends, and whoever drives stores counts the turns.
    pub fn next(&mut self) -> Call {
        let kind = self.below(8);
        let key = RowKey {
            cluster: self.below(5) as u8,
            number: self.below(18) as u32 + 1,
        };
        match kind {
            0 | 1 | 2 | 3 => Call::Keep {
                key,
                count: self.below(35) as usize,
                seed: self.state,
            },
            4 | 5 => Call::Discard { key },
            6 => Call::Read {
                key,
                room: self.below(33) as usize,
            },
            _ => Call::Position {
                at: self.below(70) as usize,
            },
        }
    }
}
