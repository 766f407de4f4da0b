// The book of a federation as the code holds it: every cluster with its row, its kept checkpoints and its open round, and
// the log of messages. The memory for all of it is reserved when a federation opens.
#![tactic(auto)]

mod book;
mod cluster;
mod find;

pub use book::Book;
pub use cluster::Cluster;
pub use find::{checkpoint_at, logged_at};

// A cluster keeps at most 16 checkpoints.
pub const MOST_KEPT: usize = 16;

// The log holds at most 128 messages.
pub const MOST_MESSAGES: usize = 128;

// Numbers of checkpoints, ids and restarts end here.
pub const LAST_NUMBER: u32 = 1_000_000;

// The place of a cluster that is not called back: above every number, so that no test and no minimum of places needs a case for it. `None`
// would sort below every number, and the law's places are numbers.
pub const STAYS: u32 = 1_000_001;
