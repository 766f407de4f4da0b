// Any list of calls on a new federation: opened, called, and handed back with every call and its answer. The law of lost work is
// the contract of `replay`: it holds of whatever list is passed, over every store and every forcing rule.
#![tactic(auto)]

mod exchange;
mod held;
mod make;
mod replaying;

pub use exchange::{Began, Call, Exchange};
pub use held::Held;
pub use replaying::{ReplayError, Replayed, replay};
