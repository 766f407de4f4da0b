// How far back each cluster goes: an alert is carried, the restart is drained of its alerts, and a fault is tried without
// being made.
#![tactic(auto)]

mod alerts;
mod places;
mod simulate;

pub use alerts::{carry, drain};
pub use book::STAYS;
pub use places::{CLUSTERS, begin, told, told_places};
pub use simulate::{bounds, trial};
