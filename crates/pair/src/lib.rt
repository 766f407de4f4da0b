// Two stores as one, the way two neighbours keep copies of each other: every row is kept by both, and one
// of the sides can be lost and rebuilt from the other. A pair is itself a store, so pairs nest.
#![tactic(auto)]

mod pair;
mod side;

pub use pair::Pair;
pub use side::Side;
