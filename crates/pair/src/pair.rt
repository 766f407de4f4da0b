// A pair of stores, which hold the same rows while both sides stand.
ghost use Rattle.std.specs.Prelude.{◌≡◌, ◌≤◌, min, length};
ghost use Rattle.pair.specs.Sides.{standing, Together};

use crate::Side;
use store::Store;

mod calls;

#[derive(Drop)]
pub struct Pair<A: Store, B: Store> {
    first: A,
    second: B,
    // the side that was lost and not yet rebuilt
    out: Option<Side>,
    ghost together: { Together out (A.Store.model first).table (B.Store.model second).table },
    ghost short: { length (standing out (A.Store.model first).table (B.Store.model second).table) ≤ min (A.Store.model first).capacity (B.Store.model second).capacity },
}
