// Whether two stores, of whatever kinds, hold the same rows by cluster and number.
ghost use Rattle.std.specs.Prelude.{◌≡◌, true, Decides};
ghost use Rattle.store.specs.Table.{row_at};
ghost use Rattle.store.specs.Agree.{Agree, agreeing, same_key};

use crate::Store;

// Both tables stand in the same order, so it is enough to compare them position by position.
pub fn agree<A: Store, B: Store>(a: &A, b: &B) -> bool
    ensures value { result ≡ agreeing (A.Store.model a.now).table (B.Store.model b.now).table }
    ensures meaning { Decides result (Agree (A.Store.model a.now).table (B.Store.model b.now).table) }
{
    let count = a.count();
    if count != b.count() {
        return false;
    }
    (0..count).all(|at| same_at(a, b, at))
}

fn same_at<A: Store, B: Store>(a: &A, b: &B, at: usize) -> bool
    ensures { result ≡ same_key (row_at (A.Store.model a.now).table at) (row_at (B.Store.model b.now).table at) }
{
    match (a.position(at), b.position(at)) {
        (Ok(x), Ok(y)) => x == y,
        _ => false,
    }
}
