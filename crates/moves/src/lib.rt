// What can be done with any store through its own calls: empty it, fill it
// from another, and keep within a limit that is not its own.
#![tactic(auto)]

ghost use Rattle.std.specs.Prelude.{◌≡◌, ◌+◌, ◌<◌, ◌≤◌, [], length, take, drop};
ghost use Rattle.refusal.specs.Answers.{replied};
ghost use Rattle.store.specs.Table.{limited, with_table, keep_refusal, keep_model, drop_refusal, drop_model};

use refusal::StoreRefusal;
use store::{Limit, MOST_WORDS, RowKey, Store};

// Keeps a row as a store under this limit would.
pub fn keep_within<S: Store>(
    store: &mut S,
    limit: Limit,
    key: RowKey,
    words: &[u64],
) -> Result<(), StoreRefusal>
    requires { limit.capacity ≤ (S.Store.model store.old).capacity }
    ensures answer { result ≡ replied (keep_refusal (limited (S.Store.model store.old).table limit.capacity limit.side) key.cluster key.number words.now) tt }
    ensures after { S.Store.model store.new ≡ with_table (S.Store.model store.old) (keep_model (limited (S.Store.model store.old).table limit.capacity limit.side) key.cluster key.number words.now).table }
    ensures short { length (S.Store.model store.old).table ≤ limit.capacity → length (S.Store.model store.new).table ≤ limit.capacity }
{
    if store.count() < limit.capacity {
        // the store has room as well, so its own checks are those of the limit, and the rows are searched once
        return store.keep(key, words);
    }
    store.check_keep(limit, key, words)
}

// Drops a row; and whoever calls it learns that there are no more rows than before.
pub fn drop_row<S: Store>(store: &mut S, key: RowKey) -> Result<(), StoreRefusal>
    ensures answer { result ≡ replied (drop_refusal (S.Store.model store.old) key.cluster key.number) tt }
    ensures after { S.Store.model store.new ≡ drop_model (S.Store.model store.old) key.cluster key.number }
    ensures short { length (S.Store.model store.new).table ≤ length (S.Store.model store.old).table }
{
    store.discard(key)
}

// Drops every row, the first one as long as there is one. What is unreachable here and below is ruled out by the clauses.
pub fn empty<S: Store>(store: &mut S)
    ensures { S.Store.model store.new ≡ with_table (S.Store.model store.old) [] }
{
    while store.count() > 0 {
        drop_first(store);
    }
}

fn drop_first<S: Store>(store: &mut S)
    requires { 0 < length (S.Store.model store.old).table }
    ensures { S.Store.model store.new ≡ with_table (S.Store.model store.old) (drop 1 (S.Store.model store.old).table) }
{
    let Ok(key) = store.position(0) else {
        unreachable()
    };
    let _ = store.discard(key);
}

// Keeps in `to`, which is empty, every row of `from`, in its order.
pub fn fill<F: Store, T: Store>(from: &F, to: &mut T)
    requires empty { (T.Store.model to.old).table ≡ [] }
    requires fits { length (F.Store.model from.now).table ≤ (T.Store.model to.old).capacity }
    ensures { T.Store.model to.new ≡ with_table (T.Store.model to.old) (F.Store.model from.now).table }
{
    // a store tells its rows by position, so a position is what the loop goes over
    for at in 0..from.count() {
        copy_row(from, to, at);
    }
}

// Copies the row at this position behind those before it.
fn copy_row<F: Store, T: Store>(from: &F, to: &mut T, at: usize)
    requires within { at < length (F.Store.model from.now).table }
    requires fits { at < (T.Store.model to.old).capacity }
    requires front { (T.Store.model to.old).table ≡ take at (F.Store.model from.now).table }
    ensures { T.Store.model to.new ≡ with_table (T.Store.model to.old) (take (at + 1) (F.Store.model from.now).table) }
{
    let mut buffer = [0; MOST_WORDS];
    let Ok(key) = from.position(at) else {
        unreachable()
    };
    let Ok(count) = from.read(key, &mut buffer) else {
        unreachable()
    };
    let _ = to.keep(key, &buffer[0..count]);
}
