// Open: a federation with its sizes, a rule and an empty store.
ghost use Rattle.std.specs.Prelude.{◌≡◌, ◌≤◌};
ghost use Rattle.law.specs.Opening.{opens, kept_first};
ghost use Rattle.federation.specs.Opened.{Opened};

use super::Federation;
use book::Book;
use refusal::Refusal;
use rule::ForcingRule;
use std::alloc::Global;
use store::{MOST_WORDS, RowKey, Store};

// Why a federation did not open: it was refused, or there was no memory.
#[derive(Clone, Copy, PartialEq, Eq, Debug)]
pub enum Closed {
    Refused(Refusal),
    NoMemory,
}

// What did not open, with the store and the rule handed back.
pub struct NotOpened<S, R> {
    pub why: Closed,
    pub store: S,
    pub rule: R,
}

impl<S: Store, R: ForcingRule> Federation<S, R> {
    // Every cluster begins with checkpoint 1, for which the store keeps zero words. Whatever memory later calls need is reserved
    // here.
    pub fn open(
        name: u32,
        clusters: u8,
        nodes: u8,
        rule: R,
        mut store: S,
        heap: Global,
    ) -> Result<Federation<S, R>, NotOpened<S, R>>
        ensures { Opened S.Store.model name clusters nodes rule store result }
    {
        if !may_open(clusters, nodes, &store) {
            let why = Closed::Refused(Refusal::BadOpen);
            return Err(NotOpened { why, store, rule });
        }
        // no `?`: store and rule go back
        let Ok(book) = Book::new(name, usize::from(clusters), nodes, heap) else {
            let why = Closed::NoMemory;
            return Err(NotOpened { why, store, rule });
        };
        keep_first(&mut store, clusters, nodes);
        Ok(Federation { book, store, rule })
    }
}

// 2 to 8 clusters of 1 to 32 nodes, and an empty store with room for checkpoint 1 of each.
fn may_open<S: Store>(clusters: u8, nodes: u8, store: &S) -> bool
    ensures { result ≡ opens clusters nodes (S.Store.model store.now) }
{
    clusters >= 2
        && clusters <= 8
        && nodes >= 1
        && nodes <= 32
        && store.count() == 0
        && store.capacity() >= usize::from(clusters)
}

// Zero words for checkpoint 1 of each cluster.
fn keep_first<S: Store>(store: &mut S, clusters: u8, nodes: u8)
    requires { nodes ≤ 32 }
    ensures { S.Store.model store.new ≡ kept_first clusters nodes (S.Store.model store.old) }
{
    let words = [0; MOST_WORDS];
    // a cluster is known by its number, so the numbers are what the loop goes over
    for cluster in 0..clusters {
        // an empty store with room refuses none of them
        let _ = store.keep(RowKey { cluster, number: 1 }, &words[0..usize::from(nodes)]);
    }
}
