// A store without sides, taken for one that could have some: every side asked for is no side of it. So what is written for stores
// with sides serves every store.
#![tactic(auto)]

use refusal::StoreRefusal;
use store::{RowKey, SidedStore, Store};

#[derive(Drop)]
pub struct Sideless<S> {
    pub store: S,
}

impl<S: Store> Store for Sideless<S> {
    ghost model = { λ s. S.Store.model s.store };

    ghost formed = { λ s. S.Store.formed s.store };

    fn keep(&mut self, key: RowKey, words: &[u64]) -> Result<(), StoreRefusal> {
        self.store.keep(key, words)
    }

    fn discard(&mut self, key: RowKey) -> Result<(), StoreRefusal> {
        self.store.discard(key)
    }

    fn read(&self, key: RowKey, buffer: &mut [u64]) -> Result<usize, StoreRefusal> {
        self.store.read(key, buffer)
    }

    fn count(&self) -> usize {
        self.store.count()
    }

    fn capacity(&self) -> usize {
        self.store.capacity()
    }

    fn position(&self, at: usize) -> Result<RowKey, StoreRefusal> {
        self.store.position(at)
    }
}

impl<S: Store> SidedStore for Sideless<S> {
    ghost sides = { λ _. 0 };

    ghost out = { λ _. 0 };

    fn lose(&mut self, _side: u8) -> Result<(), StoreRefusal> {
        Err(StoreRefusal::NoSide)
    }

    // no side is ever out
    fn rebuild(&mut self, side: u8) -> Result<(), StoreRefusal> {
        self.lose(side)
    }
}
