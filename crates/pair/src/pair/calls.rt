// A pair's calls: each reaches the sides that stand.
ghost use Rattle.std.specs.Prelude.{◌≡◌, min, [], Decides};
ghost use Rattle.store.specs.Agree.{Agree};
ghost use Rattle.store.specs.Table.{limited};
ghost use Rattle.pair.specs.Sides.{smaller, number_of, pair_model, pair_formed, out_number};

use super::Pair;
use crate::Side;
use moves::{drop_row, empty, fill, keep_within};
use refusal::StoreRefusal;
use store::{Limit, RowKey, SidedStore, Store, agree};

impl<A: Store, B: Store> Pair<A, B> {
    // Whatever the two stores held is dropped: a pair begins empty.
    pub fn new(mut first: A, mut second: B) -> Pair<A, B>
        ensures model { pair_model result.out (A.Store.model result.first) (B.Store.model result.second) ≡ limited [] (min (A.Store.model first).capacity (B.Store.model second).capacity) (number_of (smaller (A.Store.model first).capacity (B.Store.model second).capacity)) }
        ensures out { out_number result.out ≡ 0 }
    {
        empty(&mut first);
        empty(&mut second);
        Pair {
            first,
            second,
            out: None,
        }
    }

    // Whether both sides hold the same pairs of cluster and number.
    pub fn agree(&self) -> bool
        ensures { Decides result (Agree (A.Store.model self.now.first).table (B.Store.model self.now.second).table) }
    {
        agree(&self.first, &self.second)
    }

    // The side whose capacity the count reaches first.
    fn full_side(&self) -> Side
        ensures { result ≡ smaller (A.Store.model self.now.first).capacity (B.Store.model self.now.second).capacity }
    {
        if self.first.capacity() <= self.second.capacity() {
            Side::First
        } else {
            Side::Second
        }
    }

    // As many rows as the smaller side holds, in whose name a full pair refuses.
    fn limit(&self) -> Limit
        ensures capacity { result.capacity ≡ min (A.Store.model self.now.first).capacity (B.Store.model self.now.second).capacity }
        ensures side { result.side ≡ number_of (smaller (A.Store.model self.now.first).capacity (B.Store.model self.now.second).capacity) }
    {
        Limit {
            capacity: self.capacity(),
            side: u8::from(self.full_side()),
        }
    }
}

// Each call matches on the side that is out: the sides are of two types, and one value for either would be a dyn that is handed out.
impl<A: Store, B: Store> Store for Pair<A, B> {
    ghost model = { λ p. pair_model p.out (A.Store.model p.first) (B.Store.model p.second) };

    ghost formed = { λ p. pair_formed p.out (A.Store.formed p.first) (B.Store.formed p.second) p.short };

    fn keep(&mut self, key: RowKey, words: &[u64]) -> Result<(), StoreRefusal> {
        let limit = self.limit();
        match self.out {
            None => {
                keep_within(&mut self.first, limit, key, words)?;
                // the sides hold the same rows, so what the first kept the second keeps
                keep_within(&mut self.second, limit, key, words)
            }
            Some(Side::First) => keep_within(&mut self.second, limit, key, words),
            Some(Side::Second) => keep_within(&mut self.first, limit, key, words),
        }
    }

    fn discard(&mut self, key: RowKey) -> Result<(), StoreRefusal> {
        match self.out {
            None => {
                // the sides hold the same rows, so they answer alike
                let _ = drop_row(&mut self.first, key);
                drop_row(&mut self.second, key)
            }
            Some(Side::First) => drop_row(&mut self.second, key),
            Some(Side::Second) => drop_row(&mut self.first, key),
        }
    }

    fn read(&self, key: RowKey, buffer: &mut [u64]) -> Result<usize, StoreRefusal> {
        match self.out {
            Some(Side::First) => self.second.read(key, buffer),
            _ => self.first.read(key, buffer),
        }
    }

    fn count(&self) -> usize {
        match self.out {
            Some(Side::First) => self.second.count(),
            _ => self.first.count(),
        }
    }

    fn capacity(&self) -> usize {
        self.first.capacity().min(self.second.capacity())
    }

    fn position(&self, at: usize) -> Result<RowKey, StoreRefusal> {
        match self.out {
            Some(Side::First) => self.second.position(at),
            _ => self.first.position(at),
        }
    }
}

impl<A: Store, B: Store> SidedStore for Pair<A, B> {
    ghost sides = { λ _. 2 };

    ghost out = { λ p. out_number p.out };

    fn lose(&mut self, side: u8) -> Result<(), StoreRefusal> {
        let lost = Side::try_from(side)?;
        if self.out.is_some() {
            return Err(StoreRefusal::SideOut);
        }
        match lost {
            Side::First => empty(&mut self.first),
            Side::Second => empty(&mut self.second),
        }
        self.out = Some(lost);
        Ok(())
    }

    fn rebuild(&mut self, side: u8) -> Result<(), StoreRefusal> {
        let missing = Side::try_from(side)?;
        if self.out != Some(missing) {
            return Err(StoreRefusal::SideOut);
        }
        match missing {
            Side::First => fill(&self.second, &mut self.first),
            Side::Second => fill(&self.first, &mut self.second),
        }
        self.out = None;
        Ok(())
    }
}
