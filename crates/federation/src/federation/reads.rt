// Read, and what a store with sides adds: lose and rebuild.
ghost use Rattle.std.specs.Prelude.{◌≡◌};
ghost use Rattle.law.specs.Storing.{read_tells, side_tells};
ghost use Rattle.store.specs.Table.{lookup};
ghost use Rattle.store.specs.Sides.{lose_refusal, lose_out, rebuild_refusal, rebuild_out};
ghost use Rattle.federation.specs.Shown.{shown};
ghost use Rattle.federation.specs.Told.{told_list, held};

use super::Federation;
use crate::sight;
use arrayvec::ArrayVec;
use refusal::Refusal;
use rule::ForcingRule;
use store::{MOST_WORDS, RowKey, SidedStore, Store};

impl<S: Store, R: ForcingRule> Federation<S, R> {
    // The words of a kept checkpoint. Cluster and number come apart, as they stand in a command: only a store's rows have the two as one key.
    pub fn read(&self, cluster: u8, number: u32) -> Result<ArrayVec<u64, 32>, Refusal>
        ensures { told_list result ≡ read_tells (shown S.Store.model self.now) cluster number }
    {
        sight::is_kept(&self.book, cluster, number)?;
        self.words(cluster, number)
    }

    fn words(&self, cluster: u8, number: u32) -> Result<ArrayVec<u64, 32>, Refusal>
        ensures { told_list result ≡ held (lookup (S.Store.model self.now.store).table cluster number) }
    {
        // every row of a store has at most 32 words, so the buffer suffices
        let mut buffer = [0; MOST_WORDS];
        let count = self.store.read(RowKey { cluster, number }, &mut buffer)?;
        let mut words = ArrayVec::from(buffer);
        words.truncate(count);
        Ok(words)
    }
}

impl<S: SidedStore, R: ForcingRule> Federation<S, R> {
    // The store loses one of its sides. The table stays as it is.
    pub fn lose(&mut self, side: u8) -> Result<(), Refusal>
        ensures answer { result ≡ side_tells (lose_refusal (S.SidedStore.sides self.old.store) (S.SidedStore.out self.old.store) side) }
        ensures after { shown S.Store.model self.new ≡ shown S.Store.model self.old }
        ensures out { S.SidedStore.out self.new.store ≡ lose_out (S.SidedStore.sides self.old.store) (S.SidedStore.out self.old.store) side }
        ensures sides { S.SidedStore.sides self.new.store ≡ S.SidedStore.sides self.old.store }
    {
        Ok(self.store.lose(side)?)
    }

    // The store fills a side that is out from the rest. The table stays as it is.
    pub fn rebuild(&mut self, side: u8) -> Result<(), Refusal>
        ensures answer { result ≡ side_tells (rebuild_refusal (S.SidedStore.sides self.old.store) (S.SidedStore.out self.old.store) side) }
        ensures after { shown S.Store.model self.new ≡ shown S.Store.model self.old }
        ensures out { S.SidedStore.out self.new.store ≡ rebuild_out (S.SidedStore.sides self.old.store) (S.SidedStore.out self.old.store) side }
        ensures sides { S.SidedStore.sides self.new.store ≡ S.SidedStore.sides self.old.store }
    {
        Ok(self.store.rebuild(side)?)
    }
}
