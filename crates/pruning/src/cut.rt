// Clusters cut one after another: each loses kept checkpoints, and the store their rows.
ghost use Rattle.std.specs.Prelude.{◌≡◌, ℕ, ◌<◌, Bool, true, filter, vec_len, vec_capacity, nat_le, nat_lt, slice_index};
ghost use Rattle.law.specs.Book.{Cluster as Group};
ghost use Rattle.law.specs.Restarts.{back, discard, prune as pruned};
ghost use Rattle.law.specs.Trials.{from};
ghost use Rattle.book.specs.View.{group, view};
ghost use Rattle.pruning.specs.Cutting.{row_back};

use crate::{Back, Collect};
use book::{Book, Cluster, STAYS, checkpoint_at};
use law::Checkpoint;
use store::{RowKey, Store};

// What a cut leaves of each cluster, and which checkpoints leave the store.
pub trait Cut {
    ghost change: { Self → ℕ → Group → Group };

    ghost gone: { Self → ℕ → ℕ → Bool };

    fn loses(&self, cluster: usize, number: u32) -> bool
        requires { cluster < 8 }
        ensures { result ≡ gone self.now cluster number };

    fn change(&self, cluster: &mut Cluster)
        ensures after { group cluster.new ≡ change self.now cluster.old.own (group cluster.old) }
        ensures own { cluster.new.own ≡ cluster.old.own };
}

// Drops from the store the rows of the checkpoints that a cluster loses.
fn discard_rows<C: Cut, S: Store>(store: &mut S, cluster: &Cluster, cut: &C)
    ensures { S.Store.model store.new ≡ discard cluster.now.own (C.Cut.gone cut.now cluster.now.own) cluster.now.kept.items (S.Store.model store.old) }
{
    for checkpoint in &cluster.kept {
        if cut.loses(cluster.own, checkpoint.number) {
            let _ = store.discard(RowKey {
                cluster: cluster.own as u8,
                number: checkpoint.number,
            });
        }
    }
}

// The row of a cluster as it was at its place.
fn row_back(cluster: &Cluster, place: u32) -> [u32; 8]
    ensures { result ≡ row_back place cluster.now.row cluster.now.kept.items }
{
    if place == STAYS {
        return cluster.row;
    }
    // tried: map_or; the proof did not close, since it leaves open which row is given
    match checkpoint_at(&cluster.kept, place) {
        Some(checkpoint) => checkpoint.row,
        None => cluster.row,
    }
}

// A cluster called back loses its checkpoints above its place, and has the row that it had there.
impl Cut for Back {
    ghost change = { λ b j. back (slice_index b.places j) };

    ghost gone = { λ b j n. nat_lt (slice_index b.places j) n };

    fn loses(&self, cluster: usize, number: u32) -> bool {
        self.places[cluster] < number
    }

    fn change(&self, cluster: &mut Cluster) {
        let place = self.places[cluster.own];
        let row = row_back(cluster, place);
        cluster.row = row;
        cluster.kept.retain(|checkpoint| checkpoint.number <= place);
    }
}

// A cluster collected loses its checkpoints below its bound.
impl Cut for Collect {
    ghost change = { λ b j. from (slice_index b.bounds j) };

    ghost gone = { λ b j n. nat_lt n (slice_index b.bounds j) };

    fn loses(&self, cluster: usize, number: u32) -> bool {
        number < self.bounds[cluster]
    }

    fn change(&self, cluster: &mut Cluster) {
        let bound = self.bounds[cluster.own];
        cluster.kept.retain(|checkpoint| bound <= checkpoint.number);
    }
}

// One cluster cut.
fn prune_cluster<C: Cut, S: Store>(cluster: &mut Cluster, store: &mut S, cut: &C)
    ensures after { group cluster.new ≡ C.Cut.change cut.now cluster.old.own (group cluster.old) }
    ensures own { cluster.new.own ≡ cluster.old.own }
    ensures store { S.Store.model store.new ≡ discard cluster.old.own (C.Cut.gone cut.now cluster.old.own) cluster.old.kept.items (S.Store.model store.old) }
{
    discard_rows(store, cluster, cut);
    cut.change(cluster);
}

// Every cluster cut, the first one first.
pub fn prune<C: Cut, S: Store>(book: &mut Book, store: &mut S, cut: &C)
    ensures { view book.new (S.Store.model store.new) ≡ pruned (C.Cut.change cut.now) (C.Cut.gone cut.now) (vec_len book.old.clusters) (view book.old (S.Store.model store.old)) }
{
    for cluster in book.clusters.iter_mut() {
        prune_cluster(cluster, store, cut);
    }
}
