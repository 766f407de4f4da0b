// The book: every cluster, and the log of messages.
ghost use Rattle.std.specs.Prelude.{◌≡◌, ◌≤◌, true, vec_len, vec_capacity};
ghost use Rattle.std.specs.Ordering.{nat_cmp};
ghost use Rattle.ordered.specs.Seek.{ascending};
ghost use Rattle.law.specs.Book.{most_clusters, most_nodes, most_messages};
ghost use Rattle.book.specs.Rules.{id_of, ids_below, addressed};
ghost use Rattle.book.specs.Placed.{placed};

use crate::Cluster;
use law::{Logged, Restart};

mod changes;
mod opens;
mod reads;

#[derive(Drop)]
pub struct Book {
    pub name: u32,
    pub nodes: u8,
    pub clusters: Vec<Cluster>,
    pub log: Vec<Logged>,
    pub next_id: u32,
    pub restarts: u32,
    pub restart: Option<Restart>,
    pub ghost noded: { nodes ≤ most_nodes },
    pub ghost few: { vec_len clusters ≤ most_clusters },
    pub ghost placed: { placed 0 clusters.items ≡ true },
    pub ghost room: { most_messages ≤ vec_capacity log },
    pub ghost short: { vec_len log ≤ most_messages },
    pub ghost ascends: { ascending nat_cmp id_of log.items ≡ true },
    pub ghost below: { ids_below next_id log.items ≡ true },
    pub ghost addressed: { addressed (vec_len clusters) log.items ≡ true },
}
