// A new book. Whatever memory later calls need is reserved here.
ghost use Rattle.std.specs.Prelude.{◌≡◌, ◌≤◌, true, map, IfOk};
ghost use Rattle.store.specs.Table.{Model};
ghost use Rattle.law.specs.Opening.{first_clusters};
ghost use Rattle.book.specs.View.{group, view, new_book};
ghost use Rattle.book.specs.Placed.{placed};

use super::Book;
use crate::{Cluster, MOST_MESSAGES};
use std::alloc::{AllocError, Global};

impl Book {
    // Every cluster begins with checkpoint 1, and nothing was sent.
    pub fn new(name: u32, clusters: usize, nodes: u8, heap: Global) -> Result<Book, AllocError>
        requires few { clusters ≤ 8 }
        requires nodes { nodes ≤ 32 }
        ensures { IfOk result (λ b. (m : Model) → view b m ≡ new_book name clusters nodes m) }
    {
        Ok(Book {
            name,
            nodes,
            clusters: new_clusters(clusters, heap)?,
            log: Vec::with_capacity(heap, MOST_MESSAGES)?,
            next_id: 1,
            restarts: 0,
            restart: None,
        })
    }
}

fn new_clusters(count: usize, heap: Global) -> Result<Vec<Cluster>, AllocError>
    requires { count ≤ 8 }
    ensures { IfOk result (λ cs. (map group cs.items ≡ first_clusters count) × (placed 0 cs.items ≡ true)) }
{
    // a chain would collect results into a result within another, which is no plainer
    let mut clusters = Vec::new(heap);
    // a cluster is made for its position, so the positions are what the loop goes over
    for i in 0..count {
        clusters.push(Cluster::new(i, heap)?)?;
    }
    Ok(clusters)
}
