// A federation: its book, the store that holds the words of its checkpoints, and its forcing rule. What a call takes are its operands as they
// stand in a command (from and to, cluster and rank, clusters and nodes), one by one.

use book::Book;

mod calls;
mod opens;
mod reads;
mod restart;

pub use opens::{Closed, NotOpened};

#[derive(Drop)]
pub struct Federation<S, R> {
    book: Book,
    store: S,
    rule: R,
}
