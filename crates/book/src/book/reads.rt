// What is read of a book.
ghost use Rattle.std.specs.Prelude.{◌≡◌, ◌<◌, length, vec_len, slice_index_or};
ghost use Rattle.law.specs.Book.{nobody};
ghost use Rattle.book.specs.View.{group, groups};

use super::Book;
use crate::Cluster;

impl Book {
    // How many clusters there are.
    pub fn count(&self) -> usize
        ensures value { result ≡ length (groups self.now) }
        ensures len { result ≡ vec_len self.now.clusters }
    {
        self.clusters.len()
    }

    pub fn cluster(&self, i: usize) -> &Cluster
        requires { i < vec_len self.now.clusters }
        ensures value { group result.now ≡ slice_index_or (groups self.now) i nobody }
        ensures read { result.now ≡ slice_index_or self.now.clusters.items i result.now }
    {
        &self.clusters[i]
    }
}
