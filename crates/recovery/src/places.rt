// The places of a restart: how it begins, and how its places are told.
ghost use Rattle.std.specs.Prelude.{◌≡◌, ◌<◌, ◌≤◌, map, min, length, slice_index, EachIndex};
ghost use Rattle.book.specs.View.{group};
ghost use Rattle.law.specs.Restarts.{to_others, begun, told, tells_places};

use arrayvec::ArrayVec;
use book::{Cluster, STAYS};
use law::{Alerts, Restart};

// A federation has at most this many clusters.
pub const CLUSTERS: usize = 8;

// Alerts from one cluster to every other.
pub(super) fn to_others(count: usize, from: usize) -> Alerts
    requires few { count ≤ 8 }
    requires within { from < 8 }
    ensures { result ≡ to_others count from }
{
    let mut to = [false; CLUSTERS];
    to[..count].fill(true);
    to[from] = false;
    Alerts { to }
}

// That there are at most eight clusters, and that a position is one of eight, are clauses here and in the calls below: a type for the slice or
// for a position would ask callers for a value that they have to make for each call, where the clause is found from their book alone.

// The restart in which one cluster has failed: it goes back to its newest checkpoint and alerts every other.
pub fn begin(clusters: &[Cluster], failed: usize) -> Restart
    requires within { failed < length clusters.now }
    requires few { length clusters.now ≤ 8 }
    ensures { result ≡ begun (map group clusters.now) failed }
{
    let mut places = [STAYS; CLUSTERS];
    places[failed] = clusters[failed].row[failed];
    let nobody = Alerts {
        to: [false; CLUSTERS],
    };
    let mut waiting = [nobody; CLUSTERS];
    waiting[failed] = to_others(clusters.len(), failed);
    Restart {
        places,
        waiting,
        settled: false,
    }
}

// A cluster that stays is told as 0.
pub fn told(place: u32) -> u32
    ensures { result ≡ told place }
{
    if place == STAYS { 0 } else { place }
}

// The places of this many clusters, as they are told.
pub fn told_places(places: &[u32; 8], count: usize) -> ArrayVec<u32, 8>
    requires { count ≤ 8 }
    ensures { result.items ≡ tells_places count places.now }
{
    let mut list = ArrayVec::new();
    for place in &places[..count] {
        list.push(told(*place));
    }
    list
}

// The lower of each two places.
pub(super) fn lower_of(a: [u32; 8], b: [u32; 8]) -> [u32; 8]
    ensures { EachIndex result (λ i. slice_index result i ≡ min (slice_index a i) (slice_index b i)) }
{
    std::array::from_fn(|i| a[i].min(b[i]))
}
