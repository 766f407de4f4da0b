// A fault is tried on the restart's own places, and what was there is put back.
ghost use Rattle.std.specs.Prelude.{◌≡◌, ◌<◌, ◌≤◌, true, map, length};
ghost use Rattle.law.specs.Trials.{trial, lowest};
ghost use Rattle.book.specs.View.{group};

use super::alerts::drain;
use super::places::{CLUSTERS, begin, lower_of};
use book::{Cluster, STAYS};
use law::Restart;

// Puts back the restart that was there, however a trial ends.
struct Simulated<'a> {
    restart: &'a mut Option<Restart>,
    saved: Option<Restart>,
}

impl Drop for Simulated<'_> {
    fn drop(self)
        ensures { self.exit.0.now ≡ self.entry.saved }
    {
        *self.restart = self.saved;
        let Simulated {
            restart: _,
            saved: _,
        } = self;
    }
}

// Begins a restart and drains it where it stands, and reads its places.
fn run(restart: &mut Option<Restart>, clusters: &[Cluster], failed: usize) -> [u32; 8]
    requires within { failed < length clusters.now }
    requires few { length clusters.now ≤ 8 }
    ensures { result ≡ trial (map group clusters.now) failed }
{
    let tried = restart.insert(begin(clusters, failed));
    drain(tried, clusters);
    tried.places
}

// The places to which a fault would lead. The restart is as it was.
pub fn trial(restart: &mut Option<Restart>, clusters: &[Cluster], failed: usize) -> [u32; 8]
    requires within { failed < length clusters.now }
    requires few { length clusters.now ≤ 8 }
    ensures value { result ≡ trial (map group clusters.now) failed }
    ensures same { restart.new ≡ restart.old }
{
    let saved = *restart;
    let simulated = Simulated { restart, saved };
    run(simulated.restart, clusters, failed)
}

// The lowest place of each cluster over the faults of every cluster. The restart is as it was.
pub fn bounds(restart: &mut Option<Restart>, clusters: &[Cluster]) -> [u32; 8]
    requires { length clusters.now ≤ 8 }
    ensures value { result ≡ lowest (length clusters.now) (map group clusters.now) }
    ensures same { restart.new ≡ restart.old }
{
    let mut low = [STAYS; CLUSTERS];
    // each cluster fails in turn, by its position
    for failed in 0..clusters.len() {
        // by way of a name: no proof covers an array that a call writes back over its own argument
        let next = lower_of(low, trial(restart, clusters, failed));
        low = next;
    }
    low
}
