// Carrying alerts: a cluster that heard of what is undone goes back before it, and alerts the others in turn.
ghost use Rattle.std.specs.Prelude.{◌≡◌, ◌<◌, ◌≤◌, true, map, length, is_some, IfSome, None, nat_lt, position};
ghost use Rattle.store.specs.Table.{both};
ghost use Rattle.law.specs.Book.{entry};
ghost use Rattle.law.specs.Restarts.{latest, called_to, carry, first_true, first_waiting, drained};
ghost use Rattle.book.specs.View.{group};
ghost use Rattle.recovery.specs.Called.{entry_of, called_in};

use super::places::to_others;
use book::{Cluster, STAYS, checkpoint_at};
use law::{Alerts, Checkpoint, Restart};

// The cluster's entry for another, at its place: in its row, if it stays, else in the checkpoint there.
fn entry_of(cluster: &Cluster, place: u32, from: usize) -> u32
    requires { from < 8 }
    ensures { result ≡ entry_of (group cluster.now) place from }
{
    if place == STAYS {
        return cluster.row[from];
    }
    checkpoint_at(&cluster.kept, place).map_or(0, |checkpoint| checkpoint.row[from])
}

// Whether a checkpoint is below the place and had not heard of what is undone.
fn is_before(checkpoint: &Checkpoint, from: usize, back: u32, place: u32) -> bool
    requires { from < 8 }
    ensures { result ≡ both (nat_lt checkpoint.now.number place) (nat_lt (entry checkpoint.now.row from) back) }
{
    checkpoint.number < place && checkpoint.row[from] < back
}

// The latest kept checkpoint below the place that had not heard of what is undone.
fn latest(kept: &[Checkpoint], from: usize, back: u32, place: u32) -> Option<u32>
    requires { from < 8 }
    ensures { result ≡ latest from back place kept.now None }
{
    kept.iter()
        .rev()
        .find(|checkpoint| is_before(checkpoint, from, back, place))
        .map(|checkpoint| checkpoint.number)
}

// The checkpoint to which an alert from a cluster that went back calls this one, if it does.
fn called_in(cluster: &Cluster, from: usize, back: u32, place: u32) -> Option<u32>
    requires { from < 8 }
    ensures { result ≡ called_in (group cluster.now) from back place }
{
    if back <= entry_of(cluster, place, from) {
        latest(&cluster.kept, from, back, place)
    } else {
        None
    }
}

// The same in a federation: nobody is called back where there is no cluster.
fn called_to(restart: &Restart, clusters: &[Cluster], from: usize, to: usize) -> Option<u32>
    requires origin { from < 8 }
    requires target { to < 8 }
    ensures { result ≡ called_to (map group clusters.now) restart.now from to }
{
    let cluster = clusters.get(to)?;
    called_in(cluster, from, restart.places[from], restart.places[to])
}

// Carries one alert, and tells whether the cluster that it reaches was called back.
pub fn carry(restart: &mut Restart, clusters: &[Cluster], from: usize, to: usize) -> bool
    requires origin { from < 8 }
    requires target { to < 8 }
    requires few { length clusters.now ≤ 8 }
    ensures after { restart.new ≡ carry (map group clusters.now) restart.old from to }
    ensures moved { result ≡ is_some (called_to (map group clusters.now) restart.old from to) }
{
    let called = called_to(restart, clusters, from, to);
    restart.waiting[from].to[to] = false;
    match called {
        Some(place) => {
            restart.places[to] = place;
            restart.waiting[to] = to_others(clusters.len(), to);
            true
        }
        None => false,
    }
}

// The first place that is set.
fn first_true(flags: &[bool; 8]) -> Option<usize>
    ensures value { result ≡ position (λ b. b) flags.now }
    ensures within { IfSome result (λ at. at < 8) }
{
    flags.iter().position(|flag| *flag)
}

// The lowest pair of clusters between which an alert waits.
fn first_waiting(waiting: &[Alerts; 8]) -> Option<(usize, usize)>
    ensures value { result ≡ first_waiting 0 waiting.now }
    ensures within { IfSome result (λ pair. (pair.0 < 8) × (pair.1 < 8)) }
{
    // tried: find_map; the proof did not close, since it leaves open which pair is given
    for (from, alerts) in waiting.iter().enumerate() {
        if let Some(to) = first_true(&alerts.to) {
            return Some((from, to));
        }
    }
    None
}

// Carries every alert that waits, the lowest pair of clusters first, and those that come of it.
pub fn drain(restart: &mut Restart, clusters: &[Cluster])
    requires { length clusters.now ≤ 8 }
    ensures { restart.new ≡ drained (map group clusters.now) restart.old }
{
    while let Some((from, to)) = first_waiting(&restart.waiting) {
        carry(restart, clusters, from, to);
    }
}
