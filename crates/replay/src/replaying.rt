// Any list of calls, one after another.
ghost use Rattle.std.specs.Prelude.{◌≡◌, ◌+◌, ◌≤◌, [], length, vec_capacity};
ghost use Rattle.federation.specs.Shown.{shown};
ghost use Rattle.replay.specs.Replays.{Run, Outcome};

use crate::exchange::{Call, Exchange};
use crate::held::Held;
use crate::make::{Made, make};
use federation::{Federation, NotOpened};
use rule::ForcingRule;
use std::alloc::Global;
use store::{SidedStore, Store};

// What a list of calls leaves: the federation, the ticket that is held, and every call with its answer.
pub struct Replayed<S, R> {
    pub federation: Federation<S, R>,
    pub held: Option<Held>,
    pub exchanges: Vec<Exchange>,
}

// Why nothing was called: the federation did not open, or there was no memory for the answers.
pub enum ReplayError<S, R> {
    NotOpened(NotOpened<S, R>),
    NoMemory(Federation<S, R>),
}

// Opens a federation and makes these calls on it. Of exactly these calls and their answers, and of the log and the table of the
// federation that is handed back, the law of lost work holds.
pub fn replay<S: SidedStore, R: ForcingRule>(
    name: u32,
    clusters: u8,
    nodes: u8,
    rule: R,
    store: S,
    calls: &[Call],
    heap: Global,
) -> Result<Replayed<S, R>, ReplayError<S, R>>
    ensures { Outcome R.ForcingRule.says S.Store.model name clusters nodes rule store calls.now result }
{
    let mut federation = Federation::open(name, clusters, nodes, rule, store, heap).map_err(
        ReplayError::NotOpened,
    )?;
    // no `?`: the federation goes back
    let Ok(mut exchanges) = Vec::with_capacity(heap, calls.len()) else {
        return Err(ReplayError::NoMemory(federation));
    };
    let held = make_all(&mut federation, calls, &mut exchanges);
    Ok(Replayed {
        federation,
        held,
        exchanges,
    })
}

fn make_all<S: SidedStore, R: ForcingRule>(
    federation: &mut Federation<S, R>,
    calls: &[Call],
    exchanges: &mut Vec<Exchange>,
) -> Option<Held>
    requires empty { exchanges.old.items ≡ [] }
    requires room { length calls.now ≤ vec_capacity exchanges.old }
    ensures { Run R.ForcingRule.says (shown S.Store.model federation.old) calls.now exchanges.new.items (shown S.Store.model federation.new) }
{
    let mut held = None;
    for call in calls {
        let Made {
            exchange,
            held: next,
        } = make(federation, held, *call);
        held = next;
        exchanges.push_reserved(exchange);
    }
    held
}
