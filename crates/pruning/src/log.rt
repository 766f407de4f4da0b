// What stays of the log, and which messages go again.
ghost use Rattle.std.specs.Prelude.{◌≡◌, ◌≤◌, not, length, filter, vec_capacity, slice_index};
ghost use Rattle.law.specs.Restarts.{undone, receipt_left, unreceived, log_back, to_go_again, again as go_again};
ghost use Rattle.law.specs.Trials.{received_from, log_from};

use crate::entry;
use arrayvec::ArrayVec;
use book::STAYS;
use law::Logged;

// A message stays if it is undelivered, or its receipt number is not below its receiver's bound.
fn is_needed(logged: &Logged, bounds: &[u32; 8]) -> bool
    ensures { result ≡ received_from (slice_index bounds.now logged.now.message.to) logged.now.receipt }
{
    logged
        .receipt
        .is_none_or(|receipt| entry(bounds, logged.message.to) <= receipt)
}

// The log without the messages that no later fault can need.
pub fn log_from(log: &mut Vec<Logged>, bounds: &[u32; 8])
    ensures items { log.new.items ≡ log_from bounds.now log.old.items }
    ensures capacity { vec_capacity log.new ≡ vec_capacity log.old }
{
    log.retain(|logged| is_needed(logged, bounds));
}

// A message whose sending is not undone stays.
fn drop_undone(log: &mut Vec<Logged>, places: &[u32; 8])
    ensures items { log.new.items ≡ filter (λ m. not (undone places.now m)) log.old.items }
    ensures capacity { vec_capacity log.new ≡ vec_capacity log.old }
{
    log.retain(|logged| logged.message.number < entry(places, logged.message.from));
}

// The log after clusters went back: undone messages are gone, and receipts at or above the receiver's place are cleared.
pub fn log_back(log: &mut Vec<Logged>, places: &[u32; 8])
    ensures items { log.new.items ≡ log_back places.now log.old.items }
    ensures capacity { vec_capacity log.new ≡ vec_capacity log.old }
{
    drop_undone(log, places);
    for logged in log.iter_mut() {
        *logged = unreceive(*logged, places);
    }
}

// A message as it stands after its receiver went back.
fn unreceive(logged: Logged, places: &[u32; 8]) -> Logged
    ensures { result ≡ unreceived places.now logged }
{
    Logged {
        receipt: receipt_left(logged.receipt, entry(places, logged.message.to)),
        ..logged
    }
}

// A receipt number given at or above the receiver's place is cleared.
fn receipt_left(receipt: Option<u32>, place: u32) -> Option<u32>
    ensures { result ≡ receipt_left place receipt }
{
    receipt.filter(|number| *number < place)
}

// Whether a message goes again: it is undelivered, and its receiver was called back.
fn goes_again(logged: &Logged, places: &[u32; 8]) -> bool
    ensures { result ≡ to_go_again places.now logged.now }
{
    entry(places, logged.message.to) != STAYS && logged.receipt.is_none()
}

// The ids of the messages that go again, ascending.
pub fn again(log: &[Logged], places: &[u32; 8]) -> ArrayVec<u32, 128>
    requires { length log.now ≤ 128 }
    ensures { result.items ≡ go_again places.now log.now }
{
    // not extend: it can fail where a vector is full, which this one never is
    let mut ids = ArrayVec::new();
    for logged in log {
        if goes_again(logged, places) {
            ids.push(logged.message.id);
        }
    }
    ids
}
