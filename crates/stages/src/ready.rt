//! The slots that can be taken: their numbers, rising.
ghost use Rattle.std.specs.Prelude.{◌≡◌, ◌≤◌, ◌<◌, ◌||◌, ◌&&◌, ◌==◌, ◌≢◌, ℕ, Bool as Test, MatchBool, Some, not};
ghost use Rattle.std.specs.Prelude.{insert, remove, slice_get};
ghost use Rattle.std.specs.VecDeque.{deque_capacity, deque_len};
ghost use Rattle.stages.specs.Numbers.{IsPlace, numbers};

use std::collections::VecDeque;

/// A number is among those that rise.
pub fn insert(ready: &mut VecDeque<u64>, number: u64)
    ensures numbers { (p : ℕ → Test) (n : ℕ) → ready.old.items ≡ numbers p n → number < n → n ≤ deque_capacity ready.old
        → ready.new.items ≡ numbers (λ k. p k || (k == number)) n }
    ensures capacity { deque_capacity ready.old ≤ deque_capacity ready.new }
{
    let place = place_of(ready, number);
    if stands_at(ready, place, number) {
        return;
    }
    let _ = put_at(ready, place, number);
}

/// A number comes to stand at a place, where there is room. At the end no other moves.
fn put_at(ready: &mut VecDeque<u64>, place: usize, number: u64) -> bool
    requires { place ≤ deque_len ready.old }
    ensures items { MatchBool result (ready.new.items ≡ insert ready.old.items place number)
        (deque_capacity ready.old ≤ deque_len ready.old) }
    ensures capacity { deque_capacity ready.old ≤ deque_capacity ready.new }
{
    if place == ready.len() {
        return ready.push_back(number).is_ok();
    }
    ready.insert(place, number).is_ok()
}

/// A number is among them no longer, if it was.
pub fn withdraw(ready: &mut VecDeque<u64>, number: u64)
    ensures numbers { (p : ℕ → Test) (n : ℕ) → ready.old.items ≡ numbers p n → number < n
        → ready.new.items ≡ numbers (λ k. p k && not (k == number)) n }
    ensures capacity { deque_capacity ready.old ≤ deque_capacity ready.new }
{
    let place = place_of(ready, number);
    if stands_at(ready, place, number) {
        remove_at(ready, place);
    }
}

/// What stands at a place is among them no longer. The first is taken off, so that no other moves.
pub fn remove_at(ready: &mut VecDeque<u64>, at: usize)
    requires { at < deque_len ready.old }
    ensures items { ready.new.items ≡ remove ready.old.items at }
    ensures capacity { deque_capacity ready.new ≡ deque_capacity ready.old }
{
    if at == 0 {
        let _ = ready.pop_front();
        return;
    }
    let _ = ready.remove(at);
}

fn stands_at(ready: &VecDeque<u64>, place: usize, number: u64) -> bool
    ensures { MatchBool result (slice_get ready.now.items place ≡ Some number)
        (slice_get ready.now.items place ≢ Some number) }
{
    match ready.get(place) {
        Some(found) => *found == number,
        None => false,
    }
}

/// The place of a number among those that rise. The highest are looked at first, since most numbers come last.
pub fn place_of(ready: &VecDeque<u64>, number: u64) -> usize
    ensures { IsPlace ready.now.items number result }
{
    for place in (0..ready.len()).rev() {
        if ready[place] < number {
            return place + 1;
        }
    }
    0
}
