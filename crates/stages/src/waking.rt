//! What can be taken once a slot was made.
ghost use Rattle.std.specs.Prelude.{◌≡◌, ◌≤◌, ◌<◌, ◌||◌, ◌&&◌, ◌==◌, ℕ, Bool as Test, length, map, slice_get};
ghost use Rattle.std.specs.VecDeque.{deque_capacity};
ghost use Rattle.stages.specs.Numbers.{has, numbers};
ghost use Rattle.stages.specs.Progress.{is_joining, is_running};
ghost use Rattle.stages.specs.Slots.{task_of};
ghost use Rattle.stages.specs.Stages.{progress_of};
ghost use Rattle.stages.specs.Views.{is_ready};

use crate::ready::insert;
use crate::slot::Slot;
use crate::stage::{Stage, are_made, is_joining, is_running, is_untaken};
use std::collections::VecDeque;

/// Those of the readers that can be taken are among those that can.
pub fn wake<N>(ready: &mut VecDeque<u64>, slots: &[Slot<N>], stages: &[Stage], readers: &[u64])
    ensures numbers { (p : ℕ → Test) → ready.old.items ≡ numbers p (length (map task_of slots.now))
        → length (map task_of slots.now) ≤ deque_capacity ready.old
        → ready.new.items ≡ numbers (λ k. p k
        || (has k readers.now && is_ready (map task_of slots.now) (map progress_of stages.now) k))
        (length (map task_of slots.now)) }
    ensures capacity { deque_capacity ready.old ≤ deque_capacity ready.new }
{
    for reader in readers {
        wake_one(ready, slots, stages, *reader);
    }
}

fn wake_one<N>(ready: &mut VecDeque<u64>, slots: &[Slot<N>], stages: &[Stage], reader: u64)
    ensures numbers { (p : ℕ → Test) → ready.old.items ≡ numbers p (length (map task_of slots.now))
        → length (map task_of slots.now) ≤ deque_capacity ready.old
        → ready.new.items ≡ numbers (λ k. p k
        || ((reader == k) && is_ready (map task_of slots.now) (map progress_of stages.now) k))
        (length (map task_of slots.now)) }
    ensures capacity { deque_capacity ready.old ≤ deque_capacity ready.new }
{
    if is_ready(slots, stages, reader) {
        insert(ready, reader);
    }
}

/// Whether a slot can be taken, or somebody works on it.
pub fn can_fail<N>(slots: &[Slot<N>], stages: &[Stage], number: u64) -> bool
    ensures { result ≡ is_ready (map task_of slots.now) (map progress_of stages.now) number
        || (is_running (slice_get (map progress_of stages.now) number)
        || is_joining (slice_get (map progress_of stages.now) number)) }
{
    is_ready(slots, stages, number) || is_running(stages, number) || is_joining(stages, number)
}

/// Whether a slot can be taken.
fn is_ready<N>(slots: &[Slot<N>], stages: &[Stage], number: u64) -> bool
    ensures { result ≡ is_ready (map task_of slots.now) (map progress_of stages.now) number }
{
    match slots.get(number as usize) {
        Some(slot) => is_untaken(stages, number) && are_made(stages, &slot.inputs),
        None => false,
    }
}
