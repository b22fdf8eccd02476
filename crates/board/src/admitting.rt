//! What a slot begins with.
ghost use Rattle.std.specs.Prelude.{◌≡◌, ◌+◌, ◌<◌, ◌≤◌, ◌++◌, ◌∷◌, ℕ, [], ◌^◌, if◌then◌else◌, length, map, not, true};
ghost use Rattle.std.specs.Prelude.{slice_get, slice_index, vec_len};
ghost use Rattle.std.specs.Bool.{OnTrue};
ghost use Rattle.std.specs.Vec.{vec_capacity};
ghost use Rattle.std.specs.VecDeque.{deque_capacity, deque_len};
ghost use Rattle.stages.specs.Places.{each, passes, places_of};
ghost use Rattle.stages.specs.Progress.{is_failed, is_made};
ghost use Rattle.stages.specs.Stages.{progress_of};

use calls::Recipe;
use stages::{Inputs, Readers, Slot, Stage, is_failed, read_more};
use std::collections::VecDeque;

// No memory holds so many slots; so many places can be counted.
const MOST_SLOTS: usize = 1 << 60;

/// Whether a slot with these inputs waits, as it does where none has failed. Where all were made none is looked at.
pub(crate) fn may_wait(stages: &[Stage], inputs: &Inputs, made: bool) -> bool
    requires { made ≡ true → each (λ i. is_made (slice_get (map progress_of stages.now) i)) inputs.now ≡ true }
    ensures { result ≡ each (λ i. not (is_failed (slice_get (map progress_of stages.now) i))) inputs.now }
{
    made || none_failed(stages, inputs)
}

/// Whether none of these has failed.
pub(crate) fn none_failed(stages: &[Stage], inputs: &Inputs) -> bool
    ensures { result ≡ each (λ i. not (is_failed (slice_get (map progress_of stages.now) i))) inputs.now }
{
    has_not_failed(stages, inputs.old())
        && has_not_failed(stages, inputs.mask())
        && has_not_failed(stages, inputs.first())
        && has_not_failed(stages, inputs.second())
}

fn has_not_failed(stages: &[Stage], input: Option<u64>) -> bool
    ensures { result ≡ passes (λ i. not (is_failed (slice_get (map progress_of stages.now) i))) input }
{
    match input {
        Some(number) => !is_failed(stages, number),
        None => true,
    }
}

/// A slot waits where none of its inputs has failed.
pub(crate) fn first_stage(recipe: Recipe, waits: bool) -> Stage
    ensures { result ≡ (if waits then Stage.Untaken recipe else Stage.Failed) }
{
    if waits {
        Stage::Untaken(recipe)
    } else {
        Stage::Failed
    }
}

/// Each of these places reads its slot, where the new slot waits.
pub(crate) fn read_if(reads: &mut Vec<u64>, inputs: &Inputs, waits: bool)
    requires room { (k : ℕ) → slice_index reads.old.items k + places_of inputs.now k < 2 ^ 64 }
    requires there { (k : ℕ) → 0 < places_of inputs.now k → k < length reads.old.items }
    ensures counts { (k : ℕ) → slice_index reads.new.items k
        ≡ slice_index reads.old.items k + (if waits then places_of inputs.now k else 0) }
    ensures sized { length reads.new.items ≡ length reads.old.items }
    ensures capacity { vec_capacity reads.new ≡ vec_capacity reads.old }
{
    if waits {
        read_more(reads, inputs);
    }
}

/// A number is the last of those that can be taken, where it can.
pub(crate) fn offer(ready: &mut VecDeque<u64>, number: u64, is_ready: bool)
    requires { deque_len ready.old < deque_capacity ready.old }
    ensures numbers { ready.new.items ≡ ready.old.items ++ (if is_ready then number ∷ [] else []) }
    ensures capacity { deque_capacity ready.old ≤ deque_capacity ready.new }
{
    if is_ready {
        let _ = ready.push_back(number);
    }
}

/// Makes room for one slot more, and says whether there is.
pub(crate) fn make_room<N>(
    slots: &mut Vec<Slot<N>>,
    stages: &mut Vec<Stage>,
    holds: &mut Vec<u64>,
    reads: &mut Vec<u64>,
    readers: &mut Vec<Readers>,
    ready: &mut VecDeque<u64>,
) -> bool
    requires { length ready.old.items ≤ length slots.old.items }
    ensures slots { slots.new.items ≡ slots.old.items }
    ensures stages { stages.new.items ≡ stages.old.items }
    ensures holds { holds.new.items ≡ holds.old.items }
    ensures reads { reads.new.items ≡ reads.old.items }
    ensures readers { readers.new.items ≡ readers.old.items }
    ensures ready { ready.new.items ≡ ready.old.items }
    ensures few { OnTrue result (length slots.old.items < 1152921504606846976) }
    ensures slots_room { OnTrue result (vec_len slots.new < vec_capacity slots.new) }
    ensures stages_room { OnTrue result (vec_len stages.new < vec_capacity stages.new) }
    ensures holds_room { OnTrue result (vec_len holds.new < vec_capacity holds.new) }
    ensures reads_room { OnTrue result (vec_len reads.new < vec_capacity reads.new) }
    ensures readers_room { OnTrue result (vec_len readers.new < vec_capacity readers.new) }
    ensures ready_room { OnTrue result (length slots.old.items + 1 ≤ deque_capacity ready.new) }
    ensures ready_grows { deque_capacity ready.old ≤ deque_capacity ready.new }
{
    if slots.len() >= MOST_SLOTS {
        return false;
    }
    if slots.reserve(1).is_err() {
        return false;
    }
    if stages.reserve(1).is_err() {
        return false;
    }
    if holds.reserve(1).is_err() {
        return false;
    }
    if reads.reserve(1).is_err() {
        return false;
    }
    if readers.reserve(1).is_err() {
        return false;
    }
    ready.reserve(slots.len() + 1 - ready.len()).is_ok()
}
