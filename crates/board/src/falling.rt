//! Slots that fail.
ghost use Rattle.std.specs.Prelude.{◌≡◌, ◌≤◌, ◌<◌, ◌+◌, List, false, length, map, not, slice_get, slice_set, true};
ghost use Rattle.std.specs.Option.{option_map_or};
ghost use Rattle.board.specs.Falls.{KeepsReady, fall_at, fallen_below, falls};
ghost use Rattle.board.specs.Falling.{IsFalling};
ghost use Rattle.stages.specs.Places.{each};
ghost use Rattle.stages.specs.Progress.{Failed, Progress as AnyProgress, is_failed, is_unfinished};
ghost use Rattle.stages.specs.Slots.{task_of};
ghost use Rattle.stages.specs.Stages.{progress_of};

use crate::admitting::none_failed;
use stages::{Slot, Stage, is_unfinished, put, read_less, release_each};

/// A slot fails, and its places read their slots no longer.
pub(crate) fn end<N>(
    slots: &[Slot<N>],
    stages: &mut Vec<Stage>,
    holds: &[u64],
    reads: &mut Vec<u64>,
    number: u64,
)
    requires falling { IsFalling number (map task_of slots.now) stages.old.items holds.now reads.old.items }
    requires unfinished { option_map_or is_unfinished (slice_get (map progress_of stages.old.items) number) false
        ≡ true }
    ensures falling { IsFalling (number + 1) (map task_of slots.now) stages.new.items holds.now reads.new.items }
    ensures progress { map progress_of stages.new.items ≡ slice_set (map progress_of stages.old.items) number Failed }
{
    let inputs = &slots[number as usize].inputs;
    put(stages, number, Stage::Failed);
    read_less(reads, inputs);
    release_each(stages, holds, reads, inputs);
}

/// A slot fails where it is unfinished and an input has failed.
fn fall<N>(
    slots: &[Slot<N>],
    stages: &mut Vec<Stage>,
    holds: &[u64],
    reads: &mut Vec<u64>,
    number: u64,
)
    requires falling { IsFalling number (map task_of slots.now) stages.old.items holds.now reads.old.items }
    requires within { number < length slots.now }
    ensures falling { IsFalling (number + 1) (map task_of slots.now) stages.new.items holds.now reads.new.items }
    ensures progress { map progress_of stages.new.items
        ≡ fall_at (map task_of slots.now) number (map progress_of stages.old.items) }
    ensures keeps { KeepsReady (map task_of slots.now) (map progress_of stages.old.items)
        (map progress_of stages.new.items) }
{
    if is_falling(slots, stages, number) {
        end(slots, stages, holds, reads, number);
    }
}

fn is_falling<N>(slots: &[Slot<N>], stages: &[Stage], number: u64) -> bool
    ensures { result ≡ falls (map task_of slots.now) (map progress_of stages.now) number }
{
    is_unfinished(stages, number) && has_failed_input(slots, stages, number)
}

fn has_failed_input<N>(slots: &[Slot<N>], stages: &[Stage], number: u64) -> bool
    ensures { result ≡ option_map_or
        (λ t. not (each (λ i. not (is_failed (slice_get (map progress_of stages.now) i))) t.inputs))
        (slice_get (map task_of slots.now) number) false }
{
    match slots.get(number as usize) {
        Some(slot) => !none_failed(stages, &slot.inputs),
        None => false,
    }
}

/// Slots from a first one on fail where they are unfinished and an input has failed.
pub(crate) fn spread<N>(
    slots: &[Slot<N>],
    stages: &mut Vec<Stage>,
    holds: &[u64],
    reads: &mut Vec<u64>,
    first: u64,
)
    requires falling { IsFalling first (map task_of slots.now) stages.old.items holds.now reads.old.items }
    requires within { first ≤ length slots.now }
    ensures falling { IsFalling (length slots.now) (map task_of slots.now) stages.new.items holds.now reads.new.items }
    ensures progress { (ps : List AnyProgress)
        → map progress_of stages.old.items ≡ fallen_below (map task_of slots.now) first ps
        → map progress_of stages.new.items ≡ fallen_below (map task_of slots.now) (length slots.now) ps }
    ensures keeps { KeepsReady (map task_of slots.now) (map progress_of stages.old.items)
        (map progress_of stages.new.items) }
{
    for number in first..slots.len() as u64 {
        fall(slots, stages, holds, reads, number);
    }
}
