//! Counts of the places that still read slots.
ghost use Rattle.std.specs.Prelude.{◌≡◌, ◌≤◌, ◌<◌, ◌+◌, ◌-◌, ◌&&◌, ℕ, ◌^◌, false, if◌then◌else◌, length, map, nat_lt};
ghost use Rattle.std.specs.Prelude.{not, slice_get, slice_index, slice_set};
ghost use Rattle.std.specs.Option.{option_map, option_map_or};
ghost use Rattle.std.specs.Vec.{vec_capacity};
ghost use Rattle.stages.specs.Places.{place_of, places_of};
ghost use Rattle.stages.specs.Progress.{is_unfinished};
ghost use Rattle.stages.specs.Stages.{is_among, is_at, progress_of, released_if};

use crate::inputs::Inputs;
use crate::stage::{Stage, is_done, is_unfinished, put};

/// Each of these places reads its slot no longer.
pub fn read_less(reads: &mut Vec<u64>, inputs: &Inputs)
    requires { (k : ℕ) → places_of inputs.now k ≤ slice_index reads.old.items k }
    ensures counts { (k : ℕ) → slice_index reads.new.items k + places_of inputs.now k ≡ slice_index reads.old.items k }
    ensures sized { length reads.new.items ≡ length reads.old.items }
{
    one_less(reads, inputs.old());
    one_less(reads, inputs.mask());
    one_less(reads, inputs.first());
    one_less(reads, inputs.second());
}

fn one_less(reads: &mut Vec<u64>, input: Option<u64>)
    requires { (k : ℕ) → place_of input k ≤ slice_index reads.old.items k }
    ensures counts { (k : ℕ) → slice_index reads.new.items k + place_of input k ≡ slice_index reads.old.items k }
    ensures sized { length reads.new.items ≡ length reads.old.items }
{
    let Some(number) = input else { return };
    if let Some(reads) = reads.get_mut(number as usize) {
        *reads -= 1;
    }
}

/// Each of these places reads its slot.
pub fn read_more(reads: &mut Vec<u64>, inputs: &Inputs)
    requires room { (k : ℕ) → slice_index reads.old.items k + places_of inputs.now k < 2 ^ 64 }
    requires there { (k : ℕ) → 0 < places_of inputs.now k → k < length reads.old.items }
    ensures counts { (k : ℕ) → slice_index reads.new.items k ≡ slice_index reads.old.items k + places_of inputs.now k }
    ensures sized { length reads.new.items ≡ length reads.old.items }
    ensures capacity { vec_capacity reads.new ≡ vec_capacity reads.old }
{
    one_more(reads, inputs.old());
    one_more(reads, inputs.mask());
    one_more(reads, inputs.first());
    one_more(reads, inputs.second());
}

fn one_more(reads: &mut Vec<u64>, input: Option<u64>)
    requires room { (k : ℕ) → slice_index reads.old.items k + place_of input k < 2 ^ 64 }
    requires there { (k : ℕ) → 0 < place_of input k → k < length reads.old.items }
    ensures counts { (k : ℕ) → slice_index reads.new.items k ≡ slice_index reads.old.items k + place_of input k }
    ensures sized { length reads.new.items ≡ length reads.old.items }
    ensures capacity { vec_capacity reads.new ≡ vec_capacity reads.old }
{
    let Some(number) = input else { return };
    if let Some(reads) = reads.get_mut(number as usize) {
        *reads += 1;
    }
}

/// The store of a slot goes where nobody needs it.
#[inline(always)]
pub fn release(stages: &mut Vec<Stage>, holds: &[u64], reads: &[u64], input: Option<u64>)
    ensures { (k : ℕ) → slice_get stages.new.items k
        ≡ option_map (released_if (is_at input k) (slice_index holds.now k + slice_index reads.now k))
        (slice_get stages.old.items k) }
{
    let Some(number) = input else { return };
    if is_used(holds, number) || is_used(reads, number) || !is_done(stages, number) {
        return;
    }
    put(stages, number, Stage::Gone);
}

/// Whether a slot is to come, nobody holds it, and no place reads it.
pub fn is_unasked(stages: &[Stage], holds: &[u64], reads: &[u64], number: u64) -> bool
    ensures { result ≡ (option_map_or is_unfinished (slice_get (map progress_of stages.now) number) false
        && (not (nat_lt 0 (slice_index holds.now number)) && not (nat_lt 0 (slice_index reads.now number)))) }
{
    is_unfinished(stages, number) && !is_used(holds, number) && !is_used(reads, number)
}

/// Whether a count isn't 0.
pub fn is_used(counts: &[u64], number: u64) -> bool
    ensures { result ≡ nat_lt 0 (slice_index counts.now number) }
{
    match counts.get(number as usize) {
        Some(count) => *count > 0,
        None => false,
    }
}

/// The stores of these slots go where nobody needs them.
pub fn release_each(stages: &mut Vec<Stage>, holds: &[u64], reads: &[u64], inputs: &Inputs)
    ensures { (k : ℕ) → slice_get stages.new.items k
        ≡ option_map (released_if (is_among inputs.now k) (slice_index holds.now k + slice_index reads.now k))
        (slice_get stages.old.items k) }
{
    release(stages, holds, reads, inputs.old());
    release(stages, holds, reads, inputs.mask());
    release(stages, holds, reads, inputs.first());
    release(stages, holds, reads, inputs.second());
}

/// One hold more, where it can be counted. Says whether it could.
pub fn hold_more(holds: &mut Vec<u64>, number: u64) -> bool
    requires { number < length holds.old.items }
    ensures counted { result ≡ nat_lt (slice_index holds.old.items number) 18446744073709551615 }
    ensures holds { holds.new.items
        ≡ (if result then slice_set holds.old.items number (slice_index holds.old.items number + 1)
        else holds.old.items) }
{
    let count = holds[number as usize];
    if count == u64::MAX {
        return false;
    }
    holds[number as usize] = count + 1;
    true
}

/// One hold less, where one is left. Says whether one was.
pub fn hold_less(holds: &mut Vec<u64>, number: u64) -> bool
    requires { number < length holds.old.items }
    ensures counted { result ≡ nat_lt 0 (slice_index holds.old.items number) }
    ensures holds { holds.new.items
        ≡ (if result then slice_set holds.old.items number (slice_index holds.old.items number - 1)
        else holds.old.items) }
{
    let count = holds[number as usize];
    if count == 0 {
        return false;
    }
    holds[number as usize] = count - 1;
    true
}
