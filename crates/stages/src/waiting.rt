//! Who waits for slots.
ghost use Rattle.std.specs.Prelude.{◌≡◌, ◌<◌, ◌||◌, OnOk, length, map, nat_lt, slice_get, true};
ghost use Rattle.stages.specs.Flows.{Grows};
ghost use Rattle.stages.specs.Numbers.{has_in};
ghost use Rattle.stages.specs.Places.{each, passes};
ghost use Rattle.stages.specs.Progress.{is_made};
ghost use Rattle.stages.specs.Stages.{progress_of};

use crate::inputs::Inputs;
use crate::stage::{Stage, is_made};
use model::NoMemory;
use smallvec::SmallVec;

/// The slots that are looked at once a slot was made.
pub type Readers = SmallVec<u64, 2>;

/// A slot is looked at once each of its inputs was made, where one wasn't. Refused, it may be looked at in vain.
pub fn wait_for(
    readers: &mut Vec<Readers>,
    stages: &[Stage],
    number: u64,
    inputs: &Inputs,
    made: bool,
) -> Result<(), NoMemory>
    requires low { each (λ i. nat_lt i (length readers.old.items)) inputs.now ≡ true }
    requires made { made ≡ true → each (λ i. is_made (slice_get (map progress_of stages.now) i)) inputs.now ≡ true }
    ensures grows { Grows (map (λ r. r.items) readers.old.items) (map (λ r. r.items) readers.new.items) }
    ensures waits { OnOk result (each (λ i. is_made (slice_get (map progress_of stages.now) i)
        || has_in number (slice_get (map (λ r. r.items) readers.new.items) i)) inputs.now ≡ true) }
{
    if made {
        return Ok(());
    }
    wait_for_one(readers, stages, number, inputs.old())?;
    wait_for_one(readers, stages, number, inputs.mask())?;
    wait_for_one(readers, stages, number, inputs.first())?;
    wait_for_one(readers, stages, number, inputs.second())?;
    Ok(())
}

/// It is inlined, since most roles have no slot.
#[inline(always)]
fn wait_for_one(
    readers: &mut Vec<Readers>,
    stages: &[Stage],
    number: u64,
    input: Option<u64>,
) -> Result<(), NoMemory>
    requires { passes (λ i. nat_lt i (length readers.old.items)) input ≡ true }
    ensures grows { Grows (map (λ r. r.items) readers.old.items) (map (λ r. r.items) readers.new.items) }
    ensures waits { OnOk result (passes (λ i. is_made (slice_get (map progress_of stages.now) i)
        || has_in number (slice_get (map (λ r. r.items) readers.new.items) i)) input ≡ true) }
{
    let Some(input) = input else { return Ok(()) };
    if is_made(stages, input) {
        return Ok(());
    }
    add(readers, input, number)?;
    Ok(())
}

#[inline(never)]
fn add(readers: &mut Vec<Readers>, input: u64, number: u64) -> Result<(), NoMemory>
    requires { input < length readers.old.items }
    ensures grows { Grows (map (λ r. r.items) readers.old.items) (map (λ r. r.items) readers.new.items) }
    ensures added { OnOk result (has_in number (slice_get (map (λ r. r.items) readers.new.items) input) ≡ true) }
{
    let list = &mut readers[input as usize];
    list.push(number)?;
    Ok(())
}
