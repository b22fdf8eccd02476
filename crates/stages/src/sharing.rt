//! The stores of slots, for a piece.
ghost use Rattle.std.specs.Prelude.{◌≡◌, ◌==◌, ◌&&◌, IfOk, OnErr, OnOk, slice_get, slice_index, true};
ghost use Rattle.std.specs.Arc.{arc_value};
ghost use Rattle.std.specs.Option.{option_map};
ghost use Rattle.stages.specs.Places.{passes};
ghost use Rattle.stages.specs.Sharing.{stages_after, stored_at};
ghost use Rattle.stages.specs.Stages.{has_store};

use crate::stage::{Stage, store_of, take_store};
use model::NoMemory;
use std::sync::Arc;
use store::Store;

/// Another share of a store.
pub fn again(store: &Arc<Store>) -> Result<Arc<Store>, NoMemory>
    ensures { IfOk result (λ share. arc_value share ≡ arc_value store.now) }
{
    Arc::try_clone(store).map_err(|_| NoMemory)
}

/// A share of the store of a slot, where there is one.
pub fn share(stages: &[Stage], input: Option<u64>) -> Result<Option<Arc<Store>>, NoMemory>
    requires { passes (λ i. has_store (slice_get stages.now i)) input ≡ true }
    ensures { IfOk result (λ o. option_map (λ s. arc_value s) o ≡ stored_at stages.now input) }
{
    let Some(number) = input else { return Ok(None) };
    match store_of(stages, number) {
        Some(store) => {
            let share = again(store)?;
            Ok(Some(share))
        }
        None => Ok(None),
    }
}

/// The store of a slot, where there is one: the store itself, where nobody else needs it, and else a share.
pub fn claim(
    stages: &mut Vec<Stage>,
    holds: &[u64],
    reads: &[u64],
    input: Option<u64>,
) -> Result<Option<Arc<Store>>, NoMemory>
    requires { passes (λ i. has_store (slice_get stages.old.items i)) input ≡ true }
    ensures store { IfOk result (λ o. option_map (λ s. arc_value s) o ≡ stored_at stages.old.items input) }
    ensures stages { OnOk result (stages.new.items ≡ stages_after stages.old.items holds.now reads.now input) }
    ensures err { OnErr result (stages.new.items ≡ stages.old.items) }
{
    let Some(number) = input else { return Ok(None) };
    if is_sole(holds, reads, number) {
        let store = take_store(stages, number);
        return Ok(Some(store));
    }
    let shared = share(stages, Some(number))?;
    Ok(shared)
}

/// Whether one place alone needs a slot.
fn is_sole(holds: &[u64], reads: &[u64], number: u64) -> bool
    ensures { result ≡ (slice_index holds.now number == 0) && (slice_index reads.now number == 1) }
{
    count_at(holds, number) == 0 && count_at(reads, number) == 1
}

fn count_at(counts: &[u64], number: u64) -> u64
    ensures { result ≡ slice_index counts.now number }
{
    match counts.get(number as usize) {
        Some(count) => *count,
        None => 0,
    }
}
