//! Many edits of a store at once.
ghost use Rattle.std.specs.Prelude.{◌≡◌, ℕ, IfOk, OnErr, OnOk, map, true};
ghost use Rattle.std.specs.List.{All, AllPairs};
ghost use Rattle.model.specs.Entries.{IsNotBehind};
ghost use Rattle.store.specs.Stored.{content_of};
ghost use Rattle.patch.specs.Edits.{IsInside, IsSet, edited, removal_entry, set_entry};

use crate::Edit;
use crate::sorted::block_of_sorted;
use masks::{Joining, Mask, MaskTest, StoredMask, join_rows, write_back};
use model::{Entry, NoMemory};
use std::alloc::Global;
use store::{Sparse, Store};

/// Does edits, which come row by row, and writes all entries of their store anew.
pub(crate) fn merge_into(alloc: Global, store: &mut Store, edits: &[Edit]) -> Result<(), NoMemory>
    requires inside { All (IsInside store.old.rows store.old.cols) edits.now }
    requires order { AllPairs IsNotBehind (map set_entry edits.now) }
    ensures rows { store.new.rows ≡ store.old.rows }
    ensures cols { store.new.cols ≡ store.old.cols }
    ensures content { OnOk result ((i j : ℕ)
        → content_of store.new i j ≡ edited edits.now (content_of store.old) i j) }
    ensures refused { OnErr result (store.new ≡ store.old) }
{
    let merged = merge(alloc, store.as_sparse(alloc)?.get(), edits)?;
    *store = merged;
    Ok(())
}

/// A store after edits, which come row by row.
fn merge(alloc: Global, store: &Sparse, edits: &[Edit]) -> Result<Store, NoMemory>
    requires inside { All (IsInside store.now.rows store.now.cols) edits.now }
    requires order { AllPairs IsNotBehind (map set_entry edits.now) }
    ensures rows { IfOk result (λ merged. merged.rows ≡ store.now.rows) }
    ensures cols { IfOk result (λ merged. merged.cols ≡ store.now.cols) }
    ensures content { IfOk result (λ merged. (i j : ℕ)
        → content_of merged i j ≡ edited edits.now (content_of store.now) i j) }
{
    if are_sets(edits) {
        merge_sets(alloc, store, edits)
    } else {
        merge_any(alloc, store, edits)
    }
}

/// Whether edits set entries alone.
fn are_sets(edits: &[Edit]) -> bool
    ensures { result ≡ true → All IsSet edits.now }
{
    for edit in edits {
        if !is_set(*edit) {
            return false;
        }
    }
    true
}

/// Whether an edit sets an entry.
fn is_set(edit: Edit) -> bool
    ensures { result ≡ true → IsSet edit }
{
    matches!(edit, Edit::Set(_, _, _))
}

/// A store after edits that set entries alone: theirs are joined with its own.
fn merge_sets(alloc: Global, store: &Sparse, edits: &[Edit]) -> Result<Store, NoMemory>
    requires inside { All (IsInside store.now.rows store.now.cols) edits.now }
    requires order { AllPairs IsNotBehind (map set_entry edits.now) }
    requires sets { All IsSet edits.now }
    ensures rows { IfOk result (λ merged. merged.rows ≡ store.now.rows) }
    ensures cols { IfOk result (λ merged. merged.cols ≡ store.now.cols) }
    ensures content { IfOk result (λ merged. (i j : ℕ)
        → content_of merged i j ≡ edited edits.now (content_of store.now) i j) }
{
    let (rows, cols) = (store.rows(), store.cols());
    let words = block_of_sorted(alloc, set_entries(alloc, edits)?, None, 0..rows, cols)?;
    let words = Sparse::from_block(rows, words);
    let block = join_rows(alloc, store, &words, Joining::Right, 0..rows)?;
    Ok(Store::from_block(rows, block))
}

/// A store after edits of any kind.
fn merge_any(alloc: Global, store: &Sparse, edits: &[Edit]) -> Result<Store, NoMemory>
    requires inside { All (IsInside store.now.rows store.now.cols) edits.now }
    requires order { AllPairs IsNotBehind (map set_entry edits.now) }
    ensures rows { IfOk result (λ merged. merged.rows ≡ store.now.rows) }
    ensures cols { IfOk result (λ merged. merged.cols ≡ store.now.cols) }
    ensures content { IfOk result (λ merged. (i j : ℕ)
        → content_of merged i j ≡ edited edits.now (content_of store.now) i j) }
{
    let (rows, cols) = (store.rows(), store.cols());
    let words = block_of_sorted(alloc, set_entries(alloc, edits)?, None, 0..rows, cols)?;
    let removals = block_of_sorted(alloc, removal_entries(alloc, edits)?, None, 0..rows, cols)?;
    let removals = Store::from_block(rows, removals);
    let is_set = Mask::By(StoredMask {
        store: &removals,
        test: MaskTest {
            valued: true,
            complement: true,
        },
    });
    let kept = write_back(alloc, store, words, is_set, None, true)?;
    let is_edited = Mask::By(StoredMask {
        store: &removals,
        test: MaskTest {
            valued: false,
            complement: false,
        },
    });
    let block = write_back(alloc, store, kept, is_edited, None, false)?;
    Ok(Store::from_block(rows, block))
}

/// The entries that edits set.
fn set_entries(alloc: Global, edits: &[Edit]) -> Result<Vec<Entry>, NoMemory>
    ensures { IfOk result (λ entries. entries.items ≡ map set_entry edits.now) }
{
    let entries = edits.iter().map(|edit| set_entry(*edit)).collect(alloc)?;
    Ok(entries)
}

/// Entries where edits stand, with the words 1 for removals and 0 for others.
fn removal_entries(alloc: Global, edits: &[Edit]) -> Result<Vec<Entry>, NoMemory>
    ensures { IfOk result (λ entries. entries.items ≡ map removal_entry edits.now) }
{
    let entries = edits
        .iter()
        .map(|edit| removal_entry(*edit))
        .collect(alloc)?;
    Ok(entries)
}

/// The entry that an edit sets; where it removes one, the word is 0.
fn set_entry(edit: Edit) -> Entry
    ensures { result ≡ set_entry edit }
{
    match edit {
        Edit::Set(row, col, word) => Entry { row, col, word },
        Edit::Remove(row, col) => Entry { row, col, word: 0 },
    }
}

/// An entry where an edit stands, with the word 1 where it removes one, and else 0.
fn removal_entry(edit: Edit) -> Entry
    ensures { result ≡ removal_entry edit }
{
    let (row, col) = edit.place();
    let word = matches!(edit, Edit::Remove(_, _)) as u64;
    Entry { row, col, word }
}
