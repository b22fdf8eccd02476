//! Edits that wait beside a store.
ghost use Rattle.std.specs.Prelude.{◌≡◌, ℕ, [], IsPermutation, OnErr, OnOk, take};
ghost use Rattle.std.specs.List.{All};
ghost use Rattle.patch.specs.Edits.{IsInside, edited, edited_once};
ghost use Rattle.store.specs.Stored.{content_of};

use crate::merging::merge_into;
use fitting::suits_bitmap;
use model::NoMemory;
use std::alloc::Global;
use store::{Form, Store};

/// An edit of one position: a row and a column, and the word that is set there.
#[derive(Clone, Copy)]
pub enum Edit {
    /// Sets an entry (`GrB_Matrix_setElement`, `GrB_Vector_setElement`).
    Set(u64, u64, u64),
    /// Removes an entry, where there is one (`GrB_Matrix_removeElement`, `GrB_Vector_removeElement`).
    Remove(u64, u64),
}

impl Edit {
    ghost use Rattle.patch.specs.Edits.{place_of};

    /// The row and the column.
    pub(crate) fn place(self) -> (u64, u64)
        ensures { result ≡ place_of self }
    {
        match self {
            Edit::Set(i, j, _) | Edit::Remove(i, j) => (i, j),
        }
    }
}

// So many edits of lists are done in place, each of which may move all entries behind it. On a large store more of
// them would take longer than to write all entries anew.
const FEW_EDITS: usize = 16;

/// Does the edits that wait beside a store, from the first to the last, of which at each position the last
/// stands. An error leaves a store and edits that together mean what they meant: all edits, of which the first ones may
/// be done already.
///
/// A few edits are done in place, and so are more of them in a bitmap that is well filled, each in constant time. Else
/// they are sorted, and all entries written anew, in a time that follows the number of entries and the sort. After many
/// of them a store is kept in the form that suits it.
pub fn apply_edits(alloc: Global, store: &mut Store, edits: &mut Vec<Edit>) -> Result<(), NoMemory>
    requires { All (IsInside store.old.rows store.old.cols) edits.old.items }
    ensures done { OnOk result (edits.new.items ≡ []) }
    ensures rows { store.new.rows ≡ store.old.rows }
    ensures cols { store.new.cols ≡ store.old.cols }
    ensures inside { All (IsInside store.old.rows store.old.cols) edits.new.items }
    ensures left { OnErr result (IsPermutation edits.old.items edits.new.items) }
    ensures partly { OnErr result ((n : ℕ) × ((i j : ℕ)
        → content_of store.new i j ≡ edited (take n edits.old.items) (content_of store.old) i j)) }
    ensures meaning { (i j : ℕ) → edited edits.new.items (content_of store.new) i j
        ≡ edited edits.old.items (content_of store.old) i j }
{
    let few = edits.len() <= FEW_EDITS;
    if few || is_well_filled(store) {
        apply(store, edits)?;
    } else {
        // The order of edits matters only among those of one position, which a stable sort keeps.
        edits.sort_by_key(|edit| edit.place())?;
        merge_into(alloc, store, edits)?;
    }
    edits.clear();
    if !few {
        store.settle(alloc);
    }
    Ok(())
}

/// Whether a store is a bitmap in which many positions have an entry, so that it stays one.
fn is_well_filled(store: &Store) -> bool {
    matches!(store.form(), Form::Bitmap(_))
        && suits_bitmap(store.rows(), store.cols(), store.nvals())
}

/// Does edits one by one. After an error some are done, and to do them again changes nothing.
fn apply(store: &mut Store, edits: &[Edit]) -> Result<(), NoMemory>
    requires { All (IsInside store.old.rows store.old.cols) edits.now }
    ensures rows { store.new.rows ≡ store.old.rows }
    ensures cols { store.new.cols ≡ store.old.cols }
    ensures content { OnOk result ((i j : ℕ)
        → content_of store.new i j ≡ edited edits.now (content_of store.old) i j) }
    ensures partly { OnErr result ((n : ℕ) × ((i j : ℕ)
        → content_of store.new i j ≡ edited (take n edits.now) (content_of store.old) i j)) }
    ensures meaning { (i j : ℕ) → edited edits.now (content_of store.new) i j
        ≡ edited edits.now (content_of store.old) i j }
{
    for edit in edits {
        apply_one(store, *edit)?;
    }
    Ok(())
}

/// Does one edit. An error leaves the store as it was.
fn apply_one(store: &mut Store, edit: Edit) -> Result<(), NoMemory>
    requires { IsInside store.old.rows store.old.cols edit }
    ensures rows { store.new.rows ≡ store.old.rows }
    ensures cols { store.new.cols ≡ store.old.cols }
    ensures content { OnOk result ((i j : ℕ)
        → content_of store.new i j ≡ edited_once (content_of store.old) edit i j) }
    ensures refused { OnErr result (store.new ≡ store.old) }
{
    match edit {
        Edit::Set(i, j, word) => store.set(i, j, word),
        Edit::Remove(i, j) => {
            store.remove(i, j);
            Ok(())
        }
    }
}
