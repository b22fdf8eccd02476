//! The places of columns in a list, for many looks.
ghost use Rattle.std.specs.Prelude.{◌≡◌, ◌<◌, ◌+◌, ℕ, [], bit_and, false, get_or, length, map, slice_index, true, IfOk};
ghost use Rattle.model.specs.Entries.{row_entries};
ghost use Rattle.model.specs.Indices.{These, are_below};
ghost use Rattle.store.specs.Stored.{content_of};
ghost use Rattle.shapes.specs.Collects.{index_content};

use model::{Entry, NoMemory};
use patch::gather;
use std::alloc::Global;
use store::{RowHints, Sparse};

/// The places of columns in a list, with marks by which most columns that aren't listed are told at once: a
/// column has the mark of its last bits.
#[derive(Drop)]
pub(crate) struct Places {
    /// In the row of each column a 0 at each of its places.
    pub store: Sparse,
    hints: RowHints,
    marks: Vec<bool>,
    mask: u64,
    ghost exact: { (col : ℕ) → get_or marks.items (bit_and col mask) true ≡ false
        → row_entries store.cols (content_of store) col ≡ [] },
}

// There are so many marks for each index of the list at the least, which together take twice as much memory: of
// the columns that aren't listed, at most one in so many has a mark.
const MARKS: u64 = 16;

impl Places {
    /// The places of a list's columns, for so many looks. It takes time and memory for the list, and for the columns
    /// that there are where the looks pay for that.
    pub(crate) fn new(
        alloc: Global,
        size: u64,
        cols: &[u64],
        looks: usize,
    ) -> Result<Places, NoMemory>
        requires { are_below size (These cols.now) ≡ true }
        ensures cols { IfOk result (λ places. places.store.cols ≡ length cols.now) }
        ensures content { IfOk result (λ places. (i j : ℕ) → content_of places.store i j
            ≡ index_content cols.now i j) }
    {
        let store = place_columns(alloc, size, cols)?;
        let hints = RowHints::for_lookups(alloc, &store, looks, looks as u64)?;
        let least = MARKS.saturating_mul(cols.len() as u64);
        let mask = u64::MAX.checked_shr(least.leading_zeros()).unwrap_or(0);
        let marks = marks_of(alloc, cols, mask)?;
        Ok(Places {
            store,
            hints,
            marks,
            mask,
        })
    }

    /// Whether a column may have places: of most that aren't listed it is seen at once that they have none.
    #[inline(always)]
    pub(crate) fn may_have(&self, col: u64) -> bool
        ensures { result ≡ false → row_entries self.now.store.cols (content_of self.now.store) col ≡ [] }
    {
        !matches!(self.marks.get((col & self.mask) as usize), Some(false))
    }

    /// The places of a column, in rising order.
    #[inline(always)]
    pub(crate) fn of(&self, col: u64) -> &[u64]
        ensures { result.now
            ≡ map (λ s. s.col) (row_entries self.now.store.cols (content_of self.now.store) col) }
    {
        self.store.row_near(col, self.hints.of(col, 0)).0
    }
}

/// The places of a list's columns as a store, in the row of each column.
fn place_columns(alloc: Global, size: u64, cols: &[u64]) -> Result<Sparse, NoMemory>
    requires { are_below size (These cols.now) ≡ true }
    ensures cols { IfOk result (λ places. places.cols ≡ length cols.now) }
    ensures content { IfOk result (λ places. (i j : ℕ) → content_of places i j ≡ index_content cols.now i j) }
{
    let mut entries = Vec::with_capacity(alloc, cols.len())?;
    for k in 0..cols.len() {
        entries.push(Entry {
            row: cols[k],
            col: k as u64,
            word: 0,
        })?;
    }
    let block = gather(alloc, entries, None, 0..size, cols.len() as u64)?;
    Ok(Sparse::from_block(size, block))
}

/// For each number that bits under a mask make, whether a column of the list has them.
fn marks_of(alloc: Global, cols: &[u64], mask: u64) -> Result<Vec<bool>, NoMemory>
    // All bits make more numbers than a list has places.
    ensures length { mask < usize.MAX → IfOk result (λ marks. length marks.items ≡ mask + 1) }
    ensures marked { IfOk result (λ marks. (k : ℕ) → k < length cols.now
        → get_or marks.items (bit_and (slice_index cols.now k) mask) true ≡ true) }
    ensures only { IfOk result (λ marks. (n : ℕ) → get_or marks.items n false ≡ true
        → (k : ℕ) × (k < length cols.now) × (bit_and (slice_index cols.now k) mask ≡ n)) }
{
    let mut marks = Vec::new(alloc);
    marks.resize((mask as usize).saturating_add(1), false)?;
    for col in cols {
        let at = (*col & mask) as usize;
        if at < marks.len() {
            marks[at] = true;
        }
    }
    Ok(marks)
}
