//! Hints where the rows of a store lie.
use crate::{Fibers, FlatFibers, Sparse};
use model::NoMemory;
use std::alloc::Global;

/// Hints for `Sparse::row_near`: how many rows with entries are before a row. Any hint serves there and changes no
/// answer, so no contract says which these are.
#[derive(Drop)]
pub enum RowHints {
    /// Each row has entries, so the hint is its index.
    Index,
    /// What was counted for each row.
    Counted(Vec<u32>),
    /// What the row before gave: to count doesn't pay.
    Last,
}

impl RowHints {
    /// Hints for so many lookups in a store, on so many walks along its rows. Where it pays to count them, their time
    /// and memory follow the rows.
    pub fn for_lookups(
        alloc: Global,
        store: &Sparse,
        lookups: usize,
        walks: u64,
    ) -> Result<RowHints, NoMemory> {
        let fibers = store.fibers_in(0..store.rows());
        if store.cols() == 1 || fibers.len() == 0 {
            return Ok(RowHints::Last);
        }
        let (rows, filled) = (store.rows(), fibers.flat().others.len() as u64 + 1);
        if filled == rows {
            return Ok(RowHints::Index);
        }
        if !pays(rows, filled, lookups as u64, walks) {
            return Ok(RowHints::Last);
        }
        Ok(RowHints::Counted(count_before(alloc, &fibers, rows)?))
    }

    /// A hint for a row, where the row before it gave another.
    #[inline(always)]
    pub fn of(&self, row: u64, last: usize) -> usize {
        match self {
            RowHints::Index => row as usize,
            RowHints::Counted(before) if row < before.len() as u64 => before[row as usize] as usize,
            RowHints::Counted(_) | RowHints::Last => last,
        }
    }
}

/// Making hints costs as much as a search for each so many rows.
const ROWS_A_SEARCH: u64 = 16;

/// Whether it pays to count hints: the rows are few beside the lookups, a walk passes rows over, so that what the row
/// before gave is no hint, and there are so many rows without entries that a search is long.
fn pays(rows: u64, filled: u64, lookups: u64, walks: u64) -> bool {
    rows / ROWS_A_SEARCH <= lookups
        && lookups / walks.max(1) <= rows / 2
        && filled.saturating_add(rows / ROWS_A_SEARCH) < rows
}

/// For each of so many rows the number of rows before it that have entries.
fn count_before(alloc: Global, fibers: &Fibers<'_>, rows: u64) -> Result<Vec<u32>, NoMemory> {
    let flat = fibers.flat();
    let mut before = vec![in alloc; 0; rows as usize]?;
    let mut count = 0u32;
    // The next row that has entries, which is read once for all rows up to it.
    let mut filled = row_at(&flat, 0);
    for (row, place) in before.iter_mut().enumerate() {
        *place = count;
        if row as u64 == filled {
            count = count.wrapping_add(1);
            filled = row_at(&flat, count as usize);
        }
    }
    Ok(before)
}

/// The row of the fiber at a place, or one behind all rows.
#[inline(always)]
fn row_at(flat: &FlatFibers<'_>, at: usize) -> u64 {
    if at <= flat.others.len() {
        flat.fiber(at).outer
    } else {
        u64::MAX
    }
}
