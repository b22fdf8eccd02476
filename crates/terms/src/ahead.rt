//! Rows of B that are looked up before they are read.
ghost use Rattle.std.specs.Prelude.{◌≤◌, length};

use store::{RowHints, Sparse};

/// So many rows of B are looked up before the first of them is read.
pub const AHEAD: usize = 64;

/// Of more entries B is in no near cache.
const NEAR_ENTRIES: u64 = 1 << 16;

/// Where a row of A names one in so many rows of B or fewer, these don't lie side by side, and aren't fetched
/// one after another by themselves.
const ROWS_A_ROW: u64 = 8;

/// Whether to look ahead pays, where a row of A has so many entries.
pub fn pays_ahead(entries: usize, b: &Sparse) -> bool {
    is_far(b) && entries >= AHEAD && entries as u64 <= b.rows() / ROWS_A_ROW
}

/// Whether rows of B come from far memory.
fn is_far(b: &Sparse) -> bool {
    b.nvals() > NEAR_ENTRIES
}

/// How many entries a row has, or up to two more: the highest bits of its first column and word are added, so that
/// these are read, and the row is on its way from memory before it is needed. Any number serves.
#[inline(always)]
fn touched_len(cols: &[u64], words: &[u64]) -> usize {
    match (cols.first(), words.first()) {
        (Some(col), Some(word)) => cols
            .len()
            .saturating_add((col >> 63) as usize + (word >> 63) as usize),
        _ => 0,
    }
}

/// About how many products a row of A has with B from an entry on, as far as is looked ahead at once. All rows of B
/// that these entries meet are looked up for it, and touched where they are far, one beside the other, so that a
/// processor needn't wait for each by itself later. It isn't inlined, or the loops that call it would grow too large
/// to be.
#[inline(never)]
pub fn look_ahead(cols: &[u64], from: usize, b: &Sparse, hints: &RowHints, last: usize) -> usize
    requires { from ≤ length cols.now }
{
    let far = is_far(b);
    let past = cols.len().min(from.saturating_add(AHEAD));
    let mut count: usize = 0;
    let mut last = last;
    for col in &cols[from..past] {
        let (found, words, next) = b.row_near(*col, hints.of(*col, last));
        let entries = if far {
            touched_len(found, words)
        } else {
            found.len()
        };
        count = count.saturating_add(entries);
        last = next;
    }
    count
}
