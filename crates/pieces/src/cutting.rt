//! Where the pieces of rows begin and end.
ghost use Rattle.std.specs.Prelude.{◌≡◌, ◌≤◌, ◌<◌, IfOk, length};
ghost use Rattle.pieces.specs.Parts.{end_of, ends_of, has_rows, start_of};

use kernel::Block;
use std::alloc::{AllocError, Global};

/// Where the pieces of so many rows end: at each cut that is used, and with the rows. It goes once along the cuts.
/// `Err` where there is no memory for the list.
pub(crate) fn ends_of(alloc: Global, rows: u64, cuts: &[u64]) -> Result<Vec<u64>, AllocError>
    ensures { IfOk result (λ ends. ends.items ≡ ends_of rows cuts.now) }
{
    let mut ends = Vec::new(alloc);
    let mut last = 0;
    for cut in cuts {
        if last < *cut && *cut < rows {
            ends.push(*cut)?;
            last = *cut;
        }
    }
    ends.push(rows)?;
    Ok(ends)
}

/// Where a piece begins: with the end of the one before.
pub(crate) fn start_of(ends: &[u64], piece: usize) -> u64
    requires { piece ≤ length ends.now }
    ensures { result ≡ start_of ends.now piece }
{
    if piece == 0 {
        return 0;
    }
    ends[piece - 1]
}

/// Whether a block has the rows of a piece, and no others.
pub(crate) fn fits(ends: &[u64], piece: usize, block: &Block) -> bool
    requires { piece < length ends.now }
    ensures { result ≡ has_rows (start_of ends.now piece) (end_of ends.now piece) block.now }
{
    match block {
        Block::Rows(rows) => rows.first() == start_of(ends, piece) && rows.past() == ends[piece],
        Block::Whole(_) => false,
    }
}
