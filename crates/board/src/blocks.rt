//! Blocks that are given.
ghost use Rattle.std.specs.Prelude.{◌≡◌};
ghost use Rattle.board.specs.Pieces.{has_rows};

use kernel::Block;

/// Whether a block has all of so many rows.
pub(crate) fn has_rows(rows: u64, block: &Block) -> bool
    ensures { result ≡ has_rows rows block.now }
{
    match block {
        Block::Rows(block) => block.first() == 0 && block.past() == rows,
        Block::Whole(store) => store.rows() == rows,
    }
}
