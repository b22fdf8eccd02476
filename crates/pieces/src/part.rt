//! What there is of each piece.
ghost use Rattle.std.specs.Prelude.{◌≡◌, ◌≤◌, [], IfOk, length, replicate, vec_capacity};
ghost use Rattle.pieces.specs.Parts.{blocks_in, was_given_at};

use kernel::Block;
use std::alloc::{AllocError, Global};
use std::mem;

/// What there is of a piece.
#[derive(Drop)]
pub enum Part {
    /// Its block is to come.
    Due,
    Given(Block),
    /// Its block was handed out, with all others.
    Joined,
}

/// So many parts whose blocks are to come. `Err` where there is no memory for them.
pub(crate) fn all_due(alloc: Global, count: usize) -> Result<Vec<Part>, AllocError>
    ensures { IfOk result (λ parts. parts.items ≡ replicate count Part.Due) }
{
    let mut parts = Vec::with_capacity(alloc, count)?;
    for _piece in 0..count {
        parts.push_reserved(Part::Due);
    }
    Ok(parts)
}

/// Whether a block was given for a piece.
pub(crate) fn was_given(parts: &[Part], piece: u64) -> bool
    ensures { result ≡ was_given_at parts.now piece }
{
    match parts.get(piece as usize) {
        Some(part) => matches!(part, Part::Given(_) | Part::Joined),
        None => false,
    }
}

/// The blocks that were given, in order, in a list that has room for them. All parts are joined.
pub(crate) fn hand_out(parts: &mut [Part], mut blocks: Vec<Block>) -> Vec<Block>
    requires empty { blocks.items ≡ [] }
    requires room { length parts.old ≤ vec_capacity blocks }
    ensures blocks { result.items ≡ blocks_in parts.old }
    ensures joined { parts.new ≡ replicate (length parts.old) Part.Joined }
{
    for place in 0..parts.len() {
        if let Part::Given(block) = mem::replace(&mut parts[place], Part::Joined) {
            blocks.push_reserved(block);
        }
    }
    blocks
}
