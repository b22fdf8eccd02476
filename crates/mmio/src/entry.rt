//! Entry lines.
ghost use Rattle.std.specs.Prelude.{◌≡◌};
ghost use Rattle.model.specs.Grammar.{words_of};
ghost use Rattle.model.specs.MatrixMarket.{entry_said, has_diagonal, is_position};
ghost use Rattle.mmio.specs.Said.{position_in};

use crate::digits::first_number;
use crate::values::value_behind;
use algebra::Domain;
use model::{Entry, Heading, Mistake, Symmetry};

/// The entry that a line says, or what is wrong with the line.
#[inline(always)]
pub fn entry(domain: Domain, heading: Heading, line: &[u8]) -> Result<Entry, Mistake>
    ensures { result ≡ entry_said domain heading (words_of line.now) }
{
    let Some((row, rest)) = first_number(line) else {
        return Err(Mistake::Entry);
    };
    let Some((col, rest)) = first_number(rest) else {
        return Err(Mistake::Entry);
    };
    let Some(value) = value_behind(domain, heading.field, rest) else {
        return Err(Mistake::Entry);
    };
    let Some((row, col)) = position_in(heading, row, col) else {
        return Err(Mistake::Index);
    };
    match value {
        Some(word) => Ok(Entry { row, col, word }),
        None => Err(Mistake::Value),
    }
}

/// A position that is counted from 1, counted from 0; None where no entry may stand there. A number that
/// isn't known is 2^64 or more.
#[inline(always)]
fn position_in(heading: Heading, row: Option<u64>, col: Option<u64>) -> Option<(u64, u64)>
    ensures { result ≡ position_in heading row col }
{
    let (row, col) = (row?, col?);
    if is_position(heading, row, col) {
        Some((row - 1, col - 1))
    } else {
        None
    }
}

/// Whether an entry may stand in a row and a column, which are counted from 1.
#[inline(always)]
pub fn is_position(heading: Heading, row: u64, col: u64) -> bool
    ensures { result ≡ is_position heading row col }
{
    let is_inside = 1 <= row && row <= heading.rows && 1 <= col && col <= heading.cols;
    is_inside && (has_diagonal(heading.symmetry) || row != col)
}

#[inline(always)]
fn has_diagonal(symmetry: Symmetry) -> bool
    ensures { result ≡ has_diagonal symmetry }
{
    !matches!(symmetry, Symmetry::SkewSymmetric)
}
