//! Walks over the positions of a shape, row by row.
ghost use Rattle.std.specs.Prelude.{◌≡◌, ◌++◌, [], IfOk, OnOk};
ghost use Rattle.std.specs.List.{cons_option};
ghost use Rattle.std.specs.Option.{option_map};
ghost use Rattle.model.specs.Entries.{entries_of, entry_at, row_entries};
ghost use Rattle.model.specs.Object.{Content, cols_of, rows_of};

use model::{Entry, Shape};
use std::alloc::{AllocError, Global};

/// What has a word, or none, at each position.
pub trait Mapping {
    ghost content: { Self → Content };

    /// The word at a position, where there is one.
    fn at(&self, row: u64, col: u64) -> Option<u64>
        ensures { result ≡ content self.now row col };
}

/// The entries inside a shape, row by row.
pub fn entries<M: Mapping>(
    alloc: Global,
    mapping: &M,
    shape: Shape,
) -> Result<Vec<Entry>, AllocError>
    ensures { IfOk result (λ entries.
        entries.items ≡ entries_of (rows_of shape) (cols_of shape) (M.content mapping.now)) }
{
    let rows = shape.rows();
    let cols = shape.cols();
    let mut out = Vec::new(alloc);
    for row in 0..rows {
        push_row(mapping, row, cols, &mut out)?;
    }
    Ok(out)
}

/// Appends the entries of a row.
fn push_row<M: Mapping>(
    mapping: &M,
    row: u64,
    cols: u64,
    out: &mut Vec<Entry>,
) -> Result<(), AllocError>
    ensures { OnOk result (out.new.items ≡ out.old.items ++ row_entries cols (M.content mapping.now) row) }
{
    for col in 0..cols {
        push_word(out, row, col, mapping.at(row, col))?;
    }
    Ok(())
}

/// Appends the entry of a word at a position, where there is one.
fn push_word(out: &mut Vec<Entry>, row: u64, col: u64, word: Option<u64>) -> Result<(), AllocError>
    ensures { OnOk result (out.new.items ≡ out.old.items ++ cons_option (option_map (entry_at row col) word) []) }
{
    if let Some(word) = word {
        out.push(Entry { row, col, word })?;
    }
    Ok(())
}
