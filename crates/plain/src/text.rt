//! The data lines of answers.
ghost use Rattle.std.specs.Prelude.{◌≡◌, ◌++◌, ◌∷◌, [], IfOk, OnOk, decimal, length, map};
ghost use Rattle.model.specs.Entries.{entries_of};
ghost use Rattle.model.specs.Object.{cols_of, rows_of};
ghost use Rattle.model.specs.Text.{canonical_lines, entry_line, value_text};
ghost use Rattle.plain.specs.Evaluated.{lines_of, input_of};

use crate::grid::entries;
use crate::inputs::Input;
use algebra::Domain;
use model::Entry;
use std::alloc::{AllocError, Global};

/// The first line of a canonical text.
const BANNER: &[u8] = b"%%MatrixMarket matrix coordinate integer general";

/// The text of a word's value.
pub fn value_text(alloc: Global, domain: Domain, word: u64) -> Result<Vec<u8>, AllocError>
    ensures { IfOk result (λ text. text.items ≡ value_text domain word) }
{
    let text = format!(in alloc; "{}", domain.value_of(word))?;
    Ok(text.into_bytes())
}

/// The number of entries.
pub fn count_text(alloc: Global, object: Input<'_>) -> Result<Vec<u8>, AllocError>
    ensures { let o = input_of object.entry in IfOk result (λ text.
        text.items ≡ decimal (length (entries_of (rows_of o.shape) (cols_of o.shape) o.content))) }
{
    let entries = entries(alloc, &object, object.shape())?;
    let text = entries.len().to_string(alloc)?;
    Ok(text.into_bytes())
}

/// One line.
pub fn one_line(alloc: Global, text: Vec<u8>) -> Result<Vec<Vec<u8>>, AllocError>
    ensures { IfOk result (λ lines. lines_of lines ≡ text.items ∷ []) }
{
    let mut lines = Vec::new(alloc);
    lines.push(text)?;
    Ok(lines)
}

/// The lines of an object's canonical text.
#[tactic(auto, unfolding(model::specs::Text::canonical_lines))]
pub fn canonical_lines(alloc: Global, object: Input<'_>) -> Result<Vec<Vec<u8>>, AllocError>
    ensures { IfOk result (λ lines. lines_of lines ≡ canonical_lines (input_of object.entry)) }
{
    let rows = object.shape().rows();
    let cols = object.shape().cols();
    let entries = entries(alloc, &object, object.shape())?;
    let size = format!(in alloc; "{} {} {}", rows, cols, entries.len())?;
    let mut lines = Vec::new(alloc);
    lines.push(Vec::from_slice(alloc, BANNER)?)?;
    lines.push(size.into_bytes())?;
    push_entry_lines(alloc, object.signature().domain, &entries, &mut lines)?;
    Ok(lines)
}

/// Appends a line for each entry.
fn push_entry_lines(
    alloc: Global,
    domain: Domain,
    entries: &[Entry],
    lines: &mut Vec<Vec<u8>>,
) -> Result<(), AllocError>
    ensures { OnOk result (lines_of lines.new ≡ lines_of lines.old ++ map (entry_line domain) entries.now) }
{
    for entry in entries {
        lines.push(entry_line(alloc, domain, entry)?)?;
    }
    Ok(())
}

/// Row, column and value, the indices from 1.
fn entry_line(alloc: Global, domain: Domain, entry: &Entry) -> Result<Vec<u8>, AllocError>
    ensures { IfOk result (λ line. line.items ≡ entry_line domain entry.now) }
{
    let row = u128::from(entry.row) + 1;
    let col = u128::from(entry.col) + 1;
    let text = format!(in alloc; "{} {} {}", row, col, domain.value_of(entry.word))?;
    Ok(text.into_bytes())
}
