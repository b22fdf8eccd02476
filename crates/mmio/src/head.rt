//! The head of a file: its banner and its size line.
ghost use Rattle.std.specs.Prelude.{◌≡◌, MatchOption, MatchResult, Err};
ghost use Rattle.model.specs.Fault.{is_dimension};
ghost use Rattle.model.specs.Grammar.{where_it, words_of};
ghost use Rattle.model.specs.MatrixMarket.{has_fitting_shape, heading_of, matrix_in, matrix_listed};
ghost use Rattle.mmio.specs.Heads.{IsNoSize, Sizes};
ghost use Rattle.mmio.specs.Listing.{located, told_in};

use crate::banner::announced;
use crate::digits::first_number;
use crate::faults::{fault_at_end, fault_before};
use crate::fronts::is_empty;
use crate::told::first_told;
use algebra::Domain;
use lines::first_line;
use model::{Field, GREATEST_DIMENSION, Heading, Mistake, MmFault, Symmetry};

/// The heading of a file and what follows it, or what is wrong before that.
pub fn head(domain: Domain, bytes: &[u8]) -> Result<(Heading, &[u8]), MmFault>
    ensures { MatchResult result
        (λ found. matrix_in domain bytes.now
        ≡ located bytes.now (matrix_listed domain found.0 (told_in found.1.now)))
        (λ fault. matrix_in domain bytes.now ≡ Err fault) }
{
    if bytes.is_empty() {
        return Err(fault_at_end(bytes, Mistake::Banner));
    }
    let (banner, behind) = first_line(bytes);
    let kind = match announced(domain, banner) {
        Ok(kind) => kind,
        Err(mistake) => return Err(fault_before(bytes, behind, mistake)),
    };
    let Some((size, rest)) = first_told(behind) else {
        return Err(fault_at_end(bytes, Mistake::SizeLine));
    };
    let Some(heading) = heading(kind, size) else {
        return Err(fault_before(bytes, rest, Mistake::SizeLine));
    };
    if !has_fitting_shape(heading) {
        return Err(fault_before(bytes, rest, Mistake::NotSquare));
    }
    Ok((heading, rest))
}

/// The heading that a size line says.
fn heading(kind: (Field, Symmetry), line: &[u8]) -> Option<Heading>
    ensures { result ≡ heading_of kind (words_of line.now) }
{
    let (rows, cols, entries) = sizes(line)?;
    Some(Heading {
        field: kind.0,
        symmetry: kind.1,
        rows: dimension(rows)?,
        cols: dimension(cols)?,
        entries: entries?,
    })
}

/// The three numbers of a size line.
fn sizes(line: &[u8]) -> Option<(Option<u64>, Option<u64>, Option<u64>)>
    ensures { MatchOption result
        (IsNoSize (words_of line.now))
        (λ sizes. Sizes (words_of line.now) sizes.0 sizes.1 sizes.2) }
{
    let (rows, rest) = first_number(line)?;
    let (cols, rest) = first_number(rest)?;
    let (entries, rest) = first_number(rest)?;
    if is_empty(rest) {
        Some((rows, cols, entries))
    } else {
        None
    }
}

/// A number that is a dimension.
fn dimension(number: Option<u64>) -> Option<u64>
    ensures { result ≡ where_it is_dimension number }
{
    match number {
        Some(number) if 1 <= number && number <= GREATEST_DIMENSION => Some(number),
        _ => None,
    }
}

/// Whether a matrix that is mirrored at the diagonal is square.
fn has_fitting_shape(heading: Heading) -> bool
    ensures { result ≡ has_fitting_shape heading }
{
    matches!(heading.symmetry, Symmetry::General) || heading.rows == heading.cols
}
