//! The row of a product with a vector, of which a bitmap as a mask keeps a part.
ghost use Rattle.std.specs.Prelude.{◌≡◌, ◌<◌, ◌≤◌, ◌^◌, length, OnOk};
ghost use Rattle.std.specs.List.{AllPairs};
ghost use Rattle.store.specs.Fibers.{entries_along};
ghost use Rattle.spgemm.specs.Dense.{AreClear, HaveRoom};
ghost use Rattle.terms.specs.Marked.{keeps_marked};
ghost use Rattle.spgemm.specs.Products.{HasOpenRow, HasRow};
ghost use Rattle.terms.specs.Terms.{kept_terms, terms_of_row};

use crate::dense::fit;
use crate::few_kept::{keeps_few, sum_few};
use crate::row::{Scratch, collect_terms, sum_in_places, sum_terms};
use algebra::Semiring;
use masks::MarkedMask;
use model::NoMemory;
use store::{FiberLists, Row, Sparse};

/// Puts the row of the product with B that a row of A gives, at the columns that the mask lets through, behind the rows
/// in the lists.
pub(crate) fn multiply_marked_row(
    lists: &mut FiberLists,
    scratch: &mut Scratch,
    row: Row<'_>,
    b: &Sparse,
    mask: MarkedMask<'_>,
    semiring: Semiring,
) -> Result<(), NoMemory>
    requires mask { mask.bitmap.now.cols ≡ 1 }
    requires lengths { length row.words.now ≡ length row.cols.now }
    requires rising { AllPairs (λ p q. p < q) row.cols.now }
    requires room { HaveRoom scratch.old.bits.items scratch.old.sums.items }
    requires none { AreClear scratch.old.bits.items }
    ensures { OnOk result (HasRow semiring.add.op row.entry.index
        (kept_terms (keeps_marked mask.entry) (terms_of_row semiring.multiply
        (entries_along row.entry.index row.entry.cols.now row.entry.words.now) b.now))
        lists.old lists.new) }
{
    sum_marked(lists, scratch, row, b, mask, semiring)?;
    lists.close(row.index)
}

/// Puts the sums of the row of the product with B that a row of A gives, at the columns that the mask lets through,
/// behind the inner indices and words. Of products that are listed, those at other columns are left out before the rest
/// is sorted or added.
fn sum_marked(
    lists: &mut FiberLists,
    scratch: &mut Scratch,
    row: Row<'_>,
    b: &Sparse,
    mask: MarkedMask<'_>,
    semiring: Semiring,
) -> Result<(), NoMemory>
    requires mask { mask.bitmap.now.cols ≡ 1 }
    requires lengths { length row.words.now ≡ length row.cols.now }
    requires rising { AllPairs (λ p q. p < q) row.cols.now }
    requires room { HaveRoom scratch.old.bits.items scratch.old.sums.items }
    requires none { AreClear scratch.old.bits.items }
    ensures { OnOk result (HasOpenRow semiring.add.op row.entry.index
        (kept_terms (keeps_marked mask.entry) (terms_of_row semiring.multiply
        (entries_along row.entry.index row.entry.cols.now row.entry.words.now) b.now))
        lists.old lists.new) }
{
    let done = collect_terms(scratch, row, b, Some(mask), semiring)?;
    if done < row.cols.len() {
        return sum_marked_places(lists, scratch, row, b, mask, semiring);
    }
    sum_terms(lists, scratch, row.cols.len(), b.cols(), semiring)
}

/// What `sum_marked` does in a place for each column. Where the mask keeps few columns, products at others are never
/// added; else their sums are dropped before they are gathered.
fn sum_marked_places(
    lists: &mut FiberLists,
    scratch: &mut Scratch,
    row: Row<'_>,
    b: &Sparse,
    mask: MarkedMask<'_>,
    semiring: Semiring,
) -> Result<(), NoMemory>
    requires mask { mask.bitmap.now.cols ≡ 1 }
    requires lengths { length row.words.now ≡ length row.cols.now }
    requires rising { AllPairs (λ p q. p < q) row.cols.now }
    requires most { b.now.cols ≤ 2 ^ 24 }
    requires room { HaveRoom scratch.old.bits.items scratch.old.sums.items }
    requires none { AreClear scratch.old.bits.items }
    ensures { OnOk result (HasOpenRow semiring.add.op row.entry.index
        (kept_terms (keeps_marked mask.entry) (terms_of_row semiring.multiply
        (entries_along row.entry.index row.entry.cols.now row.entry.words.now) b.now))
        lists.old lists.new) }
{
    let Scratch {
        terms,
        bits,
        sums,
        kept,
        hints,
        ..
    } = scratch;
    fit(bits, sums, b.cols())?;
    // The columns are rows of the mask's own column.
    mask.read_bits(kept, bits.len())?;
    if keeps_few(kept, b.cols()) {
        return sum_few(lists, bits, sums, kept, row, b, hints, semiring);
    }
    // The terms are those that are let through; a sum needs all, and begins anew.
    terms.clear();
    sum_in_places(lists, scratch, row, 0, b, Some(mask), semiring)
}
