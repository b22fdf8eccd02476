//! The one row of a product with a vector.
ghost use Rattle.std.specs.Prelude.{◌≡◌, ◌<◌, ◌≤◌, length, IfSome, OnOk};
ghost use Rattle.std.specs.List.{AllPairs};
ghost use Rattle.store.specs.Fibers.{entries_along};
ghost use Rattle.spgemm.specs.Dense.{AreClear, HaveRoom};
ghost use Rattle.spgemm.specs.Products.{HasRow, lets_by};
ghost use Rattle.spgemm.specs.Slots.{AreMarks};
ghost use Rattle.terms.specs.Terms.{kept_terms, terms_of_row};
ghost use Rattle.spgemm.specs.Vectors.{keeps_down};

use crate::column::column_in;
use crate::masked_row::{Room, multiply_row_kept, multiply_row_under};
use crate::row::multiply_whole_row;
use algebra::Semiring;
use masks::{MaskTest, SparseMask};
use model::NoMemory;
use std::ops::Range;
use store::{FiberLists, Row, Sparse};

/// Puts a part of the row of the product with A that a row gives, at the columns that are kept, behind the rows in
/// the lists.
pub(crate) fn multiply_part(
    lists: &mut FiberLists,
    room: &mut Room,
    row: Row<'_>,
    a: &Sparse,
    mask: Option<SparseMask<'_>>,
    semiring: Semiring,
    range: &Range<u64>,
) -> Result<(), NoMemory>
    requires lists { length lists.old.words.items ≡ length lists.old.inner.items }
    requires index { row.index ≡ 0 }
    requires lengths { length row.words.now ≡ length row.cols.now }
    requires rising { AllPairs (λ p q. p < q) row.cols.now }
    requires mask { IfSome mask (λ mask. mask.store.now.cols ≡ 1) }
    requires range { range.now.start ≤ range.now.end }
    requires marks { AreMarks room.old.slots.cols.items room.old.slots.marks.items }
    requires room { HaveRoom room.old.scratch.bits.items room.old.scratch.sums.items }
    requires none { AreClear room.old.scratch.bits.items }
    ensures { OnOk result (HasRow semiring.add.op row.entry.index
        (kept_terms (keeps_down (lets_by mask.entry) range.now.start range.now.end)
        (terms_of_row semiring.multiply
        (entries_along row.entry.index row.entry.cols.now row.entry.words.now) a.now))
        lists.old lists.new) }
{
    match mask {
        Some(mask) => {
            let (rows, words) = column_in(mask.store, range.start..range.end);
            multiply_row_under(lists, room, row, a, range, mask.test, rows, words, semiring)
        }
        None if range.start == 0 && a.cols() <= range.end => {
            multiply_whole_row(lists, &mut room.scratch, row, a, semiring)
        }
        None => {
            // The complement of a mask without entries keeps all columns of the range.
            let test = MaskTest {
                valued: false,
                complement: true,
            };
            multiply_row_kept(
                lists,
                &mut room.scratch,
                row,
                a,
                range,
                test,
                &[],
                &[],
                semiring,
            )
        }
    }
}
