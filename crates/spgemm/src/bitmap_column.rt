//! The product of a store and a vector that is a bitmap, as a bitmap.
ghost use Rattle.std.specs.Prelude.{◌≡◌, ◌<◌, ◌≤◌, ◌+◌, ◌*◌, ◌/◌, ◌^◌, ◌==◌, ℕ, if◌then◌else◌, Some, true, false};
ghost use Rattle.std.specs.Prelude.{IfOk, IfSome, length, slice_index};
ghost use Rattle.std.specs.List.{All};
ghost use Rattle.algebra.specs.OperatorNames.{semiring_named};
ghost use Rattle.lanes.specs.Bits.{has_bit};
ghost use Rattle.model.specs.Entries.{word_at};
ghost use Rattle.model.specs.Product.{product};
ghost use Rattle.store.specs.Fibers.{entries_along};
ghost use Rattle.store.specs.Forms.{of_bitmap};
ghost use Rattle.store.specs.Stored.{content_of};
ghost use Rattle.spgemm.specs.Columns.{AreRowSums};
ghost use Rattle.spgemm.specs.Dense.{word_in};
ghost use Rattle.terms.specs.Terms.{sum_at, terms_of_row};

use crate::dense::MOST_PLACES;
use crate::dot::sum_known;
use algebra::{Semiring, with_semiring};
use bitmap::Bitmap;
use lanes::set_bit;
use model::NoMemory;
use std::alloc::Global;
use store::{Row, Sparse};
use terms::sum_with;

/// Where a matrix has an entry for so many of its rows, many rows of a product may have one.
const ROWS_AN_ENTRY: u64 = 8;

/// Whether the product of `a` and a vector is better made as a bitmap: `a` has an entry for an eighth of its rows, or
/// more. It takes constant time.
pub fn suits_rows(a: &Sparse) -> bool
    ensures { result ≡ true → a.now.rows ≤ 2 ^ 24 }
{
    a.rows() <= MOST_PLACES && a.nvals() >= a.rows() / ROWS_AN_ENTRY
}

/// All of the product of `a` and a vector over a semiring (`GrB_mxv` of GraphBLAS C API 2.0), from a bitmap to a
/// bitmap. An entry stands where some k has both A(i, k) and u(k), also where its sum is 0, and is the sum of these
/// products in rising order of k. It goes along the rows of `a` that have entries and asks the vector at each entry;
/// where the vector has a word in each row, it reads that without a test. Its time follows the entries of `a` and its
/// rows. NoMemory where there is none for its lists.
pub fn multiply_by_bitmap(
    alloc: Global,
    a: &Sparse,
    u: &Bitmap,
    semiring: Semiring,
) -> Result<Bitmap, NoMemory>
    requires column { u.now.cols ≡ 1 }
    requires inner { a.now.cols ≡ u.now.rows }
    requires small { a.now.rows ≤ 2 ^ 24 }
    ensures rows { IfOk result (λ b. b.rows ≡ a.now.rows) }
    ensures cols { IfOk result (λ b. b.cols ≡ 1) }
    ensures content { IfOk result (λ b. (i j : ℕ) → word_at b.entries i j
        ≡ product (semiring_named semiring) a.now.cols (content_of a.now) (word_at u.now.entries) i j) }
{
    prove_eq!(a.cols(), u.rows());
    let (bits, sums) = summed(alloc, a, u, semiring)?;
    let made = Bitmap::of_bits(a.rows(), 1, bits, sums);

    // A bitmap has no entry outside its shape, and neither has the product.
    prove_eq!(made.rows(), a.rows());
    Ok(made)
}

/// Bits and a word for each row of `a`: the sums of the products, and where there is one.
fn summed(
    alloc: Global,
    a: &Sparse,
    u: &Bitmap,
    semiring: Semiring,
) -> Result<(Vec<u64>, Vec<u64>), NoMemory>
    requires column { u.now.cols ≡ 1 }
    requires inner { a.now.cols ≡ u.now.rows }
    requires small { a.now.rows ≤ 2 ^ 24 }
    ensures bits { IfOk result (λ r. length r.0.items ≡ a.now.rows / 64 + 1) }
    ensures words { IfOk result (λ r. length r.1.items ≡ a.now.rows) }
    ensures sums { IfOk result (λ r. AreRowSums semiring a.now (of_bitmap u.now) r.0.items r.1.items) }
{
    let rows = a.rows() as usize;
    let mut bits = vec![in alloc; 0; rows / 64 + 1]?;
    let mut sums = vec![in alloc; 0; rows]?;
    sum_rows(&mut bits, &mut sums, a, u, semiring);
    Ok((bits, sums))
}

/// Makes the sums those of the product, where no bit is set yet.
#[tactic(auto, using(crate::proofs::Arms::same_row_sums))]
fn sum_rows(bits: &mut [u64], sums: &mut [u64], a: &Sparse, u: &Bitmap, semiring: Semiring)
    requires column { u.now.cols ≡ 1 }
    requires inner { a.now.cols ≡ u.now.rows }
    requires words { length sums.old ≡ a.now.rows }
    requires bits { length sums.old ≤ 64 * length bits.old }
    requires none { (at : ℕ) → has_bit bits.old at ≡ false }
    ensures { AreRowSums semiring a.now (of_bitmap u.now) bits.new sums.new }
{
    // All that runs below the arms is inlined, so that its loops are compiled for each.
    with_semiring!(semiring, |own| sum_rows_by(bits, sums, a, u, own))
}

/// What `sum_rows` does, by one semiring of its arms.
#[inline(always)]
fn sum_rows_by(bits: &mut [u64], sums: &mut [u64], a: &Sparse, u: &Bitmap, semiring: Semiring)
    requires column { u.now.cols ≡ 1 }
    requires inner { a.now.cols ≡ u.now.rows }
    requires words { length sums.old ≡ a.now.rows }
    requires bits { length sums.old ≤ 64 * length bits.old }
    requires none { (at : ℕ) → has_bit bits.old at ≡ false }
    ensures { AreRowSums semiring a.now (of_bitmap u.now) bits.new sums.new }
{
    prove_eq!(a.cols(), u.rows());
    let known = words_if_full(u);
    let mut rest = a.rows_in(0..a.rows());
    while let Some((row, others)) = rest.split_first() {
        let sum = sum_of(row, u, known, semiring);
        put_sum(bits, sums, row.index as usize, sum);
        rest = others;
    }
}

/// The words of a vector where it has one in each row, so that none has to be asked for.
fn words_if_full(u: &Bitmap) -> Option<&[u64]>
    requires { u.now.cols ≡ 1 }
    ensures length { IfSome result (λ known. length known.now ≡ u.now.rows) }
    ensures known { IfSome result (λ known. (k : ℕ) → k < length known.now
        → content_of (of_bitmap u.now) k 0 ≡ Some (slice_index known.now k)) }
{
    if u.nvals() == u.rows() {
        Some(u.words())
    } else {
        None
    }
}

/// The sum of the products of a row of A with a vector, whose words may all be known.
#[inline(always)]
fn sum_of(row: Row<'_>, u: &Bitmap, known: Option<&[u64]>, semiring: Semiring) -> Option<u64>
    requires lengths { length row.words.now ≡ length row.cols.now }
    requires column { u.now.cols ≡ 1 }
    requires inside { All (λ col. col < u.now.rows) row.cols.now }
    requires length { IfSome known (λ known. length known.now ≡ u.now.rows) }
    requires known { IfSome known (λ known. (k : ℕ) → k < length known.now
        → content_of (of_bitmap u.now) k 0 ≡ Some (slice_index known.now k)) }
    ensures { result ≡ sum_at semiring.add.op 0 (terms_of_row semiring.multiply
        (entries_along row.entry.index row.entry.cols.now row.entry.words.now) (of_bitmap u.now)) }
{
    match known {
        Some(known) => sum_known(row, known, semiring),
        None => sum_row(row, u, semiring),
    }
}

/// The sum of the products of a row of A with a vector: each entry times the word in the row that its column names.
/// There is none without products.
#[inline(always)]
fn sum_row(row: Row<'_>, u: &Bitmap, semiring: Semiring) -> Option<u64>
    requires lengths { length row.words.now ≡ length row.cols.now }
    requires column { u.now.cols ≡ 1 }
    ensures { result ≡ sum_at semiring.add.op 0 (terms_of_row semiring.multiply
        (entries_along row.entry.index row.entry.cols.now row.entry.words.now) (of_bitmap u.now)) }
{
    let mut sum = None;
    for k in 0..row.cols.len() {
        if let Some(word) = u.get(row.cols[k], 0) {
            sum = sum_with(
                sum,
                semiring.multiply.eval(row.words[k], word),
                semiring.add.op,
            );
        }
    }
    sum
}

/// Puts the sum of a row, where there is one, at its place.
#[inline(always)]
fn put_sum(bits: &mut [u64], sums: &mut [u64], row: usize, sum: Option<u64>)
    requires word { row < length sums.old }
    requires bit { row < 64 * length bits.old }
    requires none { has_bit bits.old row ≡ false }
    ensures { (at : ℕ) → word_in bits.new sums.new at ≡ (if at == row then sum else word_in bits.old sums.old at) }
{
    if let Some(word) = sum {
        set_bit(bits, row);
        sums[row] = word;
    }
}
