//! The product of a vector that is a bitmap and a store, as a bitmap.
ghost use Rattle.std.specs.Prelude.{◌≡◌, ◌≤◌, ◌+◌, ◌*◌, ◌/◌, ◌^◌, ℕ, IfOk, false, length, true};
ghost use Rattle.algebra.specs.OperatorNames.{semiring_named};
ghost use Rattle.lanes.specs.Bits.{has_bit};
ghost use Rattle.model.specs.Entries.{word_at};
ghost use Rattle.model.specs.Object.{transposed_content};
ghost use Rattle.model.specs.Product.{product};
ghost use Rattle.store.specs.Stored.{content_of};
ghost use Rattle.spgemm.specs.Dense.{AreColumnSums};
ghost use Rattle.spgemm.specs.Partials.{AreSumsOf, terms_between};

use crate::bitmap_sums::{Factors, Sums, sum_alone, sum_beside};
use crate::bitmap_truths::TruthSums;
use crate::bitmap_words::WordSums;
use crate::dense::MOST_PLACES;
use crate::many::set_marked;
use crate::truths::write_truths;
use algebra::Semiring;
use bitmap::{Bitmap, OneThread, OneThreadWithSpare, SeveralThreads, WordMaker};
use model::NoMemory;
use std::alloc::Global;
use std::thread::Threads;
use store::Sparse;

/// Where a vector has an entry for so many of its rows, many of them have one.
const ROWS_AN_ENTRY: u64 = 8;

/// Where a product has a term for so many of its columns, most of its places may be met.
const COLUMNS_A_PRODUCT: u64 = 8;

/// Whether the product of a bitmap and `a` is better made as a bitmap: many rows of the vector have an entry, and
/// there are about as many products as an eighth of the columns, or more. It takes constant time.
pub fn suits_bitmap(u: &Bitmap, a: &Sparse) -> bool
    ensures { result ≡ true → a.now.cols ≤ 2 ^ 24 }
{
    let products = u.nvals().saturating_mul(a.nvals()) / a.rows().max(1);
    a.cols() <= MOST_PLACES
        && u.nvals().saturating_mul(ROWS_AN_ENTRY) >= u.rows()
        && products >= a.cols() / COLUMNS_A_PRODUCT
}

/// Who makes products of vectors and matrices that go from a bitmap to a bitmap, beside the words of bitmaps.
pub trait VectorProducts: WordMaker {
    /// All of the product of a vector and `a` over a semiring (`GrB_vxm` of GraphBLAS C API 2.0), from a bitmap to a
    /// bitmap. An entry stands where some k has both u(k) and A(k, i), also where its sum is 0, and is the sum of these
    /// products in rising order of k. It goes along the rows of `a` that have entries and asks the vector at each, or
    /// over LOR along the vector's entries: its time follows these rows, the products and the columns of `a`. NoMemory
    /// where there is none for its lists.
    fn multiply_bitmap(
        &self,
        alloc: Global,
        u: &Bitmap,
        a: &Sparse,
        semiring: Semiring,
    ) -> Result<Bitmap, NoMemory>
        requires vector { u.now.cols ≡ 1 }
        requires inner { u.now.rows ≡ a.now.rows }
        requires small { a.now.cols ≤ 2 ^ 24 }
        ensures rows { IfOk result (λ b. b.rows ≡ a.now.cols) }
        ensures cols { IfOk result (λ b. b.cols ≡ 1) }
        ensures content { IfOk result (λ b. (i j : ℕ) → word_at b.entries i j
            ≡ transposed_content (product (semiring_named semiring) u.now.rows
            (transposed_content (word_at u.now.entries)) (content_of a.now)) i j) }
    {
        let factors = Factors::of(u, a, semiring);
        let sums = sum_alone(alloc, factors)?;
        product_of(alloc, factors, sums)
    }
}

impl VectorProducts for OneThread {}

impl VectorProducts for OneThreadWithSpare {}

// Where there are many products, each thread makes those of some rows, and its sums, which take memory for each column.
impl<'a, R: Threads> VectorProducts for SeveralThreads<'a, R> {
    fn multiply_bitmap(
        &self,
        alloc: Global,
        u: &Bitmap,
        a: &Sparse,
        semiring: Semiring,
    ) -> Result<Bitmap, NoMemory> {
        let factors = Factors::of(u, a, semiring);
        let sums = sum_beside(self.starter(), self.others(), alloc, factors)?;
        product_of(alloc, factors, sums)
    }
}

/// The product of factors, of the sums of all products.
fn product_of(alloc: Global, factors: Factors<'_>, sums: Sums) -> Result<Bitmap, NoMemory>
    requires vector { factors.u.now.cols ≡ 1 }
    requires inner { factors.u.now.rows ≡ factors.a.now.rows }
    requires small { factors.a.now.cols ≤ 2 ^ 24 }
    requires places { factors.places ≡ 64 * (factors.a.now.cols / 64 + 1) }
    requires sums { AreSumsOf factors 0 factors.a.now.rows sums }
    ensures rows { IfOk result (λ b. b.rows ≡ factors.entry.a.now.cols) }
    ensures cols { IfOk result (λ b. b.cols ≡ 1) }
    ensures content { IfOk result (λ b. (i j : ℕ) → word_at b.entries i j
        ≡ transposed_content (product (semiring_named factors.entry.semiring) factors.entry.u.now.rows
        (transposed_content (word_at factors.entry.u.now.entries)) (content_of factors.entry.a.now)) i j) }
{
    let Factors { u, a, .. } = factors;
    prove_eq!(u.rows(), a.rows());
    let (bits, words) = column_of(alloc, factors, sums)?;
    let made = Bitmap::of_bits(a.cols(), 1, bits, words);

    // A bitmap has no entry outside its shape, and neither has the product.
    prove_eq!(made.rows(), a.cols());
    Ok(made)
}

/// Bits and a word for each column of the matrix: the sums of the products, and where there is one.
fn column_of(
    alloc: Global,
    factors: Factors<'_>,
    sums: Sums,
) -> Result<(Vec<u64>, Vec<u64>), NoMemory>
    requires small { factors.a.now.cols ≤ 2 ^ 24 }
    requires places { factors.places ≡ 64 * (factors.a.now.cols / 64 + 1) }
    requires sums { AreSumsOf factors 0 factors.a.now.rows sums }
    ensures bits { IfOk result (λ r. length r.0.items ≡ factors.entry.a.now.cols / 64 + 1) }
    ensures words { IfOk result (λ r. length r.1.items ≡ factors.entry.a.now.cols) }
    ensures none_behind { IfOk result (λ r. (at : ℕ) → factors.entry.a.now.cols ≤ at
        → has_bit r.0.items at ≡ false) }
    ensures sums { IfOk result (λ r. AreColumnSums factors.entry.semiring.add.op
        (terms_between factors.entry 0 factors.entry.a.now.rows) r.0.items r.1.items) }
{
    let cols = factors.a.cols() as usize;
    match sums {
        Sums::Words(WordSums { marks, mut words }) => {
            let mut bits = vec![in alloc; 0; cols / 64 + 1]?;
            set_marked(&mut bits, &marks);
            words.truncate(cols);
            Ok((bits, words))
        }
        Sums::Truths(TruthSums { bits, trues }) => {
            let mut words = vec![in alloc; 0; cols]?;
            write_truths(&mut words, &trues);
            Ok((bits, words))
        }
    }
}
