//! The sums over LOR of the products of a vector that is a bitmap and some rows of a store, as bits.
ghost use Rattle.std.specs.Prelude.{◌≡◌, ◌<◌, ◌≤◌, ◌-◌, ◌*◌, ◌/◌, ◌+◌, ◌++◌, ◌||◌, ℕ, List, IfOk, IfSome, None};
ghost use Rattle.std.specs.Prelude.{if◌then◌else◌, length};
ghost use Rattle.std.specs.List.{All};
ghost use Rattle.algebra.specs.declared.kinds.MonoidKind.TheVariants.{Lor};
ghost use Rattle.bitmap.specs.Bitmaps.{row_part};
ghost use Rattle.lanes.specs.Bits.{has_bit};
ghost use Rattle.model.specs.Entries.{word_at};
ghost use Rattle.model.specs.Object.{transposed_content};
ghost use Rattle.store.specs.Fibers.{entries_along};
ghost use Rattle.spgemm.specs.Dense.{AreClear};
ghost use Rattle.spgemm.specs.Partials.{AreTruthsOf, terms_between};
ghost use Rattle.terms.specs.Terms.{terms_of_row, times_found};
ghost use Rattle.spgemm.specs.Truths.{AreTruths};
ghost use Rattle.terms.specs.declared.term.Term.{Term};

use crate::bitmap_sums::Factors;
use crate::truths::{add_products, add_true_products};
use algebra::{Semiring, with_semirings};
use bitmap::Bitmap;
use lanes::lowest_bits;
use model::NoMemory;
use std::alloc::Global;
use std::ops::Range;
use store::Sparse;

/// Bits of the columns that have products, and of those whose sum is true.
#[derive(Drop)]
pub(crate) struct TruthSums {
    pub(crate) bits: Vec<u64>,
    pub(crate) trues: Vec<u64>,
}

impl TruthSums {
    /// The sums of the products with the rows in a range.
    pub(crate) fn of_rows(
        alloc: Global,
        factors: Factors<'_>,
        rows: Range<u64>,
    ) -> Result<TruthSums, NoMemory>
        requires lor { factors.semiring.add.kind ≡ Lor }
        requires vector { factors.u.now.cols ≡ 1 }
        requires order { rows.start ≤ rows.end }
        requires places { factors.places ≡ 64 * (factors.a.now.cols / 64 + 1) }
        ensures { IfOk result (AreTruthsOf factors.entry (terms_between factors.entry rows.start rows.end)) }
    {
        let Factors {
            u,
            a,
            semiring,
            places,
        } = factors;
        let mut bits = vec![in alloc; 0; places / 64]?;
        let mut trues = vec![in alloc; 0; places / 64]?;
        add_rows(&mut bits, &mut trues, u, a, semiring, rows);
        Ok(TruthSums { bits, trues })
    }

    /// Adds the sums of other products, place by place.
    pub(crate) fn add(&mut self, other: &TruthSums)
        requires bits { length other.now.bits.items ≡ length self.old.bits.items }
        requires trues { length other.now.trues.items ≡ length self.old.trues.items }
        ensures bits_length { length self.new.bits.items ≡ length self.old.bits.items }
        ensures trues_length { length self.new.trues.items ≡ length self.old.trues.items }
        ensures bits { (at : ℕ) → has_bit self.new.bits.items at
            ≡ (has_bit self.old.bits.items at || has_bit other.now.bits.items at) }
        ensures trues { (at : ℕ) → has_bit self.new.trues.items at
            ≡ (has_bit self.old.trues.items at || has_bit other.now.trues.items at) }
    {
        put_to(&mut self.bits, &other.bits);
        put_to(&mut self.trues, &other.trues);
    }
}

/// Sets the bits that are set in other words.
fn put_to(bits: &mut [u64], others: &[u64])
    requires { length others.now ≡ length bits.old }
    ensures length { length bits.new ≡ length bits.old }
    ensures bits { (at : ℕ) → has_bit bits.new at ≡ (has_bit bits.old at || has_bit others.now at) }
{
    for at in 0..bits.len() {
        bits[at] |= others[at];
    }
}

/// Adds the products of a vector with the rows of `a` in a range, where no bit is set.
#[tactic(auto, using(crate::proofs::Arms::same_truths))]
fn add_rows(
    bits: &mut [u64],
    trues: &mut [u64],
    u: &Bitmap,
    a: &Sparse,
    semiring: Semiring,
    rows: Range<u64>,
)
    requires lor { semiring.add.kind ≡ Lor }
    requires trues { length trues.old ≡ length bits.old }
    requires inside { a.now.cols ≤ 64 * length bits.old }
    requires order { rows.start ≤ rows.end }
    requires vector { u.now.cols ≡ 1 }
    requires none { AreClear bits.old }
    requires all_false { AreClear trues.old }
    ensures { AreTruths semiring.add.op (terms_of_row semiring.multiply
        (row_part (transposed_content (word_at u.now.entries)) 0 rows.start (rows.end - rows.start)) a.now)
        bits.new trues.new }
{
    // All that runs below the arms is inlined, so that its loops are compiled for each.
    with_semirings!(
        semiring,
        own,
        add_rows_by(bits, trues, u, a, own, rows.start..rows.end),
        Lor Land Bool,
    )
}

/// What `add_rows` does, by one semiring of its arms.
#[inline(always)]
fn add_rows_by(
    bits: &mut [u64],
    trues: &mut [u64],
    u: &Bitmap,
    a: &Sparse,
    semiring: Semiring,
    rows: Range<u64>,
)
    requires lor { semiring.add.kind ≡ Lor }
    requires trues { length trues.old ≡ length bits.old }
    requires inside { a.now.cols ≤ 64 * length bits.old }
    requires order { rows.start ≤ rows.end }
    requires vector { u.now.cols ≡ 1 }
    requires none { AreClear bits.old }
    requires all_false { AreClear trues.old }
    ensures { AreTruths semiring.add.op (terms_of_row semiring.multiply
        (row_part (transposed_content (word_at u.now.entries)) 0 rows.start (rows.end - rows.start)) a.now)
        bits.new trues.new }
{
    let mut last = 0;
    let mut from = rows.start;
    let mut all_true = true;
    while let Some(row) = next_between(u, from, rows.end) {
        let (cols, words, next) = a.row_near(row, last);
        last = next;
        all_true = add_row(bits, trues, all_true, u.get(row, 0), cols, words, semiring);
        from = row + 1;
    }
    if all_true {
        trues.copy_from_slice(bits);
    }
}

/// The first row from one on, and before another, at which a column has an entry. It goes along bits, 64 rows at a
/// time: whether a row has an entry can't be foreseen.
#[inline(always)]
fn next_between(u: &Bitmap, from: u64, past: u64) -> Option<u64>
    requires column { u.now.cols ≡ 1 }
    ensures low { IfSome result (λ row. from ≤ row) }
    ensures high { IfSome result (λ row. row < past) }
    ensures gap { IfSome result (λ row. (k : ℕ) → from ≤ k → k < row → word_at u.now.entries k 0 ≡ None) }
    ensures none { result ≡ None → (k : ℕ) → from ≤ k → k < past → word_at u.now.entries k 0 ≡ None }
{
    let mut row = from;
    while row < past {
        let left = u.present((row / 64) as usize) & !lowest_bits(row % 64);
        if left != 0 {
            let found = row / 64 * 64 + u64::from(left.trailing_zeros());
            return if found < past { Some(found) } else { None };
        }
        row = (row / 64 * 64).saturating_add(64);
    }
    None
}

/// Adds what the vector has at a row of `a`, if anything, times each entry of the row, and says whether all products
/// were true so far. As long as they are, `trues` isn't written: the bits of the true sums are those of all. That is
/// the usual case, and half of the work.
#[inline(always)]
fn add_row(
    bits: &mut [u64],
    trues: &mut [u64],
    all_true: bool,
    word: Option<u64>,
    cols: &[u64],
    words: &[u64],
    semiring: Semiring,
) -> bool
    requires lor { semiring.add.kind ≡ Lor }
    requires trues { length trues.old ≡ length bits.old }
    requires lengths { length words.now ≡ length cols.now }
    requires inside { All (λ col. col < 64 * length bits.old) cols.now }
    ensures { (terms : List Term)
        → AreTruths semiring.add.op terms bits.old (if all_true then bits.old else trues.old)
        → AreTruths semiring.add.op (terms ++ times_found semiring.multiply word (entries_along 0 cols.now words.now))
        bits.new (if result then bits.new else trues.new) }
{
    let Some(word) = word else {
        return all_true;
    };
    if all_true {
        if add_true_products(bits, word, cols, words, semiring) {
            return true;
        }
        trues.copy_from_slice(bits);
    }
    add_products(bits, trues, word, cols, words, semiring);
    false
}
