//! Which rows of products are summed in a place for each column, and which of the places are looked through.
ghost use Rattle.std.specs.Prelude.{◌≡◌, ◌<◌, ◌≤◌, ◌+◌, ◌/◌, ◌^◌, ◌⊎◌, ℕ, true};
ghost use Rattle.std.specs.List.{All, AllPairs};

use crate::dense::MOST_PLACES;
use std::ops::Range;
use terms::Term;

/// How many words of bits are looked through at most for each product, where that is faster than to sort the
/// products.
const WORDS_A_PRODUCT: usize = 4;

/// How many columns there are at most for each product, where to make places for them is faster than to sort the
/// products.
const COLUMNS_A_PRODUCT: usize = 64;

/// How many products of a row are collected at most, where there are so many columns, and so many places already:
/// where there are more, a place for each column pays.
pub(crate) fn most_collected(cols: u64, places: usize) -> usize
    ensures { result + 1 < 2 ^ 64 → cols ≤ 2 ^ 24 }
{
    if cols > MOST_PLACES {
        return usize::MAX;
    }
    if cols < places as u64 {
        cols as usize / 64 / WORDS_A_PRODUCT
    } else {
        cols as usize / COLUMNS_A_PRODUCT
    }
}

/// Whether it pays to sum so many products in the places of a span, where there are `places` already and so many
/// columns.
pub(crate) fn pays(span: &Range<usize>, count: usize, cols: u64, places: usize) -> bool
    requires { span.now.start ≤ span.now.end }
    ensures { result ≡ true → cols < places }
{
    cols < places as u64 && (span.end - span.start) / WORDS_A_PRODUCT <= count
}

/// How many products a row has, and the words of bits that their columns span; of none it is the first.
#[derive(Drop)]
pub(crate) struct Reach {
    pub(crate) count: usize,
    pub(crate) span: Range<usize>,
}

impl Reach {
    /// Whether it paid to add the products at once in the places of the span, where there are `places` already and
    /// so many columns: there are no more of them than would be listed.
    pub(crate) fn pays(&self, cols: u64, places: usize) -> bool
        requires { self.now.span.start ≤ self.now.span.end }
    {
        self.count <= most_collected(cols, places) && pays(&self.span, self.count, cols, places)
    }
}

/// The least and the greatest of two numbers and of some that rise.
#[inline(always)]
pub(crate) fn widened_by_row(ends: (u64, u64), cols: &[u64]) -> (u64, u64)
    requires rising { AllPairs (λ p q. p < q) cols.now }
    ensures least { result.0 ≤ ends.0 }
    ensures greatest { ends.1 ≤ result.1 }
    ensures within { All (λ col. (result.0 ≤ col) × (col ≤ result.1)) cols.now }
    ensures bound { (past : ℕ) → ends.1 < past → All (λ col. col < past) cols.now → result.1 < past }
{
    if cols.is_empty() {
        return ends;
    }
    widened(widened(ends, cols[0]), cols[cols.len() - 1])
}

/// The words of bits from that of one column to that of another; where the first one is above, that of the other.
#[inline(always)]
pub(crate) fn words_between(ends: (u64, u64)) -> Range<usize>
    ensures order { result.start ≤ result.end }
    ensures low { result.start ≤ ends.0 / 64 }
    ensures first { ends.0 / 64 ≤ ends.1 / 64 → result.start ≡ ends.0 / 64 }
    ensures above { ends.1 / 64 ≤ ends.0 / 64 → result.start ≡ ends.1 / 64 }
    ensures high { result.end ≡ ends.1 / 64 + 1 }
{
    let last = ends.1 / 64;
    let first = last.min(ends.0 / 64);
    first as usize..last as usize + 1
}

/// The words of bits from that of the least to that of the greatest column of some terms; of none it is the first.
pub(crate) fn span_of(terms: &[Term]) -> Range<usize>
    ensures order { result.start ≤ result.end }
    ensures within { All (λ t. (result.start ≤ t.col / 64) × (t.col / 64 < result.end)) terms.now }
    ensures bound { (words : ℕ) → 0 < words → All (λ t. t.col / 64 < words) terms.now → result.end ≤ words }
{
    let mut ends = (u64::MAX, 0);
    for term in terms {
        ends = widened(ends, term.col);
    }
    words_between(ends)
}

/// The least and the greatest of two numbers and a third.
#[inline(always)]
fn widened(ends: (u64, u64), col: u64) -> (u64, u64)
    ensures least { result.0 ≤ ends.0 }
    ensures greatest { ends.1 ≤ result.1 }
    ensures low { result.0 ≤ col }
    ensures high { col ≤ result.1 }
    ensures either_least { (result.0 ≡ ends.0) ⊎ (result.0 ≡ col) }
    ensures either { (result.1 ≡ ends.1) ⊎ (result.1 ≡ col) }
{
    let greatest = if ends.1 < col { col } else { ends.1 };
    (ends.0.min(col), greatest)
}
