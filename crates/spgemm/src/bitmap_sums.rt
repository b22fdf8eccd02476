//! The sums of the products of a vector that is a bitmap and some rows of a store, and those of all of them by
//! several threads.
ghost use Rattle.std.specs.Prelude.{◌≡◌, ◌<◌, ◌≤◌, ◌+◌, ◌*◌, ◌/◌, ◌^◌, ℕ, IfOk, IfSome};
ghost use Rattle.spgemm.specs.Partials.{AreAlike, AreSumsOf};

use crate::bitmap_truths::TruthSums;
use crate::bitmap_words::WordSums;
use crate::truths::are_truths;
use algebra::Semiring;
use bitmap::Bitmap;
use model::NoMemory;
use std::alloc::Global;
use std::ops::Range;
use std::thread;
use std::thread::Threads;
use store::Sparse;

/// How many products a thread is started for: to start it takes about a fifth of the time of these.
const WORTH_A_THREAD: u64 = 1 << 15;

/// The factors of a product, and how many places there are for its sums: one for each column, or more.
#[derive(Clone, Copy)]
pub(crate) struct Factors<'a> {
    pub(crate) u: &'a Bitmap,
    pub(crate) a: &'a Sparse,
    pub(crate) semiring: Semiring,
    pub(crate) places: usize,
}

/// Sums of products, in the form that suits the monoid.
#[derive(Drop)]
pub(crate) enum Sums {
    /// Words, each with a mark.
    Words(WordSums),
    /// Over LOR, as bits.
    Truths(TruthSums),
}

impl<'a> Factors<'a> {
    /// The factors of a product by a semiring, with places for whole words of bits.
    pub(crate) fn of(u: &'a Bitmap, a: &'a Sparse, semiring: Semiring) -> Factors<'a>
        requires { a.now.cols ≤ 2 ^ 24 }
        ensures u { result.u.now ≡ u.now }
        ensures a { result.a.now ≡ a.now }
        ensures semiring { result.semiring ≡ semiring }
        ensures places { result.places ≡ 64 * (a.now.cols / 64 + 1) }
    {
        Factors {
            u,
            a,
            semiring,
            places: 64 * (a.cols() as usize / 64 + 1),
        }
    }
}

/// The sums of all products, by one thread.
pub(crate) fn sum_alone(alloc: Global, factors: Factors<'_>) -> Result<Sums, NoMemory>
    requires vector { factors.u.now.cols ≡ 1 }
    requires places { factors.places ≡ 64 * (factors.a.now.cols / 64 + 1) }
    ensures { IfOk result (AreSumsOf factors.entry 0 factors.entry.a.now.rows) }
{
    Sums::of_rows(alloc, factors, 0..factors.a.rows())
}

/// The sums of all products. Where there are many, so many threads beside the calling one make those of some rows each;
/// then they are put together, in the order of the rows.
pub(crate) fn sum_beside<R: Threads>(
    rt: &R,
    others: u64,
    alloc: Global,
    factors: Factors<'_>,
) -> Result<Sums, NoMemory>
    requires vector { factors.u.now.cols ≡ 1 }
    requires places { factors.places ≡ 64 * (factors.a.now.cols / 64 + 1) }
    ensures { IfOk result (AreSumsOf factors.entry 0 factors.entry.a.now.rows) }
{
    // The sums of each thread are put to the others', place by place, which takes a part of a product's time each.
    let least = WORTH_A_THREAD.max(factors.places as u64 / 4);
    let parts = (products_of(factors) / least).min(others.saturating_add(1));
    sum_parts(rt, alloc, factors, 0..factors.a.rows(), parts)
}

/// About how many products there are.
fn products_of(factors: Factors<'_>) -> u64 {
    let (u, a) = (factors.u, factors.a);
    u.nvals().saturating_mul(a.nvals()) / a.rows().max(1)
}

/// The sums of the products with the rows in a range, by so many threads.
fn sum_parts<R: Threads>(
    rt: &R,
    alloc: Global,
    factors: Factors<'_>,
    rows: Range<u64>,
    parts: u64,
) -> Result<Sums, NoMemory>
    requires vector { factors.u.now.cols ≡ 1 }
    requires order { rows.start ≤ rows.end }
    requires places { factors.places ≡ 64 * (factors.a.now.cols / 64 + 1) }
    ensures { IfOk result (AreSumsOf factors.entry rows.start rows.end) }
{
    let Some(cut) = cut_of(factors.a, rows.start..rows.end, parts) else {
        return Sums::of_rows(alloc, factors, rows);
    };
    let (first, past) = (rows.start, rows.end);
    let front = move || -> Result<Sums, NoMemory>
        requires vector { factors.u.now.cols ≡ 1 }
        requires order { first ≤ cut }
        requires places { factors.places ≡ 64 * (factors.a.now.cols / 64 + 1) }
        ensures { IfOk result (AreSumsOf factors.entry first cut) }
    { Sums::of_rows(alloc, factors, first..cut) };
    let back = move || -> Result<Sums, NoMemory>
        requires vector { factors.u.now.cols ≡ 1 }
        requires order { cut ≤ past }
        requires parts { 1 ≤ parts }
        requires places { factors.places ≡ 64 * (factors.a.now.cols / 64 + 1) }
        ensures { IfOk result (AreSumsOf factors.entry cut past) }
    { sum_parts(rt, alloc, factors, cut..past, parts - 1) };
    let (low, high) = thread::join(rt, front, back);
    let low = low?;
    let high = high?;
    Ok(low.beside(high, factors.semiring))
}

/// The row behind the first of so many parts of rows, where another part follows it.
fn cut_of(a: &Sparse, rows: Range<u64>, parts: u64) -> Option<u64>
    ensures low { IfSome result (λ cut. rows.start < cut) }
    ensures high { IfSome result (λ cut. cut < rows.end) }
    ensures parts { IfSome result (λ _. 2 ≤ parts) }
{
    if parts < 2 || rows.start >= rows.end {
        return None;
    }
    let entries = a.fibers_in(rows.start..rows.end).len() as u64 / parts;
    let cut = a.part_end(rows.start..rows.end, entries.max(1) as usize);
    if cut >= rows.end {
        return None;
    }
    Some(cut)
}

impl Sums {
    /// The sums of the products with the rows in a range.
    fn of_rows(alloc: Global, factors: Factors<'_>, rows: Range<u64>) -> Result<Sums, NoMemory>
        requires vector { factors.u.now.cols ≡ 1 }
        requires order { rows.start ≤ rows.end }
        requires places { factors.places ≡ 64 * (factors.a.now.cols / 64 + 1) }
        ensures { IfOk result (AreSumsOf factors.entry rows.start rows.end) }
    {
        if are_truths(factors.semiring) {
            Ok(Sums::Truths(TruthSums::of_rows(alloc, factors, rows)?))
        } else {
            Ok(Sums::Words(WordSums::of_rows(alloc, factors, rows)?))
        }
    }

    /// These sums, put to those of other products place by place.
    fn beside(self, other: Sums, semiring: Semiring) -> Sums
        requires { AreAlike self other }
        ensures { (f : Factors) (first cut past : ℕ) → f.semiring ≡ semiring → first ≤ cut → cut ≤ past
            → AreSumsOf f first cut self → AreSumsOf f cut past other → AreSumsOf f first past result }
    {
        match self {
            Sums::Words(mut sums) => {
                let Sums::Words(other) = other else {
                    unreachable!();
                };
                sums.add(&other, semiring);
                Sums::Words(sums)
            }
            Sums::Truths(mut sums) => {
                let Sums::Truths(other) = other else {
                    unreachable!();
                };
                sums.add(&other);
                Sums::Truths(sums)
            }
        }
    }
}
