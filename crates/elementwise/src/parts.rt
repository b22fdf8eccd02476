//! The words of stores that lie one behind the other, combined in order.
ghost use Rattle.std.specs.Prelude.{◌≡◌, ◌<◌, ◌≤◌, ◌^◌, ◌++◌, ℕ, List, false, length};
ghost use Rattle.std.specs.List.{All};
ghost use Rattle.algebra.specs.Value.{is_boolean};
ghost use Rattle.elementwise.specs.Sums.{words_of};
ghost use Rattle.lanes.specs.Lists.{fold_of};

use algebra::Monoid;
use lanes::{fold_words, with_monoid};
use std::thread;
use std::thread::Threads;
use store::Sparse;

/// The words of stores, one behind the other, combined in order from the monoid's identity.
pub(crate) fn fold_parts(monoid: Monoid, parts: &[Sparse]) -> u64
    ensures sum { result ≡ fold_of monoid.kind monoid.op.domain (words_of parts.now) }
    ensures words { All (λ word. word < 2 ^ 64) (words_of parts.now) }
{
    let mut sum = monoid.identity();
    for k in 0..parts.len() {
        let words = parts[k].words();
        know_words(words);
        sum = fold_behind(monoid, sum, words);
    }
    sum
}

/// Does nothing, but says what is true of every list of words: of one that a call gave nothing is known else.
#[inline(always)]
fn know_words(words: &[u64])
    ensures { All (λ word. word < 2 ^ 64) words.now }
{}

/// The same as `fold_parts`, where threads beside each other combine those of some stores each, about so many words.
pub(crate) fn fold_parts_beside<R: Threads>(
    rt: &R,
    monoid: Monoid,
    each: u64,
    parts: &[Sparse],
) -> u64
    requires laws { is_boolean monoid.op.domain ≡ false }
    ensures sum { result ≡ fold_of monoid.kind monoid.op.domain (words_of parts.now) }
    ensures words { All (λ word. word < 2 ^ 64) (words_of parts.now) }
{
    let count = share_of(parts, each);
    if count == parts.len() {
        return fold_parts(monoid, parts);
    }
    let (low, high) = parts.split_at(count);
    let front = move || -> u64
        ensures { (result ≡ fold_of monoid.kind monoid.op.domain (words_of low.entry.now))
            × All (λ word. word < 2 ^ 64) (words_of low.entry.now) }
    { fold_parts(monoid, low) };
    let back = move || -> u64
        requires { is_boolean monoid.op.domain ≡ false }
        ensures { (result ≡ fold_of monoid.kind monoid.op.domain (words_of high.entry.now))
            × All (λ word. word < 2 ^ 64) (words_of high.entry.now) }
    { fold_parts_beside(rt, monoid, each, high) };
    let (first, others) = thread::join(rt, front, back);
    monoid.op.eval(first, others)
}

/// How many of the first stores have about so many words, one at least: one more would have more too many than there
/// are too few.
fn share_of(parts: &[Sparse], each: u64) -> usize
    ensures within { result ≤ length parts.now }
    ensures some { 0 < length parts.now → 0 < result }
{
    let mut words = 0u64;
    for k in 0..parts.len() {
        let next = parts[k].nvals();
        if k > 0 && words.saturating_add(next / 2) >= each {
            return k;
        }
        words = words.saturating_add(next);
    }
    parts.len()
}

/// What words are combined to in order behind others, of which the sum is given.
fn fold_behind(monoid: Monoid, sum: u64, words: &[u64]) -> u64
    ensures { (others : List ℕ) → sum ≡ fold_of monoid.kind monoid.op.domain others
        → result ≡ fold_of monoid.kind monoid.op.domain (others ++ words.now) }
{
    // The laws of a monoid on BOOL are of truths alone, and a word may be any number.
    if monoid.op.domain.is_boolean() {
        with_monoid!(monoid, |own| fold_on(own, sum, words))
    } else {
        monoid.op.eval(sum, fold_words(monoid, words))
    }
}

/// What words are combined to in order behind others, word by word.
#[inline(always)]
fn fold_on(monoid: Monoid, sum: u64, words: &[u64]) -> u64
    ensures { (others : List ℕ) → sum ≡ fold_of monoid.kind monoid.op.domain others
        → result ≡ fold_of monoid.kind monoid.op.domain (others ++ words.now) }
{
    let mut all = sum;
    for k in 0..words.len() {
        all = monoid.op.eval(all, words[k]);
    }
    all
}
