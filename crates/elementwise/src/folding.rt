//! Who sums words: the calling thread, or others beside it.
ghost use Rattle.std.specs.Prelude.{◌≡◌, ◌<◌, false};
ghost use Rattle.algebra.specs.Value.{is_boolean};
ghost use Rattle.elementwise.specs.Sums.{words_of};
ghost use Rattle.lanes.specs.Lists.{fold_of};

use crate::parts::{fold_parts, fold_parts_beside};
use algebra::Monoid;
use bitmap::{OneThread, SeveralThreads};
use lanes::fold_words;
use std::thread;
use std::thread::Threads;
use store::Sparse;

/// How many words a thread is started for: to start it takes about a third of the time in which they are summed.
const WORTH_A_THREAD: usize = 1 << 17;

/// Who sums words.
pub trait WordFolder {
    /// Words combined in order, from the monoid's identity.
    fn fold(&self, monoid: Monoid, words: &[u64]) -> u64
        ensures { result ≡ fold_of monoid.kind monoid.op.domain words.now };

    /// The words of stores, one behind the other, combined in the same way.
    fn fold_parts(&self, monoid: Monoid, parts: &[Sparse]) -> u64
        ensures { result ≡ fold_of monoid.kind monoid.op.domain (words_of parts.now) };
}

impl WordFolder for OneThread {
    fn fold(&self, monoid: Monoid, words: &[u64]) -> u64 {
        fold_words(monoid, words)
    }

    fn fold_parts(&self, monoid: Monoid, parts: &[Sparse]) -> u64 {
        fold_parts(monoid, parts)
    }
}

impl<R: Threads> WordFolder for SeveralThreads<'_, R> {
    fn fold(&self, monoid: Monoid, words: &[u64]) -> u64 {
        let parts = (words.len() / WORTH_A_THREAD) as u64;
        let parts = parts.min(self.others().saturating_add(1)) as usize;
        // The laws of a monoid on BOOL are of truths alone, and a word may be any number.
        if parts < 2 || monoid.op.domain.is_boolean() {
            return fold_words(monoid, words);
        }
        fold_beside(self.starter(), monoid, words.len() / parts + 1, words)
    }

    fn fold_parts(&self, monoid: Monoid, parts: &[Sparse]) -> u64 {
        let mut words = 0u64;
        for part in parts {
            words = words.saturating_add(part.nvals());
        }
        let threads = (words / WORTH_A_THREAD as u64).min(self.others().saturating_add(1));
        if threads < 2 || monoid.op.domain.is_boolean() {
            return fold_parts(monoid, parts);
        }
        fold_parts_beside(self.starter(), monoid, words / threads, parts)
    }
}

/// The words combined in order, so many by each thread.
fn fold_beside<R: Threads>(rt: &R, monoid: Monoid, each: usize, words: &[u64]) -> u64
    requires laws { is_boolean monoid.op.domain ≡ false }
    requires each { 0 < each }
    ensures { result ≡ fold_of monoid.kind monoid.op.domain words.now }
{
    if words.len() <= each {
        return fold_words(monoid, words);
    }
    let (low, high) = words.split_at(each);
    let front = move || -> u64
        ensures { result ≡ fold_of monoid.kind monoid.op.domain low.entry.now }
    { fold_words(monoid, low) };
    let back = move || -> u64
        requires laws { is_boolean monoid.op.domain ≡ false }
        requires each { 0 < each }
        ensures { result ≡ fold_of monoid.kind monoid.op.domain high.entry.now }
    { fold_beside(rt, monoid, each, high) };
    let (first, others) = thread::join(rt, front, back);
    monoid.op.eval(first, others)
}
