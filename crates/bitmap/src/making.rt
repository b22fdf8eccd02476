//! Words that are made of those of others, each of what stands in its place there.
ghost use Rattle.std.specs.Prelude.{◌≡◌, ◌<◌, ◌≤◌, ◌+◌, ◌*◌, ◌/◌, ◌%◌, ◌==◌, ℕ, IfOk, OnOk, length, slice_index};
ghost use Rattle.std.specs.Int.{bit_at};
ghost use Rattle.algebra.specs.IndexOperators.{passes};
ghost use Rattle.bitmap.specs.Words.{Fits, IsMade, places_of};

use algebra::{BinaryOp, IndexOp};
use lanes::{WordFunction, mark_passing, unite_present, write_answers, zip_words};
use model::NoMemory;
use std::alloc::Global;
use std::thread::{Threads, join_mut};

/// How many words a part has: those of whole words of bits. Each part costs a call by the operator, and smaller ones
/// gained nothing where all lists lie in the second cache.
const PART: usize = 4096;

/// How many words make the last part long: the calling thread starts a thread for it too then, and only waits. The
/// first thread that it starts may be put on its own processor, and would begin when the last part is made.
const WORTH_WAITING: usize = 1 << 17;

/// What words are made of.
#[derive(Clone, Copy)]
pub enum Words<'a> {
    /// Words as they are.
    Copied {
        a: &'a [u64],
    },
    /// What a function gives for each word.
    Mapped {
        function: WordFunction,
        a: &'a [u64],
    },
    /// What an index operator gives for each word, with the word `s` as its scalar, in rows of so many columns.
    Answers {
        op: IndexOp,
        s: u64,
        cols: u64,
        a: &'a [u64],
    },
    /// A bit for each word, 64 in one: whether it passes such a test. One word more is made where 64 divides their
    /// number.
    Passing {
        op: IndexOp,
        s: u64,
        cols: u64,
        a: &'a [u64],
    },
    /// What an operator gives for the words of both lists in the same place.
    Zipped {
        op: BinaryOp,
        a: &'a [u64],
        b: &'a [u64],
    },
    /// What a union has in each place, by the bits of both sides.
    United {
        op: BinaryOp,
        left: &'a [u64],
        right: &'a [u64],
        a: &'a [u64],
        b: &'a [u64],
    },
}

impl<'a> Words<'a> {
    /// How many there are.
    pub(crate) fn places(self) -> usize
        ensures { result ≡ places_of self.entry }
    {
        match self {
            Words::Passing { a, .. } => a.len() / 64 + 1,
            Words::Copied { a }
            | Words::Mapped { a, .. }
            | Words::Answers { a, .. }
            | Words::Zipped { a, .. }
            | Words::United { a, .. } => a.len(),
        }
    }

    /// How many words are read of a list.
    pub(crate) fn read(self) -> usize {
        match self {
            Words::Passing { a, .. } => a.len(),
            _ => self.places(),
        }
    }

    /// Makes those of a part, of which `start` is the first.
    fn fill(self, start: usize, part: &mut [u64])
        requires fits { Fits self }
        requires inside { start + length part.old ≤ places_of self }
        requires bits { start % 64 ≡ 0 }
        ensures length { length part.new ≡ length part.old }
        ensures words { (k : ℕ) → k < length part.old → IsMade self.entry (start + k) (slice_index part.new k) }
    {
        let past = start + part.len();
        match self {
            Words::Copied { a } => part.copy_from_slice(&a[start..past]),
            Words::Mapped { function, a } => function.write(&a[start..past], part),
            Words::Answers { op, s, cols, a } => {
                part.copy_from_slice(&a[start..past]);
                write_answers(op, s, cols, start, part);
            }
            Words::Passing { op, s, cols, a } => fill_passing(op, s, cols, a, start, part),
            Words::Zipped { op, a, b } => zip_words(op, &a[start..past], &b[start..past], part),
            Words::United {
                op,
                left,
                right,
                a,
                b,
            } => {
                let (left, right) = (&left[start / 64..], &right[start / 64..]);
                unite_present(op, left, right, &a[start..past], &b[start..past], part);
            }
        }
    }
}

/// Makes a part of the bits of words that pass, of which that in place `start` is the first.
fn fill_passing(op: IndexOp, s: u64, cols: u64, words: &[u64], start: usize, part: &mut [u64])
    requires cols { 0 < length words.now → 0 < cols }
    requires inside { start + length part.old ≤ length words.now / 64 + 1 }
    ensures length { length part.new ≡ length part.old }
    ensures bits { (k b : ℕ) → k < length part.old → b < 64 → 64 * (start + k) + b < length words.now
        → (bit_at (slice_index part.new k) b == 1) ≡ passes op.kind op.domain
        (slice_index words.now (64 * (start + k) + b)) ((64 * (start + k) + b) / cols)
        ((64 * (start + k) + b) % cols) s }
{
    let from = words.len().min(64 * start);
    let past = words.len().min(from + 64 * part.len());
    mark_passing(op, s, cols, from, &words[from..past], part);
}

/// The words, by the calling thread. They are made part by part, so that a part stays in the cache between the time
/// when its memory is cleared and the operator.
pub(crate) fn make_alone(alloc: Global, words: Words<'_>) -> Result<Vec<u64>, NoMemory>
    requires { Fits words }
    ensures length { IfOk result (λ made. length made.items ≡ places_of words.entry) }
    ensures words { IfOk result (λ made. (k : ℕ) → k < places_of words.entry
        → IsMade words.entry k (slice_index made.items k)) }
{
    let places = words.places();
    let mut made = Vec::with_capacity(alloc, places)?;
    for part in 0..places.div_ceil(PART) {
        let past = places.min((part + 1) * PART);
        append(&mut made, words, past)?;
    }
    Ok(made)
}

/// The words, by the calling thread, in the place of what a list holds. Memory is taken where it has no room for them.
pub(crate) fn make_over(list: Vec<u64>, words: Words<'_>) -> Result<Vec<u64>, NoMemory>
    requires { Fits words }
    ensures length { IfOk result (λ made. length made.items ≡ places_of words.entry) }
    ensures words { IfOk result (λ made. (k : ℕ) → k < places_of words.entry
        → IsMade words.entry k (slice_index made.items k)) }
{
    let mut made = list;
    made.resize(words.places(), 0)?;
    fill_in_turns(words, 0, &mut made);
    Ok(made)
}

/// Appends the words up to a place.
fn append(made: &mut Vec<u64>, words: Words<'_>, past: usize) -> Result<(), NoMemory>
    requires fits { Fits words }
    requires order { length made.old.items ≤ past }
    requires inside { past ≤ places_of words }
    requires bits { length made.old.items % 64 ≡ 0 }
    ensures length { OnOk result (length made.new.items ≡ past) }
    ensures before { OnOk result ((k : ℕ) → k < length made.old.items
        → slice_index made.new.items k ≡ slice_index made.old.items k) }
    ensures words { OnOk result ((k : ℕ) → length made.old.items ≤ k → k < past
        → IsMade words.entry k (slice_index made.new.items k)) }
{
    let start = made.len();
    match words {
        Words::Copied { a } => made.extend_from_slice(&a[start..past])?,
        Words::Answers { op, s, cols, a } => {
            made.extend_from_slice(&a[start..past])?;
            write_answers(op, s, cols, start, &mut made[start..]);
        }
        _ => {
            made.resize(past, 0)?;
            words.fill(start, &mut made[start..]);
        }
    }
    Ok(())
}

/// Makes the words of a part, of which `start` is the first, in turns, so that those of one stay in the cache between
/// the copy and the operator.
fn fill_in_turns(words: Words<'_>, start: usize, part: &mut [u64])
    requires fits { Fits words }
    requires inside { start + length part.old ≤ places_of words }
    requires bits { start % 64 ≡ 0 }
    ensures length { length part.new ≡ length part.old }
    ensures words { (k : ℕ) → k < length part.old → IsMade words.entry (start + k) (slice_index part.new k) }
{
    for turn in 0..part.len().div_ceil(PART) {
        let low = turn * PART;
        let past = part.len().min(low + PART);
        words.fill(start + low, &mut part[low..past]);
    }
}

/// Makes the words of a part, of which `start` is the first, by a thread for each so many of them.
pub(crate) fn fill_beside<R: Threads>(
    rt: &R,
    words: Words<'_>,
    start: usize,
    each: usize,
    part: &mut [u64],
)
    requires fits { Fits words }
    requires each { 0 < each }
    requires whole { each % 64 ≡ 0 }
    requires bits { start % 64 ≡ 0 }
    requires inside { start + length part.old ≤ places_of words }
    ensures length { length part.new ≡ length part.old }
    ensures words { (k : ℕ) → k < length part.old → IsMade words.entry (start + k) (slice_index part.new k) }
{
    if part.len() <= each {
        fill_last(rt, words, start, part);
        return;
    }
    let (low, high) = part.split_at_mut(each);
    let next = start + each;
    let mut front = ||
        requires { (Fits words) × (start + length low.now ≤ places_of words) × (start % 64 ≡ 0) }
        ensures { (length low.exit.now ≡ length low.entry.now) × ((k : ℕ) → k < length low.entry.now
            → IsMade words.entry (start + k) (slice_index low.exit.now k)) }
    { fill_in_turns(words, start, low) };
    let mut back = ||
        requires { (Fits words) × (0 < each) × (each % 64 ≡ 0) × (next % 64 ≡ 0)
            × (next + length high.now ≤ places_of words) }
        ensures { (length high.exit.now ≡ length high.entry.now) × ((k : ℕ) → k < length high.entry.now
            → IsMade words.entry (next + k) (slice_index high.exit.now k)) }
    { fill_beside(rt, words, next, each, high) };
    join_mut(rt, &mut front, &mut back);
}

/// Makes the words of the last part. Where it is long, and not the only one, it is a started thread that does so.
fn fill_last<R: Threads>(rt: &R, words: Words<'_>, start: usize, part: &mut [u64])
    requires fits { Fits words }
    requires bits { start % 64 ≡ 0 }
    requires inside { start + length part.old ≤ places_of words }
    ensures length { length part.new ≡ length part.old }
    ensures words { (k : ℕ) → k < length part.old → IsMade words.entry (start + k) (slice_index part.new k) }
{
    if start == 0 || part.len() < WORTH_WAITING {
        fill_in_turns(words, start, part);
        return;
    }
    let mut front = ||
        requires { (Fits words) × (start + length part.now ≤ places_of words) × (start % 64 ≡ 0) }
        ensures { (length part.exit.now ≡ length part.entry.now) × ((k : ℕ) → k < length part.entry.now
            → IsMade words.entry (start + k) (slice_index part.exit.now k)) }
    { fill_in_turns(words, start, part) };
    let mut back = || {};
    join_mut(rt, &mut front, &mut back);
}
