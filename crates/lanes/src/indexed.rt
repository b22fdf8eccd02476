//! Words by an index operator, which looks at the row and the column of each, and those that pass as a test.
ghost use Rattle.std.specs.Prelude.{◌≡◌, ◌<◌, ◌≤◌, ◌+◌, ◌*◌, ◌/◌, ◌%◌, ◌^◌, ◌==◌, ℕ, length, slice_index};
ghost use Rattle.std.specs.Int.{bit_at};
ghost use Rattle.algebra.specs.IndexOperators.{index_eval_of, passes};
ghost use Rattle.lanes.specs.Bits.{has_bit};

use crate::with_index;
use algebra::IndexOp;

// Places whose bits are in one word.
const PLACES: usize = 64;

/// Makes each word what the operator gives for it, with the word `s` as its scalar. The first of them is at the place
/// `base` in rows of so many columns.
pub fn write_answers(op: IndexOp, s: u64, cols: u64, base: usize, words: &mut [u64])
    requires cols { 0 < length words.old → 0 < cols }
    requires places { base + length words.old < 2 ^ 64 }
    ensures length { length words.new ≡ length words.old }
    ensures words { (k : ℕ) → k < length words.old → slice_index words.new k
        ≡ index_eval_of op.kind op.domain (slice_index words.old k) ((base + k) / cols) ((base + k) % cols) s }
{
    with_index!(op, |own| write_places(own, s, cols, base, words))
}

/// What `write_answers` makes, by one operator of its arms.
#[inline(always)]
fn write_places(op: IndexOp, s: u64, cols: u64, base: usize, words: &mut [u64])
    requires cols { 0 < length words.old → 0 < cols }
    requires places { base + length words.old < 2 ^ 64 }
    ensures length { length words.new ≡ length words.old }
    ensures words { (k : ℕ) → k < length words.old → slice_index words.new k
        ≡ index_eval_of op.kind op.domain (slice_index words.old k) ((base + k) / cols) ((base + k) % cols) s }
{
    if words.is_empty() {
        return;
    }
    let mut row = base as u64 / cols;
    let mut col = base as u64 % cols;
    for k in 0..words.len() {
        words[k] = op.eval(words[k], row, col, s);
        (row, col) = next_position(row, col, cols);
    }
}

/// The position behind another, in rows of so many columns.
#[inline(always)]
fn next_position(row: u64, col: u64, cols: u64) -> (u64, u64)
    requires col { col < cols }
    requires row { row + 1 < 2 ^ 64 }
    ensures place { result.0 * cols + result.1 ≡ row * cols + col + 1 }
    ensures col { result.1 < cols }
    ensures row { result.0 ≤ row + 1 }
{
    if col + 1 == cols {
        (row + 1, 0)
    } else {
        (row, col + 1)
    }
}

/// Sets the bit of each place whose word passes, with the word `s` as the operator's scalar, and clears those of the
/// others. The first word is at the place `base` in rows of so many columns.
pub fn mark_passing(op: IndexOp, s: u64, cols: u64, base: usize, words: &[u64], bits: &mut [u64])
    requires cols { 0 < length words.now → 0 < cols }
    requires places { base + length words.now < 2 ^ 64 }
    requires bits { length words.now ≤ 64 * length bits.old }
    ensures length { length bits.new ≡ length bits.old }
    ensures bits { (k : ℕ) → k < length words.now → has_bit bits.new k
        ≡ passes op.kind op.domain (slice_index words.now k) ((base + k) / cols) ((base + k) % cols) s }
{
    with_index!(op, |own| mark_places(own, s, cols, base, words, bits))
}

/// What `mark_passing` does, by one operator of its arms.
#[inline(always)]
fn mark_places(op: IndexOp, s: u64, cols: u64, base: usize, words: &[u64], bits: &mut [u64])
    requires cols { 0 < length words.now → 0 < cols }
    requires places { base + length words.now < 2 ^ 64 }
    requires bits { length words.now ≤ 64 * length bits.old }
    ensures length { length bits.new ≡ length bits.old }
    ensures bits { (k : ℕ) → k < length words.now → has_bit bits.new k
        ≡ passes op.kind op.domain (slice_index words.now k) ((base + k) / cols) ((base + k) % cols) s }
{
    let whole = words.len() / PLACES;
    for at in 0..whole {
        let from = at * PLACES;
        bits[at] = passing_bits(op, s, cols, base + from, &words[from..from + PLACES]);
    }
    let from = whole * PLACES;
    if from < words.len() {
        bits[whole] = passing_bits(op, s, cols, base + from, &words[from..]);
    }
}

/// The bits of up to 64 places, the first of which is `base`, in rows of so many columns: those are set whose words
/// pass. It is compiled without a branch.
#[inline(always)]
fn passing_bits(op: IndexOp, s: u64, cols: u64, base: usize, words: &[u64]) -> u64
    requires few { length words.now ≤ 64 }
    requires cols { 0 < cols }
    requires places { base + length words.now < 2 ^ 64 }
    ensures { (k : ℕ) → k < length words.now → (bit_at result k == 1)
        ≡ passes op.kind op.domain (slice_index words.now k) ((base + k) / cols) ((base + k) % cols) s }
{
    let mut row = base as u64 / cols;
    let mut col = base as u64 % cols;
    let mut bits = 0;
    for k in 0..words.len() {
        bits |= (op.passes(words[k], row, col, s) as u64) << k;
        (row, col) = next_position(row, col, cols);
    }
    bits
}
