//! Words of which those count whose bits are set. The word of a place whose bit isn't set changes no result.
ghost use Rattle.std.specs.Prelude.{◌≡◌, ◌<◌, ◌≤◌, ◌+◌, ◌-◌, ◌*◌, ◌%◌, ◌==◌, ℕ, drop, if◌then◌else◌, length};
ghost use Rattle.std.specs.Prelude.{slice_index, take};
ghost use Rattle.std.specs.List.{fold};
ghost use Rattle.std.specs.Int.{bit_at};
ghost use Rattle.algebra.specs.Operators.{eval_of};
ghost use Rattle.lanes.specs.Bits.{AreUnited, has_bit, present_words, united_at};
ghost use Rattle.lanes.specs.Lists.{fold_of};

use crate::arms::with_binary;
use crate::bits::has_bit;
use crate::with_monoid;
use algebra::{BinaryOp, Monoid, cast};

// Places whose bits are in one word.
const PLACES: usize = 64;

/// Makes each word of `out` what a union has in its place, by the bits of both sides: where both are set what the
/// operator gives, where one is set its word, cast to the domain of the answer, and elsewhere 0.
pub fn unite_present(
    op: BinaryOp,
    left: &[u64],
    right: &[u64],
    a: &[u64],
    b: &[u64],
    out: &mut [u64],
)
    requires left { length out.old ≤ 64 * length left.now }
    requires right { length out.old ≤ 64 * length right.now }
    requires lefts { length a.now ≡ length out.old }
    requires rights { length b.now ≡ length out.old }
    ensures { AreUnited op.kind op.domain left.now right.now a.now b.now out.new }
{
    with_binary!(op, |own| unite_present_by(own, left, right, a, b, out))
}

/// What `unite_present` makes, by one operator of its arms.
#[inline(always)]
#[tactic(auto, unfolding(crate::specs::Bits::AreUnited))]
fn unite_present_by(
    op: BinaryOp,
    left: &[u64],
    right: &[u64],
    a: &[u64],
    b: &[u64],
    out: &mut [u64],
)
    requires left { length out.old ≤ 64 * length left.now }
    requires right { length out.old ≤ 64 * length right.now }
    requires lefts { length a.now ≡ length out.old }
    requires rights { length b.now ≡ length out.old }
    ensures { AreUnited op.kind op.domain left.now right.now a.now b.now out.new }
{
    let whole = out.len() / PLACES;
    for at in 0..whole {
        unite_part(op, left[at], right[at], at * PLACES, a, b, out);
    }
    unite_rest(op, left, right, whole * PLACES, a, b, out);
}

/// The words from `base` to the last.
#[inline(always)]
fn unite_rest(
    op: BinaryOp,
    left: &[u64],
    right: &[u64],
    base: usize,
    a: &[u64],
    b: &[u64],
    out: &mut [u64],
)
    requires left { length out.old ≤ 64 * length left.now }
    requires right { length out.old ≤ 64 * length right.now }
    requires lefts { length a.now ≡ length out.old }
    requires rights { length b.now ≡ length out.old }
    requires inside { base ≤ length out.old }
    ensures before { (k : ℕ) → k < base → slice_index out.new k ≡ slice_index out.old k }
    ensures here { (k : ℕ) → base ≤ k → k < length out.new → slice_index out.new k
        ≡ united_at op.kind op.domain (has_bit left.now k) (has_bit right.now k) (slice_index a.now k)
        (slice_index b.now k) }
{
    for k in base..out.len() {
        out[k] = unite(op, has_bit(left, k), has_bit(right, k), a[k], b[k]);
    }
}

/// The 64 words from `base` on, by the words of their bits.
#[inline(always)]
fn unite_part(
    op: BinaryOp,
    left: u64,
    right: u64,
    base: usize,
    a: &[u64],
    b: &[u64],
    out: &mut [u64],
)
    requires lefts { length a.now ≡ length out.old }
    requires rights { length b.now ≡ length out.old }
    requires inside { base + 64 ≤ length out.old }
    ensures before { (k : ℕ) → k < base → slice_index out.new k ≡ slice_index out.old k }
    ensures here { (k : ℕ) → base ≤ k → k < base + 64 → slice_index out.new k
        ≡ united_at op.kind op.domain (bit_at left (k - base) == 1) (bit_at right (k - base) == 1)
        (slice_index a.now k) (slice_index b.now k) }
{
    if left == u64::MAX && right == u64::MAX {
        unite_both(op, base, a, b, out);
    } else {
        unite_some(op, left, right, base, a, b, out);
    }
}

/// The 64 words from `base` on, where both sides have all of theirs.
#[inline(always)]
fn unite_both(op: BinaryOp, base: usize, a: &[u64], b: &[u64], out: &mut [u64])
    requires lefts { length a.now ≡ length out.old }
    requires rights { length b.now ≡ length out.old }
    requires inside { base + 64 ≤ length out.old }
    ensures before { (k : ℕ) → k < base → slice_index out.new k ≡ slice_index out.old k }
    ensures here { (k : ℕ) → base ≤ k → k < base + 64 → slice_index out.new k
        ≡ eval_of op.kind op.domain (slice_index a.now k) (slice_index b.now k) }
{
    for k in base..base + PLACES {
        out[k] = op.eval(a[k], b[k]);
    }
}

/// The 64 words from `base` on, of which either side may lack some.
#[inline(always)]
fn unite_some(
    op: BinaryOp,
    left: u64,
    right: u64,
    base: usize,
    a: &[u64],
    b: &[u64],
    out: &mut [u64],
)
    requires lefts { length a.now ≡ length out.old }
    requires rights { length b.now ≡ length out.old }
    requires inside { base + 64 ≤ length out.old }
    ensures before { (k : ℕ) → k < base → slice_index out.new k ≡ slice_index out.old k }
    ensures here { (k : ℕ) → base ≤ k → k < base + 64 → slice_index out.new k
        ≡ united_at op.kind op.domain (bit_at left (k - base) == 1) (bit_at right (k - base) == 1)
        (slice_index a.now k) (slice_index b.now k) }
{
    for k in base..base + PLACES {
        let at = k - base;
        out[k] = unite(op, is_set(left, at), is_set(right, at), a[k], b[k]);
    }
}

/// Whether the bit of a word at a place is set.
#[inline(always)]
fn is_set(word: u64, at: usize) -> bool
    requires { at < 64 }
    ensures { result ≡ (bit_at word at == 1) }
{
    (word >> at) & 1 == 1
}

/// What a union has at a place.
#[inline(always)]
fn unite(op: BinaryOp, has_left: bool, has_right: bool, left: u64, right: u64) -> u64
    ensures { result ≡ united_at op.kind op.domain has_left has_right left right }
{
    let answer = op.answer();
    let both = op.eval(left, right);
    let left = cast(left, op.domain, answer);
    let right = cast(right, op.domain, answer);
    let alone = if has_left {
        left
    } else {
        keep(has_right, right)
    };
    if has_left && has_right { both } else { alone }
}

/// The word where it is there, else 0. It is compiled without a branch.
#[inline(always)]
fn keep(is_there: bool, word: u64) -> u64
    ensures { result ≡ (if is_there then word else 0) }
{
    if is_there { word } else { 0 }
}

/// The words whose bits are set, combined in order from the monoid's identity.
pub fn fold_present(monoid: Monoid, bits: &[u64], words: &[u64]) -> u64
    requires { length words.now ≤ 64 * length bits.now }
    ensures { result ≡ fold_of monoid.kind monoid.op.domain (present_words bits.now words.now) }
{
    with_monoid!(monoid, |own| fold_present_by(own, bits, words))
}

/// What `fold_present` gives, by one monoid of its arms.
#[inline(always)]
fn fold_present_by(monoid: Monoid, bits: &[u64], words: &[u64]) -> u64
    requires { length words.now ≤ 64 * length bits.now }
    ensures { result ≡ fold_of monoid.kind monoid.op.domain (present_words bits.now words.now) }
{
    let whole = words.len() / PLACES;
    let mut sum = monoid.identity();
    for at in 0..whole {
        sum = fold_part(monoid, bits, at * PLACES, words, sum);
    }
    fold_rest(monoid, bits, whole * PLACES, words, sum)
}

/// The sum with the words from `base` to the last.
#[inline(always)]
fn fold_rest(monoid: Monoid, bits: &[u64], base: usize, words: &[u64], before: u64) -> u64
    requires bits { length words.now ≤ 64 * length bits.now }
    requires inside { base ≤ length words.now }
    requires sum { before ≡ fold_of monoid.kind monoid.op.domain (present_words bits.now (take base words.now)) }
    ensures { result ≡ fold_of monoid.kind monoid.op.domain (present_words bits.now words.now) }
{
    let mut sum = before;
    for k in base..words.len() {
        sum = add_where(monoid, has_bit(bits, k), sum, words[k]);
    }
    sum
}

/// The sum with the words of 64 places more, from `base` on.
#[inline(always)]
fn fold_part(monoid: Monoid, bits: &[u64], base: usize, words: &[u64], before: u64) -> u64
    requires bits { length words.now ≤ 64 * length bits.now }
    requires inside { base + 64 ≤ length words.now }
    requires whole { base % 64 ≡ 0 }
    requires sum { before ≡ fold_of monoid.kind monoid.op.domain (present_words bits.now (take base words.now)) }
    ensures { result ≡ fold_of monoid.kind monoid.op.domain (present_words bits.now (take (base + 64) words.now)) }
{
    if bits[base / PLACES] == u64::MAX {
        fold_all(monoid, base, words, before)
    } else {
        fold_some(monoid, bits, base, words, before)
    }
}

/// The sum with all words of 64 places more, from `base` on.
#[inline(always)]
fn fold_all(monoid: Monoid, base: usize, words: &[u64], before: u64) -> u64
    requires { base + 64 ≤ length words.now }
    ensures { result ≡ fold (eval_of monoid.op.kind monoid.op.domain) before (take 64 (drop base words.now)) }
{
    let mut sum = before;
    for k in base..base + PLACES {
        sum = monoid.op.eval(sum, words[k]);
    }
    sum
}

/// The sum with those words of 64 places more, from `base` on, whose bits are set.
#[inline(always)]
fn fold_some(monoid: Monoid, bits: &[u64], base: usize, words: &[u64], before: u64) -> u64
    requires bits { length words.now ≤ 64 * length bits.now }
    requires inside { base + 64 ≤ length words.now }
    requires whole { base % 64 ≡ 0 }
    requires sum { before ≡ fold_of monoid.kind monoid.op.domain (present_words bits.now (take base words.now)) }
    ensures { result ≡ fold_of monoid.kind monoid.op.domain (present_words bits.now (take (base + 64) words.now)) }
{
    let here = bits[base / PLACES];
    let mut sum = before;
    for k in base..base + PLACES {
        sum = add_where(monoid, is_set(here, k - base), sum, words[k]);
    }
    sum
}

/// The sum with a word more where it is there. It is compiled without a branch.
#[inline(always)]
fn add_where(monoid: Monoid, is_there: bool, sum: u64, word: u64) -> u64
    ensures { result ≡ (if is_there then eval_of monoid.op.kind monoid.op.domain sum word else sum) }
{
    let more = monoid.op.eval(sum, word);
    if is_there { more } else { sum }
}
