//! The gaps of a line: its bytes that stand in no word.
ghost use Rattle.std.specs.Prelude.{◌≡◌, ◌<◌, ◌≤◌, IfSome, MatchOption, length, map, slice_index, true};
ghost use Rattle.std.specs.Simd.Lanes.{mask_l};
ghost use Rattle.lines.specs.Gaps.{AreInner, is_gap};

use std::simd::prelude::*;

/// So many bytes are looked at at one time.
const LANES: usize = 16;

/// A bit for each byte that stands in no word: that is no visible character of ASCII.
#[inline(always)]
fn gaps_in(bytes: u8x16) -> u64
    ensures { result ≡ mask_l (map is_gap bytes) }
{
    (bytes - u8x16::splat(b'!'))
        .simd_ge(u8x16::splat(b'~' - b'!' + 1))
        .to_bitmask()
}

/// The place of the first gap from a place on, if there is one.
#[inline(always)]
pub(crate) fn next_gap(line: &[u8], from: usize) -> Option<usize>
    requires { from ≤ length line.now }
    ensures within { IfSome result (λ gap. (from ≤ gap) × (gap < length line.now)) }
    ensures gap { IfSome result (λ gap. is_gap (slice_index line.now gap) ≡ true) }
    ensures inner { MatchOption result
        (AreInner line.now from (length line.now))
        (λ gap. AreInner line.now from gap) }
{
    let mut at = from;
    while line.len() - at >= LANES {
        let gaps = gaps_in(u8x16::from_slice(&line[at..]));
        if gaps != 0 {
            return Some(at + gaps.trailing_zeros() as usize);
        }
        at += LANES;
    }
    next_gap_slowly(line, at)
}

/// The same, byte by byte, for the few at the end of a line.
#[inline(always)]
fn next_gap_slowly(line: &[u8], from: usize) -> Option<usize>
    requires { from ≤ length line.now }
    ensures within { IfSome result (λ gap. (from ≤ gap) × (gap < length line.now)) }
    ensures gap { IfSome result (λ gap. is_gap (slice_index line.now gap) ≡ true) }
    ensures inner { MatchOption result
        (AreInner line.now from (length line.now))
        (λ gap. AreInner line.now from gap) }
{
    let mut at = from;
    while at < line.len() {
        if !line[at].is_ascii_graphic() {
            return Some(at);
        }
        at += 1;
    }
    None
}
