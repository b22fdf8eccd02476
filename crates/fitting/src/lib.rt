//! Which matrices are kept as bitmaps.
#![tactic(auto)]

ghost use Rattle.std.specs.Prelude.{◌≡◌};
ghost use Rattle.fitting.specs.Fitting.{has_many, may_be_bitmap, suits_bitmap};

// How many columns, or rows of one column, a bitmap has at least, how many positions at most, and at most how many
// times as many as entries.
const LEAST: u64 = 64;

const MOST: u64 = 1 << 24;

const TIMES: u64 = 8;

/// Whether a matrix of a shape is kept as a bitmap where many of its positions have an entry.
pub fn may_be_bitmap(rows: u64, cols: u64) -> bool
    ensures { result ≡ may_be_bitmap rows cols }
{
    let longest = if cols == 1 { rows } else { cols };
    longest >= LEAST && rows.saturating_mul(cols) <= MOST
}

/// Whether a matrix of a shape with so many entries is kept as a bitmap.
pub fn suits_bitmap(rows: u64, cols: u64, entries: u64) -> bool
    ensures { result ≡ suits_bitmap rows cols entries }
{
    may_be_bitmap(rows, cols) && has_many(rows.saturating_mul(cols), entries)
}

/// Whether so many entries are many of so many positions.
pub fn has_many(positions: u64, entries: u64) -> bool
    ensures { result ≡ has_many positions entries }
{
    positions / TIMES <= entries
}
