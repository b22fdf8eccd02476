//! Bitmaps with an entry at each position.
ghost use Rattle.std.specs.Prelude.{◌≡◌, ◌<◌, ◌≤◌, ◌*◌, ◌/◌, ◌+◌, ◌^◌, ℕ, Some, IfErr, IfOk};
ghost use Rattle.std.specs.Prelude.{length, nat_lt, slice_index};
ghost use Rattle.lanes.specs.Bits.{has_bit};
ghost use Rattle.model.specs.Entries.{word_at};
ghost use Rattle.bitmap.specs.Bitmaps.{place_of};

use crate::Bitmap;
use model::NoMemory;
use std::alloc::Global;

impl Bitmap {
    /// A bitmap with an entry at each position, whose words these are, row by row. They come back where there is no
    /// memory for its bits.
    pub fn full(alloc: Global, rows: u64, cols: u64, words: Vec<u64>) -> Result<Bitmap, Vec<u64>>
        requires small { rows * cols ≤ 2 ^ 24 }
        requires words { length words.items ≡ rows * cols }
        ensures rows { IfOk result (λ b. b.rows ≡ rows) }
        ensures cols { IfOk result (λ b. b.cols ≡ cols) }
        ensures content { IfOk result (λ b. (i j : ℕ) → i < rows → j < cols
            → word_at b.entries i j ≡ Some (slice_index words.items (place_of cols i j))) }
        ensures refused { IfErr result (λ back. back.items ≡ words.items) }
    {
        let Ok(bits) = full_bits(alloc, words.len()) else {
            return Err(words);
        };
        Ok(Bitmap {
            rows,
            cols,
            count: words.len() as u64,
            bits,
            words,
        })
    }
}

/// Bits of so many places, all of them set, and none behind the last one.
fn full_bits(alloc: Global, places: usize) -> Result<Vec<u64>, NoMemory>
    ensures length { IfOk result (λ bits. length bits.items ≡ places / 64 + 1) }
    ensures set { IfOk result (λ bits. (at : ℕ) → has_bit bits.items at ≡ nat_lt at places) }
{
    let mut bits = vec![in alloc; u64::MAX; places / 64 + 1]?;
    bits[places / 64] = (1 << (places % 64)) - 1;
    Ok(bits)
}

/// The rows of a column with an entry in each of them, and a copy of its words.
pub(crate) fn full_lists(alloc: Global, words: &[u64]) -> Result<(Vec<u64>, Vec<u64>), NoMemory>
    ensures length { IfOk result (λ r. length r.0.items ≡ length words.now) }
    ensures rows { IfOk result (λ r. (k : ℕ) → k < length words.now → slice_index r.0.items k ≡ k) }
    ensures words { IfOk result (λ r. r.1.items ≡ words.now) }
{
    let mut rows = vec![in alloc; 0; words.len()]?;
    number(&mut rows);
    let words = Vec::from_slice(alloc, words)?;
    Ok((rows, words))
}

/// Makes each word its place.
fn number(words: &mut [u64])
    ensures length { length words.new ≡ length words.old }
    ensures places { (k : ℕ) → k < length words.old → slice_index words.new k ≡ k }
{
    for k in 0..words.len() {
        words[k] = k as u64;
    }
}
