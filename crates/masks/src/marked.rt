//! Masks whose store is a bitmap, and what they keep of the entries of a column, in the same memory.
ghost use Rattle.std.specs.Prelude.{◌≡◌, ℕ, ◌<◌, ◌≤◌, ◌+◌, ◌-◌, ◌*◌, ◌^◌, ◌==◌, ◌∷◌, [], if◌then◌else◌};
ghost use Rattle.std.specs.Prelude.{IfErr, None, OnOk, length, take};
ghost use Rattle.std.specs.Int.{bit_at};
ghost use Rattle.lanes.specs.Bits.{has_bit};
ghost use Rattle.model.specs.Entries.{word_at};
ghost use Rattle.store.specs.Fibers.{end_at, entries_along};
ghost use Rattle.store.specs.Stored.{block_content, transposed};
ghost use Rattle.masks.specs.Keeps.{kept_by};
ghost use Rattle.masks.specs.Masks.{lets_word};

use crate::MaskTest;
use bitmap::Bitmap;
use model::NoMemory;
use std::alloc::Global;
use store::{FiberEnd, RowBlock};

/// The positions that a column as a bitmap lets through, for whoever asks for each.
#[derive(Clone, Copy)]
pub struct MarkedMask<'a> {
    pub bitmap: &'a Bitmap,
    pub test: MaskTest,
}

impl MarkedMask<'_> {
    /// Whether a row is let through. Where the mask goes by the structure alone, no word is read.
    #[inline(always)]
    pub fn lets(self, row: u64) -> bool
        ensures { result ≡ lets_word self.entry.test (word_at self.entry.bitmap.now.entries row 0) }
    {
        if self.test.valued {
            let counts = self.bitmap.get(row, 0).is_some_and(|word| word != 0);
            counts != self.test.complement
        } else {
            self.bitmap.has(row, 0) != self.test.complement
        }
    }

    /// The same for a column. Where the mask goes by the structure alone, the row's bit is all that is asked for.
    #[inline(always)]
    pub fn lets_row(self, row: u64) -> bool
        requires { self.bitmap.now.cols ≡ 1 }
        ensures { result ≡ lets_word self.entry.test (word_at self.entry.bitmap.now.entries row 0) }
    {
        if self.test.valued {
            return self.lets(row);
        }
        let present = self.bitmap.present(row as usize / 64);
        ((present >> (row % 64)) & 1 == 1) != self.test.complement
    }

    /// A bit for each of the 64 rows from `64 * at` on, which says whether the row is let through. Where the mask goes
    /// by the structure alone, it reads one word of bits.
    pub fn let_bits(self, at: usize) -> u64
        requires column { self.bitmap.now.cols ≡ 1 }
        requires small { at < 2 ^ 58 }
        ensures { (k : ℕ) → k < 64 → (bit_at result k == 1)
            ≡ lets_word self.entry.test (word_at self.entry.bitmap.now.entries (64 * at + k) 0) }
    {
        if self.test.valued {
            return self.asked_bits(64 * at as u64);
        }
        let present = self.bitmap.present(at);
        if self.test.complement {
            !present
        } else {
            present
        }
    }

    /// A bit for each of the 64 rows from one on, which says whether the row is let through. It asks for each.
    fn asked_bits(self, first: u64) -> u64
        requires { first < 2 ^ 64 - 63 }
        ensures { (k : ℕ) → k < 64 → (bit_at result k == 1)
            ≡ lets_word self.entry.test (word_at self.entry.bitmap.now.entries (first + k) 0) }
    {
        let mut bits = 0;
        for k in 0..64 {
            bits |= (self.lets(first + k) as u64) << k;
        }
        bits
    }

    /// Reads which rows are let through, so many words of bits from the first row on.
    pub fn read_bits(self, bits: &mut Vec<u64>, words: usize) -> Result<(), NoMemory>
        requires column { self.bitmap.now.cols ≡ 1 }
        requires small { words < 2 ^ 58 }
        ensures length { OnOk result (length bits.new.items ≡ words) }
        ensures bits { OnOk result ((at : ℕ) → at < 64 * words → has_bit bits.new.items at
            ≡ lets_word self.entry.test (word_at self.entry.bitmap.now.entries at 0)) }
    {
        bits.clear();
        bits.reserve(words)?;
        for at in 0..words {
            bits.push(self.let_bits(at))?;
        }
        Ok(())
    }

    /// Drops the entries of a column that aren't let through; all stay where memory is refused.
    pub fn keep_column(self, alloc: Global, column: &mut Bitmap) -> Result<(), NoMemory>
        requires mask { self.bitmap.now.cols ≡ 1 }
        requires column { column.old.cols ≡ 1 }
        ensures rows { column.new.rows ≡ column.old.rows }
        ensures cols { column.new.cols ≡ column.old.cols }
        ensures content { OnOk result ((i j : ℕ) → word_at column.new.entries i j
            ≡ (if lets_word self.entry.test (word_at self.entry.bitmap.now.entries i j)
            then word_at column.old.entries i j else None)) }
        ensures refused { IfErr result (λ _. column.new ≡ column.old) }
    {
        let mut bits = Vec::new(alloc);
        self.read_bits(&mut bits, column.rows() as usize / 64 + 1)?;
        column.retain(&bits);
        Ok(())
    }

    /// Brings the entries of a column that are let through to the front of its lists, and answers how many there are.
    pub fn keep_rows(self, rows: &mut [u64], words: &mut [u64]) -> usize
        requires { length words.old ≡ length rows.old }
        ensures bound { result ≤ length rows.old }
        ensures rows_length { length rows.new ≡ length rows.old }
        ensures words_length { length words.new ≡ length words.old }
        ensures kept { entries_along 0 (take result rows.new) (take result words.new)
            ≡ kept_by self.entry.test (transposed self.entry.bitmap.now.entries) (entries_along 0 rows.old words.old) }
    {
        let mut kept = 0;
        for at in 0..rows.len() {
            let row = rows[at];
            let is_kept = self.lets(row);
            rows[kept] = row;
            words[kept] = words[at];
            kept += usize::from(is_kept);
        }
        kept
    }
}

/// What a mask keeps of a block of a column: its bitmap is asked at each entry.
pub(crate) fn keep_marked(block: RowBlock, mask: MarkedMask<'_>) -> RowBlock
    requires { block.cols ≡ 1 }
    ensures first { result.first ≡ block.first }
    ensures past { result.past ≡ block.past }
    ensures cols { result.cols ≡ block.cols }
    ensures words { (i j : ℕ) → block_content result i j
        ≡ (if lets_word mask.entry.test (word_at mask.entry.bitmap.now.entries i j)
        then block_content block i j else None) }
{
    let (first, past, cols) = (block.first(), block.past(), block.cols());
    let mut lists = block.into_lists();
    let kept = mask.keep_rows(&mut lists.inner, &mut lists.words);
    lists.inner.truncate(kept);
    lists.words.truncate(kept);
    end_column(&mut lists.ends, kept);
    RowBlock::of_fibers(first, past, cols, lists)
}

/// Has the one fiber of a column end behind so many entries; without entries there is none.
fn end_column(ends: &mut Vec<FiberEnd>, count: usize)
    ensures none { count ≡ 0 → ends.new.items ≡ [] }
    ensures some { 0 < count → 0 < length ends.old.items → ends.new.items ≡ end_at 0 count ∷ [] }
{
    ends.truncate(usize::from(count > 0));
    if !ends.is_empty() {
        ends[0] = FiberEnd {
            outer: 0,
            end: count,
        };
    }
}
