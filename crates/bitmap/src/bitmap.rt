//! What a bitmap holds, position by position and column by column.
ghost use Rattle.std.specs.Prelude.{◌≡◌, ◌<◌, ◌≤◌, ◌+◌, ◌*◌, ◌^◌, ◌==◌, ℕ, if◌then◌else◌, IfOk, None, Some};
ghost use Rattle.std.specs.Prelude.{is_some, length, slice_index};
ghost use Rattle.std.specs.Int.{bit_at, div_ceil};
ghost use Rattle.std.specs.List.{All, AllPairs};
ghost use Rattle.std.specs.Option.{option_or};
ghost use Rattle.model.specs.Entries.{InOrder, IsInside, word_at};
ghost use Rattle.model.specs.Object.{with_entry, without_entry};
ghost use Rattle.bitmap.specs.Bitmaps.{entries_down, place_of};

use crate::column::ColumnLists;
use crate::full::full_lists;
use lanes::{bits_from, clear_bit, has_bit, lowest_bits, set_bit};
use model::NoMemory;
use std::alloc::Global;
use std::marker::Model;

/// What a matrix of few positions holds: a word for each position, row by row, and a bit that says whether it is
/// there. A vector is a column: its places are its rows.
#[derive(Drop)]
pub struct Bitmap {
    pub(crate) rows: u64,
    pub(crate) cols: u64,
    pub(crate) count: u64,
    pub(crate) bits: Vec<u64>,
    pub(crate) words: Vec<u64>,
}

impl Model for Bitmap {
    ghost use Rattle.bitmap.specs.Bitmaps.{HasPlaces, Held, stored};

    ghost Value = { Held };

    ghost view = { λ b. stored b.rows b.cols b.bits.items b.words.items };

    ghost invariant = { λ b. HasPlaces b.rows b.cols b.count b.bits.items b.words.items };
}

impl Bitmap {
    /// A bitmap of `rows` rows and `cols` columns with no entry.
    pub fn new(alloc: Global, rows: u64, cols: u64) -> Result<Bitmap, NoMemory>
        requires { rows * cols ≤ 2 ^ 24 }
        ensures rows { IfOk result (λ b. b.rows ≡ rows) }
        ensures cols { IfOk result (λ b. b.cols ≡ cols) }
        ensures content { IfOk result (λ b. (i j : ℕ) → word_at b.entries i j ≡ None) }
    {
        let places = (rows * cols) as usize;
        let bits = vec![in alloc; 0; places / 64 + 1]?;
        let words = vec![in alloc; 0; places]?;
        Ok(Bitmap {
            rows,
            cols,
            count: 0,
            bits,
            words,
        })
    }

    /// A bitmap with the same entries, in memory of its own.
    pub fn try_clone(&self) -> Result<Bitmap, NoMemory>
        ensures { IfOk result (λ b. b ≡ self.now) }
    {
        let bits = self.bits.clone()?;
        let words = self.words.clone()?;
        Ok(Bitmap {
            bits,
            words,
            ..*self
        })
    }

    /// The list of its words, for whoever has a use for the memory.
    pub fn into_words(self) -> Vec<u64> {
        self.words
    }

    /// The number of rows.
    pub fn rows(&self) -> u64
        ensures rows { result ≡ self.now.rows }

        // What is true of every bitmap, for a caller, who sees no field.
        ensures order { InOrder self.now.entries }
        ensures inside { IsInside self.now.rows self.now.cols self.now.entries }
        ensures small { self.now.rows * self.now.cols ≤ 2 ^ 24 }
    {
        self.rows
    }

    /// The number of columns.
    pub fn cols(&self) -> u64
        ensures { result ≡ self.now.cols }
    {
        self.cols
    }

    /// How many parts of 64 columns a row has, of which the last may be shorter.
    pub fn row_parts(&self) -> u64
        ensures number { result ≡ div_ceil self.now.cols 64 }
        ensures bound { result ≤ 2 ^ 58 }
        ensures inside { IsInside self.now.rows self.now.cols self.now.entries }
    {
        self.cols.div_ceil(64)
    }

    /// The number of entries, in constant time.
    pub fn nvals(&self) -> u64
        ensures number { result ≡ length self.now.entries }
        ensures order { InOrder self.now.entries }
        ensures inside { IsInside self.now.rows self.now.cols self.now.entries }
    {
        self.count
    }

    /// The word at row `i` and column `j`, where there is one. It takes constant time.
    #[inline(always)]
    pub fn get(&self, i: u64, j: u64) -> Option<u64>
        ensures { result ≡ word_at self.now.entries i j }
    {
        if i >= self.rows || j >= self.cols {
            return None;
        }
        let at = self.place(i, j);
        if has_bit(&self.bits, at) {
            Some(self.words[at])
        } else {
            None
        }
    }

    /// Whether there is an entry at row `i` and column `j`. It reads the bit alone.
    #[inline(always)]
    pub fn has(&self, i: u64, j: u64) -> bool
        ensures { result ≡ is_some (word_at self.now.entries i j) }
    {
        if i >= self.rows || j >= self.cols {
            return false;
        }
        has_bit(&self.bits, self.place(i, j))
    }

    /// A bit for each of the 64 rows of a column from `64 * at` on, which says whether the row has an entry; none
    /// behind the last row. It takes constant time.
    #[inline(always)]
    pub fn present(&self, at: usize) -> u64
        requires { self.now.cols ≡ 1 }
        ensures { (k : ℕ) → k < 64
            → (bit_at result k == 1) ≡ is_some (word_at self.now.entries (64 * at + k) 0) }
    {
        if at < self.bits.len() {
            self.bits[at]
        } else {
            0
        }
    }

    /// What row `i` holds at the 64 columns from `j` on: a bit for each, which says whether there is an entry, and
    /// the words from there on. It takes constant time.
    #[inline(always)]
    pub fn row_from(&self, i: u64, j: u64) -> (u64, &[u64])
        ensures content { (k : ℕ) → k < 64 → word_at self.now.entries i (j + k)
            ≡ (if bit_at result.0 k == 1 then Some (slice_index result.1.now k) else None) }
        ensures inside { (k : ℕ) → k < 64 → bit_at result.0 k ≡ 1 → k < length result.1.now }
    {
        if i >= self.rows || j >= self.cols {
            return (0, &[]);
        }
        let at = self.place(i, j);
        let bits = bits_from(&self.bits, at) & lowest_bits(self.cols - j);
        (bits, &self.words[at..])
    }

    /// Sets the word at row `i` and column `j`. It takes constant time and no memory.
    #[inline(always)]
    pub fn set(&mut self, i: u64, j: u64, word: u64)
        requires row { i < self.old.rows }
        requires col { j < self.old.cols }
        ensures content { (p q : ℕ)
            → word_at self.new.entries p q ≡ with_entry (word_at self.old.entries) i j word p q }
        ensures rows { self.new.rows ≡ self.old.rows }
        ensures cols { self.new.cols ≡ self.old.cols }
    {
        let at = self.place(i, j);
        self.count += u64::from(!has_bit(&self.bits, at));
        set_bit(&mut self.bits, at);
        self.words[at] = word;
    }

    /// Removes the entry at row `i` and column `j`, where there is one. It takes constant time.
    #[inline(always)]
    pub fn remove(&mut self, i: u64, j: u64)
        ensures content { (p q : ℕ)
            → word_at self.new.entries p q ≡ without_entry (word_at self.old.entries) i j p q }
        ensures rows { self.new.rows ≡ self.old.rows }
        ensures cols { self.new.cols ≡ self.old.cols }
    {
        if i < self.rows && j < self.cols {
            let at = self.place(i, j);
            self.count -= u64::from(has_bit(&self.bits, at));
            clear_bit(&mut self.bits, at);
        }
    }

    /// Puts the entries of a column over those that are there. Its time follows these entries alone, and it takes
    /// no memory.
    pub fn put_column(&mut self, rows: &[u64], words: &[u64])
        requires column { self.old.cols ≡ 1 }
        requires lengths { length words.now ≡ length rows.now }
        requires rising { AllPairs (λ a b. a < b) rows.now }
        requires inside { All (λ row. row < self.old.rows) rows.now }
        ensures content { (p q : ℕ) → word_at self.new.entries p q
            ≡ option_or (word_at (entries_down rows.now words.now) p q) (word_at self.old.entries p q) }
        ensures rows { self.new.rows ≡ self.old.rows }
        ensures cols { self.new.cols ≡ self.old.cols }
    {
        for k in 0..rows.len() {
            self.set(rows[k], 0, words[k]);
        }
    }

    /// The rows and the words of the entries of a column, in order, in lists of their own. It reads a bit for each
    /// row, 64 at once, and a word for each entry; where each row has one, it reads no bit.
    pub fn column(&self, alloc: Global) -> Result<(Vec<u64>, Vec<u64>), NoMemory>
        requires { self.now.cols ≡ 1 }
        ensures lengths { IfOk result (λ r. length r.1.items ≡ length r.0.items) }
        ensures entries { IfOk result (λ r. entries_down r.0.items r.1.items ≡ self.now.entries) }
    {
        if self.count as usize == self.words.len() {
            return full_lists(alloc, &self.words);
        }
        let mut lists = ColumnLists::with_capacity(alloc, self.count as usize)?;
        lists.gather(&self.bits, &self.words);
        Ok(lists.into_lists())
    }

    /// The place of a position.
    #[inline(always)]
    fn place(&self, i: u64, j: u64) -> usize
        requires row { i < self.now.rows }
        requires col { j < self.now.cols }
        ensures is { result ≡ place_of self.now.cols i j }
        ensures inside { result < self.now.rows * self.now.cols }
    {
        (i * self.cols + j) as usize
    }
}
