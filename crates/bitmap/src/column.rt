//! The entries of a column, gathered into lists.
ghost use Rattle.std.specs.Prelude.{◌≡◌, ◌<◌, ◌≤◌, ◌+◌, ◌*◌, ◌/◌, ◌++◌, ◌∷◌, [], ℕ, false, IfOk, length};
ghost use Rattle.lanes.specs.Bits.{has_bit};
ghost use Rattle.model.specs.Entries.{entry_at};
ghost use Rattle.bitmap.specs.Bitmaps.{column_entries, entries_down, word_in};

use model::NoMemory;
use std::alloc::Global;
use std::marker::Model;

/// The rows and the words of entries of a column, and room for more.
#[derive(Drop)]
pub(crate) struct ColumnLists {
    rows: Vec<u64>,
    words: Vec<u64>,
}

impl Model for ColumnLists {
    ghost use Rattle.std.specs.Prelude.{◌≡◌, length, min};
    ghost use Rattle.std.specs.Vec.{vec_capacity};
    ghost use Rattle.bitmap.specs.Bitmaps.{Listed, entries_down};

    ghost Value = { Listed };

    ghost view = { λ l. record {
      entries = entries_down l.rows.items l.words.items;
      room = min (vec_capacity l.rows) (vec_capacity l.words);
    } };

    ghost invariant = { λ l. length l.words.items ≡ length l.rows.items };
}

impl ColumnLists {
    /// Lists without an entry, with room for so many.
    pub(crate) fn with_capacity(alloc: Global, entries: usize) -> Result<ColumnLists, NoMemory>
        ensures entries { IfOk result (λ lists. lists.entries ≡ []) }
        ensures room { IfOk result (λ lists. entries ≤ lists.room) }
    {
        let rows = Vec::with_capacity(alloc, entries)?;
        let words = Vec::with_capacity(alloc, entries)?;
        Ok(ColumnLists { rows, words })
    }

    /// Puts an entry behind the others, where there is room.
    #[inline(always)]
    fn push(&mut self, row: u64, word: u64)
        requires { length self.old.entries < self.old.room }
        ensures entries { self.new.entries ≡ self.old.entries ++ entry_at row 0 word ∷ [] }
        ensures room { self.new.room ≡ self.old.room }
    {
        self.rows.push_reserved(row);
        self.words.push_reserved(word);
    }

    /// Puts the entries at the 64 places of a word of bits behind the others, in order.
    #[inline(always)]
    fn gather_word(&mut self, bits: &[u64], at: usize, words: &[u64])
        requires at { at < length bits.now }
        requires bits { length bits.now ≡ length words.now / 64 + 1 }
        requires none_behind { (place : ℕ) → length words.now ≤ place → has_bit bits.now place ≡ false }
        requires room { length self.old.entries
            + length (column_entries (word_in bits.now words.now) (64 * at) 64) ≤ self.old.room }
        ensures entries { self.new.entries
            ≡ self.old.entries ++ column_entries (word_in bits.now words.now) (64 * at) 64 }
        ensures room { self.new.room ≡ self.old.room }
    {
        let mut left = bits[at];
        while left != 0 {
            let bit = left.trailing_zeros();
            let place = 64 * at + bit as usize;
            self.push(place as u64, words[place]);
            // The bit is cleared without its place, so that the next turn needn't wait until that is found.
            left &= left - 1;
        }
    }

    /// Puts the entries at all places behind the others, in order. Its time follows the words of bits and the
    /// entries.
    pub(crate) fn gather(&mut self, bits: &[u64], words: &[u64])
        requires bits { length bits.now ≡ length words.now / 64 + 1 }
        requires none_behind { (place : ℕ) → length words.now ≤ place → has_bit bits.now place ≡ false }
        requires room { length self.old.entries
            + length (column_entries (word_in bits.now words.now) 0 (length words.now)) ≤ self.old.room }
        ensures { self.new.entries
            ≡ self.old.entries ++ column_entries (word_in bits.now words.now) 0 (length words.now) }
    {
        for at in 0..bits.len() {
            self.gather_word(bits, at, words);
        }
    }

    /// The rows and the words.
    pub(crate) fn into_lists(self) -> (Vec<u64>, Vec<u64>)
        ensures lengths { length result.1.items ≡ length result.0.items }
        ensures entries { entries_down result.0.items result.1.items ≡ self.entries }
    {
        (self.rows, self.words)
    }
}
