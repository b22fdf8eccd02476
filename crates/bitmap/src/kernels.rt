//! What is done to all words of a bitmap at once, 64 places to a word of bits.
ghost use Rattle.std.specs.Prelude.{◌≡◌, ◌<◌, ◌≤◌, ◌*◌, ◌/◌, ◌+◌, ◌^◌, ℕ, if◌then◌else◌, IfOk, None, Some, false};
ghost use Rattle.std.specs.Prelude.{bit_and, length, map, slice_index};
ghost use Rattle.std.specs.Option.{option_map};
ghost use Rattle.algebra.specs.Operators.{answer_domain, eval_of};
ghost use Rattle.algebra.specs.Value.{cast_of};
ghost use Rattle.lanes.specs.Bits.{has_bit};
ghost use Rattle.lanes.specs.Lists.{fold_of};
ghost use Rattle.model.specs.ElementWise.{of_both, of_either};
ghost use Rattle.model.specs.Entries.{word_at};
ghost use Rattle.model.specs.Object.{cast_content};
ghost use Rattle.bitmap.specs.Bitmaps.{place_of};

use crate::making::Words;
use crate::{Bitmap, WordMaker};
use algebra::{BinaryOp, Domain, Monoid};
use lanes::{and_words, cast_words, count_ones, fold_present, or_words};
use model::NoMemory;
use std::alloc::Global;

impl Bitmap {
    /// A word for each place, row by row. Those of positions without an entry are anything.
    pub fn words(&self) -> &[u64]
        ensures length { length result.now ≡ self.now.rows * self.now.cols }
        ensures words { (i j word : ℕ) → word_at self.now.entries i j ≡ Some word
            → slice_index result.now (place_of self.now.cols i j) ≡ word }
    {
        &self.words
    }

    /// The bitmap with these words at the places whose bits are set, row by row. It takes both lists over, and no
    /// memory. The bits are counted, 64 at once.
    pub fn of_bits(rows: u64, cols: u64, bits: Vec<u64>, words: Vec<u64>) -> Bitmap
        requires small { rows * cols ≤ 2 ^ 24 }
        requires words { length words.items ≡ rows * cols }
        requires bits { length bits.items ≡ rows * cols / 64 + 1 }
        requires none_behind { (at : ℕ) → rows * cols ≤ at → has_bit bits.items at ≡ false }
        ensures rows { result.rows ≡ rows }
        ensures cols { result.cols ≡ cols }
        ensures content { (i j : ℕ) → i < rows → j < cols → word_at result.entries i j
            ≡ (if has_bit bits.items (place_of cols i j) then Some (slice_index words.items (place_of cols i j))
            else None) }
    {
        Bitmap {
            rows,
            cols,
            count: count_ones(&bits),
            bits,
            words,
        }
    }

    /// A bitmap with entries at the same positions, whose words are others: one for each place, row by row.
    pub fn with_words(&self, words: Vec<u64>) -> Result<Bitmap, NoMemory>
        requires { length words.items ≡ self.now.rows * self.now.cols }
        ensures rows { IfOk result (λ b. b.rows ≡ self.now.rows) }
        ensures cols { IfOk result (λ b. b.cols ≡ self.now.cols) }
        ensures content { IfOk result (λ b. (i j : ℕ) → word_at b.entries i j
            ≡ option_map (λ _. slice_index words.items (place_of self.now.cols i j)) (word_at self.now.entries i j)) }
    {
        let bits = self.bits.clone()?;
        Ok(Bitmap {
            bits,
            words,
            ..*self
        })
    }

    /// The words of all entries, combined in order from the monoid's identity.
    pub fn fold(&self, monoid: Monoid) -> u64
        ensures { result ≡ fold_of monoid.kind monoid.op.domain (map (λ e. e.word) self.now.entries) }
    {
        fold_present(monoid, &self.bits, &self.words)
    }

    /// Casts each word from one domain to another, in place.
    pub fn cast(&mut self, from: Domain, to: Domain)
        ensures rows { self.new.rows ≡ self.old.rows }
        ensures cols { self.new.cols ≡ self.old.cols }
        ensures content { (i j : ℕ) → word_at self.new.entries i j
            ≡ cast_content from to (word_at self.old.entries) i j }
    {
        cast_words(from, to, &mut self.words);
    }

    /// The entries at the places whose bits are set.
    pub fn keep<M: WordMaker>(
        &self,
        maker: &M,
        alloc: Global,
        keeps: &[u64],
    ) -> Result<Bitmap, NoMemory>
        requires { length keeps.now ≡ self.now.rows * self.now.cols / 64 + 1 }
        ensures rows { IfOk result (λ b. b.rows ≡ self.now.rows) }
        ensures cols { IfOk result (λ b. b.cols ≡ self.now.cols) }
        ensures content { IfOk result (λ b. (i j : ℕ) → word_at b.entries i j
            ≡ (if has_bit keeps.now (place_of self.now.cols i j) then word_at self.now.entries i j else None)) }
    {
        let mut bits = vec![in alloc; 0; self.bits.len()]?;
        and_words(&self.bits, keeps, &mut bits);
        let words = maker.make(alloc, Words::Copied { a: &self.words })?;
        Ok(Bitmap {
            count: count_ones(&bits),
            bits,
            words,
            ..*self
        })
    }

    /// Drops the entries at the places whose bits aren't set.
    pub fn retain(&mut self, keeps: &[u64])
        requires { length keeps.now ≡ self.old.rows * self.old.cols / 64 + 1 }
        ensures rows { self.new.rows ≡ self.old.rows }
        ensures cols { self.new.cols ≡ self.old.cols }
        ensures content { (i j : ℕ) → word_at self.new.entries i j
            ≡ (if has_bit keeps.now (place_of self.old.cols i j) then word_at self.old.entries i j else None) }
    {
        clear_others(&mut self.bits, keeps);
        self.count = count_ones(&self.bits);
    }

    /// What the operator gives where both bitmaps have an entry, and nothing elsewhere.
    pub fn intersect<M: WordMaker>(
        maker: &M,
        alloc: Global,
        a: &Bitmap,
        b: &Bitmap,
        op: BinaryOp,
    ) -> Result<Bitmap, NoMemory>
        requires rows { b.now.rows ≡ a.now.rows }
        requires cols { b.now.cols ≡ a.now.cols }
        ensures rows { IfOk result (λ r. r.rows ≡ a.now.rows) }
        ensures cols { IfOk result (λ r. r.cols ≡ a.now.cols) }
        ensures content { IfOk result (λ r. (i j : ℕ) → word_at r.entries i j
            ≡ of_both (eval_of op.kind op.domain) (word_at a.now.entries i j) (word_at b.now.entries i j)) }
    {
        let mut bits = vec![in alloc; 0; a.bits.len()]?;
        and_words(&a.bits, &b.bits, &mut bits);
        let (left, right) = (&a.words, &b.words);
        let words = maker.make(
            alloc,
            Words::Zipped {
                op,
                a: left,
                b: right,
            },
        )?;
        Ok(Bitmap {
            count: count_ones(&bits),
            bits,
            words,
            ..*a
        })
    }

    /// What the operator gives where both bitmaps have an entry, and where one alone has one its word, cast to the
    /// domain of the answer.
    pub fn unite<M: WordMaker>(
        maker: &M,
        alloc: Global,
        a: &Bitmap,
        b: &Bitmap,
        op: BinaryOp,
    ) -> Result<Bitmap, NoMemory>
        requires rows { b.now.rows ≡ a.now.rows }
        requires cols { b.now.cols ≡ a.now.cols }
        ensures rows { IfOk result (λ r. r.rows ≡ a.now.rows) }
        ensures cols { IfOk result (λ r. r.cols ≡ a.now.cols) }
        ensures content { IfOk result (λ r. (i j : ℕ) → word_at r.entries i j
            ≡ of_either (cast_of op.domain (answer_domain op.kind op.domain))
            (cast_of op.domain (answer_domain op.kind op.domain)) (eval_of op.kind op.domain)
            (word_at a.now.entries i j) (word_at b.now.entries i j)) }
    {
        let mut bits = vec![in alloc; 0; a.bits.len()]?;
        or_words(&a.bits, &b.bits, &mut bits);
        let words = maker.make(
            alloc,
            Words::United {
                op,
                left: &a.bits,
                right: &b.bits,
                a: &a.words,
                b: &b.words,
            },
        )?;
        Ok(Bitmap {
            count: count_ones(&bits),
            bits,
            words,
            ..*a
        })
    }
}

/// Clears the bits that aren't set in other words.
fn clear_others(bits: &mut [u64], keeps: &[u64])
    requires { length keeps.now ≡ length bits.old }
    ensures length { length bits.new ≡ length bits.old }
    ensures words { (k : ℕ) → k < length bits.old
        → slice_index bits.new k ≡ bit_and (slice_index bits.old k) (slice_index keeps.now k) }
{
    for at in 0..bits.len() {
        bits[at] &= keeps[at];
    }
}
