//! The sums of the products of a vector that is a bitmap and some rows of a store, as words and marks.
ghost use Rattle.std.specs.Prelude.{◌≡◌, ◌≢◌, ◌<◌, ◌≤◌, ◌-◌, ◌++◌, ◌||◌, ℕ, [], List, IfOk};
ghost use Rattle.std.specs.Prelude.{false, length, slice_index, slice_index_or, true};
ghost use Rattle.std.specs.List.{All};
ghost use Rattle.algebra.specs.declared.kinds.MonoidKind.TheVariants.{Lor};
ghost use Rattle.bitmap.specs.Bitmaps.{row_part};
ghost use Rattle.model.specs.Entries.{word_at};
ghost use Rattle.model.specs.Object.{transposed_content};
ghost use Rattle.store.specs.Fibers.{entries_along};
ghost use Rattle.spgemm.specs.Dense.{AreMarkedSums};
ghost use Rattle.spgemm.specs.Partials.{AreWordsOf, terms_between};
ghost use Rattle.terms.specs.Terms.{apply, terms_of_row, times_found};
ghost use Rattle.terms.specs.declared.term.Term.{Term};

use crate::bitmap_sums::Factors;
use crate::many::add_row_of_b;
use algebra::{BinaryOp, Semiring, with_semiring};
use bitmap::Bitmap;
use model::NoMemory;
use std::alloc::Global;
use std::ops::Range;
use store::{Row, Sparse};

/// Sums of products, which begin at the monoid's identity, and marks at the columns that have some.
#[derive(Drop)]
pub(crate) struct WordSums {
    pub(crate) marks: Vec<bool>,
    pub(crate) words: Vec<u64>,
}

impl WordSums {
    /// The sums of the products with the rows in a range.
    pub(crate) fn of_rows(
        alloc: Global,
        factors: Factors<'_>,
        rows: Range<u64>,
    ) -> Result<WordSums, NoMemory>
        requires other { factors.semiring.add.kind ≢ Lor }
        requires order { rows.start ≤ rows.end }
        requires inside { factors.a.now.cols ≤ factors.places }
        ensures { IfOk result (AreWordsOf factors.entry (terms_between factors.entry rows.start rows.end)) }
    {
        let Factors {
            u,
            a,
            semiring,
            places,
        } = factors;
        let mut words = vec![in alloc; semiring.add.identity(); places]?;
        let mut marks = vec![in alloc; false; places]?;
        add_rows(&mut marks, &mut words, u, a, semiring, rows);
        Ok(WordSums { marks, words })
    }

    /// Adds the sums of other products, place by place.
    pub(crate) fn add(&mut self, other: &WordSums, semiring: Semiring)
        requires marks { length other.now.marks.items ≡ length self.old.marks.items }
        requires words { length other.now.words.items ≡ length self.old.words.items }
        requires lengths { length self.old.marks.items ≡ length self.old.words.items }
        ensures marks_length { length self.new.marks.items ≡ length self.old.marks.items }
        ensures words_length { length self.new.words.items ≡ length self.old.words.items }
        ensures marks { (at : ℕ) → at < length self.old.words.items → slice_index_or self.new.marks.items at false
            ≡ (slice_index_or self.old.marks.items at false || slice_index_or other.now.marks.items at false) }
        ensures words { (at : ℕ) → at < length self.old.words.items → slice_index self.new.words.items at
            ≡ apply semiring.add.op (slice_index self.old.words.items at) (slice_index other.now.words.items at) }
    {
        put_marks(&mut self.marks, &other.marks);
        put_words(&mut self.words, &other.words, semiring);
    }
}

/// Sets the marks that are set among others.
fn put_marks(marks: &mut [bool], others: &[bool])
    requires { length others.now ≡ length marks.old }
    ensures length { length marks.new ≡ length marks.old }
    ensures marks { (at : ℕ) → at < length marks.old → slice_index_or marks.new at false
        ≡ (slice_index_or marks.old at false || slice_index_or others.now at false) }
{
    for at in 0..marks.len() {
        marks[at] = marks[at] | others[at];
    }
}

/// Adds other words, place by place.
fn put_words(words: &mut [u64], others: &[u64], semiring: Semiring)
    requires { length others.now ≡ length words.old }
    ensures length { length words.new ≡ length words.old }
    ensures words { (at : ℕ) → at < length words.old → slice_index words.new at
        ≡ apply semiring.add.op (slice_index words.old at) (slice_index others.now at) }
{
    with_semiring!(semiring, |own| put_by(own.add.op, words, others))
}

/// What `put_words` does, by one operator of its arms.
#[inline(always)]
fn put_by(op: BinaryOp, words: &mut [u64], others: &[u64])
    requires { length others.now ≡ length words.old }
    ensures length { length words.new ≡ length words.old }
    ensures words { (at : ℕ) → at < length words.old → slice_index words.new at
        ≡ apply op (slice_index words.old at) (slice_index others.now at) }
{
    for at in 0..words.len() {
        words[at] = op.eval(words[at], others[at]);
    }
}

/// Adds the products of a vector with the rows of `a` in a range, where no column is marked yet.
#[tactic(auto, using(crate::proofs::Arms::same_marked_sums))]
fn add_rows(
    marks: &mut [bool],
    sums: &mut [u64],
    u: &Bitmap,
    a: &Sparse,
    semiring: Semiring,
    rows: Range<u64>,
)
    requires marks { length marks.old ≡ length sums.old }
    requires inside { a.now.cols ≤ length sums.old }
    requires order { rows.start ≤ rows.end }
    requires before { AreMarkedSums semiring.add [] marks.old sums.old }
    ensures { AreMarkedSums semiring.add (terms_of_row semiring.multiply
        (row_part (transposed_content (word_at u.now.entries)) 0 rows.start (rows.end - rows.start)) a.now)
        marks.new sums.new }
{
    // All that runs below the arms is inlined, so that its loops are compiled for each.
    with_semiring!(
        semiring,
        |own| add_rows_by(marks, sums, u, a, own, rows.start..rows.end)
    )
}

/// What `add_rows` does, by one semiring of its arms.
#[inline(always)]
fn add_rows_by(
    marks: &mut [bool],
    sums: &mut [u64],
    u: &Bitmap,
    a: &Sparse,
    semiring: Semiring,
    rows: Range<u64>,
)
    requires marks { length marks.old ≡ length sums.old }
    requires inside { a.now.cols ≤ length sums.old }
    requires order { rows.start ≤ rows.end }
    requires before { AreMarkedSums semiring.add [] marks.old sums.old }
    ensures { AreMarkedSums semiring.add (terms_of_row semiring.multiply
        (row_part (transposed_content (word_at u.now.entries)) 0 rows.start (rows.end - rows.start)) a.now)
        marks.new sums.new }
{
    let width = a.cols() as usize;
    let mut known = 0;
    let mut rest = a.rows_in(rows);
    while let Some((line, others)) = rest.split_first() {
        let word = u.get(line.index, 0);
        known = add_row(marks, sums, word, line, semiring, width, known);
        rest = others;
    }
}

/// Adds what the vector has at a row of `a` times each entry of the row, where it has a word. It answers as
/// `add_row_of_b` does.
#[inline(always)]
fn add_row(
    marks: &mut [bool],
    sums: &mut [u64],
    word: Option<u64>,
    line: Row<'_>,
    semiring: Semiring,
    width: usize,
    known: usize,
) -> usize
    requires marks { length marks.old ≡ length sums.old }
    requires width { width ≤ length sums.old }
    requires lengths { length line.words.now ≡ length line.cols.now }
    requires inside { All (λ col. col < width) line.cols.now }
    requires bound { known ≤ width }
    requires known { (at : ℕ) → at < known → slice_index_or marks.old at false ≡ true }
    ensures sums { (terms : List Term) → AreMarkedSums semiring.add terms marks.old sums.old
        → AreMarkedSums semiring.add
        (terms ++ times_found semiring.multiply word (entries_along 0 line.entry.cols.now line.entry.words.now))
        marks.new sums.new }
    ensures bound { result ≤ width }
    ensures known { (at : ℕ) → at < result → slice_index_or marks.new at false ≡ true }
{
    match word {
        Some(word) => {
            add_row_of_b(
                marks, sums, word, line.cols, line.words, semiring, width, known,
            )
        }
        None => known,
    }
}
