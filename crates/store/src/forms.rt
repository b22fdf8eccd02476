//! Stores from one form to the other.
ghost use Rattle.std.specs.Prelude.{◌≡◌, ◌≢◌, ℕ, ◌<◌, ◌≤◌, ◌+◌, ◌*◌, ◌^◌, ◌++◌, ◌∷◌, [], ◌==◌, if◌then◌else◌};
ghost use Rattle.std.specs.Prelude.{IfErr, IfOk, OnOk, length, map};
ghost use Rattle.std.specs.List.{AllPairs};
ghost use Rattle.std.specs.Option.{option_or};
ghost use Rattle.std.specs.Vec.{vec_capacity, vec_len};
ghost use Rattle.bitmap.specs.Bitmaps.{row_part};
ghost use Rattle.model.specs.Entries.{IsInside, row_entries, word_at};
ghost use Rattle.store.specs.Fibers.{end_at, entries_along, last_end};
ghost use Rattle.store.specs.Forms.{of_bitmap};
ghost use Rattle.store.specs.Stored.{block_content};

use crate::{FiberLists, Row, RowBlock, Rows, Sparse};
use bitmap::Bitmap;
use model::NoMemory;
use std::alloc::Global;

/// Lists of few positions as a bitmap, which takes over the words of a column with an entry in each row. They come back
/// where there is no memory for it.
pub(crate) fn into_bitmap(alloc: Global, sparse: Sparse) -> Result<Bitmap, Sparse>
    requires { sparse.rows * sparse.cols ≤ 2 ^ 24 }
    ensures entries { IfOk result (λ b. of_bitmap b ≡ sparse) }
    ensures refused { IfErr result (λ back. back ≡ sparse) }
{
    if sparse.cols == 1 && sparse.lists.inner.len() as u64 == sparse.rows {
        return full_column(alloc, sparse);
    }
    let Ok(bitmap) = bitmap_of(alloc, &sparse) else {
        return Err(sparse);
    };
    Ok(bitmap)
}

/// The bitmap of a column with an entry in each row, whose words it takes over. The lists come back where there is no
/// memory for its bits.
fn full_column(alloc: Global, column: Sparse) -> Result<Bitmap, Sparse>
    requires column { column.cols ≡ 1 }
    requires full { length column.entries ≡ column.rows }
    requires small { column.rows * column.cols ≤ 2 ^ 24 }
    ensures entries { IfOk result (λ b. of_bitmap b ≡ column) }
    ensures refused { IfErr result (λ back. back ≡ column) }
{
    let Sparse { rows, cols, lists } = column;
    let FiberLists { ends, inner, words } = lists;
    match Bitmap::full(alloc, rows, cols, words) {
        Ok(bitmap) => {
            prove_eq!(bitmap.rows(), rows);
            Ok(bitmap)
        }
        Err(words) => {
            let lists = FiberLists { ends, inner, words };
            Err(Sparse { rows, cols, lists })
        }
    }
}

/// The bitmap of lists of few positions.
fn bitmap_of(alloc: Global, sparse: &Sparse) -> Result<Bitmap, NoMemory>
    requires { sparse.now.rows * sparse.now.cols ≤ 2 ^ 24 }
    ensures rows { IfOk result (λ b. b.rows ≡ sparse.now.rows) }
    ensures cols { IfOk result (λ b. b.cols ≡ sparse.now.cols) }
    ensures entries { IfOk result (λ b. b.entries ≡ sparse.now.entries) }
{
    let mut bitmap = Bitmap::new(alloc, sparse.rows, sparse.cols)?;
    put_rows(&mut bitmap, sparse.rows_in(0..sparse.rows));
    prove_eq!(bitmap.rows(), sparse.rows);
    Ok(bitmap)
}

/// Puts rows over those of a bitmap, entry by entry.
fn put_rows(bitmap: &mut Bitmap, rows: Rows<'_>)
    requires { IsInside bitmap.old.rows bitmap.old.cols rows.entries }
    ensures content { (i j : ℕ) → word_at bitmap.new.entries i j
        ≡ option_or (word_at rows.entry.entries i j) (word_at bitmap.old.entries i j) }
    ensures rows { bitmap.new.rows ≡ bitmap.old.rows }
    ensures cols { bitmap.new.cols ≡ bitmap.old.cols }
{
    let mut rest = rows;
    while let Some((row, others)) = rest.split_first() {
        put_row(bitmap, row);
        rest = others;
    }
}

/// Puts a row over that of a bitmap, entry by entry.
fn put_row(bitmap: &mut Bitmap, row: Row<'_>)
    requires lengths { length row.words.now ≡ length row.cols.now }
    requires rising { AllPairs (λ a b. a < b) row.cols.now }
    requires inside { IsInside bitmap.old.rows bitmap.old.cols
        (entries_along row.index row.cols.now row.words.now) }
    ensures content { (i j : ℕ) → word_at bitmap.new.entries i j
        ≡ option_or (word_at (entries_along row.entry.index row.entry.cols.now row.entry.words.now) i j)
        (word_at bitmap.old.entries i j) }
    ensures rows { bitmap.new.rows ≡ bitmap.old.rows }
    ensures cols { bitmap.new.cols ≡ bitmap.old.cols }
{
    for k in 0..row.cols.len() {
        bitmap.set(row.index, row.cols[k], row.words[k]);
    }
}

/// The lists of a bitmap.
pub(crate) fn sparse_of(alloc: Global, bitmap: &Bitmap) -> Result<Sparse, NoMemory>
    ensures { IfOk result (λ sparse. sparse ≡ of_bitmap bitmap.now) }
{
    if bitmap.cols() == 1 {
        column_of(alloc, bitmap)
    } else {
        rows_of(alloc, bitmap)
    }
}

/// The lists of a bitmap with one column.
fn column_of(alloc: Global, bitmap: &Bitmap) -> Result<Sparse, NoMemory>
    requires { bitmap.now.cols ≡ 1 }
    ensures { IfOk result (λ sparse. sparse ≡ of_bitmap bitmap.now) }
{
    let rows = bitmap.rows();
    let (inner, words) = bitmap.column(alloc)?;
    let ends = Vec::new(alloc);
    let mut lists = FiberLists { ends, inner, words };
    lists.close(0)?;
    Ok(Sparse {
        rows,
        cols: 1,
        lists,
    })
}

/// The lists of a bitmap with more columns, or none, row by row.
fn rows_of(alloc: Global, bitmap: &Bitmap) -> Result<Sparse, NoMemory>
    requires { bitmap.now.cols ≢ 1 }
    ensures { IfOk result (λ sparse. sparse ≡ of_bitmap bitmap.now) }
{
    let (rows, cols) = (bitmap.rows(), bitmap.cols());
    let mut lists = FiberLists::with_capacity(alloc, bitmap.nvals() as usize)?;
    for i in 0..rows {
        append_row(&mut lists, bitmap, i)?;
    }
    Ok(Sparse { rows, cols, lists })
}

/// Puts a row of a bitmap as a fiber behind those in the lists.
fn append_row(lists: &mut FiberLists, bitmap: &Bitmap, i: u64) -> Result<(), NoMemory>
    ensures inner { OnOk result (lists.new.inner.items ≡ lists.old.inner.items
        ++ map (λ e. e.col) (row_entries bitmap.now.cols (word_at bitmap.now.entries) i)) }
    ensures words { OnOk result (lists.new.words.items ≡ lists.old.words.items
        ++ map (λ e. e.word) (row_entries bitmap.now.cols (word_at bitmap.now.entries) i)) }
    ensures ends { OnOk result (lists.new.ends.items
        ≡ (if last_end 0 lists.old.ends.items == length lists.new.inner.items
        then lists.old.ends.items
        else lists.old.ends.items ++ end_at i (length lists.new.inner.items) ∷ [])) }
{
    for part in 0..bitmap.row_parts() {
        append_part(lists, bitmap, i, part)?;
    }
    lists.close(i)
}

/// Puts the entries of a part of a row of a bitmap, the 64 columns from `64 * part` on, behind the inner indices and
/// words. It goes from one bit that is set to the next.
fn append_part(lists: &mut FiberLists, bitmap: &Bitmap, i: u64, part: u64) -> Result<(), NoMemory>
    requires { part < 2 ^ 58 }
    ensures ends { OnOk result (lists.new.ends ≡ lists.old.ends) }
    ensures inner { OnOk result (lists.new.inner.items ≡ lists.old.inner.items
        ++ map (λ e. e.col) (row_part (word_at bitmap.now.entries) i (64 * part) 64)) }
    ensures words { OnOk result (lists.new.words.items ≡ lists.old.words.items
        ++ map (λ e. e.word) (row_part (word_at bitmap.now.entries) i (64 * part) 64)) }
{
    let first = 64 * part;
    let (bits, words) = bitmap.row_from(i, first);
    let count = bits.count_ones() as usize;
    lists.inner.reserve(count)?;
    lists.words.reserve(count)?;
    let mut left = bits;
    while left != 0 {
        let bit = left.trailing_zeros();
        push_reserved(lists, first + bit as u64, words[bit as usize]);
        // The bit is cleared without its place, so that the next turn needn't wait until that is found.
        left &= left - 1;
    }
    Ok(())
}

/// Puts an inner index and its word behind the others, where there is room.
#[inline(always)]
fn push_reserved(lists: &mut FiberLists, inner: u64, word: u64)
    requires inner_room { vec_len lists.old.inner < vec_capacity lists.old.inner }
    requires words_room { vec_len lists.old.words < vec_capacity lists.old.words }
    ensures ends { lists.new.ends ≡ lists.old.ends }
    ensures inner { lists.new.inner.items ≡ lists.old.inner.items ++ inner ∷ [] }
    ensures words { lists.new.words.items ≡ lists.old.words.items ++ word ∷ [] }
    ensures inner_length { vec_len lists.new.inner ≡ vec_len lists.old.inner + 1 }
    ensures words_length { vec_len lists.new.words ≡ vec_len lists.old.words + 1 }
    ensures inner_capacity { vec_capacity lists.new.inner ≡ vec_capacity lists.old.inner }
    ensures words_capacity { vec_capacity lists.new.words ≡ vec_capacity lists.old.words }
{
    lists.inner.push_reserved(inner);
    lists.words.push_reserved(word);
}

/// Puts the entries of a block of a column over those of a bitmap.
pub(crate) fn put_into(bitmap: &mut Bitmap, block: &RowBlock)
    requires column { bitmap.old.cols ≡ 1 }
    requires cols { block.now.cols ≡ 1 }
    requires past { block.now.past ≤ bitmap.old.rows }
    ensures content { (i j : ℕ) → word_at bitmap.new.entries i j
        ≡ option_or (block_content block.now i j) (word_at bitmap.old.entries i j) }
    ensures rows { bitmap.new.rows ≡ bitmap.old.rows }
    ensures cols { bitmap.new.cols ≡ bitmap.old.cols }
{
    bitmap.put_column(&block.lists.inner, &block.lists.words);
}
