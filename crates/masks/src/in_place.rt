//! The write-back into the output's store itself.
ghost use Rattle.std.specs.Prelude.{◌≡◌, ℕ, ◌<◌, IsSome, IsTrue, None, OnErr, OnOk, length, false};
ghost use Rattle.std.specs.Option.{option_map};
ghost use Rattle.algebra.specs.OperatorNames.{op_named};
ghost use Rattle.model.specs.Entries.{word_at};
ghost use Rattle.model.specs.WriteBack.{accumulated};
ghost use Rattle.store.specs.Stored.{block_content, content_of};
ghost use Rattle.store.specs.Walks.{entries_down};
ghost use Rattle.masks.specs.Masks.{IfStored, lets_word};
ghost use Rattle.masks.specs.Writes.{accumulated_where, written_at, written_by};

use crate::blocks::keep_block;
use crate::write::{accumulate, write_over};
use crate::{Mask, StoredMask, are_alike, write_back};
use algebra::BinaryOp;
use model::NoMemory;
use std::alloc::Global;
use store::{FiberLists, Form, RowBlock, Store};

/// Writes what a call leaves in its output into that store itself: what `write_back` gives for all rows. Where nothing
/// is replaced, and the store is one column that is a bitmap or has many more entries than are written, they are put
/// into it; else it is written anew.
pub fn write_into(
    alloc: Global,
    old: &mut Store,
    t: RowBlock,
    mask: Mask<'_>,
    accum: Option<BinaryOp>,
    replace: bool,
) -> Result<(), NoMemory>
    requires first { t.first ≡ 0 }
    requires past { t.past ≡ old.old.rows }
    requires cols { t.cols ≡ old.old.cols }
    requires mask { IfStored mask (λ store. store.cols ≡ old.old.cols) }
    ensures content { OnOk result ((i j : ℕ) → i < old.old.rows → content_of old.new i j
        ≡ written_by mask.entry (option_map op_named accum) replace (content_of old.old) (block_content t) i j) }
    ensures rows { old.new.rows ≡ old.old.rows }
    ensures cols { old.new.cols ≡ old.old.cols }
    ensures refused { OnErr result (old.new ≡ old.old) }
{
    match (mask, accum, replace) {
        (Mask::Everywhere, Some(op), _) => accumulate_into(alloc, old, t, op),
        (Mask::By(mask), Some(op), false) => {
            let inside = keep_block(alloc, t, mask)?;
            accumulate_into(alloc, old, inside, op)
        }
        (Mask::By(mask), None, false) => {
            let inside = keep_block(alloc, t, mask)?;
            write_inside(alloc, old, inside, mask)
        }
        (mask, accum, replace) => {
            let block = write_back(alloc, old.as_sparse(alloc)?.get(), t, mask, accum, replace)?;

            // It stays in lists, as a product under a mask does, which the next one under a mask goes along.
            renew(old, block);
            Ok(())
        }
    }
}

/// Accumulates what was computed into what was there.
fn accumulate_into(
    alloc: Global,
    old: &mut Store,
    t: RowBlock,
    op: BinaryOp,
) -> Result<(), NoMemory>
    requires first { t.first ≡ 0 }
    requires past { t.past ≡ old.old.rows }
    requires cols { t.cols ≡ old.old.cols }
    ensures content { OnOk result ((i j : ℕ) → i < old.old.rows → content_of old.new i j
        ≡ accumulated (op_named op) (content_of old.old i j) (block_content t i j)) }
    ensures rows { old.new.rows ≡ old.old.rows }
    ensures cols { old.new.cols ≡ old.old.cols }
    ensures refused { OnErr result (old.new ≡ old.old) }
{
    if is_put_into(&t, old) {
        old.settle(alloc);
        let sums = accumulate_words(old, t, op);
        return old.put_block(&sums);
    }
    let block = accumulate(alloc, old.as_sparse(alloc)?.get(), t, op)?;
    renew(old, block);
    settle_column(alloc, old);
    Ok(())
}

/// Writes what was computed at the positions that a mask lets through. Where it lets those of its store through, and
/// all of them were computed, no entry goes.
fn write_inside(
    alloc: Global,
    old: &mut Store,
    inside: RowBlock,
    mask: StoredMask<'_>,
) -> Result<(), NoMemory>
    requires first { inside.first ≡ 0 }
    requires past { inside.past ≡ old.old.rows }
    requires cols { inside.cols ≡ old.old.cols }
    requires mask { mask.store.now.cols ≡ old.old.cols }
    requires inside { (i j : ℕ) → i < inside.past → lets_word mask.test (content_of mask.store.now i j) ≡ false
        → block_content inside i j ≡ None }
    ensures content { OnOk result ((i j : ℕ) → i < old.old.rows → content_of old.new i j
        ≡ written_at None false (lets_word mask.entry.test (content_of mask.entry.store.now i j))
        (content_of old.old i j) (block_content inside i j)) }
    ensures rows { old.new.rows ≡ old.old.rows }
    ensures cols { old.new.cols ≡ old.old.cols }
    ensures refused { OnErr result (old.new ≡ old.old) }
{
    if is_put_into(&inside, old) && is_all(&inside, mask) {
        old.settle(alloc);
        return old.put_block(&inside);
    }
    let block = write_over(alloc, old.as_sparse(alloc)?.get(), inside, mask)?;
    renew(old, block);
    settle_column(alloc, old);
    Ok(())
}

/// How many times as many entries as are written a column must have, where to look these up and to move what is
/// behind the first new one takes less than to write all anew.
const MUCH_MORE: u64 = 16;

/// Whether a block's entries are put into a store: into a column that is a bitmap, unless each row has one, and into
/// one that is lists where they are few beside its entries.
fn is_put_into(block: &RowBlock, store: &Store) -> bool
    ensures { IsTrue result → store.now.cols ≡ 1 }
{
    let count = block.fibers().len() as u64;
    match store.form() {
        Form::Bitmap(bitmap) => bitmap.cols() == 1 && count < bitmap.rows(),
        Form::Sparse(lists) => lists.cols() == 1 && count <= lists.nvals() / MUCH_MORE,
        Form::Blocks(_) => false,
    }
}

/// Whether a mask lets the positions of its store through, and a block has an entry at each. A bitmap isn't looked
/// through for it.
fn is_all(block: &RowBlock, mask: StoredMask<'_>) -> bool
    requires first { block.now.first ≡ 0 }
    requires cols { block.now.cols ≡ mask.store.now.cols }
    ensures { IsTrue result → (i j : ℕ) → i < block.now.past
        → IsTrue (lets_word mask.entry.test (content_of mask.entry.store.now i j))
        → IsSome (block_content block.now i j) }
{
    let Form::Sparse(stored) = mask.store.form() else {
        return false;
    };
    !mask.test.complement && are_alike(&stored.fibers_in(0..block.past()), &block.fibers())
}

/// Puts a block of all its rows in a store's place.
fn renew(store: &mut Store, block: RowBlock)
    requires past { block.past ≡ store.old.rows }
    requires cols { block.cols ≡ store.old.cols }
    ensures rows { store.new.rows ≡ store.old.rows }
    ensures cols { store.new.cols ≡ store.old.cols }
    ensures content { (i j : ℕ) → content_of store.new i j ≡ block_content block i j }
{
    *store = Store::from_block(store.rows(), block);
}

/// Keeps a store with one column in the form that suits its entries: what fills up step by step, as what a search has
/// visited does, is soon put into, and asked as a mask, more often than it is read whole.
fn settle_column(alloc: Global, store: &mut Store)
    ensures { store.new ≡ store.old }
{
    if store.cols() == 1 {
        store.settle(alloc);
    }
}

/// Makes each word of a block what is made of the one that a store with one column has there and of it. It looks each
/// row up.
fn accumulate_words(store: &Store, block: RowBlock, op: BinaryOp) -> RowBlock
    requires { block.cols ≡ 1 }
    ensures first { result.first ≡ block.first }
    ensures past { result.past ≡ block.past }
    ensures cols { result.cols ≡ block.cols }
    ensures words { (i j : ℕ) → block_content result i j
        ≡ accumulated_where (op_named op) (content_of store.now i j) (block_content block i j) }
{
    let (first, past, cols) = (block.first(), block.past(), block.cols());
    let FiberLists {
        ends,
        inner,
        mut words,
    } = block.into_lists();
    accumulate_rows(store, &inner, &mut words, op);
    let lists = FiberLists { ends, inner, words };
    RowBlock::of_fibers(first, past, cols, lists)
}

/// Makes each word what is made of the one that a store with one column has in its row and of it.
fn accumulate_rows(store: &Store, rows: &[u64], words: &mut [u64], op: BinaryOp)
    requires { length words.old ≡ length rows.now }
    ensures length { length words.new ≡ length words.old }
    ensures words { (i j : ℕ) → word_at (entries_down rows.now words.new) i j
        ≡ accumulated_where (op_named op) (content_of store.now i j) (word_at (entries_down rows.now words.old) i j) }
{
    for k in 0..rows.len() {
        if let Some(word) = store.get(rows[k], 0) {
            words[k] = op.eval(word, words[k]);
        }
    }
}
