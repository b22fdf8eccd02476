//! Joins of the blocks of several pieces to the store of what a recipe gives.
ghost use Rattle.std.specs.Prelude.{◌≡◌, ◌≢◌, ◌<◌, ℕ, IfOk};
ghost use Rattle.std.specs.List.{All};
ghost use Rattle.calls.specs.Recipes.{known_of};
ghost use Rattle.kernel.specs.Covers.{Covers, IsPartOf};
ghost use Rattle.kernel.specs.Pieces.{cols_in};
ghost use Rattle.model.specs.Object.{Content, IsWithin, cols_of, rows_of};
ghost use Rattle.store.specs.Stored.{content_of};

use crate::joint::{Joint, SpareLists, cleared};
use calls::Recipe;
use kernel::{Block, join, makes_lists};
use model::NoMemory;
use std::alloc::Global;
use std::thread::Threads;
use store::{Blocks, FiberLists, RowBlock, Store};

/// For so many entries it is worth while to keep lists apart: to put fewer together takes little time.
const WORTH_KEEPING: usize = 1 << 16;

/// What becomes of the lists of blocks.
#[derive(Drop)]
pub enum Joining {
    /// They are put together, in the memory of other lists where these suit.
    Together(SpareLists),
    /// They stay apart, as far as a store can have several.
    Apart,
}

/// Whether it is worth while to keep the lists of blocks apart, where nobody is to read the store of what a recipe
/// gives as lists in one. Of a store that may become a bitmap they don't stay.
pub fn may_stay_apart(recipe: &Recipe, blocks: &[Block]) -> bool {
    makes_lists(recipe) && entries_in(blocks) >= WORTH_KEEPING
}

/// How many entries blocks have.
pub fn entries_in(blocks: &[Block]) -> usize {
    let mut count = 0usize;
    for block in blocks {
        if let Block::Rows(rows) = block {
            count = count.saturating_add(rows.fibers().len());
        }
    }
    count
}

/// The store of what a recipe gives, of the blocks of all its rows, in their order. Where their lists are put together,
/// it takes time and memory for their entries; those of the first block that has some stay where they are, if there is
/// room behind them, and each other list is let go as soon as it was copied. Lists that nobody needs take the place of
/// fresh memory, where they suit. Where there are many entries, a thread that is started for it copies their inner
/// indices while this one copies their words. The store has the form that `kernel::join` gives it.
pub fn join_blocks(
    rt: &impl Threads,
    alloc: Global,
    joining: Joining,
    recipe: &Recipe,
    blocks: Vec<Block>,
) -> Result<Store, NoMemory>
    requires covers { Covers 0 (rows_of (known_of recipe.now).shape) blocks.items }
    requires cols { All (λ b. cols_in b ≡ cols_of (known_of recipe.now).shape) blocks.items }
    ensures rows { IfOk result (λ store. store.rows ≡ rows_of (known_of recipe.now).shape) }
    ensures cols { IfOk result (λ store. store.cols ≡ cols_of (known_of recipe.now).shape) }
    ensures content { IfOk result (λ store. (c : Content)
        → All (IsPartOf (cols_of (known_of recipe.now).shape) c) blocks.items
        → (i j : ℕ) → i < rows_of (known_of recipe.now).shape → content_of store i j ≡ c i j) }
    ensures within { IfOk result (λ store. IsWithin store.rows store.cols (content_of store)) }
{
    match joining {
        Joining::Together(spares) => put_together(rt, alloc, spares, recipe, blocks),
        Joining::Apart if recipe.signature().shape.cols() != 1 => keep_apart(alloc, recipe, blocks),
        Joining::Apart => put_together(rt, alloc, SpareLists::none(), recipe, blocks),
    }
}

/// What `join_blocks` gives where the lists are put together.
fn put_together(
    rt: &impl Threads,
    alloc: Global,
    spares: SpareLists,
    recipe: &Recipe,
    blocks: Vec<Block>,
) -> Result<Store, NoMemory>
    requires covers { Covers 0 (rows_of (known_of recipe.now).shape) blocks.items }
    requires cols { All (λ b. cols_in b ≡ cols_of (known_of recipe.now).shape) blocks.items }
    ensures rows { IfOk result (λ store. store.rows ≡ rows_of (known_of recipe.now).shape) }
    ensures cols { IfOk result (λ store. store.cols ≡ cols_of (known_of recipe.now).shape) }
    ensures content { IfOk result (λ store. (c : Content)
        → All (IsPartOf (cols_of (known_of recipe.now).shape) c) blocks.items
        → (i j : ℕ) → i < rows_of (known_of recipe.now).shape → content_of store i j ≡ c i j) }
    ensures within { IfOk result (λ store. IsWithin store.rows store.cols (content_of store)) }
{
    let mut joint = Joint::new(alloc);
    for block in blocks {
        let Block::Rows(rows) = block else {
            unreachable!()
        };
        joint.put(rows)?;
    }
    let lists = joint.into_lists(rt, spares)?;
    let shape = recipe.signature().shape;
    let rows = RowBlock::of_fibers(0, shape.rows(), shape.cols(), lists);
    Ok(join(alloc, recipe, Block::Rows(rows)))
}

/// What `join_blocks` gives where the lists stay apart. A block without entries is dropped.
fn keep_apart(alloc: Global, recipe: &Recipe, blocks: Vec<Block>) -> Result<Store, NoMemory>
    requires many { cols_of (known_of recipe.now).shape ≢ 1 }
    requires covers { Covers 0 (rows_of (known_of recipe.now).shape) blocks.items }
    requires cols { All (λ b. cols_in b ≡ cols_of (known_of recipe.now).shape) blocks.items }
    ensures rows { IfOk result (λ store. store.rows ≡ rows_of (known_of recipe.now).shape) }
    ensures cols { IfOk result (λ store. store.cols ≡ cols_of (known_of recipe.now).shape) }
    ensures content { IfOk result (λ store. (c : Content)
        → All (IsPartOf (cols_of (known_of recipe.now).shape) c) blocks.items
        → (i j : ℕ) → i < rows_of (known_of recipe.now).shape → content_of store i j ≡ c i j) }
    ensures within { IfOk result (λ store. IsWithin store.rows store.cols (content_of store)) }
{
    let shape = recipe.signature().shape;
    let mut kept = Blocks::new(alloc, shape.rows(), shape.cols());
    for block in blocks {
        let Block::Rows(rows) = block else {
            unreachable!()
        };
        if rows.fibers().len() > 0 {
            kept.push(rows)?;
        }
    }
    Ok(Store::from_blocks(kept))
}

/// The lists in one that a store's blocks are joined to, where it has several, in the memory of other lists where these
/// suit. A second thread copies one of the lists of each block that is long.
pub fn united(
    rt: &impl Threads,
    alloc: Global,
    spares: SpareLists,
    blocks: &Blocks,
) -> Result<Store, NoMemory>
    ensures { IfOk result (λ store. store ≡ blocks.now) }
{
    let count = blocks.nvals() as usize;
    let room = FiberLists {
        ends: Vec::new(alloc),
        inner: cleared(alloc, spares.inner, count),
        words: cleared(alloc, spares.words, count),
    };
    let lists = blocks.joined_in(rt, room)?;
    Ok(Store::from_sparse(lists))
}
