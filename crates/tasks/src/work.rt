//! Work that is out, and work that was done.
ghost use Rattle.std.specs.Prelude.{◌≡◌};
ghost use Rattle.std.specs.List.{All};
ghost use Rattle.board.specs.Pieces.{recipe_of};
ghost use Rattle.calls.specs.Recipes.{known_of};
ghost use Rattle.desk.specs.Works.{IsWork, object_by};
ghost use Rattle.history.specs.Histories.{object_of};
ghost use Rattle.kernel.specs.Covers.{Covers};
ghost use Rattle.kernel.specs.Pieces.{cols_in};
ghost use Rattle.model.specs.Object.{Object, cols_of, rows_of};
ghost use Rattle.tasks.specs.Outcomes.{AreParts, IsOutcomeFor};

use board::Piece;
use calls::Recipe;
use desk::{Joining, Ticket, entries_in, joined_of, made_of, may_stay_apart, part_of};
use journal::{Naming, Note};
use kernel::{Block, VectorProducts};
use model::NoMemory;
use std::alloc::Global;
use std::sync::Arc;
use std::thread::Threads;
use store::Store;

/// A piece of a task that was taken, and a ticket for its slot.
#[derive(Drop)]
pub struct Work<J: Naming> {
    /// The ticket for its slot.
    pub ticket: Ticket<Note<J>>,
    /// What was taken, with the stores that it reads.
    pub piece: Piece,
    /// How many threads could help with it, as far as was known when it was taken.
    pub helpers: u64,
    ghost work: { ∥ IsWork piece ∥₁ },
    ghost makes: { object_of ticket.note ≡ object_by piece },
}

/// What came of work.
#[derive(Drop)]
pub enum Outcome {
    /// The store of a task that was one piece.
    Made(Arc<Store>),
    /// The block of a piece of a task that was cut.
    Part(Block),
    /// The store of the blocks of all pieces.
    Joined(Arc<Store>),
    /// Nothing: memory was refused.
    Refused,
}

/// Work that was done, with what came of it.
#[derive(Drop)]
pub struct Finished<J: Naming> {
    /// The ticket for its slot.
    pub ticket: Ticket<Note<J>>,
    /// What came of it.
    pub outcome: Outcome,
    /// What it was made of. Whoever did the work drops it once it holds no lock.
    pub spent: Piece,
    ghost right: { ∥ IsOutcomeFor (object_of ticket.note) (recipe_of spent.recipe) outcome ∥₁ },
}

/// How tasks that wait for a store are to read it.
#[derive(Clone, Copy, Debug, PartialEq, Eq)]
pub enum Reading {
    /// There is none.
    Nobody,
    /// By the rows that they make.
    ByRows,
    /// At least one needs its lists in one.
    Joined,
}

/// A task that goes along the rows of a store with so many entries is cut, and its pieces read blocks of the store as
/// they are; in one piece it would join them.
pub const ENOUGH_TO_CUT: u64 = 1 << 18;

/// The blocks of all pieces of a task, in the order of their rows, which are to be joined.
#[derive(Drop)]
pub struct Joint<J: Naming> {
    /// The ticket for the task's slot.
    pub ticket: Ticket<Note<J>>,
    /// The blocks.
    pub blocks: Vec<Block>,
    /// What the last block was made of; the recipe is that of all.
    pub spent: Piece,
    /// How it is to be read, as far as was known when the last block came.
    pub reading: Reading,
    ghost right: { ∥ AreParts (object_of ticket.note) (recipe_of spent.recipe) blocks.items ∥₁ },
}

/// What is left to do of work that was handed in, by whoever did it, once it holds no lock.
#[derive(Drop)]
pub enum Left<J: Naming> {
    /// What it was made of is to be dropped.
    Spent(Piece),
    /// Blocks are to be joined.
    Joint(Joint<J>),
}

impl<J: Naming> Left<J> {
    /// What the work was made of.
    pub fn into_spent(self) -> Piece {
        match self {
            Left::Spent(spent) => spent,
            Left::Joint(joint) => joint.spent,
        }
    }
}

impl<J: Naming> Work<J> {
    /// Does it, by threads that may help where they can.
    pub fn run<V: VectorProducts>(self, threads: &V, alloc: Global) -> Finished<J>
        ensures { result.ticket ≡ self.ticket }
    {
        let Work {
            ticket,
            mut piece,
            ..
        } = self;
        let outcome = outcome_of(threads, alloc, &mut piece);
        Finished {
            ticket,
            outcome,
            spent: piece,
        }
    }
}

impl<J: Naming> Joint<J> {
    /// Whether the lists of the blocks aren't put together until a task needs them in one.
    pub fn stays_apart(&self) -> bool {
        let is_worth = match self.reading {
            Reading::Joined => false,
            Reading::ByRows => entries_in(&self.blocks) as u64 >= ENOUGH_TO_CUT,
            Reading::Nobody => true,
        };
        is_worth && may_stay_apart(self.spent.recipe.get(), &self.blocks)
    }

    /// Joins the blocks. Where their lists are put together, it takes time and memory for their entries, and a second
    /// thread where they are many.
    pub fn run(self, rt: &impl Threads, alloc: Global, joining: Joining) -> Finished<J>
        ensures { result.ticket ≡ self.ticket }
    {
        let Joint {
            ticket,
            blocks,
            spent,
            ..
        } = self;
        let outcome = joined(rt, alloc, joining, spent.recipe.get(), blocks);
        Finished {
            ticket,
            outcome,
            spent,
        }
    }
}

/// What comes of a piece.
fn outcome_of<V: VectorProducts>(products: &V, alloc: Global, piece: &mut Piece) -> Outcome
    requires { IsWork piece.old }
    ensures { IsOutcomeFor (object_by piece.old) (recipe_of piece.new.recipe) result }
{
    if piece.is_whole() {
        match made_of(products, alloc, piece) {
            Ok(store) => Outcome::Made(store),
            Err(NoMemory) => Outcome::Refused,
        }
    } else {
        match part_of(alloc, piece) {
            Ok(block) => Outcome::Part(block),
            Err(NoMemory) => Outcome::Refused,
        }
    }
}

/// What comes of the blocks of all pieces of a task.
fn joined(
    rt: &impl Threads,
    alloc: Global,
    joining: Joining,
    recipe: &Recipe,
    blocks: Vec<Block>,
) -> Outcome
    requires covers { Covers 0 (rows_of (known_of recipe.now).shape) blocks.items }
    requires cols { All (λ b. cols_in b ≡ cols_of (known_of recipe.now).shape) blocks.items }
    ensures { (o : Object) → AreParts o recipe.now blocks.items → IsOutcomeFor o recipe.now result }
{
    match joined_of(rt, alloc, joining, recipe, blocks) {
        Ok(store) => Outcome::Joined(store),
        Err(NoMemory) => Outcome::Refused,
    }
}
