//! Pieces of work.
ghost use Rattle.std.specs.Prelude.{◌≡◌, IfErr, IfOk};
ghost use Rattle.calls.specs.declared.role.Role.{Role as AnyRole};
ghost use Rattle.kernel.specs.Takes.{lent_in};
ghost use Rattle.std.specs.Arc.{arc_value};
ghost use Rattle.std.specs.Option.{option_map};

use calls::{Recipe, Roles};
use kernel::Block;
use model::NoMemory;
use stages::again;
use std::alloc::Global;
use std::ops::Range;
use std::sync::Arc;
use store::Store;

/// The stores that take roles.
#[derive(Drop)]
pub struct Stores {
    pub old: Option<Arc<Store>>,
    pub mask: Option<Arc<Store>>,
    pub first: Option<Arc<Store>>,
    pub second: Option<Arc<Store>>,
}

impl Stores {
    ghost use Rattle.board.specs.Stores.{stored_for};

    /// The stores, in the same roles.
    pub fn lent(&self) -> Roles<&Store>
        ensures { (role : AnyRole) → lent_in result role ≡ stored_for self.now role }
    {
        Roles {
            old: lent(&self.old),
            mask: lent(&self.mask),
            first: lent(&self.first),
            second: lent(&self.second),
        }
    }

    /// The same stores, shared.
    pub(crate) fn share(&self) -> Result<Stores, NoMemory>
        ensures { IfOk result (λ share. (role : AnyRole) → stored_for share role ≡ stored_for self.now role) }
    {
        Ok(Stores {
            old: share_of(&self.old)?,
            mask: share_of(&self.mask)?,
            first: share_of(&self.first)?,
            second: share_of(&self.second)?,
        })
    }
}

fn share_of(store: &Option<Arc<Store>>) -> Result<Option<Arc<Store>>, NoMemory>
    ensures { IfOk result (λ share. option_map (λ s. arc_value s) share
        ≡ option_map (λ s. arc_value s) store.now) }
{
    match store {
        Some(store) => {
            let share = again(store)?;
            Ok(Some(share))
        }
        None => Ok(None),
    }
}

fn lent(store: &Option<Arc<Store>>) -> Option<&Store>
    ensures { option_map (λ s. s.now) result ≡ option_map (λ s. arc_value s) store.now }
{
    match store {
        Some(store) => Some(store),
        None => None,
    }
}

/// The recipe of a task that somebody works on.
#[derive(Drop)]
pub enum TaskRecipe {
    /// Of a task that is one piece.
    Own(Recipe),
    /// The pieces of a task share it.
    Shared(Arc<Recipe>),
}

impl TaskRecipe {
    ghost use Rattle.board.specs.Pieces.{recipe_of};

    /// The recipe itself.
    pub fn get(&self) -> &Recipe
        ensures { result.now ≡ recipe_of self.now }
    {
        match self {
            TaskRecipe::Own(recipe) => recipe,
            TaskRecipe::Shared(recipe) => recipe,
        }
    }

    /// A share of it, and itself. `Err`: memory is refused, and it is as it was.
    fn shared(self, alloc: Global) -> Result<(Arc<Recipe>, TaskRecipe), TaskRecipe>
        ensures share { IfOk result (λ both. arc_value both.0 ≡ recipe_of self) }
        ensures itself { IfOk result (λ both. recipe_of both.1 ≡ recipe_of self) }
        ensures same { IfErr result (λ recipe. recipe_of recipe ≡ recipe_of self) }
    {
        let recipe = match self {
            TaskRecipe::Own(recipe) => match Arc::new(alloc, recipe) {
                Ok(recipe) => recipe,
                Err(failed) => return Err(TaskRecipe::Own(failed.value)),
            },
            TaskRecipe::Shared(recipe) => recipe,
        };
        match Arc::try_clone(&recipe) {
            Ok(share) => Ok((share, TaskRecipe::Shared(recipe))),
            Err(_) => Err(TaskRecipe::Shared(recipe)),
        }
    }
}

/// Work for somebody: rows of what a slot's task makes, with all that they are made of.
#[derive(Drop)]
pub struct Piece {
    pub number: u64,
    pub piece: u64,
    pub rows: Range<u64>,
    pub recipe: TaskRecipe,
    pub inputs: Stores,
}

impl Piece {
    ghost use Rattle.board.specs.Pieces.{IsSamePiece, is_whole, recipe_of};

    /// Whether it is all of its task.
    pub fn is_whole(&self) -> bool
        ensures { result ≡ is_whole self.now }
    {
        self.rows.start == 0 && self.rows.end == self.recipe.get().signature().shape.rows()
    }

    /// A share of its recipe, and itself. `Err`: memory is refused.
    pub(crate) fn with_shared(self, alloc: Global) -> Result<(Arc<Recipe>, Piece), Piece>
        ensures share { IfOk result (λ both. arc_value both.0 ≡ recipe_of self.recipe) }
        ensures itself { IfOk result (λ both. IsSamePiece self both.1) }
        ensures same { IfErr result (IsSamePiece self) }
    {
        let Piece {
            number,
            piece,
            rows,
            recipe,
            inputs,
        } = self;
        let (share, recipe) = match recipe.shared(alloc) {
            Ok((share, recipe)) => (Some(share), recipe),
            Err(recipe) => (None, recipe),
        };
        let again = Piece {
            number,
            piece,
            rows,
            recipe,
            inputs,
        };
        match share {
            Some(share) => Ok((share, again)),
            None => Err(again),
        }
    }
}

/// The blocks of all pieces of a task, in the order of their rows.
#[derive(Drop)]
pub enum Blocks {
    /// Of a task that is one piece.
    One(Block),
    Several(Vec<Block>),
}

/// What is left to do of a task once a piece of it was given.
#[derive(Drop)]
pub enum Given {
    /// Other pieces are to come.
    More,
    /// Nothing: the blocks are to be joined, and their store is to be handed in.
    Last(Blocks),
}
