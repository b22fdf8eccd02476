//! Accepted operations, and recipes: what is evaluated of stores that take its roles.
ghost use Rattle.std.specs.Prelude.{◌≡◌, None, true};
ghost use Rattle.std.specs.Arc.{arc_value};
ghost use Rattle.calls.specs.Stores.{AreInside, IsStoreOf, object_with};
ghost use Rattle.calls.specs.Straight.{IsStraight};
ghost use Rattle.model.specs.Fault.{operation_fault};
ghost use Rattle.model.specs.Object.{Content, IsObject, cols_of, is_matrix, rows_of};
ghost use Rattle.patch.specs.Edits.{edited};

use model::{Operation, Out, Shape, Signature};
use patch::Edit;
use std::sync::Arc;
use store::Store;

/// An operation that was accepted, on what is known of its objects. It owns its lists, and holds no object.
#[derive(Drop)]
pub struct Accepted {
    pub out: Out<Signature>,
    pub operation: Operation<Signature>,
    pub ghost accepted: { operation_fault out operation ≡ None },
}

/// An accepted operation that transposes no input.
#[derive(Drop)]
pub struct Computation {
    pub accepted: Box<Accepted>,
    pub ghost straight: { IsStraight accepted.value.out.desc },
}

/// The entries of an object that is there.
#[derive(Drop)]
pub struct Given {
    pub of: Signature,
    pub store: Arc<Store>,
    pub ghost is_store: { IsStoreOf of (arc_value store) },
}

/// Edits of an object, from the first to the last.
#[derive(Drop)]
pub struct Patch {
    pub of: Signature,
    pub edits: Vec<Edit>,
    pub ghost inside: { AreInside (rows_of of.shape) (cols_of of.shape) edits.items },
    pub ghost keeps: { (map : Content) → IsObject (object_with of map)
        → IsObject (object_with of (edited edits.items map)) },
}

/// An object that gets another shape.
#[derive(Clone, Copy)]
pub struct Resize {
    pub of: Signature,
    pub shape: Shape,
}

/// A matrix that is transposed.
#[derive(Clone, Copy)]
pub struct Transpose {
    pub of: Signature,
    pub ghost matrix: { is_matrix of.shape ≡ true },
}

/// What is evaluated, of stores that take its roles. It owns its lists, knows domains and shapes, and holds no object
/// and no store that takes a role: whoever has it and these stores can evaluate it. All of it lies behind pointers,
/// since recipes go from hand to hand, and a value of any kind is copied with the fields of all kinds.
#[derive(Drop)]
pub enum Recipe {
    /// An object without entries.
    New(Box<Signature>),
    /// The entries of an object that is there. Whoever shares its store needn't evaluate it.
    Given(Box<Given>),
    /// The object in the role of the old content, after edits.
    Patch(Box<Patch>),
    /// The object in the role of the old content, in another shape.
    Resized(Box<Resize>),
    /// The transpose of the matrix in the role of the first input.
    Transposed(Box<Transpose>),
    /// What an operation leaves.
    Computed(Computation),
}
