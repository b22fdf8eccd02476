//! Which inputs are needed joined, and which as lists.
use calls::{OneInput, Operation, Recipe, Role, TwoInputs};
use model::Form;

/// Whether what a recipe gives needs the blocks of the input in a role joined to lists in one, since a piece of it
/// reads rows all over the input, or it is made in one piece: not where each row of the output rests on the same row of
/// the input, nor for a transpose, which goes along blocks, too.
pub fn needs_joined(recipe: &Recipe, role: Role) -> bool {
    match recipe {
        Recipe::New(_) | Recipe::Given(_) | Recipe::Transposed(_) => false,
        Recipe::Patch(_) | Recipe::Resized(_) => true,
        Recipe::Computed(computation) => match role {
            Role::Old => false,
            Role::Mask => true,
            Role::First => needs_first_joined(&computation.accepted.operation),
            Role::Second => needs_second_joined(&computation.accepted.operation),
        },
    }
}

/// Whether the input in a role is a factor of a product of matrices, whose pieces read it as lists, whatever its form
/// is.
pub fn is_factor(recipe: &Recipe, role: Role) -> bool {
    let Recipe::Computed(computation) = recipe else {
        return false;
    };
    match role {
        Role::Old | Role::Mask => false,
        Role::First | Role::Second => match &computation.accepted.operation {
            Operation::OfTwo { computes, .. } => matches!(
                computes,
                TwoInputs::Multiply {
                    form: Form::MatrixMatrix,
                    ..
                }
            ),
            Operation::Fill { .. } | Operation::OfOne { .. } => false,
        },
    }
}

/// Whether an operation needs its first input joined. The product of a matrix and a vector goes by rows, but has a way
/// of its own with a matrix whose lists are in one.
fn needs_first_joined<K: Copy>(operation: &Operation<K>) -> bool {
    match operation {
        Operation::Fill { .. } => false,
        Operation::OfOne { computes, .. } => {
            matches!(computes, OneInput::Extract(_) | OneInput::Assign(_))
        }
        Operation::OfTwo { computes, .. } => matches!(
            computes,
            TwoInputs::Multiply {
                form: Form::MatrixVector | Form::VectorMatrix,
                ..
            }
        ),
    }
}

/// Whether an operation needs its second input joined.
fn needs_second_joined<K: Copy>(operation: &Operation<K>) -> bool {
    match operation {
        Operation::OfTwo { computes, .. } => matches!(computes, TwoInputs::Multiply { .. }),
        Operation::Fill { .. } | Operation::OfOne { .. } => false,
    }
}
