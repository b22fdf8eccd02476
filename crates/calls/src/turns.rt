//! The inputs of operations and of their recipes.
ghost use Rattle.std.specs.Prelude.{◌≡◌, ℕ, IfOk, true};
ghost use Rattle.std.specs.Option.{option_map};
ghost use Rattle.calls.specs.declared.role.Role.{Role as AnyRole};
ghost use Rattle.calls.specs.Recipes.{ComputesInto, known_by, known_by_role, known_of, meaning, meaning_of};
ghost use Rattle.calls.specs.Straight.{IsStraight, straight_out};
ghost use Rattle.calls.specs.Turned.{AreMatrices, exchanged, flipped_form, flipped_kind, flipped_semiring, turned};
ghost use Rattle.calls.specs.Turned.{turns_of};
ghost use Rattle.model.specs.Object.{Content, transposed_content, transposed_signature};
ghost use Rattle.model.specs.Table.{transposed};

use crate::recipe::{Accepted, Computation, Recipe};
use algebra::{BinaryKind, SemiringName};
use model::{Desc, Form, NoMemory, Operation, Out, Signature, TwoInputs};
use std::alloc::Global;

/// How what takes a recipe's roles is had of what takes the roles of the operation that it was made of.
#[derive(Clone, Copy)]
pub enum Turns {
    /// Each input has its role, and is transposed first where this says so.
    Transposed { first: bool, second: bool },
    /// The two inputs have each other's roles.
    Exchanged,
}

impl Accepted {
    /// Whether no flag transposes an input, so that the operation is its own recipe.
    pub fn is_straight(&self) -> bool
        ensures straight { result ≡ true → IsStraight self.now.out.desc }
        ensures turned { IsStraight self.now.out.desc → result ≡ true }
    {
        !self.out.desc.transpose_first && !self.out.desc.transpose_second
    }

    /// The recipe of the operation, and how its inputs are had. A product of a matrix that is transposed and a vector
    /// is that of the vector and the matrix itself, where its operator has one that takes its operands in exchanged
    /// order: it needs no transpose.
    pub fn into_recipe(self, alloc: Global) -> Result<(Recipe, Turns), NoMemory>
        ensures out { IfOk result (λ made. ComputesInto (straight_out self.out) made.0) }
        ensures makes { IfOk result (λ made. known_of made.0 ≡ self.out.c) }
        ensures known { IfOk result (λ made. (role : AnyRole) → known_by made.0 role
            ≡ turned (option_map transposed_signature) made.1 (known_by_role self.out self.operation) role) }
        ensures matrices { IfOk result (λ made. AreMatrices made.1 (known_by_role self.out self.operation)) }
        ensures meaning { IfOk result (λ made. (maps : AnyRole → Content) → (i j : ℕ)
            → meaning_of made.0 (turned transposed_content made.1 maps) i j
            ≡ meaning self.out self.operation maps i j) }
    {
        let Accepted { out, operation } = self;
        let desc = out.desc;
        let out = straight_out(&out);
        if let Some(operation) = exchanged(desc, &operation) {
            let exchanged = Box::new(alloc, Accepted { out, operation })?;
            return Ok((straight(exchanged), Turns::Exchanged));
        }
        let turns = turns_of(desc, &operation);
        let operation = transposed(desc, operation);
        let transposed = Box::new(alloc, Accepted { out, operation })?;
        Ok((straight(transposed), turns))
    }
}

/// The recipe of an operation that transposes no input: the operation itself.
pub fn straight(accepted: Box<Accepted>) -> Recipe
    requires { IsStraight accepted.value.out.desc }
    ensures out { ComputesInto accepted.value.out result }
    ensures makes { known_of result ≡ accepted.value.out.c }
    ensures known { (role : AnyRole)
        → known_by result role ≡ known_by_role accepted.value.out accepted.value.operation role }
    ensures meaning { (maps : AnyRole → Content)
        → meaning_of result maps ≡ meaning accepted.value.out accepted.value.operation maps }
{
    Recipe::Computed(Computation { accepted })
}

/// An output whose flags transpose no input.
fn straight_out(out: &Out<Signature>) -> Out<Signature>
    ensures { result ≡ straight_out out.now }
{
    let desc = Desc {
        transpose_first: false,
        transpose_second: false,
        ..out.desc
    };
    Out { desc, ..*out }
}

/// The inputs that a descriptor transposes, of those that are matrices.
fn turns_of(desc: Desc, operation: &Operation<Signature>) -> Turns
    ensures { result ≡ turns_of desc operation.now }
{
    match operation {
        Operation::Fill { .. } => Turns::Transposed {
            first: false,
            second: false,
        },
        Operation::OfOne { computes, a } => Turns::Transposed {
            first: computes.is_transposed(desc) && a.shape.is_matrix(),
            second: false,
        },
        Operation::OfTwo { a, b, .. } => Turns::Transposed {
            first: desc.transpose_first && a.shape.is_matrix(),
            second: desc.transpose_second && b.shape.is_matrix(),
        },
    }
}

/// An operation on inputs that are transposed as a descriptor says.
fn transposed(desc: Desc, operation: Operation<Signature>) -> Operation<Signature>
    ensures { result ≡ transposed transposed_signature desc operation }
{
    match operation {
        Operation::Fill { value, region } => Operation::Fill { value, region },
        Operation::OfOne { computes, a } => {
            let a = a.transposed_if(computes.is_transposed(desc));
            Operation::OfOne { computes, a }
        }
        Operation::OfTwo { computes, a, b } => Operation::OfTwo {
            computes,
            a: a.transposed_if(desc.transpose_first),
            b: b.transposed_if(desc.transpose_second),
        },
    }
}

/// The same product with its factors in exchanged order, where a descriptor transposes the matrix that a vector is
/// multiplied by, and its operator has a partner.
fn exchanged(desc: Desc, operation: &Operation<Signature>) -> Option<Operation<Signature>>
    ensures { result ≡ exchanged desc operation.now }
{
    let Operation::OfTwo {
        computes: TwoInputs::Multiply { form, semiring },
        a,
        b,
    } = operation
    else {
        return None;
    };
    let form = flipped_form(*form, desc)?;
    let semiring = flipped_semiring(*semiring)?;
    Some(Operation::OfTwo {
        computes: TwoInputs::Multiply { form, semiring },
        a: *b,
        b: *a,
    })
}

/// The form of the product of the factors in exchanged order, where a descriptor transposes the matrix that a
/// vector is multiplied by.
fn flipped_form(form: Form, desc: Desc) -> Option<Form>
    ensures { result ≡ flipped_form form desc }
{
    match form {
        Form::MatrixVector if desc.transpose_first => Some(Form::VectorMatrix),
        Form::VectorMatrix if desc.transpose_second => Some(Form::MatrixVector),
        _ => None,
    }
}

/// The semiring whose operator takes its operands in exchanged order, where there is one.
fn flipped_semiring(semiring: SemiringName) -> Option<SemiringName>
    ensures { result ≡ flipped_semiring semiring }
{
    let multiply = flipped_kind(semiring.multiply)?;
    Some(SemiringName {
        multiply,
        ..semiring
    })
}

/// The operator that gives for two operands what another gives for them in exchanged order. MINUS has none.
fn flipped_kind(kind: BinaryKind) -> Option<BinaryKind>
    ensures { result ≡ flipped_kind kind }
{
    match kind {
        BinaryKind::First => Some(BinaryKind::Second),
        BinaryKind::Second => Some(BinaryKind::First),
        BinaryKind::Gt => Some(BinaryKind::Lt),
        BinaryKind::Lt => Some(BinaryKind::Gt),
        BinaryKind::Ge => Some(BinaryKind::Le),
        BinaryKind::Le => Some(BinaryKind::Ge),
        BinaryKind::Minus => None,
        commutative => Some(commutative),
    }
}
