//! What operations compute, one position at a time.
ghost use Rattle.std.specs.Prelude.{◌≡◌, true};
ghost use Rattle.algebra.specs.Functions.{function_domain, offers_function};
ghost use Rattle.algebra.specs.IndexOperators.{offers_index};
ghost use Rattle.algebra.specs.Operators.{offers};
ghost use Rattle.model.specs.ElementWise.{applied, selected};
ghost use Rattle.model.specs.Fault.{plan_in};
ghost use Rattle.model.specs.Object.{cols_of, in_domain, rows_of, signature_of, transposed_object};
ghost use Rattle.model.specs.Operations.{combined, computed_of_one, computed_of_two, is_written_by};
ghost use Rattle.model.specs.Operations.{operation as computed};
ghost use Rattle.model.specs.Regions.{cols_in, filled, rows_in};
ghost use Rattle.model.specs.Renamed.{renamed_operation};
ghost use Rattle.model.specs.Table.{is_offered, offers_one, offers_two, plan_of, transposed};
ghost use Rattle.plain.specs.Environments.{operation_in};
ghost use Rattle.plain.specs.Evaluated.{input_of};

use crate::environment::PlainEnvironment;
use crate::inputs::Input;
use crate::products::product;
use crate::regions::{extracted, is_listed, placed};
use crate::sums::summed;
use algebra::{BinaryOp, FunctionName, IndexName, IndexOp, OpName, Semiring};
use model::{Desc, OneInput, Operation, Plan, Positions, Region, Shape, Signature, TwoInputs};

impl PlainEnvironment {
    /// What an operation computes at a position of its inputs, transposed as the descriptor says.
    #[tactic(auto, unfolding(model::specs::Operations::operation))]
    pub(crate) fn value_at(
        &self,
        c: Signature,
        desc: Desc,
        operation: &Operation<&str>,
        row: u64,
        col: u64,
    ) -> Option<u64>
        requires { is_offered operation.now ≡ true }
        ensures { result
            ≡ computed c (transposed transposed_object desc (operation_in self.now operation.now)) row col }
    {
        match operation {
            Operation::Fill { value, region } => {
                filled(c.shape, region, c.domain.wrapped(*value), row, col)
            }
            Operation::OfOne { computes, a } => {
                let a = self.read(computes.is_transposed(desc), a);
                one_at(c.shape, computes, a, row, col)
            }
            Operation::OfTwo { computes, a, b } => {
                let a = self.read(desc.transpose_first, a);
                let b = self.read(desc.transpose_second, b);
                two_at(*computes, a, b, row, col)
            }
        }
    }

    /// What the table says of an operation, its inputs transposed as the descriptor says.
    pub(crate) fn plan(&self, c: Signature, desc: Desc, operation: &Operation<&str>) -> Plan
        ensures known { result ≡ plan_in c desc (renamed_operation signature_of (operation_in self.now operation.now)) }
        ensures read { result ≡ plan_of c (renamed_operation signature_of
            (transposed transposed_object desc (operation_in self.now operation.now))) }
    {
        match operation {
            Operation::Fill { value, region } => region.plan_of_fill(c, *value),
            Operation::OfOne { computes, a } => {
                let a = self.read(computes.is_transposed(desc), a);
                computes.plan(c, a.signature())
            }
            Operation::OfTwo { computes, a, b } => {
                let a = self.read(desc.transpose_first, a);
                let b = self.read(desc.transpose_second, b);
                computes.plan(a.signature(), b.signature())
            }
        }
    }
}

/// Whether an operation writes at a position of an output of a shape: an assignment does in its region
/// alone.
pub fn is_written<K: Copy>(shape: Shape, operation: &Operation<K>, row: u64, col: u64) -> bool
    ensures { result ≡ is_written_by shape operation.now row col }
{
    match operation.as_lent().region_written() {
        Some(region) => is_listed(shape, region, row, col),
        None => true,
    }
}

/// A word at a position, if it is in a region.
fn filled(shape: Shape, region: &Region, word: u64, row: u64, col: u64) -> Option<u64>
    ensures { result ≡ filled (rows_of shape) (cols_of shape) (rows_in region.now) (cols_in region.now) word row col }
{
    is_listed(shape, region, row, col).then_some(word)
}

/// What an operation computes of one input at a position, for an output of a shape.
fn one_at(shape: Shape, computes: &OneInput, a: Input, row: u64, col: u64) -> Option<u64>
    requires { offers_one computes.now ≡ true }
    ensures { result ≡ computed_of_one shape computes.now (input_of a.entry) row col }
{
    match computes {
        OneInput::Apply(function) => applied(*function, a, row, col),
        OneInput::Select { op, scalar } => selected(*op, *scalar, a, row, col),
        OneInput::ReduceRows(monoid) => summed(*monoid, a, row, col),
        OneInput::Transpose => a.word(col, row),
        OneInput::Extract(region) => extracted(region, a, row, col),
        OneInput::Assign(region) => placed(shape, region, a, row, col),
    }
}

/// What an operation computes of two inputs at a position.
fn two_at(computes: TwoInputs, a: Input, b: Input, row: u64, col: u64) -> Option<u64>
    requires { offers_two computes ≡ true }
    ensures { result ≡ computed_of_two computes (input_of a.entry) (input_of b.entry) row col }
{
    match computes {
        TwoInputs::Multiply { form, semiring } => {
            let semiring = Semiring::of(semiring.add, semiring.multiply, semiring.domain);
            product(form, semiring, a, b, row, col)
        }
        TwoInputs::Combine { positions, op } => combined(positions, op, a, b, row, col),
    }
}

/// A function of the value at a position, where there is one.
fn applied(function: FunctionName, a: Input, row: u64, col: u64) -> Option<u64>
    requires { offers_function function ≡ true }
    ensures { result ≡ applied function (in_domain (function_domain function) (input_of a.entry)) row col }
{
    let word = a.word_in(function.domain(), row, col)?;
    let Some(function) = function.resolve() else {
        unreachable!()
    };
    Some(function.eval(word, row, col))
}

/// The word at a position, where there is one and an index operator's answer is true.
fn selected(op: IndexName, scalar: i128, a: Input, row: u64, col: u64) -> Option<u64>
    requires { offers_index op.kind op.domain ≡ true }
    ensures { result ≡ selected op scalar (input_of a.entry) row col }
{
    let word = a.word(row, col)?;
    let op = IndexOp::of(op.kind, op.domain);
    let s = op.scalar().wrapped(scalar);
    op.passes(a.cast_word(word, op.domain), row, col, s)
        .then_some(word)
}

/// What an operator gives for the words of two inputs at a position, or what one alone has.
fn combined(positions: Positions, op: OpName, a: Input, b: Input, row: u64, col: u64) -> Option<u64>
    requires { offers op.kind op.domain ≡ true }
    ensures { result ≡ combined positions op (input_of a.entry) (input_of b.entry) row col }
{
    let op = BinaryOp::of(op.kind, op.domain);
    match (a.word(row, col), b.word(row, col), positions) {
        (Some(x), Some(y), _) => {
            let x = a.cast_word(x, op.domain);
            let y = b.cast_word(y, op.domain);
            Some(op.eval(x, y))
        }
        (Some(x), None, Positions::Union) => Some(a.cast_word(x, op.answer())),
        (None, Some(y), Positions::Union) => Some(b.cast_word(y, op.answer())),
        _ => None,
    }
}
