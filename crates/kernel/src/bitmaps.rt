//! Operations that go place by place, where their inputs are bitmaps.
ghost use Rattle.std.specs.Prelude.{◌≡◌, ℕ, IfOk, IfSome, None, Some, true};
ghost use Rattle.algebra.specs.Functions.{function_domain, offers_function, takes};
ghost use Rattle.algebra.specs.IndexOperators.{offers_index, takes_index};
ghost use Rattle.algebra.specs.OperatorNames.{semiring_named};
ghost use Rattle.algebra.specs.Operators.{offers};
ghost use Rattle.algebra.specs.Value.{IsWordOf, are_compatible};
ghost use Rattle.kernel.specs.Accepts.{Accepts};
ghost use Rattle.kernel.specs.Bitmaps.{FitsOver, HasAll, IsEverywhere, IsReplacing, IsWriting, left_by};
ghost use Rattle.kernel.specs.Factors.{AreFactors, cols_of_product, inner_of, rows_of_product};
ghost use Rattle.kernel.specs.Inputs.{known_of, object_of};
ghost use Rattle.kernel.specs.Spread.{computed_in};
ghost use Rattle.kernel.specs.Tasks.{operation_of, out_of};
ghost use Rattle.model.specs.declared.call.Form.TheVariants.{MatrixVector, VectorMatrix};
ghost use Rattle.model.specs.ElementWise.{applied, selected};
ghost use Rattle.model.specs.Entries.{word_at};
ghost use Rattle.model.specs.Indices.{All};
ghost use Rattle.model.specs.Lent.{operation_lent};
ghost use Rattle.model.specs.Object.{cast_content, cols_of, in_domain, rows_of};
ghost use Rattle.model.specs.Operations.{combined, computed_of_one, computed_of_two, multiplied};
ghost use Rattle.model.specs.Operations.{operation as computed};
ghost use Rattle.model.specs.Operations.{region_put, region_written};
ghost use Rattle.model.specs.Regions.{cols_in, filled, rows_in};
ghost use Rattle.model.specs.Renamed.{renamed_operation};
ghost use Rattle.model.specs.Table.{is_offered, offers_one, offers_two, plan_of, plan_of_one, plan_of_two};
ghost use Rattle.model.specs.WriteBack.{result_of};
ghost use Rattle.store.specs.Stored.{content_of};

use crate::computing::answer_of;
use crate::input::Input;
use crate::output::{accumulator_of, mask_of};
use crate::task::Task;
use algebra::{BinaryOp, Domain, FunctionName, IndexName, OpName, Semiring, SemiringName};
use bitmap::{Bitmap, WordMaker};
use calls::{OneInput, Out, Positions, Region, Shape, Signature, TwoInputs};
use elementwise::{apply_bitmap, select_bitmap};
use masks::{MarkedMask, Mask};
use model::{Lent, NoMemory};
use spgemm::{VectorProducts, multiply_by_bitmap, suits_bitmap, suits_rows};
use std::alloc::Global;
use store::{Form, Store};

/// How a task along bitmaps leaves what it computes in all of its output.
#[derive(Clone, Copy)]
enum Writing<'a> {
    /// In the place of what was there.
    Anew,
    /// Accumulated with what was there, by an operator.
    Over { old: &'a Bitmap, op: BinaryOp },
    /// In the place of what was there at the positions that a mask lets through, and nothing at the others.
    Under(MarkedMask<'a>),
}

/// All that a task leaves in its output, where nothing of that stays as it was, and it goes along bitmaps.
/// The words, and products with a vector, are made by `products`.
pub(crate) fn task_bitmap<P: VectorProducts>(
    products: &P,
    alloc: Global,
    task: &Task<'_>,
) -> Result<Option<Bitmap>, NoMemory>
    ensures { IfOk result (λ found. IfSome found
        (HasAll (rows_of task.now.out.c.signature.shape) (cols_of task.now.out.c.signature.shape)
        (result_of (out_of task.now) (operation_of task.now)))) }
{
    let Some(writing) = writing_of(task) else {
        return Ok(None);
    };
    let Some(computed) = computed_bitmap(products, alloc, task)? else {
        return Ok(None);
    };

    // A bitmap has no entry outside its shape.
    prove_eq!(computed.rows(), task.out.c.signature.shape.rows());
    let written = write(products, alloc, writing, computed)?;
    Ok(Some(written))
}

/// What a task computes, in the output's domain.
fn computed_bitmap<P: VectorProducts>(
    products: &P,
    alloc: Global,
    task: &Task<'_>,
) -> Result<Option<Bitmap>, NoMemory>
    ensures all { IfOk result (λ found. IfSome found
        (HasAll (rows_of task.now.out.c.signature.shape) (cols_of task.now.out.c.signature.shape)
        (computed_in (out_of task.now) (operation_of task.now)))) }
    ensures region { IfOk result (λ found. IfSome found
        (λ _. IsEverywhere (region_written (operation_lent task.now.operation)))) }
{
    let c = task.out.c.signature;
    let Some(bitmap) = operation_bitmap(products, alloc, c, task.operation)? else {
        return Ok(None);
    };
    let from = answer_of(c, task.operation);
    Ok(Some(bitmap_in_domain(bitmap, from, c.domain)))
}

/// How a task writes all of its output; None where something of that stays, or what it accumulates with is no bitmap.
fn writing_of<'a>(task: &Task<'a>) -> Option<Writing<'a>>
    ensures { IfSome result (IsWriting task.now.out) }
{
    let out = &task.out;
    if out.mask.is_some() {
        return Some(Writing::Under(replacing_mask(task)?));
    }
    if out.desc.complement {
        return None;
    }
    let Some(op) = accumulator_of(task) else {
        return Some(Writing::Anew);
    };
    match out.c.store.form() {
        Form::Bitmap(old) => Some(Writing::Over { old, op }),
        Form::Sparse(_) | Form::Blocks(_) => None,
    }
}

/// The mask of a task, where it is a column as a bitmap and nothing stays at the positions that it keeps out
/// (`GrB_REPLACE`). The product of a matrix and a vector is better made row by row, since a row that is kept out takes
/// no time.
fn replacing_mask<'a>(task: &Task<'a>) -> Option<MarkedMask<'a>>
    ensures { IfSome result (IsReplacing task.now.out) }
{
    let out = &task.out;
    if out.accum.is_some() || !out.desc.replace || goes_by_rows(task.operation) {
        return None;
    }
    let Mask::By(mask) = mask_of(task) else {
        return None;
    };
    match mask.store.form() {
        Form::Bitmap(bitmap) if bitmap.cols() == 1 => {
            let test = mask.test;
            Some(MarkedMask { bitmap, test })
        }
        _ => None,
    }
}

/// Whether an operation is the product of a matrix and a vector.
fn goes_by_rows(operation: Lent<'_, Input<'_>>) -> bool {
    match operation {
        Lent::OfTwo {
            computes: TwoInputs::Multiply { form, .. },
            ..
        } => { form == model::Form::MatrixVector }
        _ => false,
    }
}

/// Whether `writing_of` finds how all of an output is written, over what it has.
fn writes_all(out: &Out<Signature>, old: Option<&Store>) -> bool {
    if out.mask.is_some() || out.desc.complement {
        return false;
    }
    match old.map(Store::form) {
        Some(Form::Bitmap(_)) => true,
        _ => out.accum.is_none(),
    }
}

/// What is left where a bitmap was computed.
fn write<M: WordMaker>(
    maker: &M,
    alloc: Global,
    writing: Writing<'_>,
    computed: Bitmap,
) -> Result<Bitmap, NoMemory>
    requires { FitsOver writing computed }
    ensures rows { IfOk result (λ b. b.rows ≡ computed.rows) }
    ensures cols { IfOk result (λ b. b.cols ≡ computed.cols) }
    ensures content { IfOk result (λ b. (i j : ℕ) → word_at b.entries i j
        ≡ left_by writing.entry i j (word_at computed.entries i j)) }
{
    match writing {
        Writing::Anew => Ok(computed),
        Writing::Over { old, op } => Bitmap::unite(maker, alloc, old, &computed, op),
        Writing::Under(mask) => {
            let mut computed = computed;
            mask.keep_column(alloc, &mut computed)?;
            Ok(computed)
        }
    }
}

/// A bitmap of words of one domain in another, in the same memory.
fn bitmap_in_domain(mut bitmap: Bitmap, from: Domain, to: Domain) -> Bitmap
    ensures rows { result.rows ≡ bitmap.rows }
    ensures cols { result.cols ≡ bitmap.cols }
    ensures content { (i j : ℕ) → ((word : ℕ) → word_at bitmap.entries i j ≡ Some word → IsWordOf from word)
        → word_at result.entries i j ≡ cast_content from to (word_at bitmap.entries) i j }
{
    if !from.is_same(to) {
        bitmap.cast(from, to);
    }
    bitmap
}

/// What an operation computes, in the domain of its answers, where it goes along bitmaps. It writes all positions.
fn operation_bitmap<P: VectorProducts>(
    products: &P,
    alloc: Global,
    c: Signature,
    operation: Lent<'_, Input<'_>>,
) -> Result<Option<Bitmap>, NoMemory>
    requires accepts { Accepts (plan_of c (renamed_operation known_of (operation_lent operation))) c }
    requires offered { is_offered (operation_lent operation) ≡ true }
    ensures all { IfOk result (λ found. IfSome found (HasAll (rows_of c.shape) (cols_of c.shape)
        (computed c (renamed_operation object_of (operation_lent operation.entry))))) }
    ensures region { IfOk result (λ found. IfSome found
        (λ _. IsEverywhere (region_written (operation_lent operation.entry)))) }
{
    match operation {
        Lent::Fill { value, region } => {
            filled_bitmap(alloc, c.shape, region, c.domain.wrapped(value))
        }
        Lent::OfOne { computes, a } => one_bitmap(products, alloc, c, computes, a),
        Lent::OfTwo { computes, a, b } => two_bitmap(products, alloc, c, computes, a, b),
    }
}

/// What is computed of one input.
fn one_bitmap<M: WordMaker>(
    maker: &M,
    alloc: Global,
    c: Signature,
    computes: &OneInput,
    a: Input<'_>,
) -> Result<Option<Bitmap>, NoMemory>
    requires accepts { Accepts (plan_of_one c computes.now a.signature) c }
    requires offered { offers_one computes.now ≡ true }
    ensures all { IfOk result (λ found. IfSome found (HasAll (rows_of c.shape) (cols_of c.shape)
        (computed_of_one c.shape computes.now (object_of a.entry)))) }
    ensures region { IfOk result (λ found. IfSome found (λ _. IsEverywhere (region_put computes.now))) }
{
    match computes {
        OneInput::Apply(function) => applied_bitmap(maker, alloc, a, *function),
        OneInput::Select { op, scalar } => selected_bitmap(maker, alloc, a, *op, *scalar),
        _ => Ok(None),
    }
}

/// What is computed of two inputs.
fn two_bitmap<P: VectorProducts>(
    products: &P,
    alloc: Global,
    c: Signature,
    computes: TwoInputs,
    a: Input<'_>,
    b: Input<'_>,
) -> Result<Option<Bitmap>, NoMemory>
    requires accepts { Accepts (plan_of_two computes a.signature b.signature) c }
    requires offered { offers_two computes ≡ true }
    ensures { IfOk result (λ found. IfSome found (HasAll (rows_of c.shape) (cols_of c.shape)
        (computed_of_two computes (object_of a.entry) (object_of b.entry)))) }
{
    match computes {
        TwoInputs::Multiply { form, semiring } => multiplied_bitmap(
            products, alloc, form, semiring, a, b,
        ),
        TwoInputs::Combine { positions, op } => combined_bitmap(
            products, alloc, positions, op, a, b,
        ),
    }
}

/// A function of each entry.
fn applied_bitmap<M: WordMaker>(
    maker: &M,
    alloc: Global,
    a: Input<'_>,
    function: FunctionName,
) -> Result<Option<Bitmap>, NoMemory>
    requires offered { offers_function function ≡ true }
    requires takes { takes function a.signature.domain ≡ true }
    ensures { IfOk result (λ found. IfSome found
        (HasAll (rows_of a.entry.signature.shape) (cols_of a.entry.signature.shape)
        (applied function (in_domain (function_domain function) (object_of a.entry))))) }
{
    let Form::Bitmap(bitmap) = a.store.form() else {
        return Ok(None);
    };
    let Some(function) = function.resolve() else {
        unreachable!();
    };
    let made = apply_bitmap(maker, alloc, bitmap, function)?;
    Ok(Some(made))
}

/// The entries for which an index operator's answer is true.
fn selected_bitmap<M: WordMaker>(
    maker: &M,
    alloc: Global,
    a: Input<'_>,
    op: IndexName,
    scalar: i128,
) -> Result<Option<Bitmap>, NoMemory>
    requires offered { offers_index op.kind op.domain ≡ true }
    requires takes { takes_index op.kind op.domain a.signature.domain ≡ true }
    ensures { IfOk result (λ found. IfSome found
        (HasAll (rows_of a.entry.signature.shape) (cols_of a.entry.signature.shape)
        (selected op scalar (object_of a.entry)))) }
{
    let Form::Bitmap(bitmap) = a.store.form() else {
        return Ok(None);
    };
    let Some(op) = op.resolve() else {
        unreachable!();
    };
    let s = op.scalar().wrapped(scalar);
    let made = select_bitmap(maker, alloc, bitmap, op, s)?;
    Ok(Some(made))
}

/// An operator's answers for two inputs, at the positions that either or both have.
fn combined_bitmap<M: WordMaker>(
    maker: &M,
    alloc: Global,
    positions: Positions,
    op: OpName,
    a: Input<'_>,
    b: Input<'_>,
) -> Result<Option<Bitmap>, NoMemory>
    requires offered { offers op.kind op.domain ≡ true }
    requires takes_first { are_compatible a.signature.domain op.domain ≡ true }
    requires takes_second { are_compatible b.signature.domain op.domain ≡ true }
    requires rows { rows_of a.signature.shape ≡ rows_of b.signature.shape }
    requires cols { cols_of a.signature.shape ≡ cols_of b.signature.shape }
    ensures { IfOk result (λ found. IfSome found
        (HasAll (rows_of a.entry.signature.shape) (cols_of a.entry.signature.shape)
        (combined positions op (object_of a.entry) (object_of b.entry)))) }
{
    let Form::Bitmap(left) = a.store.form() else {
        return Ok(None);
    };
    let Form::Bitmap(right) = b.store.form() else {
        return Ok(None);
    };
    let Some(op) = op.resolve() else {
        unreachable!();
    };
    match positions {
        Positions::Union => {
            let made = Bitmap::unite(maker, alloc, left, right, op)?;
            Ok(Some(made))
        }
        Positions::Intersection => {
            let made = Bitmap::intersect(maker, alloc, left, right, op)?;
            Ok(Some(made))
        }
    }
}

/// The product of a vector that is a bitmap and a matrix of lists, or the other way round, where that is better made as
/// a bitmap.
fn multiplied_bitmap<P: VectorProducts>(
    products: &P,
    alloc: Global,
    form: model::Form,
    semiring: SemiringName,
    a: Input<'_>,
    b: Input<'_>,
) -> Result<Option<Bitmap>, NoMemory>
    requires factors { AreFactors form a.store.now b.store.now }
    requires offered { offers_two (TwoInputs.Multiply form semiring) ≡ true }
    ensures { IfOk result (λ found. IfSome found
        (HasAll (rows_of_product form a.entry.store.now b.entry.store.now) (cols_of_product form b.entry.store.now)
        (multiplied form semiring (inner_of form a.entry.store.now) (content_of a.entry.store.now)
        (content_of b.entry.store.now)))) }
{
    let Some(semiring) = semiring.resolve() else {
        unreachable!();
    };
    match form {
        model::Form::VectorMatrix => multiply_vector(products, alloc, semiring, a.store, b.store),
        model::Form::MatrixVector => multiply_by_vector(alloc, semiring, a.store, b.store),
        model::Form::MatrixMatrix => Ok(None),
    }
}

/// The product of a vector and a matrix.
fn multiply_vector<P: VectorProducts>(
    products: &P,
    alloc: Global,
    semiring: Semiring,
    u: &Store,
    a: &Store,
) -> Result<Option<Bitmap>, NoMemory>
    requires vector { u.now.cols ≡ 1 }
    requires inner { u.now.rows ≡ a.now.rows }
    ensures { IfOk result (λ found. IfSome found (HasAll a.now.cols 1
        (multiplied VectorMatrix (semiring_named semiring) u.now.rows (content_of u.now) (content_of a.now)))) }
{
    let (Form::Bitmap(vector), Form::Sparse(matrix)) = (u.form(), a.form()) else {
        return Ok(None);
    };
    if !suits_bitmap(vector, matrix) {
        return Ok(None);
    }
    let made = products.multiply_bitmap(alloc, vector, matrix, semiring)?;
    Ok(Some(made))
}

/// The product of a matrix and a vector.
fn multiply_by_vector(
    alloc: Global,
    semiring: Semiring,
    a: &Store,
    u: &Store,
) -> Result<Option<Bitmap>, NoMemory>
    requires inner { a.now.cols ≡ u.now.rows }
    ensures { IfOk result (λ found. IfSome found (HasAll a.now.rows u.now.cols
        (multiplied MatrixVector (semiring_named semiring) a.now.cols (content_of a.now) (content_of u.now)))) }
{
    let (Form::Sparse(matrix), Form::Bitmap(vector)) = (a.form(), u.form()) else {
        return Ok(None);
    };
    if vector.cols() != 1 || !suits_rows(matrix) {
        return Ok(None);
    }
    let made = multiply_by_bitmap(alloc, matrix, vector, semiring)?;
    Ok(Some(made))
}

/// Whether `task_bitmap` makes all of an output of the product of a matrix and a vector. It takes constant time.
pub(crate) fn makes_column(
    out: &Out<Signature>,
    old: Option<&Store>,
    a: &Store,
    u: &Store,
) -> bool {
    match (a.form(), u.form()) {
        (Form::Sparse(matrix), Form::Bitmap(vector)) => {
            vector.cols() == 1 && suits_rows(matrix) && writes_all(out, old)
        }
        _ => false,
    }
}

/// The greatest number of positions of a bitmap.
const MOST_PLACES: u64 = 1 << 24;

/// Shorter rows, or a shorter column, are better kept as lists.
const LEAST_LENGTH: u64 = 64;

/// A word at all positions of a shape, where a region has these, and a bitmap suits so many.
fn filled_bitmap(
    alloc: Global,
    shape: Shape,
    region: &Region,
    word: u64,
) -> Result<Option<Bitmap>, NoMemory>
    ensures all { IfOk result (λ found. IfSome found (HasAll (rows_of shape) (cols_of shape)
        (filled (rows_of shape) (cols_of shape) (rows_in region.now) (cols_in region.now) word))) }
    ensures region { IfOk result (λ found. IfSome found (λ _. IsEverywhere (Some region.now))) }
{
    let (rows, cols) = (shape.rows(), shape.cols());
    let places = rows.saturating_mul(cols);
    let length = if cols == 1 { rows } else { cols };
    if !has_all(region) || length < LEAST_LENGTH || places > MOST_PLACES {
        return Ok(None);
    }
    let words = vec![in alloc; word; places as usize]?;
    let Ok(bitmap) = Bitmap::full(alloc, rows, cols, words) else {
        return Err(NoMemory);
    };

    // A bitmap has no entry outside its shape.
    prove_eq!(bitmap.rows(), rows);
    Ok(Some(bitmap))
}

/// Whether a region names all rows and columns.
fn has_all(region: &Region) -> bool
    ensures rows { result ≡ true → rows_in region.now ≡ All }
    ensures cols { result ≡ true → cols_in region.now ≡ All }
{
    match region {
        Region::One(rows) => rows.listed().is_none(),
        Region::Two(rows, cols) => rows.listed().is_none() && cols.listed().is_none(),
    }
}
