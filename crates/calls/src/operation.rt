//! The checks of operations.
ghost use Rattle.std.specs.Prelude.{◌≡◌, ◌&&◌, Some, IfOk, nat_le};
ghost use Rattle.calls.specs.Checks.{Decides};
ghost use Rattle.calls.specs.Recipes.{IsAcceptedOf};
ghost use Rattle.model.specs.declared.call.Call.TheVariants.{Operate};
ghost use Rattle.model.specs.Fault.{early_fault, operation_fault, plan_in};
ghost use Rattle.model.specs.declared.call.Operation.TheVariants.{OfTwo};
ghost use Rattle.model.specs.Lent.{operation_lent};
ghost use Rattle.model.specs.Renamed.{renamed_operation, renamed_out};
ghost use Rattle.model.specs.Table.{filled_by, is_offered};

use crate::obj::{Obj, Shapes, Signatures};
use crate::recipe::Accepted;
use algebra::compatible;
use model::{Lent, Lookup, MOST_FILLED, Operation, Out, Plan, Signature, Status, TwoInputs};

/// The checks of an operation on objects by number, and the operation on what is known of these. Its time is that of a
/// look at each object and at each index; it takes no memory.
///
/// An error is the first fault in the order of the checks.
#[tactic(auto, using(crate::proofs::Founds::founds))]
pub fn check_operate<S: Shapes>(
    shapes: &S,
    out: &Out<Obj>,
    operation: Operation<Obj>,
) -> Result<Accepted, Status>
    ensures fault { Decides (early_fault (S.count shapes.now)
        (Operate (renamed_out (S.known shapes.now) out.now)
        (renamed_operation (S.known shapes.now) operation))) result }
    ensures found { IfOk result (IsAcceptedOf (S.known shapes.now) out.now operation) }
{
    let signatures = Signatures(shapes);
    let Some(out) = out.found(&signatures) else {
        return Err(Status::UninitializedObject);
    };
    let Some(operation) = operation.found(&signatures) else {
        return Err(Status::UninitializedObject);
    };
    check_operation(&out, operation.as_lent())?;
    Ok(Accepted { out, operation })
}

/// The same of an operation of two inputs. It is inlined, so that it needs no case by the number of inputs where it
/// is called, nor does what takes the operation there.
#[inline(always)]
#[tactic(auto, using(crate::proofs::Founds::founds_of_two))]
pub fn check_two<S: Shapes>(
    shapes: &S,
    out: &Out<Obj>,
    computes: TwoInputs,
    a: Obj,
    b: Obj,
) -> Result<Accepted, Status>
    ensures fault { Decides (early_fault (S.count shapes.now) (Operate (renamed_out (S.known shapes.now) out.now)
        (OfTwo computes (S.known shapes.now a) (S.known shapes.now b)))) result }
    ensures found { IfOk result (IsAcceptedOf (S.known shapes.now) out.now (OfTwo computes a b)) }
{
    let signatures = Signatures(shapes);
    let Some(out) = out.found(&signatures) else {
        return Err(Status::UninitializedObject);
    };
    let Some(a) = signatures.find(a) else {
        return Err(Status::UninitializedObject);
    };
    let Some(b) = signatures.find(b) else {
        return Err(Status::UninitializedObject);
    };
    check_joined(&out, computes, a, b)?;
    let operation = Operation::OfTwo { computes, a, b };
    Ok(Accepted { out, operation })
}

/// The checks of an operation on what is known of its objects.
pub(crate) fn check_operation(
    out: &Out<Signature>,
    operation: Lent<'_, Signature>,
) -> Result<(), Status>
    ensures { Decides (operation_fault out.now (operation_lent operation.entry)) result }
{
    let plan = operation.plan(out.c, out.desc);
    let offered = operation.is_offered() && operation.filled(out.c.shape) <= MOST_FILLED as u128;
    check_plan(out, &plan, offered)
}

/// The same of an operation of two inputs.
fn check_joined(
    out: &Out<Signature>,
    computes: TwoInputs,
    a: Signature,
    b: Signature,
) -> Result<(), Status>
    ensures { Decides (operation_fault out.now (OfTwo computes a b)) result }
{
    let a = a.transposed_if(out.desc.transpose_first);
    let b = b.transposed_if(out.desc.transpose_second);
    check_plan(out, &computes.plan(a, b), computes.is_offered())
}

/// The checks of an operation by what the table says of it, and whether its operators are offered and it fills no more
/// positions than may be.
#[tactic(auto, unfolding(model::specs::Fault::operation_fault))]
fn check_plan(out: &Out<Signature>, plan: &Plan, offered: bool) -> Result<(), Status>
    ensures { (operation : Operation Signature) → plan.now ≡ plan_in out.now.c out.now.desc operation
        → offered ≡ (is_offered operation && nat_le (filled_by out.now.c.shape operation) MOST_FILLED)
        → Decides (operation_fault out.now operation) result }
{
    let c = out.c;
    if !plan.kinds || !plan.shape.is_like(c.shape) || !out.mask_is_of_kind() {
        return Err(Status::WrongKind);
    }
    if !offered || !out.accumulator_serves() {
        return Err(Status::NotImplemented);
    }
    if !out.mask_serves() || !plan.compatible || !compatible(plan.domain, c.domain) {
        return Err(Status::DomainMismatch);
    }
    if !out.mask_fits() || !plan.shape.is_same(c.shape) || !plan.fits {
        return Err(Status::DimensionMismatch);
    }
    if !plan.inside {
        return Err(Status::IndexOutOfBounds);
    }
    if !plan.values {
        return Err(Status::InvalidValue);
    }
    Ok(())
}
