//! The checks of calls, before anything is done.
ghost use Rattle.std.specs.Prelude.{◌≡◌, IfOk, None, Some, false, if◌then◌else◌, nat_le, true};
ghost use Rattle.std.specs.Option.{option_map, option_map_or};
ghost use Rattle.algebra.specs.OperatorNames.{monoid_named, op_named};
ghost use Rattle.algebra.specs.Operators.{offers};
ghost use Rattle.algebra.specs.Value.{word_of};
ghost use Rattle.calls.specs.Checks.{Decides, known_call};
ghost use Rattle.model.specs.Fault.{early_fault};
ghost use Rattle.model.specs.Renamed.{renamed_operation, renamed_out};

use crate::obj::{Obj, Shapes, Signatures};
use crate::operation::check_operation;
use algebra::{BinaryOp, Domain, Monoid, MonoidName, OpName, compatible};
use model::{
    Act, Call, Lookup, MOST_OBJECTS, Operation, Out, Place, Shape, Signature, Status, TupleList,
    WaitMode, accumulator_serves,
};

/// Checks a call by what is known of its objects, without their values. It takes no memory, and its
/// time is that of some looks at what is known.
///
/// An error is the first fault of the call in the order of the checks, but for those that depend on
/// values.
pub fn check<N, S: Shapes>(call: &Call<Obj, N>, shapes: &S) -> Result<(), Status>
    ensures { Decides (early_fault (S.count shapes.now) (known_call (S.known shapes.now) call.now)) result }
{
    match call {
        Call::Create { domain, shape, .. } => check_create(shapes, *domain, *shape),
        Call::Dup { object, .. } => check_dup(shapes, *object),
        Call::On { object, act } => check_act(shapes, *object, act),
        Call::Operate { out, operation } => check_known(shapes, out, operation),
    }
}

/// The checks of what is done to one object, but for those that depend on its entries.
fn check_act<S: Shapes>(shapes: &S, object: Obj, act: &Act) -> Result<(), Status>
    ensures { Decides (early_fault (S.count shapes.now) (Call.On (S.known shapes.now object) act.now)) result }
{
    match act {
        Act::Free | Act::Clear | Act::Nvals | Act::Print => check_there(shapes, object),
        Act::Wait(mode) => check_wait(shapes, object, *mode),
        Act::Resize(shape) => check_resize(shapes, object, *shape),
        Act::Build { dup, tuples } => {
            check_build(shapes, object, *dup, tuples)?;
            Ok(())
        }
        Act::Set { place, value } => {
            check_set(shapes, object, *place, *value)?;
            Ok(())
        }
        Act::Remove(place) | Act::Get(place) => check_place(shapes, object, *place),
        Act::Reduce(monoid) => {
            check_reduce(shapes, object, *monoid)?;
            Ok(())
        }
    }
}

/// Refuses one more object where there are the most.
fn check_room<S: Shapes>(shapes: &S) -> Result<(), Status>
    ensures { Decides (if nat_le MOST_OBJECTS (S.count shapes.now) then Some Status.NotImplemented else None) result }
{
    if shapes.live() >= MOST_OBJECTS {
        return Err(Status::NotImplemented);
    }
    Ok(())
}

/// The checks of a creation (`GrB_Matrix_new`, `GrB_Vector_new`), whose number is never taken.
#[tactic(auto, unfolding(model::specs::Fault::early_fault))]
pub fn check_create<S: Shapes>(shapes: &S, domain: Domain, shape: Shape) -> Result<(), Status>
    ensures { Decides (early_fault (S.count shapes.now) (Call.Create false domain shape)) result }
{
    // A domain has no fault; it is here for the contract alone.
    let _ = domain;
    check_room(shapes)?;
    if !shape.is_allowed() {
        return Err(Status::InvalidValue);
    }
    Ok(())
}

/// The checks of a copy (`GrB_Matrix_dup`, `GrB_Vector_dup`), whose number is never taken.
#[tactic(auto, unfolding(model::specs::Fault::early_fault))]
pub fn check_dup<S: Shapes>(shapes: &S, object: Obj) -> Result<(), Status>
    ensures { Decides (early_fault (S.count shapes.now) (Call.Dup false (S.known shapes.now object))) result }
{
    if Signatures(shapes).find(object).is_none() {
        return Err(Status::UninitializedObject);
    }
    check_room(shapes)
}

/// The checks of another shape (`GrB_Matrix_resize`, `GrB_Vector_resize`).
#[tactic(auto, unfolding(model::specs::Fault::early_fault))]
pub fn check_resize<S: Shapes>(shapes: &S, object: Obj, to: Shape) -> Result<(), Status>
    ensures { Decides (early_fault (S.count shapes.now) (Call.On (S.known shapes.now object) (Act.Resize to))) result }
{
    let Some(Signature { shape, .. }) = Signatures(shapes).find(object) else {
        return Err(Status::UninitializedObject);
    };
    if !to.is_like(shape) {
        return Err(Status::WrongKind);
    }
    if !to.is_allowed() {
        return Err(Status::InvalidValue);
    }
    Ok(())
}

/// The checks of a build (`GrB_Matrix_build`, `GrB_Vector_build`), but for that of the entries that are
/// there, and the operator that combines duplicates.
#[tactic(auto, unfolding(model::specs::Fault::early_fault))]
pub fn check_build<S: Shapes>(
    shapes: &S,
    object: Obj,
    dup: Option<OpName>,
    tuples: &TupleList,
) -> Result<Option<BinaryOp>, Status>
    ensures fault { Decides (early_fault (S.count shapes.now)
        (Call.On (S.known shapes.now object) (Act.Build dup tuples.now))) result }
    ensures op { IfOk result (λ op. option_map op_named op ≡ dup) }
{
    let Some(Signature { shape, domain }) = Signatures(shapes).find(object) else {
        return Err(Status::UninitializedObject);
    };
    if !tuples.are_of_kind(shape) {
        return Err(Status::WrongKind);
    }
    if !accumulator_serves(domain, dup) {
        return Err(Status::NotImplemented);
    }
    if !tuples.are_inside(shape) {
        return Err(Status::IndexOutOfBounds);
    }
    if !tuples.are_values_of(domain) || (dup.is_none() && !tuples.are_single()) {
        return Err(Status::InvalidValue);
    }
    Ok(resolved(dup))
}

/// The operator of a name, which is offered.
fn resolved(name: Option<OpName>) -> Option<BinaryOp>
    requires { option_map_or (λ op. offers op.kind op.domain) name true ≡ true }
    ensures { option_map op_named result ≡ name }
{
    match name?.resolve() {
        Some(op) => Some(op),
        None => unreachable!(),
    }
}

/// The checks of an entry that is set (`GrB_Matrix_setElement`, `GrB_Vector_setElement`), and the word of its value.
#[tactic(auto, unfolding(model::specs::Fault::early_fault))]
pub fn check_set<S: Shapes>(
    shapes: &S,
    object: Obj,
    place: Place,
    value: i128,
) -> Result<u64, Status>
    ensures fault { Decides (early_fault (S.count shapes.now)
        (Call.On (S.known shapes.now object) (Act.Set place value))) result }
    ensures word { IfOk result (λ word.
        option_map (λ o. word_of o.domain value) (S.known shapes.now object) ≡ Some word) }
{
    let Some(Signature { domain, shape }) = Signatures(shapes).find(object) else {
        return Err(Status::UninitializedObject);
    };
    if !place.is_of_kind(shape) {
        return Err(Status::WrongKind);
    }
    if !place.is_inside(shape) {
        return Err(Status::InvalidIndex);
    }
    domain.word_of(value).ok_or(Status::InvalidValue)
}

/// The checks of a place, at which an entry is removed or asked for, but for that of the entry.
#[tactic(auto, unfolding(model::specs::Fault::early_fault))]
pub fn check_place<S: Shapes>(shapes: &S, object: Obj, place: Place) -> Result<(), Status>
    ensures remove { Decides (early_fault (S.count shapes.now)
        (Call.On (S.known shapes.now object) (Act.Remove place))) result }
    ensures get { Decides (early_fault (S.count shapes.now)
        (Call.On (S.known shapes.now object) (Act.Get place))) result }
{
    let Some(Signature { shape, .. }) = Signatures(shapes).find(object) else {
        return Err(Status::UninitializedObject);
    };
    if !place.is_of_kind(shape) {
        return Err(Status::WrongKind);
    }
    if !place.is_inside(shape) {
        return Err(Status::InvalidIndex);
    }
    Ok(())
}

/// The check of a call that asks for no more than that its object is there.
#[tactic(auto, unfolding(model::specs::Fault::early_fault))]
pub fn check_there<S: Shapes>(shapes: &S, object: Obj) -> Result<(), Status>
    ensures free { Decides (early_fault (S.count shapes.now) (Call.On (S.known shapes.now object) Act.Free)) result }
    ensures clear { Decides (early_fault (S.count shapes.now) (Call.On (S.known shapes.now object) Act.Clear)) result }
    ensures nvals { Decides (early_fault (S.count shapes.now) (Call.On (S.known shapes.now object) Act.Nvals)) result }
    ensures print { Decides (early_fault (S.count shapes.now) (Call.On (S.known shapes.now object) Act.Print)) result }
{
    match Signatures(shapes).find(object) {
        Some(_) => Ok(()),
        None => Err(Status::UninitializedObject),
    }
}

/// The check of a wait (`GrB_Matrix_wait`, `GrB_Vector_wait`).
#[tactic(auto, unfolding(model::specs::Fault::early_fault))]
pub fn check_wait<S: Shapes>(shapes: &S, object: Obj, mode: WaitMode) -> Result<(), Status>
    ensures { Decides (early_fault (S.count shapes.now)
        (Call.On (S.known shapes.now object) (Act.Wait mode))) result }
{
    // A mode has no fault; it is here for the contract alone.
    let _ = mode;
    match Signatures(shapes).find(object) {
        Some(_) => Ok(()),
        None => Err(Status::UninitializedObject),
    }
}

/// The checks of the sum of all values (`GrB_reduce`), and the monoid.
#[tactic(auto, unfolding(model::specs::Fault::early_fault))]
pub fn check_reduce<S: Shapes>(shapes: &S, object: Obj, name: MonoidName) -> Result<Monoid, Status>
    ensures fault { Decides (early_fault (S.count shapes.now)
        (Call.On (S.known shapes.now object) (Act.Reduce name))) result }
    ensures monoid { IfOk result (λ monoid. monoid_named monoid ≡ name) }
{
    let Some(Signature { domain, .. }) = Signatures(shapes).find(object) else {
        return Err(Status::UninitializedObject);
    };
    let monoid = name.resolve().ok_or(Status::NotImplemented)?;
    if !compatible(domain, name.domain) {
        return Err(Status::DomainMismatch);
    }
    Ok(monoid)
}

/// The checks of an operation on objects by number.
#[tactic(auto, using(crate::proofs::Founds::founds))]
fn check_known<S: Shapes>(
    shapes: &S,
    out: &Out<Obj>,
    operation: &Operation<Obj>,
) -> Result<(), Status>
    ensures { Decides (early_fault (S.count shapes.now)
        (Call.Operate (renamed_out (S.known shapes.now) out.now)
        (renamed_operation (S.known shapes.now) operation.now))) result }
{
    let signatures = Signatures(shapes);
    let Some(known_out) = out.found(&signatures) else {
        return Err(Status::UninitializedObject);
    };
    let Some(known) = operation.lent(&signatures) else {
        return Err(Status::UninitializedObject);
    };
    check_operation(&known_out, known)
}
