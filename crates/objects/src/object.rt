//! One object.
ghost use Rattle.std.specs.Prelude.{◌≡◌, ◌≢◌, [], IfOk, IfSome, OnErr, OnOk, false, is_some, not, true};
ghost use Rattle.calls.specs.Stores.{IsStoreOf, object_with};
ghost use Rattle.model.specs.Marks.{MayBecome, Open, is_told};
ghost use Rattle.model.specs.Object.{IsObject, cols_of, rows_of};
ghost use Rattle.objects.specs.Kept.{Finishes, is_finished, is_ready, mark_in, object_in};
ghost use Rattle.objects.specs.Values.{HasTicket, IsMade, IsValueOf, map_with, mark_with};
ghost use Rattle.objects.specs.Waiting.{IsEditOf, edited_object};
ghost use Rattle.patch.specs.Edits.{IsInside};
ghost use Rattle.store.specs.Stored.{content_of};

use crate::kept::{Kept, Refusal};
use crate::value::{self, Value};
use calls::{Patch, Recipe, Roles, Signature};
use model::NoMemory;
use patch::{Edit, apply_edits};
use runner::Runner;
use std::alloc::Global;
use std::mem;
use std::sync::Arc;
use store::Store;

// So many edits wait at the most.
const MOST_EDITS: usize = 65_536;

/// An object of which this is known, with a value, on which no edits wait.
pub(crate) fn new<R: Runner>(alloc: Global, of: Signature, value: Value<R::Ticket>) -> Kept<R>
    requires { IsValueOf R.object_of of value }
    ensures object { object_in result ≡ object_with of (map_with R.object_of [] value) }
    ensures mark { mark_in result ≡ mark_with [] value }
{
    Kept {
        of,
        value,
        edits: Vec::new(alloc),
    }
}

/// Whether a call was told that an object failed.
pub(crate) fn is_told<R: Runner>(object: &Kept<R>) -> bool
    ensures { result ≡ is_told (mark_in object.now) }
{
    matches!(&object.value, Value::Failed)
}

/// Has an edit inside an object done, behind those that wait. Refused, it stays the object that it was.
pub(crate) fn edit<R: Runner>(
    alloc: Global,
    runner: &mut R,
    object: &mut Kept<R>,
    edit: Edit,
) -> Result<(), NoMemory>
    requires untold { is_told (mark_in object.old) ≡ false }
    requires inside { IsInside (rows_of object.old.of.shape) (cols_of object.old.of.shape) edit }
    requires word { IsEditOf object.old.of.domain edit }
    ensures edited { OnOk result (object_in object.new
        ≡ edited_object (object_in object.old) edit) }
    ensures open { OnOk result (mark_in object.new ≡ Open) }
    ensures same { OnErr result (object_in object.new ≡ object_in object.old) }
    ensures mark { OnErr result (mark_in object.new ≡ mark_in object.old) }
{
    make_room(alloc, runner, object)?;
    object.edits.push(edit)?;
    Ok(())
}

/// Hands the edits on where as many wait as may.
fn make_room<R: Runner>(alloc: Global, runner: &mut R, object: &mut Kept<R>) -> Result<(), NoMemory>
    ensures object { object_in object.new ≡ object_in object.old }
    ensures mark { mark_in object.new ≡ mark_in object.old }
{
    if object.edits.len() >= MOST_EDITS {
        give(alloc, runner, object)?;
    }
    Ok(())
}

/// Has a ticket stand for an object, and says whether one does: none does where it was told to have failed. Refused,
/// it stays the object that it was.
pub(crate) fn give<R: Runner>(
    alloc: Global,
    runner: &mut R,
    object: &mut Kept<R>,
) -> Result<bool, NoMemory>
    ensures object { object_in object.new ≡ object_in object.old }
    ensures mark { mark_in object.new ≡ mark_in object.old }
    ensures given { IfOk result (λ given. given ≡ not (is_told (mark_in object.old))) }
    ensures ready { IfOk result (λ given. given ≡ true → is_ready object.new ≡ true) }
    ensures still { is_ready object.old ≡ true → is_ready object.new ≡ true }
{
    if is_told(object) {
        return Ok(false);
    }
    value::make(alloc, runner, object.of, &mut object.value)?;
    value::give_ticket(alloc, runner, object.of, &mut object.value)?;
    if object.edits.is_empty() {
        return Ok(true);
    }
    submit_edits(alloc, runner, object)?;
    Ok(true)
}

/// Submits the edits that wait on an object with a ticket.
fn submit_edits<R: Runner>(
    alloc: Global,
    runner: &mut R,
    object: &mut Kept<R>,
) -> Result<(), NoMemory>
    requires ticket { HasTicket object.old.value }
    requires untold { is_told (mark_in object.old) ≡ false }
    requires waits { object.old.edits.items ≢ [] }
    ensures object { object_in object.new ≡ object_in object.old }
    ensures mark { mark_in object.new ≡ mark_in object.old }
    ensures ready { OnOk result (is_ready object.new ≡ true) }
{
    let (Value::Both(_, ticket) | Value::Open(ticket)) = &object.value else {
        return Ok(());
    };
    let edits = Box::new(alloc, patch_of(alloc, object)?)?;
    let edited = runner.submit(Recipe::Patch(edits), Roles::of_old(ticket))?;
    let old = mem::replace(&mut object.value, Value::Open(edited));
    object.edits.clear();
    value::release(runner, old);
    Ok(())
}

/// The edits that wait on an object, once more.
fn patch_of<R: Runner>(alloc: Global, object: &Kept<R>) -> Result<Patch, NoMemory>
    ensures of { IfOk result (λ patch. patch.of ≡ object.now.of) }
    ensures edits { IfOk result (λ patch. patch.edits.items ≡ object.now.edits.items) }
{
    let mut edits = Vec::with_capacity(alloc, object.edits.len())?;
    edits.extend_from_slice(&object.edits)?;
    Ok(Patch {
        of: object.of,
        edits,
    })
}

/// Has the value of an object come to be there, with its store.
pub(crate) fn finish<R: Runner>(
    alloc: Global,
    runner: &mut R,
    object: &mut Kept<R>,
) -> Result<(), Refusal>
    ensures ends { Finishes object.old object.new result }
    ensures unfinished { OnErr result (is_finished object.old ≡ false) }
{
    if is_told(object) {
        return Err(Refusal::Failed);
    }
    value::make(alloc, runner, object.of, &mut object.value)?;
    do_edits(alloc, runner, object)?;
    value::fetch(runner, object.of, &mut object.value)?;
    Ok(())
}

/// Does the edits that wait on an object, in place where that can be, or later.
fn do_edits<R: Runner>(alloc: Global, runner: &mut R, object: &mut Kept<R>) -> Result<(), NoMemory>
    requires untold { is_told (mark_in object.old) ≡ false }
    requires made { IsMade object.old.value }
    ensures object { object_in object.new ≡ object_in object.old }
    ensures mark { MayBecome (mark_in object.old) (mark_in object.new) }
    ensures done { OnOk result (object.new.edits.items ≡ []) }
    ensures waited { OnErr result (object.old.edits.items ≢ []) }
    ensures made { OnOk result (IsMade object.new.value) }
{
    if object.edits.is_empty() || edit_in_place(alloc, runner, object)? {
        return Ok(());
    }
    give(alloc, runner, object)?;
    Ok(())
}

/// Does the edits that wait on an object in place, where its store is there and nobody shares it. Says whether it
/// could.
fn edit_in_place<R: Runner>(
    alloc: Global,
    runner: &mut R,
    object: &mut Kept<R>,
) -> Result<bool, NoMemory>
    requires waits { object.old.edits.items ≢ [] }
    requires made { IsMade object.old.value }
    ensures object { object_in object.new ≡ object_in object.old }
    ensures mark { MayBecome (mark_in object.old) (mark_in object.new) }
    ensures done { IfOk result (λ did. did ≡ true → object.new.edits.items ≡ []) }
    ensures made { IsMade object.new.value }
{
    value::take_ticket(runner, object.of, &mut object.value);
    let Value::Here(shared) = &mut object.value else {
        return Ok(false);
    };
    let Some(store) = Arc::get_mut(shared) else {
        return Ok(false);
    };
    apply_edits(alloc, store, &mut object.edits)?;
    Ok(true)
}

/// Gives the ticket of an object back whose store is there, so that what reads it later rests on the store alone.
pub(crate) fn take_ticket<R: Runner>(runner: &mut R, object: &mut Kept<R>)
    ensures object { object_in object.new ≡ object_in object.old }
    ensures mark { mark_in object.new ≡ mark_in object.old }
{
    value::take_ticket(runner, object.of, &mut object.value);
}

/// Has the value of an object come to be there, where it can, and gives its ticket back. Edits wait on.
pub(crate) fn settle<R: Runner>(runner: &mut R, object: &mut Kept<R>)
    ensures object { object_in object.new ≡ object_in object.old }
    ensures mark { MayBecome (mark_in object.old) (mark_in object.new) }
{
    value::settle(runner, object.of, &mut object.value);
}

/// Puts another value into an object, of which this is known then, and on which no edits wait.
pub(crate) fn replace<R: Runner>(
    alloc: Global,
    runner: &mut R,
    object: &mut Kept<R>,
    of: Signature,
    value: Value<R::Ticket>,
)
    requires value { IsValueOf R.object_of of value }
    ensures object { object_in object.new ≡ object_with of (map_with R.object_of [] value) }
    ensures mark { mark_in object.new ≡ mark_with [] value }
{
    let old = mem::replace(object, new(alloc, of, value));
    value::release(runner, old.value);
}

/// The store of an object whose value is there.
pub(crate) fn store<R: Runner>(object: &Kept<R>) -> &Store
    requires finished { is_finished object.now ≡ true }
    ensures object { object_in object.now ≡ object_with object.now.of (content_of result.now) }
    ensures store { IsStoreOf object.now.of result.now }
{
    match &object.value {
        Value::Here(store) => store,
        Value::Both(store, _) => store,
        _ => unreachable!(),
    }
}

/// The ticket that stands for an object, where one does.
pub(crate) fn ready_ticket<R: Runner>(object: &Kept<R>) -> Option<&R::Ticket>
    ensures ready { is_some result ≡ is_ready object.now }
    ensures object { IfSome result (λ ticket. R.object_of ticket.now ≡ object_in object.now) }
    ensures is_object { IfSome result (λ ticket. IsObject (R.object_of ticket.now)) }
    ensures untold { is_some result ≡ true → is_told (mark_in object.now) ≡ false }
{
    if !object.edits.is_empty() {
        return None;
    }
    match &object.value {
        Value::Both(_, ticket) | Value::Open(ticket) => Some(ticket),
        _ => None,
    }
}
