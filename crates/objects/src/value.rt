//! What is there of an object's value.
ghost use Rattle.std.specs.Prelude.{◌≡◌, [], List, OnErr, OnOk, false, true};
ghost use Rattle.model.specs.Marks.{MayBecome, Told, Unmarked, is_told, is_unmarked};
ghost use Rattle.model.specs.Object.{no_content};
ghost use Rattle.objects.specs.Values.{HasTicket, IsMade, IsValueOf, is_finished_with, is_ready_with, map_with};
ghost use Rattle.objects.specs.Values.{mark_with};
ghost use Rattle.patch.specs.declared.edits.Edit.{Edit as AnyEdit};

use calls::{Given, Recipe, Roles, Signature};
use model::NoMemory;
use runner::{Failed, Runner};
use std::alloc::Global;
use std::mem;
use std::sync::Arc;
use store::Store;

/// What is there of an object's value, where the tickets of a runner stand for values that may not be there yet.
#[derive(Drop)]
pub enum Value<T> {
    /// No entries: a store is made when it is asked for.
    New,
    /// Its store.
    Here(Arc<Store>),
    /// Its store, and a ticket that stands for it.
    Both(Arc<Store>, T),
    /// A ticket alone: nobody asked for its store yet.
    Open(T),
    /// It was asked for, and there was no memory.
    Failed,
}

/// Gives a value's ticket back, once its own share of the store is gone: a runner may use the memory of a store whose
/// last share it drops.
pub(crate) fn release<R: Runner>(runner: &mut R, value: Value<R::Ticket>) {
    match value {
        Value::Both(store, ticket) => {
            drop(store);
            runner.let_go(ticket);
        }
        Value::Open(ticket) => runner.let_go(ticket),
        Value::New | Value::Here(_) | Value::Failed => {}
    }
}

/// Gives the ticket of a value back whose store is there.
pub(crate) fn take_ticket<R: Runner>(runner: &mut R, of: Signature, value: &mut Value<R::Ticket>)
    requires sound { IsValueOf R.object_of of value.old }
    ensures sound { IsValueOf R.object_of of value.new }
    ensures map { (edits : List AnyEdit) → map_with R.object_of edits value.new ≡ map_with R.object_of edits value.old }
    ensures mark { (edits : List AnyEdit) → mark_with edits value.new ≡ mark_with edits value.old }
    ensures made { IsMade value.old → IsMade value.new }
{
    match mem::replace(value, Value::Failed) {
        Value::Both(store, ticket) => {
            runner.let_go(ticket);
            *value = Value::Here(store);
        }
        other => *value = other,
    }
}

/// Has the store come to be there for which a ticket stands, where it can, and gives the ticket back. A value whose
/// store doesn't come keeps its ticket, since nobody asked for it.
pub(crate) fn settle<R: Runner>(runner: &mut R, of: Signature, value: &mut Value<R::Ticket>)
    requires sound { IsValueOf R.object_of of value.old }
    ensures sound { IsValueOf R.object_of of value.new }
    ensures map { (edits : List AnyEdit) → map_with R.object_of edits value.new ≡ map_with R.object_of edits value.old }
    ensures mark { (edits : List AnyEdit) → MayBecome (mark_with edits value.old) (mark_with edits value.new) }
{
    match mem::replace(value, Value::Failed) {
        Value::Both(store, ticket) => {
            runner.let_go(ticket);
            *value = Value::Here(store);
        }
        Value::Open(ticket) => match runner.fetch(&ticket) {
            Ok(store) => {
                runner.let_go(ticket);
                *value = Value::Here(store);
            }
            Err(_) => *value = Value::Open(ticket),
        },
        other => *value = other,
    }
}

/// Makes the store of a value that has no entries. Refused, it stays as it was.
pub(crate) fn make<R: Runner>(
    alloc: Global,
    _runner: &R,
    of: Signature,
    value: &mut Value<R::Ticket>,
) -> Result<(), NoMemory>
    requires sound { IsValueOf R.object_of of value.old }
    ensures sound { IsValueOf R.object_of of value.new }
    ensures map { (edits : List AnyEdit) → map_with R.object_of edits value.new ≡ map_with R.object_of edits value.old }
    ensures mark { (edits : List AnyEdit) → mark_with edits value.new ≡ mark_with edits value.old }
    ensures made { OnOk result (IsMade value.new) }
    ensures left { OnErr result (value.new ≡ value.old) }
    ensures unmade { OnErr result (IsMade value.old → ⊥) }
    ensures still { (edits : List AnyEdit) → is_ready_with edits value.old ≡ true
        → is_ready_with edits value.new ≡ true }
{
    if let Value::New = value {
        let store = Store::new(alloc, of.shape.rows(), of.shape.cols());
        *value = Value::Here(Arc::new(alloc, store)?);
    }
    Ok(())
}

/// Gives a ticket to a value that has its store alone. Refused, it stays as it was.
pub(crate) fn give_ticket<R: Runner>(
    alloc: Global,
    runner: &mut R,
    of: Signature,
    value: &mut Value<R::Ticket>,
) -> Result<(), NoMemory>
    requires sound { IsValueOf R.object_of of value.old }
    requires made { IsMade value.old }
    ensures sound { IsValueOf R.object_of of value.new }
    ensures map { (edits : List AnyEdit) → map_with R.object_of edits value.new ≡ map_with R.object_of edits value.old }
    ensures mark { (edits : List AnyEdit) → mark_with edits value.new ≡ mark_with edits value.old }
    ensures ticket { OnOk result (HasTicket value.new) }
    ensures left { OnErr result (value.new ≡ value.old) }
{
    let Value::Here(store) = &*value else {
        return Ok(());
    };
    let shared = Arc::try_clone(store).map_err(|_| NoMemory)?;
    let store = Arc::try_clone(store).map_err(|_| NoMemory)?;
    let given = Box::new(alloc, Given { of, store: shared })?;
    let ticket = runner.submit(Recipe::Given(given), Roles::none())?;
    *value = Value::Both(store, ticket);
    Ok(())
}

/// Has the store fetched for which a ticket stands. Where none comes the value failed.
pub(crate) fn fetch<R: Runner>(
    runner: &mut R,
    of: Signature,
    value: &mut Value<R::Ticket>,
) -> Result<(), Failed>
    requires sound { IsValueOf R.object_of of value.old }
    requires made { IsMade value.old }
    ensures sound { IsValueOf R.object_of of value.new }
    ensures map { OnOk result ((edits : List AnyEdit)
        → map_with R.object_of edits value.new ≡ map_with R.object_of edits value.old) }
    ensures mark { OnOk result (is_told (mark_with [] value.old) ≡ false → mark_with [] value.new ≡ Unmarked) }
    ensures finished { OnOk result (is_told (mark_with [] value.old) ≡ false
        → is_finished_with [] value.new ≡ true) }
    ensures open { OnErr result (is_unmarked (mark_with [] value.old) ≡ false) }
    ensures failed { OnErr result ((edits : List AnyEdit) → (map_with R.object_of edits value.new ≡ no_content)
        × (mark_with edits value.new ≡ Told)) }
{
    match mem::replace(value, Value::Failed) {
        Value::Open(ticket) => match runner.fetch(&ticket) {
            Ok(store) => {
                *value = Value::Both(store, ticket);
                Ok(())
            }
            Err(failed) => {
                runner.let_go(ticket);
                Err(failed)
            }
        },
        other => {
            *value = other;
            Ok(())
        }
    }
}
