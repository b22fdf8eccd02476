//! Objects by their numbers.
ghost use Rattle.std.specs.Prelude.{◌≡◌, ◌+◌, ◌≤◌, [], IfOk, IfSome, None, OnErr, OnOk, false, if◌then◌else◌, not};
ghost use Rattle.std.specs.Prelude.{is_some, true};
ghost use Rattle.std.specs.Option.{option_map};
ghost use Rattle.calls.specs.declared.obj.Obj.{Obj as AnyObj};
ghost use Rattle.calls.specs.Stores.{IsStoreOf, object_with};
ghost use Rattle.model.specs.Marks.{Open, Settles, Unmarked, first_state, told, with_mark};
ghost use Rattle.model.specs.Object.{IsObject, cols_of, rows_of, signature_of};
ghost use Rattle.model.specs.Run.{object_at, with_object, without_object};
ghost use Rattle.objects.specs.Values.{IsValueOf, map_with, mark_with};
ghost use Rattle.objects.specs.Tables.{Reads, is_finished_at, is_ready_at, same_object, state_in, with_kept};
ghost use Rattle.objects.specs.Waiting.{IsEditOf, edited_object};
ghost use Rattle.patch.specs.Edits.{IsInside};
ghost use Rattle.store.specs.Stored.{content_of};

use crate::kept::{Kept, Refusal};
use crate::object;
use crate::value::{self, Value};
use calls::{Obj, Signature};
use model::NoMemory;
use patch::Edit;
use runner::Runner;
use std::alloc::Global;
use std::collections::BTreeMap;
use store::Store;

/// Objects by their numbers.
#[derive(Drop)]
pub struct Table<R: Runner> {
    pub by_number: BTreeMap<u64, Kept<R>>,
}

impl<R: Runner> Table<R> {
    /// No objects. It takes no memory.
    pub fn new(alloc: Global) -> Table<R>
        ensures { state_in result ≡ first_state }
    {
        Table {
            by_number: BTreeMap::new(alloc),
        }
    }

    /// How many objects there are.
    pub fn len(&self) -> u64
        ensures { result ≡ (state_in self.now).environment.count }
    {
        self.by_number.len() as u64
    }
}

/// What is known of an object.
pub fn signature<R: Runner>(table: &Table<R>, object: Obj) -> Option<Signature>
    ensures { result ≡ option_map signature_of ((state_in table.now).environment.find_object object) }
{
    let kept = table.by_number.get(&object.0)?;
    Some(kept.of)
}

/// Whether a call was told that an object failed.
pub fn is_told<R: Runner>(table: &Table<R>, object: Obj) -> bool
    ensures { result ≡ told (state_in table.now) object }
{
    match table.by_number.get(&object.0) {
        Some(kept) => object::is_told(kept),
        None => false,
    }
}

/// Has a ticket stand for an object that is there, and says whether one does: none does where it was told to have
/// failed. Refused, all objects stay.
pub fn give<R: Runner>(
    alloc: Global,
    runner: &mut R,
    table: &mut Table<R>,
    object: Obj,
) -> Result<bool, NoMemory>
    requires there { is_some ((state_in table.old).environment.find_object object) ≡ true }
    ensures state { state_in table.new ≡ state_in table.old }
    ensures given { IfOk result (λ given. given ≡ not (told (state_in table.old) object)) }
    ensures ready { IfOk result (λ given. given ≡ true → is_ready_at table.new object ≡ true) }
    ensures still { (other : AnyObj) → is_ready_at table.old other ≡ true → is_ready_at table.new other ≡ true }
{
    match table.by_number.get_mut(&object.0) {
        Some(kept) => object::give(alloc, runner, kept),
        None => unreachable!(),
    }
}

/// Has the value of an object come to be there, which is there.
pub fn finish<R: Runner>(
    alloc: Global,
    runner: &mut R,
    table: &mut Table<R>,
    object: Obj,
) -> Result<(), Refusal>
    requires there { is_some ((state_in table.old).environment.find_object object) ≡ true }
    ensures ends { Reads (state_in table.old) object (state_in table.new) result }
    ensures finished { OnOk result (is_finished_at table.new object ≡ true) }
    ensures unfinished { OnErr result (is_finished_at table.old object ≡ false) }
{
    match table.by_number.get_mut(&object.0) {
        Some(kept) => object::finish(alloc, runner, kept),
        None => unreachable!(),
    }
}

/// Gives the ticket of an object back that is there and whose store is, so that what reads it later rests on the store
/// alone.
pub fn take_ticket<R: Runner>(runner: &mut R, table: &mut Table<R>, object: Obj)
    requires there { is_some ((state_in table.old).environment.find_object object) ≡ true }
    ensures state { state_in table.new ≡ state_in table.old }
{
    match table.by_number.get_mut(&object.0) {
        Some(kept) => object::take_ticket(runner, kept),
        None => unreachable!(),
    }
}

/// Has the values of all objects come to be there, where they can, and gives their tickets back. An object whose value
/// doesn't come keeps its ticket, and who asks for it is told then.
pub fn settle<R: Runner>(runner: &mut R, table: &mut Table<R>)
    ensures { Settles (state_in table.old) (state_in table.new) }
{
    let mut from = 0;
    while let Some(number) = first_from(table, from) {
        settle_one(runner, table, Obj(number));
        if number == u64::MAX {
            return;
        }
        from = number + 1;
    }
}

/// The least number from one on that an object has.
fn first_from<R: Runner>(table: &Table<R>, from: u64) -> Option<u64>
    ensures { IfSome result (λ number. from ≤ number) }
{
    let (number, _) = table.by_number.range(from..).next()?;
    Some(*number)
}

/// Has the value of an object come to be there, if there is the object and it can.
fn settle_one<R: Runner>(runner: &mut R, table: &mut Table<R>, object: Obj)
    ensures { Settles (state_in table.old) (state_in table.new) }
{
    if let Some(kept) = table.by_number.get_mut(&object.0) {
        object::settle(runner, kept);
    }
}

/// Puts a value into an object that is there, of which this is known then.
pub fn put<R: Runner>(
    alloc: Global,
    runner: &mut R,
    table: &mut Table<R>,
    object: Obj,
    of: Signature,
    value: Value<R::Ticket>,
)
    requires there { is_some ((state_in table.old).environment.find_object object) ≡ true }
    requires value { IsValueOf R.object_of of value }
    ensures state { state_in table.new ≡ with_kept (state_in table.old) object
        (object_with of (map_with R.object_of [] value)) (mark_with [] value) }
{
    match table.by_number.get_mut(&object.0) {
        Some(kept) => object::replace(alloc, runner, kept, of, value),
        None => unreachable!(),
    }
}

/// Has an edit inside an object done that is there and wasn't told to have failed. Refused, all objects stay.
pub fn edit<R: Runner>(
    alloc: Global,
    runner: &mut R,
    table: &mut Table<R>,
    object: Obj,
    edit: Edit,
) -> Result<(), NoMemory>
    requires there { is_some ((state_in table.old).environment.find_object object) ≡ true }
    requires untold { told (state_in table.old) object ≡ false }
    requires inside { IsInside (rows_of (object_at (state_in table.old).environment object).shape)
        (cols_of (object_at (state_in table.old).environment object).shape) edit }
    requires word { IsEditOf (object_at (state_in table.old).environment object).domain edit }
    ensures edited { OnOk result (state_in table.new ≡ with_kept (state_in table.old) object
        (edited_object (object_at (state_in table.old).environment object) edit) Open) }
    ensures refused { OnErr result (state_in table.new ≡ state_in table.old) }
{
    match table.by_number.get_mut(&object.0) {
        Some(kept) => object::edit(alloc, runner, kept, edit),
        None => unreachable!(),
    }
}

/// Puts an object under a new number.
pub fn insert<R: Runner>(
    alloc: Global,
    runner: &mut R,
    table: &mut Table<R>,
    object: Obj,
    of: Signature,
    value: Value<R::Ticket>,
) -> Result<(), NoMemory>
    requires new { (state_in table.old).environment.find_object object ≡ None }
    requires value { IsValueOf R.object_of of value }
    ensures made { OnOk result (state_in table.new ≡ with_mark same_object (state_in table.old)
        (with_object same_object (state_in table.old).environment object
        (object_with of (map_with R.object_of [] value)) ((state_in table.old).environment.count + 1))
        object (mark_with [] value)) }
    ensures refused { OnErr result (state_in table.new ≡ state_in table.old) }
{
    let kept = object::new(alloc, of, value);
    table.by_number.insert(object.0, kept)?;
    Ok(())
}

/// Takes an object out, and says whether it was there.
pub fn remove<R: Runner>(runner: &mut R, table: &mut Table<R>, object: Obj) -> bool
    ensures there { result ≡ is_some ((state_in table.old).environment.find_object object) }
    ensures left { state_in table.new ≡ (if result
        then with_mark same_object (state_in table.old)
        (without_object same_object (state_in table.old).environment object) object Unmarked
        else state_in table.old) }
{
    match table.by_number.remove(&object.0) {
        Some(kept) => {
            value::release(runner, kept.value);
            true
        }
        None => false,
    }
}

/// The store of an object that is finished.
pub fn store<R: Runner>(table: &Table<R>, object: Obj) -> &Store
    requires finished { is_finished_at table.now object ≡ true }
    ensures object { object_at (state_in table.now).environment object
        ≡ object_with (signature_of (object_at (state_in table.now).environment object)) (content_of result.now) }
    ensures store { IsStoreOf (signature_of (object_at (state_in table.now).environment object)) result.now }
{
    match table.by_number.get(&object.0) {
        Some(kept) => object::store(kept),
        None => unreachable!(),
    }
}

/// The ticket that stands for an object, where one does.
pub fn ready_ticket<R: Runner>(table: &Table<R>, object: Obj) -> Option<&R::Ticket>
    ensures ready { is_some result ≡ is_ready_at table.now object }
    ensures object { IfSome result (λ ticket.
        R.object_of ticket.now ≡ object_at (state_in table.now).environment object) }
    ensures is_object { IfSome result (λ ticket. IsObject (R.object_of ticket.now)) }
    ensures untold { is_some result ≡ true → told (state_in table.now) object ≡ false }
{
    let kept = table.by_number.get(&object.0)?;
    object::ready_ticket(kept)
}

/// The ticket that stands for an object.
pub fn ticket<R: Runner>(table: &Table<R>, object: Obj) -> &R::Ticket
    requires ready { is_ready_at table.now object ≡ true }
    ensures object { R.object_of result.now ≡ object_at (state_in table.now).environment object }
    ensures is_object { IsObject (R.object_of result.now) }
{
    match ready_ticket(table, object) {
        Some(ticket) => ticket,
        None => unreachable!(),
    }
}
