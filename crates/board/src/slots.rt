//! Slots, whose tasks are whole.
ghost use Rattle.std.specs.Prelude.{◌≡◌, map};
ghost use Rattle.std.specs.VecDeque.{deque_capacity};
ghost use Rattle.stages.specs.Slots.{task_of};
ghost use Rattle.board.specs.Sound.{IsSound};

use crate::admitting::{first_stage, make_room, may_wait, offer, read_if};
use crate::blocks::has_rows;
use crate::falling::{end, spread};
use crate::inputs::are_there;
use crate::look::{Look, Refusal};
use crate::looking::{is_gone, look_at};
use crate::piece::{Piece, Stores, TaskRecipe};
use calls::{Recipe, Roles};
use kernel::Block;
use model::NoMemory;
use smallvec::SmallVec;
use stages::{
    Inputs, Readers, Slot, Stage, again, are_made, can_fail, claim, hold_less, hold_more, is_done,
    is_joining, is_running, is_unasked, is_used, put, read_less, release, release_each, remove_at,
    share, take_recipe, take_store, wait_for, wake, withdraw,
};
use std::alloc::Global;
use std::collections::VecDeque;
use std::sync::Arc;
use store::Store;

/// Numbered slots, each with a task on lower ones, and what there is of its store.
#[derive(Drop)]
pub(crate) struct Slots<N: Drop> {
    alloc: Global,
    slots: Vec<Slot<N>>,
    stages: Vec<Stage>,
    holds: Vec<u64>,
    reads: Vec<u64>,
    readers: Vec<Readers>,
    ready: VecDeque<u64>,
    ghost sound: { IsSound (map task_of slots.items) stages.items holds.items reads.items
        (map (λ r. r.items) readers.items)
        ready.items (deque_capacity ready) },
}

impl<N: Drop> Slots<N> {
    ghost use Rattle.std.specs.Prelude.{◌≡◌, ◌≢◌, ◌+◌, ◌-◌, ◌<◌, ◌&&◌, [], IfOk, IfSome, None, OnErr};
    ghost use Rattle.std.specs.Prelude.{OnOk, Some, if◌then◌else◌, length, nat_lt, slice_get, slice_index};
    ghost use Rattle.std.specs.Prelude.{ℕ, false, true};
    ghost use Rattle.std.specs.Arc.{arc_value};
    ghost use Rattle.std.specs.Option.{option_copied, option_map};
    ghost use Rattle.board.specs.SlotViews.{slots_view};
    ghost use Rattle.board.specs.Events.{Accepts, empty_view, failed, given_to, issued, may_fail, may_hold};
    ghost use Rattle.board.specs.Events.{is_unasked, may_let_go, placed, taken, with_holds, with_progress};
    ghost use Rattle.board.specs.Fits.{AreThere};
    ghost use Rattle.board.specs.Looks.{seen_in, seen_of, store_in};
    ghost use Rattle.board.specs.Pieces.{IsPieceFor, fits_slot, is_whole};
    ghost use Rattle.stages.specs.Places.{each};
    ghost use Rattle.stages.specs.Progress.{Failed, Joining, Made, Progress as AnyProgress, is_joining, is_running};
    ghost use Rattle.stages.specs.Progress.{is_underway, is_unfinished, is_untaken};
    ghost use Rattle.stages.specs.Tasks.{object_at};
    ghost use Rattle.stages.specs.Views.{offered, reads_in, state_of};
    ghost use Rattle.calls.specs.Roles.{no_roles};
    ghost use Rattle.calls.specs.Recipes.{known_of};
    ghost use Rattle.model.specs.Object.{IsObject, rows_of};
    ghost use Rattle.runner.specs.Tickets.{IsStoreFor};

    /// An empty board. It takes no memory.
    pub fn new(alloc: Global) -> Slots<N>
        ensures { slots_view result ≡ empty_view }
    {
        Slots {
            alloc,
            slots: Vec::new(alloc),
            stages: Vec::new(alloc),
            holds: Vec::new(alloc),
            reads: Vec::new(alloc),
            readers: Vec::new(alloc),
            ready: VecDeque::new(alloc),
        }
    }

    /// The next slot has a task, and one hold; it says which slot that is. It has failed where an input has.
    pub fn issue(&mut self, note: N, recipe: Recipe, inputs: Roles<u64>) -> Result<u64, Refusal>
        ensures number { IfOk result (λ number. number ≡ length (slots_view self.old).tasks) }
        ensures accepted { OnOk result (Accepts (slots_view self.old) recipe inputs) }
        ensures issued { OnOk result (slots_view self.new ≡ issued (slots_view self.old) note recipe inputs) }
        ensures stranger { result ≡ Err Refusal.Stranger → Accepts (slots_view self.old) recipe inputs → ⊥ }
        ensures absent { (Accepts (slots_view self.old) recipe inputs → ⊥) → result ≡ Err Refusal.Stranger }
        ensures once { result ≡ Err Refusal.Twice → ⊥ }
        ensures refused { OnErr result (slots_view self.new ≡ slots_view self.old) }
    {
        if !are_there(&self.slots, &self.stages, &recipe, &inputs) {
            return Err(Refusal::Stranger);
        }
        match self.admit(note, recipe, Inputs::new(&inputs)) {
            Ok(number) => Ok(number),
            Err(NoMemory) => Err(Refusal::NoMemory),
        }
    }

    // The next slot, where its inputs are there.
    fn admit(&mut self, note: N, recipe: Recipe, inputs: Inputs) -> Result<u64, NoMemory>
        requires { AreThere (slots_view self.old).tasks self.old.stages.items recipe inputs }
        ensures number { IfOk result (λ number. number ≡ length (slots_view self.old).tasks) }
        ensures issued { OnOk result (slots_view self.new ≡ issued (slots_view self.old) note recipe inputs) }
        ensures refused { OnErr result (slots_view self.new ≡ slots_view self.old) }
    {
        let number = self.slots.len() as u64;
        let is_ready = are_made(&self.stages, &inputs);
        wait_for(&mut self.readers, &self.stages, number, &inputs, is_ready)?;
        let has_room = make_room(
            &mut self.slots,
            &mut self.stages,
            &mut self.holds,
            &mut self.reads,
            &mut self.readers,
            &mut self.ready,
        );
        if !has_room {
            return Err(NoMemory);
        }
        let waits = may_wait(&self.stages, &inputs, is_ready);
        read_if(&mut self.reads, &inputs, waits);
        self.slots.push_reserved(Slot::new(note, &recipe, inputs));
        self.stages.push_reserved(first_stage(recipe, waits));
        self.holds.push_reserved(1);
        self.reads.push_reserved(0);
        self.readers.push_reserved(SmallVec::new(self.alloc));
        offer(&mut self.ready, number, is_ready);
        Ok(number)
    }

    /// The next slot has a store that is there, and one hold. It is done at once, as if its task had been taken, given
    /// back whole and joined, but for that nothing is copied: the store is shared.
    pub fn issue_given(&mut self, note: N, given: Box<calls::Given>) -> Result<u64, NoMemory>
        ensures number { IfOk result (λ number. number ≡ length (slots_view self.old).tasks) }
        ensures placed { OnOk result (slots_view self.new ≡ placed (slots_view self.old) note given) }
        ensures refused { OnErr result (slots_view self.new ≡ slots_view self.old) }
    {
        let store = again(&given.store)?;
        let number = self.admit(note, Recipe::Given(given), Inputs::none())?;
        self.fill(number, store);
        Ok(number)
    }

    // A slot that can be taken, and reads no other, has its store.
    fn fill(&mut self, number: u64, store: Arc<Store>)
        requires untaken { is_untaken (slice_get (slots_view self.old).progress number) ≡ true }
        requires alone { option_map (λ t. t.inputs) (slice_get (slots_view self.old).tasks number) ≡ Some no_roles }
        requires object { IsObject (object_at (slots_view self.old).tasks number) }
        requires right { IsStoreFor (object_at (slots_view self.old).tasks number) (arc_value store) }
        ensures { slots_view self.new ≡ with_progress (slots_view self.old) number Made }
    {
        withdraw(&mut self.ready, number);
        put(&mut self.stages, number, Stage::Joining);
        let _ = self.whole(number, store);
    }

    /// Empties a board, and keeps the room of its lists.
    pub fn clear(&mut self)
        ensures { slots_view self.new ≡ empty_view }
    {
        self.slots.clear();
        self.stages.clear();
        self.holds.clear();
        self.reads.clear();
        self.readers.clear();
        self.ready.clear();
    }

    /// A law: when no slot can be taken, and nobody works on one, every slot is finished.
    pub fn settled(&self)
        requires none { offered (slots_view self.now).tasks (slots_view self.now).progress ≡ [] }
        requires idle { (k : ℕ) → (is_running (slice_get (slots_view self.now).progress k) ≡ false)
            × (is_joining (slice_get (slots_view self.now).progress k) ≡ false) }
        ensures { (k : ℕ) (p : AnyProgress) → slice_get (slots_view self.now).progress k ≡ Some p
            → is_unfinished p ≡ false }
    {}

    /// What there is of a slot.
    pub fn look(&self, number: u64) -> Look<'_>
        ensures seen { seen_in result ≡ seen_of (state_of (slots_view self.now) number) }
        ensures right { IfSome (store_in result) (IsStoreFor (object_at (slots_view self.now).tasks number)) }
    {
        look_at(&self.stages, number)
    }

    /// What the caller gave with a slot.
    pub fn note(&self, number: u64) -> Option<&N>
        ensures { option_copied result ≡ slice_get (slots_view self.now).notes number }
    {
        match self.slots.get(number as usize) {
            Some(slot) => Some(&slot.note),
            None => None,
        }
    }

    /// How many slots there are.
    pub(crate) fn len(&self) -> usize
        ensures { result ≡ length (slots_view self.now).tasks }
    {
        self.slots.len()
    }

    /// The slots that can be taken, rising.
    pub(crate) fn ready(&self) -> &VecDeque<u64>
        ensures { result.now.items ≡ offered (slots_view self.now).tasks (slots_view self.now).progress }
    {
        &self.ready
    }

    /// How many rows the task of a slot makes.
    pub(crate) fn rows(&self, number: u64) -> u64
        requires { number < length (slots_view self.now).tasks }
        ensures { option_map (λ t. rows_of (known_of t.recipe).shape) (slice_get (slots_view self.now).tasks number)
            ≡ Some result }
    {
        self.slots[number as usize].of.shape.rows()
    }

    /// The recipe of a slot's task, where nobody took that.
    pub(crate) fn recipe(&self, number: u64) -> Option<&Recipe> {
        match self.stages.get(number as usize) {
            Some(Stage::Untaken(recipe)) => Some(recipe),
            _ => None,
        }
    }

    /// The task of the slot at a place among those that can be taken, as one piece.
    pub(crate) fn take_at(&mut self, at: usize, number: u64) -> Result<Piece, NoMemory>
        requires { slice_get self.old.ready.items at ≡ Some number }
        ensures number { IfOk result (λ piece. piece.number ≡ number) }
        ensures taken { OnOk result (slots_view self.new ≡ taken (slots_view self.old) number) }
        ensures piece { IfOk result (IsPieceFor (slots_view self.new).tasks) }
        ensures first { IfOk result (λ piece. piece.piece ≡ 0) }
        ensures whole { IfOk result (λ piece. is_whole piece ≡ true) }
        ensures refused { OnErr result (slots_view self.new ≡ slots_view self.old) }
    {
        let slot = &self.slots[number as usize];
        let inputs = &slot.inputs;
        let rows = slot.of.shape.rows();
        let mask = share(&self.stages, inputs.mask())?;
        let first = share(&self.stages, inputs.first())?;
        let second = share(&self.stages, inputs.second())?;
        let old = claim(&mut self.stages, &self.holds, &self.reads, inputs.old())?;
        let recipe = take_recipe(&mut self.stages, number);
        remove_at(&mut self.ready, at);
        Ok(Piece {
            number,
            piece: 0,
            rows: 0..rows,
            recipe: TaskRecipe::Own(recipe),
            inputs: Stores {
                old,
                mask,
                first,
                second,
            },
        })
    }

    /// The one piece of a slot that runs was done: its block is to be joined.
    pub fn give(&mut self, number: u64, piece: u64, block: Block) -> Result<Block, Refusal>
        ensures answer { result ≡ given_to (slots_view self.old) number piece block }
        ensures joining { OnOk result (slots_view self.new ≡ with_progress (slots_view self.old) number Joining) }
        ensures refused { OnErr result (slots_view self.new ≡ slots_view self.old) }
    {
        if piece == 0 && is_joining(&self.stages, number) {
            return Err(Refusal::Twice);
        }
        if piece != 0 || !is_running(&self.stages, number) || !self.fits_slot(number, &block) {
            return Err(Refusal::Stranger);
        }
        put(&mut self.stages, number, Stage::Joining);
        Ok(block)
    }

    /// The blocks of a slot that runs are to be joined.
    pub(crate) fn join(&mut self, number: u64)
        requires { is_running (slice_get (slots_view self.old).progress number) ≡ true }
        ensures { slots_view self.new ≡ with_progress (slots_view self.old) number Joining }
    {
        put(&mut self.stages, number, Stage::Joining);
    }

    /// The store of a slot whose blocks were joined.
    pub fn whole(&mut self, number: u64, store: Arc<Store>) -> Result<(), Refusal>
        requires right { is_joining (slice_get (slots_view self.old).progress number) ≡ true
            → IsStoreFor (object_at (slots_view self.old).tasks number) (arc_value store) }
        ensures answer { result ≡ (if is_joining (slice_get (slots_view self.old).progress number) then Ok tt
            else Err Refusal.Stranger) }
        ensures made { OnOk result (slots_view self.new ≡ with_progress (slots_view self.old) number Made) }
        ensures refused { OnErr result (slots_view self.new ≡ slots_view self.old) }
    {
        if !is_joining(&self.stages, number) {
            return Err(Refusal::Stranger);
        }
        let inputs = &self.slots[number as usize].inputs;
        put(&mut self.stages, number, Stage::Done(store));
        read_less(&mut self.reads, inputs);
        release_each(&mut self.stages, &self.holds, &self.reads, inputs);
        release(&mut self.stages, &self.holds, &self.reads, Some(number));
        wake(
            &mut self.ready,
            &self.slots,
            &self.stages,
            &self.readers[number as usize],
        );
        Ok(())
    }

    /// A store of the same object in the place of the one that a slot has. Gives back the one that isn't needed: this
    /// one, where the slot has none.
    pub fn renew(&mut self, number: u64, store: Arc<Store>) -> Arc<Store>
        requires right { IsStoreFor (object_at (slots_view self.old).tasks number) (arc_value store) }
        ensures { slots_view self.new ≡ slots_view self.old }
    {
        if !is_done(&self.stages, number) {
            return store;
        }
        let old = take_store(&mut self.stages, number);
        put(&mut self.stages, number, Stage::Done(store));
        old
    }

    /// Whether an input place of a slot that is to come names a slot.
    pub fn is_read(&self, number: u64) -> bool
        ensures { result ≡ nat_lt 0 (reads_in (slots_view self.now).tasks (slots_view self.now).progress number) }
    {
        is_used(&self.reads, number)
    }

    /// Whether a task that waits for a slot needs the lists of its store in one.
    pub fn is_needed_joined(&self, number: u64) -> bool {
        let Some(readers) = self.readers.get(number as usize) else {
            return false;
        };
        for reader in readers {
            if let Some(recipe) = self.recipe(*reader)
                && let Some(slot) = self.slots.get(*reader as usize)
                && slot.inputs.need_joined(recipe, number)
            {
                return true;
            }
        }
        false
    }

    /// The store of a slot whose task is one piece, once that was done and joined, in the place of `give` and `whole`.
    pub fn hand_in(&mut self, number: u64, store: Arc<Store>) -> Result<(), Refusal>
        requires right { is_running (slice_get (slots_view self.old).progress number) ≡ true
            → IsStoreFor (object_at (slots_view self.old).tasks number) (arc_value store) }
        ensures answer { result ≡ (if is_running (slice_get (slots_view self.old).progress number) then Ok tt
            else Err Refusal.Stranger) }
        ensures made { OnOk result (slots_view self.new ≡ with_progress (slots_view self.old) number Made) }
        ensures refused { OnErr result (slots_view self.new ≡ slots_view self.old) }
    {
        if !is_running(&self.stages, number) {
            return Err(Refusal::Stranger);
        }
        put(&mut self.stages, number, Stage::Joining);
        self.whole(number, store)
    }

    /// Whether a block has all rows of what the task of a slot makes.
    fn fits_slot(&self, number: u64, block: &Block) -> bool
        ensures { result ≡ fits_slot (slots_view self.now).tasks number block.now }
    {
        match self.slots.get(number as usize) {
            Some(slot) => has_rows(slot.of.shape.rows(), block),
            None => false,
        }
    }

    /// A slot that can be taken, or that somebody works on, fails, and with it each unfinished slot that rests on it.
    pub fn fail(&mut self, number: u64) -> Result<(), Refusal>
        ensures answer { result ≡ (if may_fail (slots_view self.old) number then Ok tt else Err Refusal.Stranger) }
        ensures failed { OnOk result (slots_view self.new ≡ failed (slots_view self.old) number) }
        ensures others { OnOk result ((k : ℕ) → k ≢ number
            → is_underway (slice_get (slots_view self.old).progress k) ≡ true
            → slice_get (slots_view self.new).progress k ≡ slice_get (slots_view self.old).progress k) }
        ensures refused { OnErr result (slots_view self.new ≡ slots_view self.old) }
    {
        if !can_fail(&self.slots, &self.stages, number) {
            return Err(Refusal::Stranger);
        }
        withdraw(&mut self.ready, number);
        end(
            &self.slots,
            &mut self.stages,
            &self.holds,
            &mut self.reads,
            number,
        );
        spread(
            &self.slots,
            &mut self.stages,
            &self.holds,
            &mut self.reads,
            number + 1,
        );
        Ok(())
    }

    /// A slot fails that is to come and for which nobody can ask: nobody holds it, and no slot that is to come reads
    /// it. Its time is that of a look at its inputs, and of finding it among those that can be taken.
    pub fn give_up(&mut self, number: u64) -> Result<(), Refusal>
        ensures answer { result ≡ (if is_unasked (slots_view self.old) number then Ok tt else Err Refusal.Stranger) }
        ensures failed { OnOk result (slots_view self.new ≡ with_progress (slots_view self.old) number Failed) }
        ensures refused { OnErr result (slots_view self.new ≡ slots_view self.old) }
    {
        if !is_unasked(&self.stages, &self.holds, &self.reads, number) {
            return Err(Refusal::Stranger);
        }
        withdraw(&mut self.ready, number);
        end(
            &self.slots,
            &mut self.stages,
            &self.holds,
            &mut self.reads,
            number,
        );
        Ok(())
    }

    /// The slots that take the roles of a slot's task.
    pub fn inputs(&self, number: u64) -> Option<Roles<u64>>
        ensures inputs { result ≡ option_map (λ t. t.inputs) (slice_get (slots_view self.now).tasks number) }
        ensures lower { IfSome result (λ inputs. each (λ i. nat_lt i number) inputs ≡ true) }
    {
        let slot = self.slots.get(number as usize)?;
        Some(slot.inputs.roles())
    }

    /// One hold more.
    pub fn hold(&mut self, number: u64) -> Result<(), Refusal>
        ensures answer { result ≡ (if may_hold (slots_view self.old) number then Ok tt else Err Refusal.Stranger) }
        ensures held { OnOk result (slots_view self.new
            ≡ with_holds (slots_view self.old) number (slice_index (slots_view self.old).holds number + 1)) }
        ensures refused { OnErr result (slots_view self.new ≡ slots_view self.old) }
    {
        if is_gone(&self.stages, number) {
            return Err(Refusal::Stranger);
        }
        if !hold_more(&mut self.holds, number) {
            return Err(Refusal::Stranger);
        }
        Ok(())
    }

    /// One hold less.
    pub fn let_go(&mut self, number: u64) -> Result<(), Refusal>
        ensures answer { result ≡ (if may_let_go (slots_view self.old) number then Ok tt else Err Refusal.Stranger) }
        ensures gone { OnOk result (slots_view self.new
            ≡ with_holds (slots_view self.old) number (slice_index (slots_view self.old).holds number - 1)) }
        ensures refused { OnErr result (slots_view self.new ≡ slots_view self.old) }
    {
        if is_gone(&self.stages, number) {
            return Err(Refusal::Stranger);
        }
        if !hold_less(&mut self.holds, number) {
            return Err(Refusal::Stranger);
        }
        release(&mut self.stages, &self.holds, &self.reads, Some(number));
        Ok(())
    }
}
