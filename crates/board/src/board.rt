//! Boards.
ghost use Rattle.std.specs.Prelude.{◌≡◌, ◌||◌, length, map};
ghost use Rattle.std.specs.Option.{option_map};
ghost use Rattle.std.specs.VecDeque.{deque_capacity};
ghost use Rattle.board.specs.SlotViews.{slots_view};
ghost use Rattle.board.specs.Cuts.{AreCuts, cutting_of, is_open};
ghost use Rattle.stages.specs.Numbers.{numbers};

use crate::cut::{Cut, CutTask};
use crate::cuts::{forget, give_to, is_cut, make_place, next_of, withdraw_if_taken};
use crate::look::{Look, Offer, Refusal};
use crate::picking::{Picked, picked_at};
use crate::piece::{Blocks, Given, Piece};
use crate::slots::Slots;
use calls::{Recipe, Roles};
use kernel::Block;
use model::NoMemory;
use stages::{insert, withdraw};
use std::alloc::Global;
use std::collections::VecDeque;
use std::sync::Arc;
use store::Store;

/// Numbered slots, each with a task on lower ones, which may be cut into pieces, and what there is of its store.
#[derive(Drop)]
pub struct Board<N: Drop> {
    alloc: Global,
    slots: Slots<N>,
    // What there is of tasks that were cut, at their slots' numbers.
    cuts: Vec<Option<Cut>>,
    // The slots of whose tasks a piece wasn't taken, rising.
    parted: VecDeque<u64>,
    ghost cut_are: { ∥ AreCuts (slots_view slots).tasks (slots_view slots).progress cuts.items ∥₁ },
    ghost parted_are: { parted.items ≡ numbers (is_open (map (option_map cutting_of) cuts.items))
        (length (slots_view slots).tasks) },
}

impl<N: Drop> Board<N> {
    ghost use Rattle.std.specs.Prelude.{◌≡◌, ◌≢◌, ◌+◌, ◌-◌, ◌<◌, ◌≤◌, ◌&&◌, ◌↔◌, [], IfErr, IfOk, IfSome, None};
    ghost use Rattle.std.specs.Bool.{OnTrue};
    ghost use Rattle.std.specs.Prelude.{List, MatchResult, OnErr, OnOk, Some, if◌then◌else◌, is_none, is_some, length};
    ghost use Rattle.std.specs.Prelude.{nat_lt, slice_get, slice_index, ℕ, false, true};
    ghost use Rattle.std.specs.Arc.{arc_value};
    ghost use Rattle.std.specs.Option.{option_copied, option_map};
    ghost use Rattle.board.specs.Boards.{cuts_of, view_of};
    ghost use Rattle.board.specs.Cuts.{AreBlocksFor, AreSame, GoesOut, IsFound, IsLeftBy, IsPut, IsTakenFrom, at_slot};
    ghost use Rattle.board.specs.Cuts.{is_parted, offered_on, picked_on, told_blocks, told_on};
    ghost use Rattle.board.specs.Events.{Accepts, empty_view, failed, issued, is_unasked, may_fail, may_hold};
    ghost use Rattle.board.specs.Events.{may_let_go, placed, with_holds, with_progress};
    ghost use Rattle.board.specs.Looks.{seen_in, seen_of, store_in};
    ghost use Rattle.board.specs.Pieces.{IsBlockFor, IsPieceFor, is_whole};
    ghost use Rattle.stages.specs.Places.{each};
    ghost use Rattle.stages.specs.Progress.{Failed, Made, Running, Progress as AnyProgress, is_joining, is_running};
    ghost use Rattle.stages.specs.Progress.{is_unfinished};
    ghost use Rattle.stages.specs.Tasks.{object_at};
    ghost use Rattle.stages.specs.Views.{offered, reads_in, state_of};
    ghost use Rattle.calls.specs.Recipes.{known_of};
    ghost use Rattle.model.specs.Object.{rows_of};
    ghost use Rattle.runner.specs.Tickets.{IsStoreFor};

    /// An empty board. It takes no memory.
    pub fn new(alloc: Global) -> Board<N>
        ensures view { view_of result ≡ empty_view }
        ensures cuts { cuts_of result ≡ [] }
    {
        Board {
            alloc,
            slots: Slots::new(alloc),
            cuts: Vec::new(alloc),
            parted: VecDeque::new(alloc),
        }
    }

    /// The next slot has a task, and one hold; it says which slot that is. It has failed where an input has.
    pub fn issue(&mut self, note: N, recipe: Recipe, inputs: Roles<u64>) -> Result<u64, Refusal>
        ensures number { IfOk result (λ number. number ≡ length (view_of self.old).tasks) }
        ensures accepted { OnOk result (Accepts (view_of self.old) recipe inputs) }
        ensures issued { OnOk result (view_of self.new ≡ issued (view_of self.old) note recipe inputs) }
        ensures stranger { result ≡ Err Refusal.Stranger → Accepts (view_of self.old) recipe inputs → ⊥ }
        ensures absent { (Accepts (view_of self.old) recipe inputs → ⊥) → result ≡ Err Refusal.Stranger }
        ensures once { result ≡ Err Refusal.Twice → ⊥ }
        ensures refused { OnErr result (view_of self.new ≡ view_of self.old) }
        ensures cuts { cuts_of self.new ≡ cuts_of self.old }
    {
        self.slots.issue(note, recipe, inputs)
    }

    /// The next slot has a store that is there, and one hold. It is done at once, as if its task had been taken, given
    /// back whole and joined, but for that nothing is copied: the store is shared.
    pub fn issue_given(&mut self, note: N, given: Box<calls::Given>) -> Result<u64, NoMemory>
        ensures number { IfOk result (λ number. number ≡ length (view_of self.old).tasks) }
        ensures placed { OnOk result (view_of self.new ≡ placed (view_of self.old) note given) }
        ensures refused { OnErr result (view_of self.new ≡ view_of self.old) }
        ensures cuts { cuts_of self.new ≡ cuts_of self.old }
    {
        self.slots.issue_given(note, given)
    }

    /// Empties a board, and keeps the room of its lists.
    pub fn clear(&mut self)
        ensures view { view_of self.new ≡ empty_view }
        ensures cuts { cuts_of self.new ≡ [] }
    {
        self.slots.clear();
        self.cuts.clear();
        self.parted.clear();
    }

    /// A law: when no slot can be taken, and nobody works on one, every slot is finished.
    pub fn settled(&self)
        requires none { offered (view_of self.now).tasks (view_of self.now).progress ≡ [] }
        requires idle { (k : ℕ) → (is_running (slice_get (view_of self.now).progress k) ≡ false)
            × (is_joining (slice_get (view_of self.now).progress k) ≡ false) }
        ensures { (k : ℕ) (p : AnyProgress) → slice_get (view_of self.now).progress k ≡ Some p
            → is_unfinished p ≡ false }
    {
        self.slots.settled();
    }

    /// What there is of a slot.
    pub fn look(&self, number: u64) -> Look<'_>
        ensures seen { seen_in result ≡ seen_of (state_of (view_of self.now) number) }
        ensures right { IfSome (store_in result) (IsStoreFor (object_at (view_of self.now).tasks number)) }
    {
        self.slots.look(number)
    }

    /// What the caller gave with a slot.
    pub fn note(&self, number: u64) -> Option<&N>
        ensures { option_copied result ≡ slice_get (view_of self.now).notes number }
    {
        self.slots.note(number)
    }

    /// How many slots can be taken: those that are ready, and those of whose tasks a piece wasn't taken.
    pub fn offers(&self) -> u64
        ensures { result ≡ length (offered_on (view_of self.now) (cuts_of self.now)) }
    {
        (self.slots.ready().len() + self.parted.len()) as u64
    }

    /// A piece of the slot at this place of those that can be taken, counted round; None where none can. A task that
    /// nobody took is cut at each cut that lies inside its rows and above every cut used before, unless memory is
    /// refused for that; edits aren't cut. `Err`: the slot's number, where a share of a store was refused; it is taken
    /// or failed later.
    pub fn take(&mut self, pick: u64, cuts: &[u64]) -> Result<Option<Piece>, u64>
        ensures none { IfOk result (λ o. (o ≡ None) ↔ (offered_on (view_of self.old) (cuts_of self.old) ≡ [])) }
        ensures picked { IfOk result (λ o. IfSome o (λ piece.
            piece.number ≡ picked_on (view_of self.old) (cuts_of self.old) pick)) }
        ensures taken { IfOk result (λ o. IfSome o (λ piece.
            IsTakenFrom (view_of self.old) (cuts_of self.old) cuts.now piece (view_of self.new) (cuts_of self.new))) }
        ensures piece { IfOk result (λ o. IfSome o (IsPieceFor (view_of self.new).tasks)) }
        ensures same { IfOk result (λ o. o ≡ None → view_of self.new ≡ view_of self.old) }
        ensures same_cuts { IfOk result (λ o. o ≡ None → cuts_of self.new ≡ cuts_of self.old) }
        ensures number { IfErr result (λ number. number ≡ picked_on (view_of self.old) (cuts_of self.old) pick) }
        ensures offered { OnErr result (offered_on (view_of self.old) (cuts_of self.old) ≢ []) }
        ensures refused { OnErr result (view_of self.new ≡ view_of self.old) }
        ensures refused_cuts { OnErr result (cuts_of self.new ≡ cuts_of self.old) }
    {
        let taken = match self.picked(pick) {
            None => return Ok(None),
            Some(Picked::Ready(at)) => self.take_ready(at, cuts),
            Some(Picked::Open(number)) => self.take_next(number),
        };
        match taken {
            Ok(piece) => Ok(Some(piece)),
            Err(number) => Err(number),
        }
    }

    /// The slot of which `take` would take a piece, so that cuts can be chosen for it.
    pub fn offer(&self, pick: u64) -> Option<Offer<'_>>
        ensures none { (result ≡ None) ↔ (offered_on (view_of self.now) (cuts_of self.now) ≡ []) }
        ensures number { IfSome result (λ offer.
            offer.number ≡ picked_on (view_of self.now) (cuts_of self.now) pick) }
        ensures rows { IfSome result (λ offer. option_map (λ t. rows_of (known_of t.recipe).shape)
            (slice_get (view_of self.now).tasks offer.number) ≡ Some offer.rows) }
    {
        match self.picked(pick)? {
            Picked::Ready(at) => Some(self.offer_of(self.slots.ready()[at])),
            Picked::Open(number) => Some(self.offer_of(number)),
        }
    }

    // What is known of a slot that can be taken.
    fn offer_of(&self, number: u64) -> Offer<'_>
        requires { number < length (view_of self.now).tasks }
        ensures number { result.number ≡ number }
        ensures rows { option_map (λ t. rows_of (known_of t.recipe).shape)
            (slice_get (view_of self.now).tasks number) ≡ Some result.rows }
    {
        Offer {
            number,
            rows: self.slots.rows(number),
            recipe: self.slots.recipe(number),
        }
    }

    // Where the slot at this place of those that can be taken stands, counted round; None where none can.
    fn picked(&self, pick: u64) -> Option<Picked>
        ensures none { (result ≡ None) ↔ (offered_on (view_of self.now) (cuts_of self.now) ≡ []) }
        ensures found { IfSome result (IsFound (view_of self.now) (cuts_of self.now) pick) }
    {
        let count = self.offers();
        if count == 0 {
            return None;
        }
        let place = (pick % count) as usize;
        Some(picked_at(self.slots.ready(), &self.parted, place))
    }

    // The task of the slot at a place among those that are ready, or its first piece, where it is cut.
    fn take_ready(&mut self, at: usize, cuts: &[u64]) -> Result<Piece, u64>
        requires { at < length (offered (view_of self.old).tasks (view_of self.old).progress) }
        ensures number { IfOk result (λ piece.
            slice_get (offered (view_of self.old).tasks (view_of self.old).progress) at ≡ Some piece.number) }
        ensures taken { IfOk result (λ piece.
            IsTakenFrom (view_of self.old) (cuts_of self.old) cuts.now piece (view_of self.new) (cuts_of self.new)) }
        ensures piece { IfOk result (IsPieceFor (view_of self.new).tasks) }
        ensures refusing { IfErr result (λ number.
            slice_get (offered (view_of self.old).tasks (view_of self.old).progress) at ≡ Some number) }
        ensures refused { OnErr result (view_of self.new ≡ view_of self.old) }
        ensures refused_cuts { OnErr result (cuts_of self.new ≡ cuts_of self.old) }
    {
        let number = self.slots.ready()[at];
        match self.slots.take_at(at, number) {
            Ok(whole) => Ok(self.cut_up(whole, cuts)),
            Err(NoMemory) => Err(number),
        }
    }

    // What goes out of a task that was taken whole: its first piece, where it is cut.
    fn cut_up(&mut self, whole: Piece, cuts: &[u64]) -> Piece
        requires running { slice_get (view_of self.old).progress whole.number ≡ Some Running }
        requires piece { IsPieceFor (view_of self.old).tasks whole }
        requires first { whole.piece ≡ 0 }
        requires whole { is_whole whole ≡ true }
        requires uncut { at_slot (cuts_of self.old) whole.number ≡ None }
        ensures number { result.number ≡ whole.number }
        ensures view { view_of self.new ≡ view_of self.old }
        ensures cut { GoesOut (cuts_of self.old) cuts.now result (cuts_of self.new) }
        ensures piece { IsPieceFor (view_of self.new).tasks result }
    {
        if cuts.is_empty() || !self.make_room(whole.number) {
            return whole;
        }
        let number = whole.number;
        match CutTask::cut(self.alloc, whole, cuts) {
            Ok((task, first)) => {
                self.cuts[number as usize] = Some(Cut::Underway(task));
                insert(&mut self.parted, number);
                first
            }
            Err(whole) => whole,
        }
    }

    // Makes room for what there is of a slot's task, once it is cut, and says whether there is.
    fn make_room(&mut self, number: u64) -> bool
        requires { number < length (view_of self.old).tasks }
        ensures view { view_of self.new ≡ view_of self.old }
        ensures cuts { AreSame (cuts_of self.old) (cuts_of self.new) }
        ensures place { OnTrue result (number < length (cuts_of self.new)) }
        ensures room { OnTrue result (length (view_of self.old).tasks ≤ deque_capacity self.new.parted) }
    {
        let more = self.slots.len() - self.parted.len();
        self.parted.reserve(more).is_ok() && make_place(&mut self.cuts, number)
    }

    // The next piece of a slot's task that is cut.
    fn take_next(&mut self, number: u64) -> Result<Piece, u64>
        requires { is_open (cuts_of self.old) number ≡ true }
        ensures number { IfOk result (λ piece. piece.number ≡ number) }
        ensures taken { IfOk result (λ piece. (cuts : List ℕ)
            → IsTakenFrom (view_of self.old) (cuts_of self.old) cuts piece (view_of self.new) (cuts_of self.new)) }
        ensures piece { IfOk result (IsPieceFor (view_of self.new).tasks) }
        ensures refusing { IfErr result (λ refused. refused ≡ number) }
        ensures refused { OnErr result (view_of self.new ≡ view_of self.old) }
        ensures refused_cuts { OnErr result (cuts_of self.new ≡ cuts_of self.old) }
    {
        let Ok(piece) = next_of(&mut self.cuts, number) else {
            return Err(number);
        };
        withdraw_if_taken(&self.cuts, &mut self.parted, number);
        Ok(piece)
    }

    /// A piece of a slot that runs was done. The blocks of all its pieces are to be joined once it is the last.
    pub fn give(&mut self, number: u64, piece: u64, block: Block) -> Result<Given, Refusal>
        requires right { is_parted (at_slot (cuts_of self.old) number) ≡ true
            → IsBlockFor (view_of self.old).tasks number block }
        ensures answer { MatchResult result
            (λ given. told_on (view_of self.old) (cuts_of self.old) number piece block ≡ Ok (told_blocks given))
            (λ why. told_on (view_of self.old) (cuts_of self.old) number piece block ≡ Err why) }
        ensures left { IfOk result (λ given. IsLeftBy (view_of self.old) (cuts_of self.old) number piece block
            (at_slot (cuts_of self.old) number) (told_blocks given) (view_of self.new) (cuts_of self.new)) }
        ensures all { IfOk result (AreBlocksFor (view_of self.old).tasks number) }
        ensures refused { OnErr result (view_of self.new ≡ view_of self.old) }
        ensures refused_cuts { OnErr result (cuts_of self.new ≡ cuts_of self.old) }
    {
        if is_cut(&self.cuts, number) {
            self.give_part(number, piece, block)
        } else {
            self.give_whole(number, piece, block)
        }
    }

    // The same for a task that is one piece.
    fn give_whole(&mut self, number: u64, piece: u64, block: Block) -> Result<Given, Refusal>
        requires { at_slot (cuts_of self.old) number ≡ None }
        ensures answer { MatchResult result
            (λ given. told_on (view_of self.old) (cuts_of self.old) number piece block ≡ Ok (told_blocks given))
            (λ why. told_on (view_of self.old) (cuts_of self.old) number piece block ≡ Err why) }
        ensures left { IfOk result (λ given. IsLeftBy (view_of self.old) (cuts_of self.old) number piece block
            (at_slot (cuts_of self.old) number) (told_blocks given) (view_of self.new) (cuts_of self.new)) }
        ensures all { IfOk result (AreBlocksFor (view_of self.old).tasks number) }
        ensures refused { OnErr result (view_of self.new ≡ view_of self.old) }
        ensures refused_cuts { OnErr result (cuts_of self.new ≡ cuts_of self.old) }
    {
        match self.slots.give(number, piece, block) {
            Ok(block) => Ok(Given::Last(Blocks::One(block))),
            Err(why) => Err(why),
        }
    }

    // The same for a task that is cut.
    fn give_part(&mut self, number: u64, piece: u64, block: Block) -> Result<Given, Refusal>
        requires cut { is_some (at_slot (cuts_of self.old) number) ≡ true }
        requires right { is_parted (at_slot (cuts_of self.old) number) ≡ true
            → IsBlockFor (view_of self.old).tasks number block }
        ensures answer { MatchResult result
            (λ given. told_on (view_of self.old) (cuts_of self.old) number piece block ≡ Ok (told_blocks given))
            (λ why. told_on (view_of self.old) (cuts_of self.old) number piece block ≡ Err why) }
        ensures left { IfOk result (λ given. IsLeftBy (view_of self.old) (cuts_of self.old) number piece block
            (at_slot (cuts_of self.old) number) (told_blocks given) (view_of self.new) (cuts_of self.new)) }
        ensures all { IfOk result (AreBlocksFor (view_of self.old).tasks number) }
        ensures refused { OnErr result (view_of self.new ≡ view_of self.old) }
        ensures refused_cuts { OnErr result (cuts_of self.new ≡ cuts_of self.old) }
    {
        match give_to(&mut self.cuts, number, piece, block) {
            Ok(Given::More) => Ok(Given::More),
            Ok(Given::Last(blocks)) => {
                self.slots.join(number);
                withdraw(&mut self.parted, number);
                Ok(Given::Last(blocks))
            }
            Err(why) => Err(why),
        }
    }

    /// The store of a slot whose blocks were joined.
    pub fn whole(&mut self, number: u64, store: Arc<Store>) -> Result<(), Refusal>
        requires right { is_joining (slice_get (view_of self.old).progress number) ≡ true
            → IsStoreFor (object_at (view_of self.old).tasks number) (arc_value store) }
        ensures answer { result ≡ (if is_joining (slice_get (view_of self.old).progress number) then Ok tt
            else Err Refusal.Stranger) }
        ensures made { OnOk result (view_of self.new ≡ with_progress (view_of self.old) number Made) }
        ensures cuts { OnOk result (IsPut (cuts_of self.old) number None (cuts_of self.new)) }
        ensures refused { OnErr result (view_of self.new ≡ view_of self.old) }
        ensures refused_cuts { OnErr result (cuts_of self.new ≡ cuts_of self.old) }
    {
        self.slots.whole(number, store)?;
        forget(&mut self.cuts, &mut self.parted, number);
        Ok(())
    }

    /// A store of the same object in the place of the one that a slot has. Gives back the one that isn't needed: this
    /// one, where the slot has none.
    pub fn renew(&mut self, number: u64, store: Arc<Store>) -> Arc<Store>
        requires right { IsStoreFor (object_at (view_of self.old).tasks number) (arc_value store) }
        ensures view { view_of self.new ≡ view_of self.old }
        ensures cuts { cuts_of self.new ≡ cuts_of self.old }
    {
        self.slots.renew(number, store)
    }

    /// Whether an input place of a slot that is to come names a slot.
    pub fn is_read(&self, number: u64) -> bool
        ensures { result ≡ nat_lt 0 (reads_in (view_of self.now).tasks (view_of self.now).progress number) }
    {
        self.slots.is_read(number)
    }

    /// Whether a task that waits for a slot needs the lists of its store in one (`kernel::needs_joined`).
    pub fn is_needed_joined(&self, number: u64) -> bool {
        self.slots.is_needed_joined(number)
    }

    /// The store of a slot whose task is one piece, once that was done and joined, in the place of `give` and `whole`.
    pub fn hand_in(&mut self, number: u64, store: Arc<Store>) -> Result<(), Refusal>
        requires right { is_running (slice_get (view_of self.old).progress number) ≡ true
            → IsStoreFor (object_at (view_of self.old).tasks number) (arc_value store) }
        ensures answer { result ≡ (if is_running (slice_get (view_of self.old).progress number)
            && is_none (at_slot (cuts_of self.old) number) then Ok tt else Err Refusal.Stranger) }
        ensures made { OnOk result (view_of self.new ≡ with_progress (view_of self.old) number Made) }
        ensures cuts { cuts_of self.new ≡ cuts_of self.old }
        ensures refused { OnErr result (view_of self.new ≡ view_of self.old) }
    {
        if is_cut(&self.cuts, number) {
            return Err(Refusal::Stranger);
        }
        self.slots.hand_in(number, store)
    }

    /// A slot that can be taken, or that somebody works on, fails, and with it each unfinished slot that rests on it.
    pub fn fail(&mut self, number: u64) -> Result<(), Refusal>
        ensures answer { result ≡ (if may_fail (view_of self.old) number then Ok tt else Err Refusal.Stranger) }
        ensures failed { OnOk result (view_of self.new ≡ failed (view_of self.old) number) }
        ensures cuts { OnOk result (IsPut (cuts_of self.old) number None (cuts_of self.new)) }
        ensures refused { OnErr result (view_of self.new ≡ view_of self.old) }
        ensures refused_cuts { OnErr result (cuts_of self.new ≡ cuts_of self.old) }
    {
        self.slots.fail(number)?;
        forget(&mut self.cuts, &mut self.parted, number);
        Ok(())
    }

    /// A slot fails that is to come and for which nobody can ask: nobody holds it, and no slot that is to come reads
    /// it. Its time is that of a look at its inputs, and of finding it among those that can be taken.
    pub fn give_up(&mut self, number: u64) -> Result<(), Refusal>
        ensures answer { result ≡ (if is_unasked (view_of self.old) number then Ok tt else Err Refusal.Stranger) }
        ensures failed { OnOk result (view_of self.new ≡ with_progress (view_of self.old) number Failed) }
        ensures cuts { OnOk result (IsPut (cuts_of self.old) number None (cuts_of self.new)) }
        ensures refused { OnErr result (view_of self.new ≡ view_of self.old) }
        ensures refused_cuts { OnErr result (cuts_of self.new ≡ cuts_of self.old) }
    {
        self.slots.give_up(number)?;
        forget(&mut self.cuts, &mut self.parted, number);
        Ok(())
    }

    /// The slots that take the roles of a slot's task.
    pub fn inputs(&self, number: u64) -> Option<Roles<u64>>
        ensures inputs { result ≡ option_map (λ t. t.inputs) (slice_get (view_of self.now).tasks number) }
        ensures lower { IfSome result (λ inputs. each (λ i. nat_lt i number) inputs ≡ true) }
    {
        self.slots.inputs(number)
    }

    /// One hold more.
    pub fn hold(&mut self, number: u64) -> Result<(), Refusal>
        ensures answer { result ≡ (if may_hold (view_of self.old) number then Ok tt else Err Refusal.Stranger) }
        ensures held { OnOk result (view_of self.new
            ≡ with_holds (view_of self.old) number (slice_index (view_of self.old).holds number + 1)) }
        ensures cuts { cuts_of self.new ≡ cuts_of self.old }
        ensures refused { OnErr result (view_of self.new ≡ view_of self.old) }
    {
        self.slots.hold(number)
    }

    /// One hold less.
    pub fn let_go(&mut self, number: u64) -> Result<(), Refusal>
        ensures answer { result ≡ (if may_let_go (view_of self.old) number then Ok tt else Err Refusal.Stranger) }
        ensures gone { OnOk result (view_of self.new
            ≡ with_holds (view_of self.old) number (slice_index (view_of self.old).holds number - 1)) }
        ensures cuts { cuts_of self.new ≡ cuts_of self.old }
        ensures refused { OnErr result (view_of self.new ≡ view_of self.old) }
    {
        self.slots.let_go(number)
    }
}
