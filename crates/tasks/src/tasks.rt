//! The tasks of a pool, which are the calling thread's own, or lie under the lock.
ghost use Rattle.std.specs.Prelude.{◌≡◌, ◌↔◌, ◌+◌, ◌<◌, IfOk, IfSome, IsTrue, None, OnErr, OnOk, [], is_some};
ghost use Rattle.std.specs.Prelude.{slice_get, true};
ghost use Rattle.std.specs.Arc.{arc_value};
ghost use Rattle.std.specs.Bool.{OnTrue};
ghost use Rattle.board.specs.Boards.{cuts_of, view_of};
ghost use Rattle.board.specs.Cuts.{IsPut, at_slot, offered_on};
ghost use Rattle.board.specs.Events.{empty_view};
ghost use Rattle.board.specs.Pieces.{IsPieceFor, is_whole};
ghost use Rattle.stages.specs.Progress.{is_running};
ghost use Rattle.board.specs.Looks.{SeenUnfinished, seen_of};
ghost use Rattle.stages.specs.Views.{state_of};
ghost use Rattle.desk.specs.Desks.{AreTold, is_on, object_in, told};
ghost use Rattle.desk.specs.Ends.{felled, felled_cut, handed_in, unfinished};
ghost use Rattle.history.specs.Histories.{object_of};
ghost use Rattle.tasks.specs.Crews.{Calls};
ghost use Rattle.tasks.specs.Boards.{cut_on, finished_on, held_on, left_on};
ghost use Rattle.tasks.specs.Lefts.{blocks_in};
ghost use Rattle.runner.specs.Tickets.{IsStoreFor, made_by};

use crate::crew::Crew;
use crate::cutting::Cutting;
use crate::demand::{Demand, entries_for};
use crate::ending::end;
use crate::work::{Finished, Joint, Left, Reading, Work};
use board::{Board, Look, Piece};
use calls::{Recipe, Roles};
use desk::{Picker, Ticket, give_up, look, place, share_of, slot_of, take_cut, work, work_in};
use history::Noted;
use journal::{Log, Naming, Note};
use kernel::VectorProducts;
use model::NoMemory;
use runner::Failed;
use std::alloc::Global;
use std::mem;
use std::sync::Arc;
use store::Store;

/// A board, its epoch, who picks what is done next, and who does tasks beside the calling thread. There is one picker:
/// it goes where the tasks go, and where there is none the board is empty.
#[derive(Drop)]
pub struct Tasks<J: Naming, P: Picker + Drop> {
    /// The tasks, what was noted of them, and their stores.
    pub board: Board<Note<J>>,
    /// Which epoch the board is of.
    pub epoch: u64,
    /// Who picks what is done next, where the tasks are here.
    pub picker: Option<P>,
    /// Who does tasks beside the calling thread.
    pub crew: Crew,
    ghost told: { AreTold told (view_of board) },
}

impl<J: Naming, P: Picker + Drop> Tasks<J, P> {
    /// An empty board.
    pub fn new(alloc: Global, picker: Option<P>, crew: Crew) -> Tasks<J, P>
        ensures epoch { result.epoch ≡ 0 }
        ensures board { view_of result.board ≡ empty_view }
        ensures crew { result.crew ≡ crew }
    {
        Tasks {
            board: Board::new(alloc),
            epoch: 0,
            picker,
            crew,
        }
    }

    /// Whether the tasks are here.
    pub fn are_here(&self) -> bool
        ensures { result ≡ is_some self.now.picker }
    {
        self.picker.is_some()
    }

    /// The tasks go to where none are, in exchange for these; who does tasks there and here stays.
    pub fn exchange(&mut self, other: &mut Tasks<J, P>)
        ensures board { self.new.board ≡ other.old.board }
        ensures epoch { self.new.epoch ≡ other.old.epoch }
        ensures other_board { other.new.board ≡ self.old.board }
        ensures other_epoch { other.new.epoch ≡ self.old.epoch }
        ensures crew { self.new.crew ≡ self.old.crew }
        ensures other_crew { other.new.crew ≡ other.old.crew }
    {
        mem::swap(self, other);
        mem::swap(&mut self.crew, &mut other.crew);
    }

    /// A slot for what was noted.
    pub fn submit(
        &mut self,
        log: &Log,
        note: Note<J>,
        recipe: Recipe,
        inputs: &Roles<&Ticket<Note<J>>>,
    ) -> Result<u64, NoMemory>
        requires log { log.now ≡ J.log }
        requires object { object_of note ≡ made_by (object_in told) recipe inputs.now }
        ensures epoch { self.new.epoch ≡ self.old.epoch }
        ensures crew { self.new.crew ≡ self.old.crew }
    {
        place(&mut self.board, log, self.epoch, note, recipe, inputs)
    }

    /// The store of a ticket's object, or that none will come. None while it is still to come.
    pub fn look(&self, log: &Log, ticket: &Ticket<Note<J>>) -> Option<Result<Arc<Store>, Failed>>
        requires log { log.now ≡ J.log }
        ensures store { IfSome result (λ found. IfOk found
            (λ store. IsStoreFor (object_in told ticket.now) (arc_value store))) }
    {
        let Some(slot) = slot_of(&self.board, log, self.epoch, ticket) else {
            return Some(Err(Failed));
        };
        look(&self.board, slot)
    }

    /// A store of a ticket's object in the place of the one that is there. Gives back the one that isn't needed.
    pub fn renew_store(
        &mut self,
        log: &Log,
        ticket: &Ticket<Note<J>>,
        store: Arc<Store>,
    ) -> Arc<Store>
        requires log { log.now ≡ J.log }
        requires right { IsStoreFor (object_in told ticket.now) (arc_value store) }
        ensures board { view_of self.new.board ≡ view_of self.old.board }
        ensures epoch { self.new.epoch ≡ self.old.epoch }
        ensures crew { self.new.crew ≡ self.old.crew }
    {
        match slot_of(&self.board, log, self.epoch, ticket) {
            Some(slot) => self.board.renew(slot, store),
            None => store,
        }
    }

    /// A piece of one of the tasks that can be done; None where none can.
    pub fn take(&mut self, alloc: Global) -> Option<Piece>
        ensures none { result ≡ None → offered_on (view_of self.new.board) (cuts_of self.new.board) ≡ [] }
        ensures piece { IfSome result (IsPieceFor (view_of self.new.board).tasks) }
        ensures running { IfSome result (λ piece.
            is_running (slice_get (view_of self.new.board).progress piece.number) ≡ true) }
        ensures epoch { self.new.epoch ≡ self.old.epoch }
        ensures crew { self.new.crew ≡ self.old.crew }
    {
        let Cutting { rows, threads } = self.crew.cutting;
        let idle = self.crew.idle();
        take_cut(
            alloc,
            &mut self.picker,
            &mut self.board,
            rows,
            threads,
            idle,
        )
    }

    /// A piece that was taken, to be done by a thread that doesn't have the board.
    pub fn work_of(&self, piece: Piece) -> Work<J>
        requires piece { IsPieceFor (view_of self.now.board).tasks piece }
        requires running { is_running (slice_get (view_of self.now.board).progress piece.number) ≡ true }
        ensures slot { result.ticket.slot ≡ piece.number }
        ensures on { is_on told self.now.epoch (view_of self.now.board) result.ticket ≡ true }
    {
        let Some(note) = self.board.note(piece.number) else {
            unreachable!()
        };
        let ticket = Ticket {
            epoch: self.epoch,
            slot: piece.number,
            note: note.again(),
        };
        Work {
            ticket,
            piece,
            helpers: self.crew.helpers(),
        }
    }

    /// Does a piece that was taken and is all of its task, here and now; where there is no memory for it, its slot
    /// fails, and the answer says so. What it was made of stays in the piece, but for what was written over. What goes
    /// along bitmaps is made by `products`.
    pub fn work<V: VectorProducts>(
        &mut self,
        products: &V,
        alloc: Global,
        piece: &mut Piece,
    ) -> Result<(), NoMemory>
        requires piece { IsPieceFor (view_of self.old.board).tasks piece.old }
        requires whole { is_whole piece.old ≡ true }
        ensures made { OnOk result (view_of self.new.board ≡ handed_in (view_of self.old.board)
            (at_slot (cuts_of self.old.board) piece.old.number) piece.old.number) }
        ensures made_cuts { OnOk result (cuts_of self.new.board ≡ cuts_of self.old.board) }
        ensures failed { OnErr result (view_of self.new.board ≡ felled (view_of self.old.board) piece.old.number) }
        ensures failed_cuts { OnErr result (IsPut (cuts_of self.old.board) piece.old.number
            (felled_cut (view_of self.old.board) (at_slot (cuts_of self.old.board) piece.old.number) piece.old.number)
            (cuts_of self.new.board)) }
        ensures tasks { (view_of self.new.board).tasks ≡ (view_of self.old.board).tasks }
        ensures notes { (view_of self.new.board).notes ≡ (view_of self.old.board).notes }
        ensures fewer { is_running (slice_get (view_of self.old.board).progress piece.old.number) ≡ true
            → at_slot (cuts_of self.old.board) piece.old.number ≡ None
            → unfinished (view_of self.new.board).progress < unfinished (view_of self.old.board).progress }
        ensures epoch { self.new.epoch ≡ self.old.epoch }
        ensures crew { self.new.crew ≡ self.old.crew }
    {
        work(products, alloc, &mut self.board, piece)
    }

    /// A piece of one of the tasks that can be done, to be done by a thread that doesn't have the board; None where
    /// none can.
    pub fn take_work(&mut self, alloc: Global) -> Option<Work<J>>
        ensures none { result ≡ None → offered_on (view_of self.new.board) (cuts_of self.new.board) ≡ [] }
        ensures running { IfSome result (λ work.
            is_running (slice_get (view_of self.new.board).progress work.ticket.slot) ≡ true) }
        ensures on { IfSome result (λ work. is_on told self.new.epoch (view_of self.new.board) work.ticket ≡ true) }
        ensures epoch { self.new.epoch ≡ self.old.epoch }
        ensures crew { self.new.crew ≡ self.old.crew }
    {
        let piece = self.take(alloc)?;
        Some(self.work_of(piece))
    }

    /// Work was done. What comes of an epoch that is over is thrown away. Gives back what is left to do of it.
    pub fn finish(&mut self, log: &Log, finished: Finished<J>) -> Left<J>
        requires log { log.now ≡ J.log }
        ensures board { view_of self.new.board ≡ finished_on self.old.epoch (view_of self.old.board)
            (cuts_of self.old.board) finished.ticket finished.spent.piece finished.outcome }
        ensures cuts { IsPut (cuts_of self.old.board) finished.ticket.slot (cut_on self.old.epoch
            (view_of self.old.board) (cuts_of self.old.board) finished.ticket finished.spent.piece finished.outcome)
            (cuts_of self.new.board) }
        ensures left { blocks_in result ≡ left_on self.old.epoch (view_of self.old.board) (cuts_of self.old.board)
            finished.ticket finished.spent.piece finished.outcome }
        ensures epoch { self.new.epoch ≡ self.old.epoch }
        ensures crew { self.new.crew ≡ self.old.crew }
    {
        let Finished {
            ticket,
            outcome,
            spent,
            ..
        } = finished;
        let Some(slot) = slot_of(&self.board, log, self.epoch, &ticket) else {
            return Left::Spent(spent);
        };
        match end(&mut self.board, slot, spent.piece, outcome) {
            Some(blocks) => {
                let reading = reading_of(&self.board, slot);
                Left::Joint(Joint {
                    ticket,
                    blocks,
                    spent,
                    reading,
                })
            }
            None => Left::Spent(spent),
        }
    }

    /// One hold more of a ticket's slot, where it is on the board.
    pub fn hold(&mut self, log: &Log, ticket: &Ticket<Note<J>>) -> Result<(), NoMemory>
        requires log { log.now ≡ J.log }
        ensures board { OnOk result (view_of self.new.board
            ≡ held_on self.old.epoch (view_of self.old.board) ticket.now) }
        ensures refused { OnErr result (view_of self.new.board ≡ view_of self.old.board) }
        ensures epoch { self.new.epoch ≡ self.old.epoch }
        ensures crew { self.new.crew ≡ self.old.crew }
    {
        if let Some(slot) = slot_of(&self.board, log, self.epoch, ticket) {
            self.board.hold(slot).map_err(|_| NoMemory)?;
        }
        Ok(())
    }

    /// One hold less. What nobody asks for any more isn't done. Gives back a share of the store, so that nobody who has
    /// the lock drops it.
    pub fn let_go(&mut self, log: &Log, ticket: &Ticket<Note<J>>) -> Option<Arc<Store>>
        requires log { log.now ≡ J.log }
        ensures tasks { (view_of self.new.board).tasks ≡ (view_of self.old.board).tasks }
        ensures notes { (view_of self.new.board).notes ≡ (view_of self.old.board).notes }
        ensures epoch { self.new.epoch ≡ self.old.epoch }
        ensures crew { self.new.crew ≡ self.old.crew }
    {
        let slot = slot_of(&self.board, log, self.epoch, ticket)?;
        let share = share_of(&self.board, slot);
        let _ = self.board.let_go(slot);
        give_up(&mut self.board, slot);
        share
    }

    /// Begins a new epoch with an empty board, in exchange for the old one.
    pub fn renew(&mut self, empty: &mut Board<Note<J>>) -> Result<(), NoMemory>
        requires { view_of empty.old ≡ empty_view }
        ensures board { OnOk result (view_of self.new.board ≡ empty_view) }
        ensures epoch { OnOk result (self.new.epoch ≡ self.old.epoch + 1) }
        ensures crew { self.new.crew ≡ self.old.crew }
        ensures refused { OnErr result ((self.new ≡ self.old) × (empty.new ≡ empty.old)) }
    {
        self.epoch = self.epoch.checked_add(1).ok_or(NoMemory)?;
        mem::swap(&mut self.board, empty);
        Ok(())
    }

    /// Whether a slot's store is still to come.
    pub fn is_to_come(&self, slot: u64) -> bool
        ensures { IsTrue result ↔ (seen_of (state_of (view_of self.now.board) slot) ≡ SeenUnfinished) }
    {
        matches!(self.board.look(slot), Look::Unfinished)
    }

    /// What there is to do for others once a slot was given for a recipe of so much work of its own. One task is left
    /// for the calling thread.
    pub fn demand_after(&self, slot: u64, own: u64) -> Demand {
        let tasks = self.board.offers().saturating_sub(1);
        if tasks == 0 {
            return Demand::none();
        }
        match entries_for(&self.board, slot) {
            Some(entries) => Demand::new(tasks, entries.saturating_add(own)),
            None => Demand::none(),
        }
    }

    /// What there is to do beside a piece that was taken.
    pub fn demand_beside(&self, piece: &Piece) -> Demand {
        let tasks = self.board.offers();
        if tasks == 0 {
            return Demand::none();
        }
        let work = work_in(piece);
        if piece.is_whole() {
            Demand::new(tasks, work)
        } else {
            Demand::of_pieces(tasks, work)
        }
    }

    /// What there is to do for others once a store was found. One task is left for the calling thread.
    pub fn demand_after_fetch(&self, found: &Result<Arc<Store>, Failed>) -> Demand {
        match found {
            Ok(store) => Demand::new(self.board.offers().saturating_sub(1), store.nvals()),
            Err(_) => Demand::none(),
        }
    }

    /// What the calling thread takes, which leaves the tasks to workers where so many are awake as can be at work at
    /// one time.
    pub fn take_beside(&mut self, alloc: Global) -> Option<Work<J>>
        ensures none { result ≡ None → self.old.crew.awake < self.old.crew.processors
            → offered_on (view_of self.new.board) (cuts_of self.new.board) ≡ [] }
        ensures epoch { self.new.epoch ≡ self.old.epoch }
        ensures crew { self.new.crew ≡ self.old.crew }
    {
        if !self.crew.has_room() {
            return None;
        }
        self.take_work(alloc)
    }

    /// How many workers are to be woken once a slot was given for a recipe of so much work of its own.
    pub fn call_after(&mut self, slot: u64, own: u64) -> u64
        ensures board { self.new.board ≡ self.old.board }
        ensures epoch { self.new.epoch ≡ self.old.epoch }
        ensures calls { Calls self.old.crew self.new.crew result }
    {
        if self.crew.sleeping == 0 {
            return 0;
        }
        let demand = self.demand_after(slot, own);
        self.crew.call(demand)
    }

    /// How many workers are to be woken by whoever took a piece.
    pub fn call_beside(&mut self, piece: &Piece) -> u64
        ensures board { self.new.board ≡ self.old.board }
        ensures epoch { self.new.epoch ≡ self.old.epoch }
        ensures calls { Calls self.old.crew self.new.crew result }
    {
        if self.crew.sleeping == 0 {
            return 0;
        }
        let demand = self.demand_beside(piece);
        self.crew.call(demand)
    }

    /// How many workers are to be woken once a store was found.
    pub fn call_after_fetch(&mut self, found: &Result<Arc<Store>, Failed>) -> u64
        ensures board { self.new.board ≡ self.old.board }
        ensures epoch { self.new.epoch ≡ self.old.epoch }
        ensures calls { Calls self.old.crew self.new.crew result }
    {
        let demand = self.demand_after_fetch(found);
        self.crew.call(demand)
    }

    /// Whether the calling thread is to be woken, which sleeps: its store has come, or there is a task that it can do.
    pub fn calls_caller(&mut self) -> bool
        ensures board { self.new.board ≡ self.old.board }
        ensures epoch { self.new.epoch ≡ self.old.epoch }
        ensures closing { self.new.crew.closing ≡ self.old.crew.closing }
        ensures sleeping { self.new.crew.sleeping ≡ self.old.crew.sleeping }
        ensures awaited { OnTrue result (self.new.crew.awaited ≡ None) }
    {
        let Some(slot) = self.crew.awaited else {
            return false;
        };
        let is_idle = self.board.offers() == 0 || !self.crew.has_room();
        if is_idle && self.is_to_come(slot) {
            return false;
        }
        self.crew.awaited = None;
        true
    }
}

/// How tasks that wait for a slot's store are to read it.
fn reading_of<N: Drop>(board: &Board<N>, slot: u64) -> Reading {
    if board.is_needed_joined(slot) {
        Reading::Joined
    } else if board.is_read(slot) {
        Reading::ByRows
    } else {
        Reading::Nobody
    }
}
