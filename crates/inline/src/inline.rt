//! The runner that does all work when a store is asked for.
ghost use Rattle.std.specs.Prelude.{◌≡◌};
ghost use Rattle.board.specs.Boards.{cuts_of, view_of};
ghost use Rattle.desk.specs.Desks.{AreTold, object_in, told};
ghost use Rattle.desk.specs.Ends.{IsIdle};
ghost use Rattle.desk.specs.Works.{AreUncut};

use crate::work::finish;
use board::Board;
use calls::{Recipe, Roles};
use desk::{Picker, Spares, Ticket, give_up, notes_of, place, share_of, slot_of};
use history::{History, Naming, Note, Noted};
use model::NoMemory;
use runner::{Failed, Runner};
use std::alloc::Global;
use std::sync::Arc;
use store::Store;

/// Does all work on the calling thread, inside `fetch`, in the order in which a picker picks it.
#[derive(Drop)]
pub struct Inline<J: Naming, P: Picker + Drop> {
    alloc: Global,
    picker: P,
    pub epoch: u64,
    history: History,
    board: Board<Note<J>>,
    spares: Spares,
    ghost named: { history ≡ J.book },
    ghost told: { AreTold told (view_of board) },
    ghost uncut: { AreUncut (cuts_of board) },
    ghost idle: { IsIdle (view_of board).progress },
}

impl<J: Naming, P: Picker + Drop> Inline<J, P> {
    /// A runner that has nothing to do, whose history has the name of its type.
    pub fn new(alloc: Global, history: History, picker: P) -> Inline<J, P>
        requires { history ≡ J.book }
        ensures { result.epoch ≡ 0 }
    {
        Inline {
            alloc,
            picker,
            epoch: 0,
            history,
            board: Board::new(alloc),
            spares: Spares::new(alloc),
        }
    }
}

impl<J: Naming, P: Picker + Drop> Runner for Inline<J, P> {
    type Ticket = Ticket<Note<J>>;

    ghost object_of = { object_in told };

    ghost epoch = { λ r. r.epoch };

    ghost born = { λ t. t.epoch };

    fn submit(
        &mut self,
        recipe: Recipe,
        inputs: Roles<&Ticket<Note<J>>>,
    ) -> Result<Ticket<Note<J>>, NoMemory> {
        let Some(note) = self.history.note(&recipe, notes_of(&inputs)) else {
            return Err(NoMemory);
        };
        let slot = place(
            &mut self.board,
            &self.history,
            self.epoch,
            note.again(),
            recipe,
            &inputs,
        )?;
        Ok(Ticket {
            epoch: self.epoch,
            slot,
            note,
        })
    }

    fn fetch(&mut self, ticket: &Ticket<Note<J>>) -> Result<Arc<Store>, Failed> {
        let Some(slot) = slot_of(&self.board, &self.history, self.epoch, ticket) else {
            return Err(Failed);
        };
        finish(
            self.alloc,
            &mut self.picker,
            &mut self.spares,
            &mut self.board,
            slot,
        )
    }

    fn hold(&mut self, ticket: &Ticket<Note<J>>) -> Result<Ticket<Note<J>>, NoMemory> {
        if let Some(slot) = slot_of(&self.board, &self.history, self.epoch, ticket) {
            self.board.hold(slot).map_err(|_| NoMemory)?;
        }
        Ok(Ticket {
            epoch: ticket.epoch,
            slot: ticket.slot,
            note: ticket.note.again(),
        })
    }

    fn let_go(&mut self, ticket: Ticket<Note<J>>) {
        if let Some(slot) = slot_of(&self.board, &self.history, self.epoch, &ticket) {
            let share = share_of(&self.board, slot);
            let _ = self.board.let_go(slot);
            give_up(&mut self.board, slot);
            self.spares.drop_share(share);
        }
    }

    fn renew(&mut self) -> Result<(), NoMemory> {
        self.epoch = self.epoch.checked_add(1).ok_or(NoMemory)?;
        self.board.clear();
        Ok(())
    }
}
