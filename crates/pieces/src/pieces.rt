//! The pieces of one task, and what was given for them.
ghost use Rattle.std.specs.Prelude.{◌≡◌, ◌<◌, ◌≤◌, ◌+◌, ◌↔◌, ◌⊎◌, IfOk, IfSome, None, OnErr, OnOk, length, nat_lt};
ghost use Rattle.std.specs.Option.{option_map};
ghost use Rattle.std.specs.Result.{result_map_both};
ghost use Rattle.kernel.specs.Covers.{Covers};
ghost use Rattle.pieces.specs.Parts.{AreParts, after_give, cut_at, end_of, given_to, start_of};

use crate::cutting::{ends_of, fits, start_of};
use crate::part::{Part, all_due, hand_out, was_given};
use kernel::Block;
use std::alloc::Global;
use std::marker::Model;
use std::mem;
use std::ops::Range;

/// Why a block wasn't accepted; nothing changed.
#[derive(Clone, Copy, Debug, PartialEq, Eq)]
pub enum Refused {
    /// The piece isn't out, or the block hasn't its rows.
    Stranger,
    /// A block was given for the piece before.
    Twice,
}

/// The pieces of one task: at least two, none of them without rows.
#[derive(Drop)]
pub struct Pieces {
    alloc: Global,
    /// Where each ends; the last with all rows.
    ends: Vec<u64>,
    /// How many were taken: always in order, from the first on.
    taken: usize,
    /// How many blocks are to come.
    left: usize,
    parts: Vec<Part>,
    /// An empty list with room for all blocks, until they are handed out.
    room: Vec<Block>,
}

impl Model for Pieces {
    ghost use Rattle.std.specs.Prelude.{vec_capacity};
    ghost use Rattle.pieces.specs.Parts.{Parts, IsKept, parts_of};

    ghost Value = { Parts };

    ghost view = { λ p. parts_of p.ends.items p.taken p.parts.items };

    ghost invariant = { λ p.
        IsKept (parts_of p.ends.items p.taken p.parts.items) p.left p.room.items (vec_capacity p.room) };
}

impl Pieces {
    /// The rows of a task, cut: at each cut that lies inside them and above every cut used before. None where no cut
    /// does, so that the task is one piece, or where there is no memory for the list of pieces and the room for their
    /// blocks. It goes once along the cuts, and takes memory for as many pieces as there come to be.
    pub fn cut(alloc: Global, rows: u64, cuts: &[u64]) -> Option<Pieces>
        ensures cut { IfSome result (λ pieces. pieces ≡ cut_at rows cuts.now) }
        ensures sound { IfSome result AreParts }
    {
        let ends = ends_of(alloc, rows, cuts).ok()?;
        let count = ends.len();
        if count < 2 {
            return None;
        }
        let parts = all_due(alloc, count).ok()?;
        let room = Vec::with_capacity(alloc, count).ok()?;
        Some(Pieces {
            alloc,
            ends,
            taken: 0,
            left: count,
            parts,
            room,
        })
    }

    /// Whether a piece is still to be taken.
    pub fn offers(&self) -> bool
        ensures { result ≡ nat_lt self.now.taken (length self.now.ends) }
    {
        self.taken < self.ends.len()
    }

    /// The next piece that nobody took, and its rows: it is out. None where all were taken.
    pub fn next(&mut self) -> Option<(u64, Range<u64>)>
        ensures none { (result ≡ None) ↔ (length self.old.ends ≤ self.old.taken) }
        ensures piece { IfSome result (λ next. next.0 ≡ self.old.taken) }
        ensures start { IfSome result (λ next. next.1.start ≡ start_of self.old.ends self.old.taken) }
        ensures end { IfSome result (λ next. next.1.end ≡ end_of self.old.ends self.old.taken) }
        ensures some_rows { IfSome result (λ next. next.1.start < next.1.end) }
        ensures inside { IfSome result (λ next. next.1.end ≤ self.old.rows) }
        ensures part { IfSome result (λ next. (0 < next.1.start) ⊎ (next.1.end < self.old.rows)) }
        ensures taken { IfSome result (λ next. self.new ≡ record self.old { taken = self.old.taken + 1 }) }
        ensures same { result ≡ None → self.new ≡ self.old }
        ensures sound { AreParts self.new }
    {
        let piece = self.taken;
        if piece >= self.ends.len() {
            return None;
        }
        let start = start_of(&self.ends, piece);
        let end = self.ends[piece];
        self.taken += 1;
        Some((piece as u64, start..end))
    }

    /// A block for a piece that is out. The blocks of all pieces, in the order of their rows, once the last is given.
    /// A block that is refused is dropped. It takes no memory, and but for the last block its time doesn't grow with
    /// the number of pieces.
    pub fn give(&mut self, piece: u64, block: Block) -> Result<Option<Vec<Block>>, Refused>
        ensures answer { result_map_both (option_map (λ blocks. blocks.items)) (λ refused. refused) result
            ≡ given_to self.old piece block }
        ensures given { OnOk result (self.new ≡ after_give self.old piece block) }
        ensures refused { OnErr result (self.new ≡ self.old) }
        ensures covers { IfOk result (λ o. IfSome o (λ blocks. Covers 0 self.old.rows blocks.items)) }
        ensures each { IfOk result (λ o. IfSome o (λ blocks. length blocks.items ≡ length self.old.ends)) }
        ensures sound { AreParts self.new }
    {
        if was_given(&self.parts, piece) {
            return Err(Refused::Twice);
        }
        let place = piece as usize;
        if place >= self.taken || !fits(&self.ends, place, &block) {
            return Err(Refused::Stranger);
        }
        self.parts[place] = Part::Given(block);
        self.left -= 1;
        if self.left > 0 {
            return Ok(None);
        }
        let room = mem::replace(&mut self.room, Vec::new(self.alloc));
        Ok(Some(hand_out(&mut self.parts, room)))
    }
}
