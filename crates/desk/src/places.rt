//! Slots of tickets.
ghost use Rattle.std.specs.Prelude.{◌≡◌, IfSome, None, Some, if◌then◌else◌};
ghost use Rattle.std.specs.Option.{option_map};
ghost use Rattle.board.specs.Boards.{view_of};
ghost use Rattle.stages.specs.Tasks.{object_at};
ghost use Rattle.calls.specs.declared.role.Role.{Role as AnyRole};
ghost use Rattle.calls.specs.Roles.{role_of};
ghost use Rattle.desk.specs.Desks.{AreTold, IsPlaceOf, is_on, object_in};
ghost use Rattle.runner.specs.Tickets.{lent_in};

use crate::ticket::Ticket;
use board::Board;
use calls::Roles;
use history::Noted;

/// The slot of a ticket, where it is on the board.
pub fn slot_of<N: Noted>(
    board: &Board<N>,
    log: &N::Log,
    epoch: u64,
    ticket: &Ticket<N>,
) -> Option<u64>
    requires log { N.is_of log.now }
    requires told { AreTold N.told (view_of board.now) }
    ensures slot { result ≡ (if is_on N.told epoch (view_of board.now) ticket.now then Some ticket.now.slot else None) }
    ensures object { IfSome result (λ slot.
        object_at (view_of board.now).tasks slot ≡ object_in N.told ticket.now) }
    ensures epoch { IfSome result (λ slot. ticket.now.epoch ≡ epoch) }
{
    if ticket.epoch != epoch {
        return None;
    }
    let note = board.note(ticket.slot)?;
    if note.agrees(log, &ticket.note) {
        Some(ticket.slot)
    } else {
        None
    }
}

/// The slots of the tickets that take roles, where all are on the board.
pub(crate) fn places_of<N: Noted>(
    board: &Board<N>,
    log: &N::Log,
    epoch: u64,
    tickets: &Roles<&Ticket<N>>,
) -> Option<Roles<u64>>
    requires log { N.is_of log.now }
    requires told { AreTold N.told (view_of board.now) }
    ensures { IfSome result (λ places. (role : AnyRole)
        → IsPlaceOf N.told (view_of board.now).tasks (role_of places role) (lent_in tickets.now role)) }
{
    Some(Roles {
        old: place_of(board, log, epoch, tickets.old)?,
        mask: place_of(board, log, epoch, tickets.mask)?,
        first: place_of(board, log, epoch, tickets.first)?,
        second: place_of(board, log, epoch, tickets.second)?,
    })
}

/// The slot of a ticket in a role, where there is one; None where it isn't on the board.
fn place_of<N: Noted>(
    board: &Board<N>,
    log: &N::Log,
    epoch: u64,
    ticket: Option<&Ticket<N>>,
) -> Option<Option<u64>>
    requires log { N.is_of log.now }
    requires told { AreTold N.told (view_of board.now) }
    ensures { IfSome result (λ place.
        IsPlaceOf N.told (view_of board.now).tasks place (option_map (λ t. t.now) ticket.entry)) }
{
    match ticket {
        Some(ticket) => Some(Some(slot_of(board, log, epoch, ticket)?)),
        None => Some(None),
    }
}

/// The notes of tickets, in the same roles.
pub fn notes_of<'a, N: Noted>(tickets: &Roles<&'a Ticket<N>>) -> Roles<&'a N>
    ensures { (role : AnyRole) → lent_in result role ≡ option_map (λ t. t.note) (lent_in tickets.now role) }
{
    Roles {
        old: note_of(tickets.old),
        mask: note_of(tickets.mask),
        first: note_of(tickets.first),
        second: note_of(tickets.second),
    }
}

/// The note of a ticket, where there is one.
fn note_of<N: Noted>(ticket: Option<&Ticket<N>>) -> Option<&N>
    ensures { option_map (λ note. note.now) result ≡ option_map (λ t. t.now.note) ticket.entry }
{
    Some(&ticket?.note)
}
