//! What there is of slots.
ghost use Rattle.std.specs.Prelude.{◌≡◌, slice_get};
ghost use Rattle.std.specs.Option.{option_and_then};
ghost use Rattle.board.specs.Looks.{is_seen_gone, seen_at, seen_in, store_in};
ghost use Rattle.stages.specs.Stages.{stored_in};

use crate::look::Look;
use stages::Stage;

/// What there is of a slot at its stage.
pub(crate) fn look_at(stages: &[Stage], number: u64) -> Look<'_>
    ensures seen { seen_in result ≡ seen_at (slice_get stages.now number) }
    ensures store { store_in result ≡ option_and_then stored_in (slice_get stages.now number) }
{
    match stages.get(number as usize) {
        Some(Stage::Done(store)) => Look::Done(store),
        Some(Stage::Failed) => Look::Failed,
        Some(Stage::Gone) => Look::Gone,
        Some(Stage::Moved) => Look::Gone,
        Some(_) => Look::Unfinished,
        None => Look::Gone,
    }
}

/// Whether nothing is there of a slot, or no slot has the number.
pub(crate) fn is_gone(stages: &[Stage], number: u64) -> bool
    ensures { result ≡ is_seen_gone (seen_at (slice_get stages.now number)) }
{
    matches!(look_at(stages, number), Look::Gone)
}
