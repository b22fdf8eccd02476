//! The slot at a place among those that can be taken, which stand in two lists.
ghost use Rattle.std.specs.Prelude.{◌≡◌, ◌<◌, ◌+◌, ℕ, Bool as Test, length, true};
ghost use Rattle.stages.specs.Numbers.{numbers};
ghost use Rattle.board.specs.Picks.{IsPicked};

use stages::place_of;
use std::collections::VecDeque;

/// Where the slot at a place stands.
pub(crate) enum Picked {
    /// At a place among those whose tasks nobody took.
    Ready(usize),
    /// It is a slot of whose task a piece wasn't taken.
    Open(u64),
}

/// The slot at a place among those of two lists that rise and have no number in common, counted as if they stood in
/// one. Its time is that of finding each of the second list, up to the place, in the first.
pub(crate) fn picked_at(ready: &VecDeque<u64>, parted: &VecDeque<u64>, place: usize) -> Picked
    requires { place < length ready.now.items + length parted.now.items }
    ensures { (p q : ℕ → Test) (n : ℕ) → ready.now.items ≡ numbers p n → parted.now.items ≡ numbers q n
        → ((k : ℕ) → p k ≡ true → q k ≡ true → ⊥) → IsPicked p q n place result }
{
    for before in 0..parted.len() {
        let number = parted[before];
        let at = place_of(ready, number) + before;
        if at == place {
            return Picked::Open(number);
        }
        if at > place {
            return Picked::Ready(place - before);
        }
    }
    Picked::Ready(place - parted.len())
}
