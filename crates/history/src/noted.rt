//! Notes of what was submitted, whatever they are places in.
ghost use Rattle.std.specs.Prelude.{◌≡◌, ◌==◌};
ghost use Rattle.std.specs.Bool.{OnTrue};
ghost use Rattle.history.specs.Histories.{Told};

/// A note of a place, which tells what was submitted there.
pub trait Noted: Drop {
    /// What it is a place in.
    type Log;

    // What it tells, and whether it is a place in a log.
    ghost told: { Self → Told };

    ghost is_of: { Self.Log → Type 0 };

    /// Another note of the same place.
    fn again(&self) -> Self
        ensures { told result ≡ told self.now };

    /// Whether both are of one place, and so of one object.
    fn agrees(&self, log: &Self::Log, other: &Self) -> bool
        requires log { is_of log.now }
        ensures place { result ≡ ((told self.now).place == (told other.now).place) }
        ensures same { OnTrue result (told self.now ≡ told other.now) };
}
