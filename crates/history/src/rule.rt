//! What holds of a history, and its one step.
use crate::made::Made;
use logbook::{Gain, Play, Rule};

/// The rule of a history: its word is its length.
pub struct Law;

impl Rule<Made, ()> for Law {
    ghost use Rattle.std.specs.Prelude.{[]};
    ghost use base.Fml.{ftrue};
    ghost use Rattle.history.specs.Histories.{IsKept};

    ghost holds = { λ cells log. IsKept cells log };

    ghost first = { [] };

    ghost hinted = { λ n log. Unit {0} };

    ghost shows = { λ log. [] };

    ghost keeps = { λ names log. ftrue };

    ghost moves = { λ ask before after answer. Unit {0} };
}

/// Callers trade nothing.
pub struct Nothing;

impl Gain<Made, ()> for Nothing {
    ghost use base.Fml.{ftrue};

    ghost after = { λ names about answer. ftrue };
}

/// A step that adds what a recipe makes.
pub struct Add;

impl Play<Made, ()> for Add {
    ghost use Rattle.history.specs.Histories.{Adds};

    ghost then = { Adds };
}
