//! Words by a function of a word alone.
ghost use Rattle.std.specs.Prelude.{◌≡◌, length, map};
ghost use Rattle.lanes.specs.Functions.{word_made};

use crate::{bind_first, bind_second, map_words};
use algebra::{BinaryOp, UnaryOp};

/// A function of a word alone.
#[derive(Clone, Copy)]
pub enum WordFunction {
    /// A unary operator.
    Unary(UnaryOp),
    /// A binary operator whose first operand is a word.
    First { op: BinaryOp, value: u64 },
    /// A binary operator whose second operand is a word.
    Second { op: BinaryOp, value: u64 },
}

impl WordFunction {
    /// Makes each word of `out` what the function gives for the word in its place.
    pub fn write(self, words: &[u64], out: &mut [u64])
        requires { length words.now ≡ length out.old }
        ensures { out.new ≡ map (word_made self) words.now }
    {
        match self {
            WordFunction::Unary(op) => map_words(op, words, out),
            WordFunction::First { op, value } => bind_first(op, value, words, out),
            WordFunction::Second { op, value } => bind_second(op, words, value, out),
        }
    }
}
