//! Loops over words that depend on an operator: each is compiled for each operator, which is chosen
//! once a call. And lists of bits, which say at which places there is a word. Everything here is total
//! and takes no memory.
#![tactic(auto)]

mod arms;
mod binary;
mod bits;
mod bound;
mod casts;
mod function;
mod indexed;
mod monoid;
mod present;
mod unary;

pub use binary::{unite_words, zip_words};
pub use bits::{
    and_words, bits_from, clear_bit, count_ones, full_words, has_bit, lowest_bits, or_words,
    packed, set_bit, set_bit_by,
};
pub use bound::{bind_first, bind_second};
pub use casts::cast_words;
pub use function::WordFunction;
pub use indexed::{mark_passing, write_answers};
pub use monoid::fold_words;
pub use present::{fold_present, unite_present};
pub use unary::map_words;
