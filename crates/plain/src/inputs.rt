//! Objects as they are read.
ghost use Rattle.std.specs.Prelude.{◌≡◌};
ghost use Rattle.algebra.specs.Value.{cast_of};
ghost use Rattle.model.specs.Object.{in_domain, signature_of};
ghost use Rattle.plain.specs.Evaluated.{input_of, listed_word};

use crate::grid::Mapping;
use algebra::{Domain, cast};
use model::{Entry, Shape, Signature};

/// An object that is lent, and whether it is read transposed.
#[derive(Clone, Copy)]
pub struct Input<'a> {
    pub domain: Domain,
    /// The shape, before it is transposed.
    pub kept_shape: Shape,
    pub entries: &'a [Entry],
    pub is_transposed: bool,
}

impl Input<'_> {
    /// The shape as it is read.
    pub fn shape(self) -> Shape
        ensures { result ≡ (input_of self.entry).shape }
    {
        if self.is_transposed {
            self.kept_shape.transposed()
        } else {
            self.kept_shape
        }
    }

    /// The domain, and the shape as it is read.
    pub fn signature(self) -> Signature
        ensures { result ≡ signature_of (input_of self.entry) }
    {
        Signature {
            domain: self.domain,
            shape: self.shape(),
        }
    }

    /// The word at a position as it is read.
    pub fn word(self, row: u64, col: u64) -> Option<u64>
        ensures { result ≡ (input_of self.entry).content row col }
    {
        let (row, col) = if self.is_transposed && self.kept_shape.is_matrix() {
            (col, row)
        } else {
            (row, col)
        };
        if row < self.kept_shape.rows() && col < self.kept_shape.cols() {
            first_word(self.entries, row, col)
        } else {
            None
        }
    }

    /// The word at a position as it is read, in a domain.
    pub fn word_in(self, domain: Domain, row: u64, col: u64) -> Option<u64>
        ensures { result ≡ in_domain domain (input_of self.entry) row col }
    {
        let word = self.word(row, col);
        word.map(|word| cast(word, self.domain, domain))
    }

    /// A word of it in a domain.
    pub fn cast_word(self, word: u64, domain: Domain) -> u64
        ensures { result ≡ cast_of (input_of self.entry).domain domain word }
    {
        cast(word, self.domain, domain)
    }
}

impl Mapping for Input<'_> {
    ghost content = { λ input. (input_of input).content };

    fn at(&self, row: u64, col: u64) -> Option<u64> {
        self.word(row, col)
    }
}

/// An object whose values are read in a domain.
#[derive(Clone, Copy)]
pub struct InDomain<'a> {
    pub object: Input<'a>,
    pub domain: Domain,
}

impl Mapping for InDomain<'_> {
    ghost content = { λ values. in_domain values.domain (input_of values.object) };

    fn at(&self, row: u64, col: u64) -> Option<u64> {
        self.object.word_in(self.domain, row, col)
    }
}

/// The word of the first entry at a position.
fn first_word(entries: &[Entry], row: u64, col: u64) -> Option<u64>
    ensures { result ≡ listed_word entries.now row col }
{
    let entry = entries
        .iter()
        .find(|entry| row == entry.row && col == entry.col);
    entry.map(|entry| entry.word)
}
