//! Masks as they are read.
ghost use Rattle.std.specs.Prelude.{◌≡◌, IfOk, not};
ghost use Rattle.masks.specs.Masks.{IsRead, counts};

use crate::MarkedMask;
use model::NoMemory;
use std::alloc::Global;
use store::{AsSparse, Form, Sparse, Store};

/// The positions that a call writes.
#[derive(Clone, Copy)]
pub enum Mask<'a> {
    /// All: there is no mask.
    Everywhere,
    /// None: the complement of no mask (`GrB_COMP`).
    Nowhere,
    /// Those that a store has, or the others.
    By(StoredMask<'a>),
}

/// The positions that a store lets through.
#[derive(Clone, Copy)]
pub struct StoredMask<'a> {
    pub store: &'a Store,
    pub test: MaskTest,
}

/// The same, of a store whose entries are lists, for whoever goes along these.
#[derive(Clone, Copy)]
pub struct SparseMask<'a> {
    pub store: &'a Sparse,
    pub test: MaskTest,
}

/// A mask's store in the form in which it is read.
#[derive(Drop)]
pub enum ReadMask<'a> {
    /// As lists, to go along.
    Listed(AsSparse<'a>),
    /// As a bitmap, to ask.
    Marked(MarkedMask<'a>),
}

/// Which positions a mask's store lets through, by the word that stands there, if any.
#[derive(Clone, Copy)]
pub struct MaskTest {
    /// Whether the store has a position only where its word is not 0, and not by its structure alone
    /// (`GrB_STRUCTURE`).
    pub valued: bool,
    /// Whether the positions that the store doesn't have are let through, and not those that it has
    /// (`GrB_COMP`).
    pub complement: bool,
}

impl<'a> StoredMask<'a> {
    /// The mask in the form in which whoever goes by it should read it: the bitmap of a column is asked where the mask
    /// lets the other positions than its own through, since to ask for each of these takes less than to make lists.
    pub fn read(self, alloc: Global) -> Result<ReadMask<'a>, NoMemory>
        ensures { IfOk result (λ found. IsRead self.entry found) }
    {
        let test = self.test;
        match self.store.form() {
            Form::Bitmap(bitmap) if test.complement && bitmap.cols() == 1 => {
                Ok(ReadMask::Marked(MarkedMask { bitmap, test }))
            }
            _ => Ok(ReadMask::Listed(self.store.as_sparse(alloc)?)),
        }
    }

    /// The mask that lets the other positions through.
    pub(crate) fn complement(self) -> StoredMask<'a>
        ensures store { result.store ≡ self.entry.store }
        ensures valued { result.test.valued ≡ self.entry.test.valued }
        ensures complement { result.test.complement ≡ not self.entry.test.complement }
    {
        let test = MaskTest {
            complement: !self.test.complement,
            ..self.test
        };
        StoredMask { test, ..self }
    }
}

impl MaskTest {
    /// Whether the store has a position where this word stands.
    #[inline(always)]
    pub fn counts(self, word: u64) -> bool
        ensures { result ≡ counts self.valued word }
    {
        !self.valued | (word != 0)
    }
}
