//! The tests of outputs: their masks and their accumulators.
ghost use Rattle.std.specs.Prelude.{◌≡◌, true};
ghost use Rattle.std.specs.Option.{option_map_or};
ghost use Rattle.model.specs.Fault.{accumulates, mask_passes, serves_as_mask};
ghost use Rattle.model.specs.Object.{same_kind, same_shape};

use crate::call::Out;
use crate::shape::Signature;
use algebra::{Domain, OpName};

impl Out<Signature> {
    /// Whether the mask, where there is one, is a matrix or a vector as the output is.
    pub fn mask_is_of_kind(&self) -> bool
        ensures { result ≡ mask_passes (λ mask. same_kind mask.shape self.now.c.shape) self.now }
    {
        match self.mask {
            Some(mask) => mask.shape.is_like(self.c.shape),
            None => true,
        }
    }

    /// Whether the mask, where there is one, has the output's shape.
    pub fn mask_fits(&self) -> bool
        ensures { result ≡ mask_passes (λ mask. same_shape mask.shape self.now.c.shape) self.now }
    {
        match self.mask {
            Some(mask) => mask.shape.is_same(self.c.shape),
            None => true,
        }
    }

    /// Whether the mask, where there is one, serves as a mask.
    pub fn mask_serves(&self) -> bool
        ensures { result ≡ mask_passes (serves_as_mask self.now.desc) self.now }
    {
        match self.mask {
            Some(mask) => self.desc.structure || mask.domain.is_built_in(),
            None => true,
        }
    }

    /// Whether the accumulator, where there is one, can accumulate values of the output's domain.
    pub fn accumulator_serves(&self) -> bool
        ensures { result ≡ option_map_or (accumulates self.now.c.domain) self.now.accum true }
    {
        accumulator_serves(self.c.domain, self.accum)
    }
}

/// Whether an operator, where there is one, can accumulate values of a domain.
pub fn accumulator_serves(domain: Domain, accum: Option<OpName>) -> bool
    ensures { result ≡ option_map_or (accumulates domain) accum true }
{
    match accum {
        Some(op) => op.is_offered() && op.domain.is_same(domain) && op.answer().is_same(domain),
        None => true,
    }
}
