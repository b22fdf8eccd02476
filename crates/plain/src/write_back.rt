//! Mask, accumulator and write-back, one position at a time.
ghost use Rattle.std.specs.Prelude.{◌≡◌, true};
ghost use Rattle.model.specs.WriteBack.{accumulated_by, has_position, mask_set, result_of};
ghost use Rattle.plain.specs.Environments.{are_operators, landed_in, operation_in, out_in};
ghost use Rattle.plain.specs.Evaluated.{accumulator_offered, input_of};

use crate::environment::PlainEnvironment;
use crate::inputs::Input;
use crate::operations::is_written;
use crate::sums::added;
use algebra::{BinaryOp, Domain, OpName, cast};
use model::{Desc, Operation, Out};

impl PlainEnvironment {
    /// What an operation leaves at a position of its output.
    #[tactic(auto, unfolding(model::specs::WriteBack::result_of))]
    pub(crate) fn result_at(
        &self,
        out: &Out<&str>,
        operation: &Operation<&str>,
        row: u64,
        col: u64,
    ) -> Option<u64>
        requires { are_operators out.now operation.now ≡ true }
        ensures { result ≡ result_of (out_in self.now out.now) (operation_in self.now operation.now) row col }
    {
        if self.is_in_mask_set(out, row, col) {
            self.landed_at(out, operation, row, col)
        } else if out.desc.replace {
            None
        } else {
            self.object(out.c).word(row, col)
        }
    }

    /// What stands at a position of the mask set: what is computed, with what was there, where the
    /// operation writes.
    fn landed_at(
        &self,
        out: &Out<&str>,
        operation: &Operation<&str>,
        row: u64,
        col: u64,
    ) -> Option<u64>
        requires { are_operators out.now operation.now ≡ true }
        ensures { result ≡ landed_in (out_in self.now out.now) (operation_in self.now operation.now) row col }
    {
        let c = self.signature(out.c);
        let old = self.object(out.c).word(row, col);
        if !is_written(c.shape, operation, row, col) {
            return old;
        }
        let value = self.value_at(c, out.desc, operation, row, col);
        let domain = self.plan(c, out.desc, operation).domain;
        let value = value.map(|word| cast(word, domain, c.domain));
        accumulated_by(out.accum, old, value)
    }

    /// Whether a position is in the mask set.
    fn is_in_mask_set(&self, out: &Out<&str>, row: u64, col: u64) -> bool
        ensures { result ≡ mask_set (out_in self.now out.now) row col }
    {
        let is_in = match out.mask {
            Some(mask) => has_position(out.desc, self.object(mask), row, col),
            None => true,
        };
        is_in != out.desc.complement
    }
}

/// Whether a mask has a position.
fn has_position(desc: Desc, mask: Input<'_>, row: u64, col: u64) -> bool
    ensures { result ≡ has_position desc (input_of mask.entry) row col }
{
    match mask.word(row, col) {
        Some(word) => desc.structure || mask.cast_word(word, Domain::Bool) == 1,
        None => false,
    }
}

/// A new value, and the old one by the accumulator, if there is one.
fn accumulated_by(accum: Option<OpName>, old: Option<u64>, new: Option<u64>) -> Option<u64>
    requires { accumulator_offered accum ≡ true }
    ensures { result ≡ accumulated_by accum old new }
{
    match accum {
        Some(op) => added(BinaryOp::of(op.kind, op.domain), old, new),
        None => new,
    }
}
