//! The mask and the accumulator of a task's output.
ghost use Rattle.std.specs.Prelude.{◌≡◌, ℕ};
ghost use Rattle.std.specs.Option.{option_map};
ghost use Rattle.algebra.specs.OperatorNames.{op_named};
ghost use Rattle.kernel.specs.Blocks.{HasShape};
ghost use Rattle.kernel.specs.Tasks.{out_of};
ghost use Rattle.masks.specs.Masks.{lets_through};
ghost use Rattle.model.specs.Object.{cols_of, rows_of};
ghost use Rattle.model.specs.WriteBack.{mask_set};

use crate::task::Task;
use algebra::BinaryOp;
use masks::{Mask, MaskTest, StoredMask};

/// The positions that a task writes.
pub(crate) fn mask_of<'a>(task: &Task<'a>) -> Mask<'a>
    ensures set { (i j : ℕ) → mask_set (out_of task.now) i j ≡ lets_through result i j }
    ensures shape { HasShape (rows_of task.now.out.c.signature.shape) (cols_of task.now.out.c.signature.shape) result }
{
    let desc = task.out.desc;
    match task.out.mask {
        Some(mask) => Mask::By(StoredMask {
            store: mask.store,
            test: MaskTest {
                valued: !desc.structure,
                complement: desc.complement,
            },
        }),
        None if desc.complement => Mask::Nowhere,
        None => Mask::Everywhere,
    }
}

/// The operator that accumulates, where there is one.
pub(crate) fn accumulator_of(task: &Task<'_>) -> Option<BinaryOp>
    ensures { option_map op_named result ≡ task.now.out.accum }
{
    let op = task.out.accum?;
    match op.resolve() {
        Some(op) => Some(op),
        None => unreachable!(),
    }
}
