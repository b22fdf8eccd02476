//! Functions of words alone, over the entries of fibers.
ghost use Rattle.std.specs.Prelude.{◌≡◌, IfOk};
ghost use Rattle.elementwise.specs.Mapped.{mapped};
ghost use Rattle.lanes.specs.Functions.{word_made};
ghost use Rattle.store.specs.Fibers.{AreFlat, entries_in};

use bitmap::{OneThread, WordMaker, Words};
use lanes::WordFunction;
use model::NoMemory;
use std::alloc::Global;
use store::{FiberLists, Fibers};

/// The entries of fibers with what a function gives for each word, in memory of their own.
pub(crate) fn map_fibers(
    alloc: Global,
    fibers: &Fibers<'_>,
    function: WordFunction,
) -> Result<FiberLists, NoMemory>
    ensures flat { IfOk result (λ lists. AreFlat lists.ends.items lists.inner.items lists.words.items) }
    ensures entries { IfOk result (λ lists. entries_in lists ≡ mapped (λ _ _. word_made function) fibers.now.entries) }
{
    let (ends, inner) = fibers.copy_places(alloc)?;
    let words = OneThread.make(
        alloc,
        Words::Mapped {
            function,
            a: fibers.words(),
        },
    )?;
    Ok(FiberLists { ends, inner, words })
}
