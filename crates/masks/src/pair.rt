//! Two sides that have one fiber each, at one outer index.
ghost use Rattle.std.specs.Prelude.{◌≡◌, ◌<◌, ◌≤◌, ◌++◌, ℕ, length, slice_range, IfNone, IfSome, OnOk};
ghost use Rattle.std.specs.List.{All, AllPairs};
ghost use Rattle.store.specs.Fibers.{entries_along};

use model::NoMemory;
use std::ops::Range;
use store::{FiberLists, Fibers, FlatFibers};

/// The inner indices of a fiber, which rise, and its words.
#[derive(Clone, Copy)]
pub(crate) struct Fiber<'a> {
    pub(crate) inner: &'a [u64],
    pub(crate) words: &'a [u64],
}

/// Two fibers at one outer index.
#[derive(Clone, Copy)]
pub(crate) struct Pair<'a> {
    pub(crate) outer: u64,
    pub(crate) left: Fiber<'a>,
    pub(crate) right: Fiber<'a>,
}

/// The two fibers where each side has one, and both are at one outer index.
pub(crate) fn pair_of<'a>(left: &Fibers<'a>, right: &Fibers<'a>) -> Option<Pair<'a>>
    ensures left { IfSome result (λ pair. left.now.entries
        ≡ entries_along pair.outer pair.left.inner.now pair.left.words.now) }
    ensures right { IfSome result (λ pair. right.now.entries
        ≡ entries_along pair.outer pair.right.inner.now pair.right.words.now) }
    ensures left_words { IfSome result (λ pair. length pair.left.words.now ≡ length pair.left.inner.now) }
    ensures right_words { IfSome result (λ pair. length pair.right.words.now ≡ length pair.right.inner.now) }
    ensures left_rises { IfSome result (λ pair. AllPairs (λ x y. x < y) pair.left.inner.now) }
    ensures right_rises { IfSome result (λ pair. AllPairs (λ x y. x < y) pair.right.inner.now) }

    // No two fibers with entries at one outer index are passed over.
    ensures none { IfNone result ((outer : ℕ) → 0 < length left.now.entries → 0 < length right.now.entries
        → All (λ e. e.row ≡ outer) left.now.entries → All (λ e. e.row ≡ outer) right.now.entries → ⊥) }
{
    let (outer, left) = only_fiber(left)?;
    let (right_outer, right) = only_fiber(right)?;
    if right_outer != outer {
        return None;
    }
    Some(Pair { outer, left, right })
}

/// The one fiber and its outer index, where there is no other.
fn only_fiber<'a>(fibers: &Fibers<'a>) -> Option<(u64, Fiber<'a>)>
    ensures some { IfSome result (λ found. 0 < length fibers.now.entries) }
    ensures entries { IfSome result (λ found. fibers.now.entries
        ≡ entries_along found.0 found.1.inner.now found.1.words.now) }
    ensures words { IfSome result (λ found. length found.1.words.now ≡ length found.1.inner.now) }
    ensures rises { IfSome result (λ found. AllPairs (λ x y. x < y) found.1.inner.now) }
    ensures none { IfNone result ((outer : ℕ) → 0 < length fibers.now.entries
        → All (λ e. e.row ≡ outer) fibers.now.entries → ⊥) }
{
    let FlatFibers {
        head,
        others,
        inner,
        words,
        ..
    } = fibers.flat();
    if inner.is_empty() || !others.is_empty() {
        return None;
    }
    Some((head.outer, Fiber { inner, words }))
}

/// Puts the entries of a fiber at some places behind the inner indices and words.
#[inline(always)]
pub(crate) fn append_run(
    lists: &mut FiberLists,
    fiber: Fiber<'_>,
    places: Range<usize>,
) -> Result<(), NoMemory>
    requires words { length fiber.words.now ≡ length fiber.inner.now }
    requires low { places.start ≤ places.end }
    requires high { places.end ≤ length fiber.inner.now }
    ensures ends { lists.new.ends ≡ lists.old.ends }
    ensures inner { OnOk result (lists.new.inner.items
        ≡ lists.old.inner.items ++ slice_range fiber.entry.inner.now places.start places.end) }
    ensures words { OnOk result (lists.new.words.items
        ≡ lists.old.words.items ++ slice_range fiber.entry.words.now places.start places.end) }
{
    let Range { start, end } = places;
    lists.inner.extend_from_slice(&fiber.inner[start..end])?;
    lists.words.extend_from_slice(&fiber.words[start..end])?;
    Ok(())
}
