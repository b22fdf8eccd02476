//! Fibers behind others.
ghost use Rattle.std.specs.Prelude.{◌≡◌, ◌++◌, ◌∷◌, ◌-◌, ◌+◌, ◌<◌, ◌≤◌, ◌^◌, List, length, map, OnOk};
ghost use Rattle.std.specs.List.{All};
ghost use Rattle.model.specs.Entries.{Precedes};
ghost use Rattle.store.specs.Fibers.{AreFlat, AreOthers, end_back, end_on, entries_in, outer_at};
ghost use Rattle.store.specs.Parts.{HasPart};
ghost use Rattle.store.specs.Stored.{AreIn, along, content_of};
ghost use Rattle.store.specs.declared.lists.FiberEnd.{FiberEnd as End};

use model::NoMemory;
use std::ops::Range;
use store::{FiberEnd, FiberLists, Fibers, FlatFibers, Sparse};

/// Puts the rows of a store in a range behind those in the lists, as they lie. The range may be empty or reach
/// beyond the rows. The hint is for `Sparse::fibers_near`, and becomes that for a range behind this one.
pub fn append_rows(
    lists: &mut FiberLists,
    store: &Sparse,
    range: Range<u64>,
    hint: &mut usize,
) -> Result<(), NoMemory>
    requires flat { AreFlat lists.old.ends.items lists.old.inner.items lists.old.words.items }
    requires front { AreIn 0 range.start store.now.cols (along store.now.cols (entries_in lists.old)) }
    ensures { OnOk result
        (HasPart (content_of store.now) range.start range.end store.now.cols lists.old lists.new) }
{
    let (fibers, next) = store.fibers_near(range, *hint);
    *hint = next;
    append_walk(lists, &fibers)
}

/// Puts the fibers that are left on a walk behind those in the lists. What lies side by side is copied at once, so
/// that no entry is looked at, and only the lists take memory. Where the first fiber is at the outer index of the
/// last one, that one goes on.
fn append_walk(lists: &mut FiberLists, fibers: &Fibers<'_>) -> Result<(), NoMemory>
    requires flat { AreFlat lists.old.ends.items lists.old.inner.items lists.old.words.items }
    requires order { All (λ e. All (Precedes e) fibers.now.entries) (entries_in lists.old) }
    ensures flat { OnOk result (AreFlat lists.new.ends.items lists.new.inner.items lists.new.words.items) }
    ensures entries { OnOk result (entries_in lists.new ≡ entries_in lists.old ++ fibers.now.entries) }
{
    let FlatFibers {
        head,
        others,
        from,
        inner,
        words,
    } = fibers.flat();
    // Without entries the first fiber is none.
    if inner.is_empty() {
        return Ok(());
    }
    let to = lists.inner.len();
    lists.inner.extend_from_slice(inner)?;
    lists.words.extend_from_slice(words)?;
    let count = count_before(&lists.ends, head.outer);
    lists.ends.truncate(count);
    append_ends(&mut lists.ends, head, others, from, to)
}

/// How many fibers end before others of which the first is at an outer index: the last one, if it is there too,
/// goes on with them.
fn count_before(ends: &[FiberEnd], outer: u64) -> usize
    ensures { (part : List End) → 0 < length part → outer_at part 0 ≡ outer → AreOthers ends.now part result }
{
    let count = ends.len();
    if count > 0 && ends[count - 1].outer == outer {
        return count - 1;
    }
    count
}

/// Puts the ends of fibers behind others. The first of them begins at the place `from`, and will at the place `to`.
fn append_ends(
    ends: &mut Vec<FiberEnd>,
    head: FiberEnd,
    others: &[FiberEnd],
    from: usize,
    to: usize,
) -> Result<(), NoMemory>
    requires behind { All (λ r. from ≤ r.end) (head ∷ others.now) }
    requires fits { All (λ r. (r.end - from) + to < 2 ^ 64) (head ∷ others.now) }
    ensures { OnOk result (ends.new.items
        ≡ ends.old.items ++ map (end_on to) (map (end_back from) (head ∷ others.now))) }
{
    let count = ends.len();
    ends.push(head)?;
    ends.extend_from_slice(others)?;
    move_ends(&mut ends[count..], from, to);
    Ok(())
}

/// Moves the ends of fibers that begin at the place `from` to where they begin at the place `to`.
fn move_ends(ends: &mut [FiberEnd], from: usize, to: usize)
    requires behind { All (λ r. from ≤ r.end) ends.old }
    requires fits { All (λ r. (r.end - from) + to < 2 ^ 64) ends.old }
    ensures { ends.new ≡ map (end_on to) (map (end_back from) ends.old) }
{
    for fiber in ends.iter_mut() {
        fiber.end = fiber.end - from + to;
    }
}
