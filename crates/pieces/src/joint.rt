//! Fibers of several blocks, whose lists are put together at the end.
ghost use Rattle.std.specs.Prelude.{◌≡◌, ◌+◌, ◌++◌, ◌<◌, ◌^◌, [], IfOk, OnOk, map, take, ℕ};
ghost use Rattle.std.specs.List.{All};
ghost use Rattle.pieces.specs.Joints.{IsBehind, IsOfFibers, entries_of, words_in};
ghost use Rattle.store.specs.Fibers.{AreOthers, end_on};
ghost use Rattle.store.specs.Stored.{AreIn, along};

use model::NoMemory;
use std::alloc::Global;
use std::thread;
use std::thread::Threads;
use store::{FiberEnd, FiberLists, RowBlock};

/// With so many entries a second thread copies one of the lists: to start it takes about a tenth of the time of that.
const WORTH_A_THREAD: usize = 1 << 18;

/// Lists that nobody needs any more, for joined ones to lie in their memory. What they hold doesn't matter.
#[derive(Drop)]
pub struct SpareLists {
    pub inner: Option<Vec<u64>>,
    pub words: Option<Vec<u64>>,
}

impl SpareLists {
    /// No lists.
    pub fn none() -> SpareLists {
        SpareLists {
            inner: None,
            words: None,
        }
    }
}

/// Fibers of blocks that follow one another: where they end, counted from the first block on, and their inner indices
/// and words, a list a block.
#[derive(Drop)]
pub(crate) struct Joint {
    alloc: Global,
    pub(crate) ends: Vec<FiberEnd>,
    pub(crate) count: usize,
    pub(crate) inner: Vec<Vec<u64>>,
    pub(crate) words: Vec<Vec<u64>>,
}

impl Joint {
    /// No fibers. It takes no memory.
    pub(crate) fn new(alloc: Global) -> Joint
        ensures ends { result.ends.items ≡ [] }
        ensures count { result.count ≡ 0 }
        ensures inner { result.inner.items ≡ [] }
        ensures words { result.words.items ≡ [] }
    {
        Joint {
            alloc,
            ends: Vec::new(alloc),
            count: 0,
            inner: Vec::new(alloc),
            words: Vec::new(alloc),
        }
    }

    /// Puts the fibers of a block behind the others.
    pub(crate) fn put(&mut self, block: RowBlock) -> Result<(), NoMemory>
        requires fibers { IsOfFibers self.old }
        requires front { AreIn 0 block.first block.cols (along block.cols (entries_of self.old)) }
        ensures { OnOk result (IsBehind block self.old self.new) }
    {
        let FiberLists { ends, inner, words } = block.into_lists();
        let Some(count) = self.count.checked_add(inner.len()) else {
            return Err(NoMemory);
        };
        put_ends(&mut self.ends, &ends, self.count)?;
        self.count = count;
        self.inner.push(inner)?;
        self.words.push(words)?;
        Ok(())
    }

    /// The lists of all fibers, in the memory of others where these suit.
    pub(crate) fn into_lists(
        self,
        rt: &impl Threads,
        spares: SpareLists,
    ) -> Result<FiberLists, NoMemory>
        ensures ends { IfOk result (λ lists. lists.ends.items ≡ self.ends.items) }
        ensures inner { IfOk result (λ lists. lists.inner.items ≡ words_in self.inner.items) }
        ensures words { IfOk result (λ lists. lists.words.items ≡ words_in self.words.items) }
    {
        let Joint {
            alloc,
            ends,
            count,
            inner,
            words,
        } = self;
        let (inner, words) = if count < WORTH_A_THREAD {
            (
                joined(alloc, spares.inner, inner, count),
                joined(alloc, spares.words, words, count),
            )
        } else {
            joined_beside(rt, alloc, spares, inner, words, count)
        };
        let inner = inner?;
        let words = words?;
        Ok(FiberLists { ends, inner, words })
    }
}

/// Puts the ends of a part, which are counted from the place `from` on, behind others. Where the first of its fibers is
/// at the outer index of the last one, that one goes on.
fn put_ends(ends: &mut Vec<FiberEnd>, part: &[FiberEnd], from: usize) -> Result<(), NoMemory>
    requires { All (λ r. r.end + from < 2 ^ 64) part.now }
    ensures { OnOk result ((count : ℕ) → AreOthers ends.old.items part.now count
        → ends.new.items ≡ take count ends.old.items ++ map (end_on from) part.now) }
{
    if let Some(last) = ends.last()
        && let Some(first) = part.first()
        && last.outer == first.outer
    {
        ends.pop();
    }
    ends.reserve(part.len())?;
    for fiber in part {
        ends.push(FiberEnd {
            outer: fiber.outer,
            end: fiber.end + from,
        })?;
    }
    Ok(())
}

/// Two lists of so many numbers each, put together at one time, the first by another thread if one can be started.
fn joined_beside(
    rt: &impl Threads,
    alloc: Global,
    spares: SpareLists,
    inner: Vec<Vec<u64>>,
    words: Vec<Vec<u64>>,
    count: usize,
) -> (Result<Vec<u64>, NoMemory>, Result<Vec<u64>, NoMemory>)
    ensures inner { IfOk result.0 (λ list. list.items ≡ words_in inner.items) }
    ensures words { IfOk result.1 (λ list. list.items ≡ words_in words.items) }
{
    let SpareLists {
        inner: spare,
        words: other,
    } = spares;
    thread::join(
        rt,
        move || -> Result<Vec<u64>, NoMemory>
            ensures { IfOk result (λ list. list.items ≡ words_in inner.items) }
        { joined(alloc, spare, inner, count) },
        move || -> Result<Vec<u64>, NoMemory>
            ensures { IfOk result (λ list. list.items ≡ words_in words.items) }
        { joined(alloc, other, words, count) },
    )
}

/// Lists of so many numbers in all, one behind the other: in the memory of one that nobody needs, or else in that of
/// the first one, which grows.
fn joined(
    alloc: Global,
    spare: Option<Vec<u64>>,
    parts: Vec<Vec<u64>>,
    count: usize,
) -> Result<Vec<u64>, NoMemory>
    ensures { IfOk result (λ list. list.items ≡ words_in parts.items) }
{
    let mut list = cleared(alloc, spare, count);
    for part in parts {
        if list.is_empty() && list.capacity() < count {
            list = part;
            list.try_reserve_exact(count.saturating_sub(list.len()))?;
        } else {
            list.extend_from_slice(&part)?;
        }
    }
    Ok(list)
}

/// An empty list: one that nobody needs, where it has room for so many numbers and for less than twice as many, or one
/// without memory.
pub(crate) fn cleared(alloc: Global, spare: Option<Vec<u64>>, count: usize) -> Vec<u64>
    ensures { result.items ≡ [] }
{
    match spare {
        Some(mut list) if list.capacity() >= count && list.capacity() / 2 < count => {
            list.clear();
            list
        }
        _ => Vec::new(alloc),
    }
}
