//! Which indices a list has, for many looks.
ghost use Rattle.std.specs.Prelude.{◌≡◌, ◌<◌, ℕ, false, get_or, length, IfOk};
ghost use Rattle.std.specs.List.Sorted.{IsNonDecreasing};
ghost use Rattle.shapes.specs.Lists.{IsPartIn, has_index};

use crate::listing::part_in;
use model::NoMemory;
use std::alloc::Global;
use std::ops::Range;

/// A list of indices in rising order, with marks for those up to its greatest one where that is low enough
/// beside its length and beside the number of looks.
#[derive(Drop)]
pub(crate) struct Members<'a> {
    pub sorted: &'a [u64],
    marks: Vec<bool>,
    ghost rises: { IsNonDecreasing sorted.now },
    ghost exact: { (i : ℕ) → i < length marks.items → get_or marks.items i false ≡ has_index sorted.now i },
}

// There are so many marks for each index of the list at the most, which together take as much memory, and for
// each look, which pays for them.
const MARKS: u64 = 8;

impl<'a> Members<'a> {
    /// The indices of a list, for so many looks. It takes time and memory for marks where the looks pay for
    /// them, else none.
    pub(crate) fn new(
        alloc: Global,
        sorted: &'a [u64],
        looks: usize,
    ) -> Result<Members<'a>, NoMemory>
        requires { IsNonDecreasing sorted.now }
        ensures { IfOk result (λ members. members.sorted.now ≡ sorted.now) }
    {
        let marks = marks_of(alloc, sorted, marked(sorted, looks))?;
        Ok(Members { sorted, marks })
    }

    /// Whether the list has an index: by its mark, or by a binary search.
    pub(crate) fn has(&self, index: u64) -> bool
        ensures { result ≡ has_index self.now.sorted.now index }
    {
        match self.marks.get(index as usize) {
            Some(mark) => *mark,
            None => has(self.sorted, index),
        }
    }

    /// The indices of the list in a range, in rising order; by two binary searches.
    pub(crate) fn part(&self, range: Range<u64>) -> &'a [u64]
        ensures rises { IsNonDecreasing result.now }
        ensures part { IsPartIn range.start range.end (has_index self.now.sorted.now) result.now }
    {
        part_in(self.sorted, range)
    }
}

/// How many indices, from 0 on, are marked for so many looks.
fn marked(sorted: &[u64], looks: usize) -> usize {
    match sorted.last() {
        Some(last) if *last / MARKS < sorted.len().min(looks) as u64 => *last as usize + 1,
        _ => 0,
    }
}

/// For each of so many indices, whether a list has it.
fn marks_of(alloc: Global, list: &[u64], count: usize) -> Result<Vec<bool>, NoMemory>
    ensures length { IfOk result (λ marks. length marks.items ≡ count) }
    ensures marks { IfOk result (λ marks. (i : ℕ) → i < length marks.items
        → get_or marks.items i false ≡ has_index list.now i) }
{
    let mut marks = Vec::new(alloc);
    if count == 0 {
        return Ok(marks);
    }
    marks.resize(count, false)?;
    for index in list {
        let at = *index as usize;
        if at < count {
            marks[at] = true;
        }
    }
    Ok(marks)
}

/// Whether a list that rises has an index; by a binary search.
fn has(sorted: &[u64], index: u64) -> bool
    requires { IsNonDecreasing sorted.now }
    ensures { result ≡ has_index sorted.now index }
{
    sorted.binary_search(&index).is_ok()
}
