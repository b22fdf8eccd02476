//! Lists of indices.
ghost use Rattle.std.specs.Prelude.{◌≡◌, IfOk, MatchOption, nat_lt};
ghost use Rattle.std.specs.List.Sorted.{IsNonDecreasing};
ghost use Rattle.std.specs.List.{list_all};
ghost use Rattle.model.specs.Indices.{All, HasSorted, IsSortedFrom, These, are_below, are_distinct, count_of};
ghost use Rattle.model.specs.Indices.{is_distinct};

use crate::NoMemory;
use std::marker::Model;

/// Indices as a call lists them (`GrB_Index` arrays): all of a dimension in order (`GrB_ALL`), or these.
#[derive(Drop)]
pub struct IndexList {
    // Behind a pointer, since a call is moved from its line to its recipe.
    listed: Option<Box<Listed>>,
}

/// Indices in the order of their list, and in rising order.
#[derive(Drop)]
struct Listed {
    items: Vec<u64>,

    // None where the items rise as they are listed.
    sorted: Option<Vec<u64>>,
}

impl Listed {
    ghost use Rattle.model.specs.Indices.{IsSortedFrom};
    ghost use Rattle.std.specs.Option.{option_map_or};

    /// Keeps a copy of indices in rising order, where they do not rise themselves.
    fn new(items: Vec<u64>) -> Result<Listed, NoMemory>
        ensures items { IfOk result (λ listed. listed.items.items ≡ items.items) }
        ensures sorted { IfOk result (λ listed. IsSortedFrom listed.items.items
            (option_map_or (λ sorted. sorted.items) listed.sorted listed.items.items)) }
    {
        if items.is_sorted() {
            return Ok(Listed {
                items,
                sorted: None,
            });
        }
        let sorted = sorted_copy(&items)?;
        Ok(Listed {
            items,
            sorted: Some(sorted),
        })
    }

    /// The indices in rising order.
    fn sorted(&self) -> &[u64]
        ensures { result.now ≡ option_map_or (λ sorted. sorted.items) self.now.sorted self.now.items.items }
    {
        match &self.sorted {
            Some(sorted) => sorted.as_slice(),
            None => self.items.as_slice(),
        }
    }
}

impl Model for IndexList {
    ghost use Rattle.std.specs.Option.{option_map_or};
    ghost use Rattle.std.specs.Prelude.{IfSome};
    ghost use Rattle.model.specs.Indices.{All, Indices, IsSortedFrom, These};

    ghost Value = { Indices };

    ghost view = { λ l. option_map_or (λ listed. These listed.value.items.items) l.listed All };

    ghost invariant = { λ l. IfSome l.listed (λ listed. IsSortedFrom listed.value.items.items
        (option_map_or (λ sorted. sorted.items) listed.value.sorted listed.value.items.items)) };
}

impl IndexList {
    /// All indices of a dimension, in order. It takes no memory.
    pub fn all() -> IndexList
        ensures { result ≡ All }
    {
        IndexList { listed: None }
    }

    /// These indices. Where they do not rise, it keeps a copy of them in rising order.
    pub fn new(items: Vec<u64>) -> Result<IndexList, NoMemory>
        ensures { IfOk result (λ indices. indices ≡ These items.items) }
    {
        let alloc = *items.allocator();
        let listed = Box::new(alloc, Listed::new(items)?)?;
        Ok(IndexList {
            listed: Some(listed),
        })
    }

    /// How many they are, of a dimension of so many.
    pub fn count(&self, size: u64) -> u64
        ensures { result ≡ count_of size self.now }
    {
        match &self.listed {
            Some(listed) => listed.items.len() as u64,
            None => size,
        }
    }

    /// Whether each is below the size of a dimension. It looks at the greatest alone.
    pub fn are_below(&self, size: u64) -> bool
        ensures { result ≡ are_below size self.now }
    {
        match &self.listed {
            Some(listed) => are_below(size, listed.sorted()),
            None => true,
        }
    }

    /// Whether none is repeated.
    pub fn is_distinct(&self) -> bool
        ensures { result ≡ are_distinct self.now }
    {
        match &self.listed {
            Some(listed) => rises(listed.sorted()),
            None => true,
        }
    }

    /// The indices in the order of their list; None for all of a dimension.
    pub fn listed(&self) -> Option<&[u64]>
        ensures { MatchOption result (self.now ≡ All) (λ items. self.now ≡ These items.now) }
    {
        match &self.listed {
            Some(listed) => Some(listed.items.as_slice()),
            None => None,
        }
    }

    /// The indices in rising order, each as often as it is listed; None for all of a dimension.
    pub fn sorted(&self) -> Option<&[u64]>
        ensures { MatchOption result (self.now ≡ All) (λ sorted. HasSorted self.now sorted.now) }
    {
        match &self.listed {
            Some(listed) => Some(listed.sorted()),
            None => None,
        }
    }
}

/// The same numbers in rising order.
fn sorted_copy(items: &Vec<u64>) -> Result<Vec<u64>, NoMemory>
    ensures { IfOk result (λ sorted. IsSortedFrom items.now.items sorted.items) }
{
    let mut sorted = items.clone()?;
    sorted.sort_unstable();
    Ok(sorted)
}

/// Whether all numbers are below a bound. Since they rise, it looks at the last alone.
fn are_below(size: u64, sorted: &[u64]) -> bool
    requires { IsNonDecreasing sorted.now }
    ensures { result ≡ list_all (λ i. nat_lt i size) sorted.now }
{
    match sorted.last() {
        Some(last) => *last < size,
        None => true,
    }
}

/// Whether none of numbers that rise is repeated.
fn rises(sorted: &[u64]) -> bool
    requires { IsNonDecreasing sorted.now }
    ensures { result ≡ is_distinct sorted.now }
{
    for k in 1..sorted.len() {
        if sorted[k - 1] == sorted[k] {
            return false;
        }
    }
    true
}
