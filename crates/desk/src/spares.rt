//! Memory of stores that nobody needs any more.
use crate::amounts::work_in;
use board::Piece;
use kernel::makes_lists;
use pieces::SpareLists;
use std::alloc::Global;
use std::sync::Arc;
use store::Store;

/// To keep a shorter list takes about as long as to have memory for it and to clear that.
const LEAST_WORDS: usize = 1 << 11;

/// Bitmaps of so many words have so many entries at the least, as a rule: a store of fewer is dropped without a look at
/// it, and work on fewer needs no list.
const LEAST_ENTRIES: u64 = 1 << 8;

/// How many lists are kept: those of two stores.
const MOST: usize = 4;

/// The lists of stores that were dropped: the words of bitmaps, and the words and inner indices of lists. Those of
/// others are made in their memory: to have fresh memory from the system, page by page, and to clear it takes longer
/// than to write it.
#[derive(Drop)]
pub struct Spares {
    // The one that is let go first is in front.
    lists: Vec<Vec<u64>>,
}

impl Spares {
    /// No lists.
    pub fn new(alloc: Global) -> Spares {
        Spares {
            lists: Vec::new(alloc),
        }
    }

    /// One of the lists; `put_back` brings it back where it had no use.
    pub fn take(&mut self) -> Option<Vec<u64>> {
        self.lists.pop()
    }

    /// Lists that have room for so many entries, as far as there are any.
    pub fn take_lists(&mut self, count: usize) -> SpareLists {
        if count < LEAST_WORDS {
            return SpareLists::none();
        }
        SpareLists {
            inner: self.take_with_room(count),
            words: self.take_with_room(count),
        }
    }

    /// The first list that has room for so many words and for less than twice as many, out of its place.
    fn take_with_room(&mut self, count: usize) -> Option<Vec<u64>> {
        let place = self.lists.iter().position(|list| list.capacity() >= count
            && list.capacity() / 2 < count)?;
        Some(self.lists.remove(place))
    }

    /// Keeps a list, in the place of the first one if there are enough, which it gives back.
    pub fn put(&mut self, list: Vec<u64>) -> Option<Vec<u64>> {
        let gone = if self.lists.len() >= MOST {
            Some(self.lists.remove(0))
        } else {
            None
        };
        let _ = self.lists.push(list);
        gone
    }

    /// Keeps a list that was taken and had no use, in front of the others, where there is room for it.
    pub fn put_back(&mut self, list: Vec<u64>) {
        if self.lists.len() < MOST {
            let _ = self.lists.insert(0, list);
        }
    }

    /// Drops a share of a store. Where nobody else has one, and it is a bitmap, its words are kept: nothing but words
    /// of bitmaps is made in such memory where no blocks are joined.
    #[inline(always)]
    pub fn drop_share(&mut self, share: Option<Arc<Store>>) {
        if let Some(share) = long_share(share) {
            self.drop_long(share);
        }
    }

    /// Drops a share of a store that may have long lists.
    fn drop_long(&mut self, share: Arc<Store>) {
        let (words, inner) = lists_of(share);
        if inner.is_some() {
            return;
        }
        if let Some(words) = words {
            let _ = self.put(words);
        }
    }

    /// Drops what work was made of, and keeps the words of its bitmaps.
    pub fn drop_piece(&mut self, spent: Piece) {
        let inputs = spent.inputs;
        self.drop_share(inputs.old);
        self.drop_share(inputs.mask);
        self.drop_share(inputs.first);
        self.drop_share(inputs.second);
    }
}

/// Whether a list is worth to be taken for a piece: it may make the words of a bitmap, all of them.
pub fn needs_spare(piece: &Piece) -> bool {
    piece.is_whole() && !makes_lists(piece.recipe.get()) && work_in(piece) >= LEAST_ENTRIES
}

/// A share of a store that may have lists that are worth to be kept; any other is dropped.
#[inline(always)]
pub fn long_share(share: Option<Arc<Store>>) -> Option<Arc<Store>> {
    share.filter(|share| share.nvals() >= LEAST_ENTRIES)
}

/// The lists of a store that are worth to be kept, where nobody else has a share of it: its words, and its inner
/// indices where it is no bitmap.
pub fn lists_of(share: Arc<Store>) -> (Option<Vec<u64>>, Option<Vec<u64>>) {
    let Ok(store) = Arc::try_unwrap(share) else {
        return (None, None);
    };
    let (words, inner) = store.into_memory();
    (long_one(words), inner.and_then(long_one))
}

/// A list, where it is worth to be kept.
fn long_one(list: Vec<u64>) -> Option<Vec<u64>> {
    if list.len() < LEAST_WORDS {
        return None;
    }
    Some(list)
}
