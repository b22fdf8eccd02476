//! Memory of stores that nobody needs any more, for all threads.
use board::Piece;
use desk::{SpareLists, Spares, lists_of, long_share, needs_spare};
use std::alloc::Global;
use std::sync::{Arc, Mutex, Wait};
use store::Store;

/// The lists of stores that were dropped, under a lock of their own.
#[derive(Drop)]
pub struct SharedSpares {
    lists: Mutex<Spares>,
}

impl SharedSpares {
    /// No lists.
    pub fn new(alloc: Global) -> SharedSpares {
        SharedSpares {
            lists: Mutex::new(Spares::new(alloc)),
        }
    }

    /// One of the lists, for a piece that may make the words of a bitmap, all of them; `put_back` brings it back where
    /// it didn't.
    pub fn take_for(&self, rt: &impl Wait, piece: &Piece) -> Option<Vec<u64>> {
        if !needs_spare(piece) {
            return None;
        }
        self.lists.lock(rt).take()
    }

    /// Lists that have room for so many entries, as far as there are any.
    pub fn take_lists(&self, rt: &impl Wait, count: usize) -> SpareLists {
        self.lists.lock(rt).take_lists(count)
    }

    /// Keeps a list. One that has to go for it is dropped once the lock is given up.
    fn put(&self, rt: &impl Wait, list: Vec<u64>) {
        let mut lists = self.lists.lock(rt);
        let gone = lists.put(list);
        drop(lists);
        drop(gone);
    }

    /// Keeps a list that was taken and had no use.
    pub fn put_back(&self, rt: &impl Wait, list: Vec<u64>) {
        self.lists.lock(rt).put_back(list);
    }

    /// Drops a share of a store. Where nobody else has one, its lists are kept.
    #[inline(always)]
    pub fn drop_share(&self, rt: &impl Wait, share: Option<Arc<Store>>) {
        if let Some(share) = long_share(share) {
            self.drop_long(rt, share);
        }
    }

    /// Drops a share of a store that may have long lists.
    fn drop_long(&self, rt: &impl Wait, share: Arc<Store>) {
        let (words, inner) = lists_of(share);
        if let Some(words) = words {
            self.put(rt, words);
        }
        if let Some(inner) = inner {
            self.put(rt, inner);
        }
    }

    /// Drops what work was made of.
    pub fn drop_piece(&self, rt: &impl Wait, spent: Option<Piece>) {
        let Some(spent) = spent else { return };
        let inputs = spent.inputs;
        self.drop_share(rt, inputs.old);
        self.drop_share(rt, inputs.mask);
        self.drop_share(rt, inputs.first);
        self.drop_share(rt, inputs.second);
    }
}
