//! Who makes the words of bitmaps: the calling thread, or others beside it.
ghost use Rattle.std.specs.Prelude.{◌≡◌, ◌<◌, ℕ, IfOk, length, slice_index};
ghost use Rattle.bitmap.specs.Words.{Fits, IsMade, places_of};

use crate::making::{Words, fill_beside, make_alone, make_over};
use model::NoMemory;
use std::alloc::Global;
use std::cell::Cell;
use std::thread::Threads;

/// How many words a thread is started for: to start it takes about a tenth of the time of these.
const WORTH_A_THREAD: usize = 1 << 16;

/// Who makes the words of bitmaps.
pub trait WordMaker {
    /// Words in memory of their own. It takes time for each of them. NoMemory where there is none for them.
    fn make(&self, alloc: Global, words: Words<'_>) -> Result<Vec<u64>, NoMemory>
        requires { Fits words }
        ensures length { IfOk result (λ made. length made.items ≡ places_of words.entry) }
        ensures words { IfOk result (λ made. (k : ℕ) → k < places_of words.entry
            → IsMade words.entry k (slice_index made.items k)) };
}

/// The calling thread alone.
#[derive(Clone, Copy, Debug)]
pub struct OneThread;

impl WordMaker for OneThread {
    fn make(&self, alloc: Global, words: Words<'_>) -> Result<Vec<u64>, NoMemory> {
        make_alone(alloc, words)
    }
}

/// The calling thread alone, with a list that nobody needs any more: the words that are made next lie in its memory,
/// where it has room for them. What it holds doesn't matter.
#[derive(Drop)]
pub struct OneThreadWithSpare {
    spare: Cell<Option<Vec<u64>>>,
}

impl OneThreadWithSpare {
    /// The calling thread, with such a list if there is one.
    pub fn new(spare: Option<Vec<u64>>) -> OneThreadWithSpare {
        OneThreadWithSpare {
            spare: Cell::new(spare),
        }
    }

    /// The list that nobody needs, where no words were made in its memory.
    pub fn into_spare(self) -> Option<Vec<u64>> {
        self.spare.into_inner()
    }
}

impl WordMaker for OneThreadWithSpare {
    fn make(&self, alloc: Global, words: Words<'_>) -> Result<Vec<u64>, NoMemory> {
        match take_spare(&self.spare, words.places()) {
            Some(spare) => make_over(spare, words),
            None => make_alone(alloc, words),
        }
    }
}

/// The calling thread and others, which are started for the time of a call. Where their parts are long, the calling one
/// has its own made by one thread more, and waits.
#[derive(Drop)]
pub struct SeveralThreads<'a, R> {
    starter: &'a R,
    others: u64,
    spare: Cell<Option<Vec<u64>>>,
}

impl<'a, R> SeveralThreads<'a, R> {
    /// So many threads beside the calling one, which a handle starts.
    pub fn new(starter: &'a R, others: u64) -> SeveralThreads<'a, R> {
        SeveralThreads::with_spare(starter, others, None)
    }

    /// The same, with a list that nobody needs any more, as `OneThreadWithSpare` has one.
    pub fn with_spare(
        starter: &'a R,
        others: u64,
        spare: Option<Vec<u64>>,
    ) -> SeveralThreads<'a, R> {
        SeveralThreads {
            starter,
            others,
            spare: Cell::new(spare),
        }
    }

    /// The list that nobody needs, where no words were made in its memory.
    pub fn into_spare(self) -> Option<Vec<u64>> {
        self.spare.into_inner()
    }

    /// The handle that starts them.
    pub fn starter(&self) -> &'a R {
        self.starter
    }

    /// How many threads there are beside the calling one.
    pub fn others(&self) -> u64 {
        self.others
    }
}

impl<'a, R: Threads> WordMaker for SeveralThreads<'a, R> {
    fn make(&self, alloc: Global, words: Words<'_>) -> Result<Vec<u64>, NoMemory> {
        let places = words.places();
        let parts = (words.read() / WORTH_A_THREAD) as u64;
        let parts = parts.min(self.others.saturating_add(1)).max(1) as usize;
        let spare = take_spare(&self.spare, places);
        if parts == 1 && spare.is_none() {
            return make_alone(alloc, words);
        }

        // Where several threads write, there have to be words beforehand: any, since all are written.
        let mut made = spare.unwrap_or(Vec::new(alloc));
        made.resize(places, 0)?;
        fill_beside(
            self.starter,
            words,
            0,
            places / parts / 64 * 64 + 64,
            &mut made,
        );
        Ok(made)
    }
}

/// The list that nobody needs, where it has room for so many words and for less than twice as many.
fn take_spare(spare: &Cell<Option<Vec<u64>>>, places: usize) -> Option<Vec<u64>> {
    match spare.replace(None) {
        Some(list) if list.capacity() >= places && list.capacity() / 2 < places => Some(list),
        other => {
            spare.set(other);
            None
        }
    }
}
