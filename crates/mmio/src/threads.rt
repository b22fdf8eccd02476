//! How many threads read and write files.
use bitmap::SeveralThreads;
use std::thread::{Threads, available_parallelism};

/// So many threads, the calling one among them, but no more than there are processors.
pub fn threads_of<R: Threads>(rt: &R, threads: u64) -> SeveralThreads<'_, R> {
    let processors = available_parallelism(rt).map_or(threads, |count| count.get() as u64);
    SeveralThreads::new(rt, threads.min(processors).saturating_sub(1))
}
