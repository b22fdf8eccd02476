//! The memory that the process keeps for itself.
use std::alloc::{AllocError, Global};

/// Blocks of at most so many bytes keep their pages when they are freed.
const KEPT: usize = 16 << 20;

/// Has the C library keep the pages of freed blocks for the blocks to come. A block that is large has its pages from
/// the kernel, afresh and cleared one by one, and glibc takes each for large that is larger than the largest that
/// was freed, from 128 KiB on. So a block is freed before all else. Without memory for it nothing is lost but time.
pub fn keep_pages(alloc: Global) {
    let _ = block(alloc);
}

// A function of its own, since a block that isn't used is not taken at all where the compiler sees it freed.
#[inline(never)]
fn block(alloc: Global) -> Result<Vec<u8>, AllocError> {
    Vec::with_capacity(alloc, KEPT)
}
