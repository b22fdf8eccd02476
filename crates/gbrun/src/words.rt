//! The words of the command line.

use std::alloc::{AllocError, Global};
use std::env::{Env, FillError};

/// The words after the program's name, in bytes: a word need not be text.
pub fn of_process(alloc: Global, environment: &impl Env) -> Result<Vec<Vec<u8>>, AllocError> {
    let mut words = Vec::new(alloc);
    for place in 1..usize::MAX {
        match word(alloc, environment, place)? {
            Some(word) => words.push(word)?,
            None => break,
        }
    }
    Ok(words)
}

// The word at a place, in a buffer that doubles until the word fits.
fn word(
    alloc: Global,
    environment: &impl Env,
    place: usize,
) -> Result<Option<Vec<u8>>, AllocError> {
    let mut capacity = 256usize;
    for _ in 0..usize::BITS {
        let mut buffer = vec![in alloc; 0u8; capacity]?;
        match environment.arg(place, buffer.as_mut_slice()) {
            Ok(length) => {
                buffer.truncate(length);
                return Ok(Some(buffer));
            }
            Err(FillError::NotPresent) => return Ok(None),
            Err(FillError::TooLong) => capacity = capacity.saturating_mul(2),
        }
    }
    Err(AllocError)
}
