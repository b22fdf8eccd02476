//! Matrix Market files: what the reader finds beside what the plain reader does.

use crate::compared::Compared;
use algebra::Domain;
use mmio::read;
use model::{Entry, MmFault};
use std::alloc::{AllocError, Global};
use std::fmt;
use std::fmt::{Display, Formatter, Write};

/// Only shorter files are cut off and changed.
const LEAST_UNCUT: usize = 2_000;

/// What each byte of a file is changed into.
const BYTES: [u8; 10] = [
    b'\n', b'\r', b' ', b'\t', b'%', b'0', b'9', b'-', b'+', b'x',
];

/// How a text was made of a file.
#[derive(Clone, Copy)]
enum Change {
    CutTo(usize),
    ByteAt(usize, u8),
}

impl Display for Change {
    fn fmt<W: Write>(&self, f: &mut Formatter<W>) -> fmt::Result {
        match self {
            Change::CutTo(length) => write!(f, "cut to {length} bytes"),
            Change::ByteAt(at, byte) => write!(f, "with the byte {byte} at {at}"),
        }
    }
}

/// Compares a file, and where it is short each beginning of it and each text with another byte at some place.
pub fn compare(alloc: Global, file: &[u8]) -> Result<Compared, AllocError> {
    let mut compared = Compared::new();
    compared.is_whole = true;
    let mut shortest = file.len();
    if file.len() < LEAST_UNCUT {
        compare_changed(alloc, file, &mut compared)?;
        shortest = 0;
    }
    for end in shortest..=file.len() {
        compare_text(alloc, &file[..end], Change::CutTo(end), &mut compared)?;
    }
    Ok(compared)
}

/// Compares a file with each byte changed.
fn compare_changed(alloc: Global, file: &[u8], compared: &mut Compared) -> Result<(), AllocError> {
    let mut text = Vec::from_slice(alloc, file)?;
    for (at, kept) in file.iter().enumerate() {
        for byte in BYTES {
            put(text.as_mut_slice(), at, byte);
            compare_text(alloc, text.as_slice(), Change::ByteAt(at, byte), compared)?;
        }
        put(text.as_mut_slice(), at, *kept);
    }
    Ok(())
}

fn put(text: &mut [u8], at: usize, byte: u8) {
    if let Some(place) = text.get_mut(at) {
        *place = byte;
    }
}

/// Compares a text in each domain; the first difference stays.
fn compare_text(
    alloc: Global,
    text: &[u8],
    change: Change,
    compared: &mut Compared,
) -> Result<(), AllocError> {
    compared.count();
    for domain in [Domain::Bool, Domain::Int64, Domain::Uint64] {
        if compared.difference.is_none() && !agrees(alloc, text, domain)? {
            let difference = format!(in alloc; "{change}, it is read as {domain} in two ways")?;
            compared.difference = Some(difference);
        }
    }
    Ok(())
}

/// Whether the reader finds in a text what the plain reader does.
fn agrees(alloc: Global, text: &[u8], domain: Domain) -> Result<bool, AllocError> {
    match (read(alloc, text, domain), plain::read(alloc, text, domain)?) {
        (Ok((rows, cols, entries)), Ok(wanted)) => {
            let same_shape = (rows, cols) == (wanted.rows, wanted.cols);
            Ok(same_shape && are_same(entries.as_slice(), wanted.entries.as_slice()))
        }
        (Err(MmFault::NoMemory), _) => Err(AllocError),
        (Err(fault), Err(wanted)) => Ok(fault == wanted),
        _ => Ok(false),
    }
}

fn are_same(found: &[(u64, u64, u64)], wanted: &[Entry]) -> bool {
    if found.len() != wanted.len() {
        return false;
    }
    for (found, wanted) in found.iter().zip(wanted) {
        if *found != (wanted.row, wanted.col, wanted.word) {
            return false;
        }
    }
    true
}
