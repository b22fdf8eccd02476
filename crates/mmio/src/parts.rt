//! Texts that several threads list, a part each.
ghost use Rattle.std.specs.Prelude.{◌≡◌, ◌+◌, ◌++◌, ◌<◌, ◌≤◌, IfOk, length};
ghost use Rattle.mmio.specs.Listing.{Lists, words_told};

use crate::listing::{Listed, Stop, list_lines};
use algebra::Domain;
use memchr::memchr;
use model::{Heading, NoMemory};
use std::alloc::Global;
use std::thread::{Threads, join};
use store::Tuples;

/// What a text lists, as long as no part of it lists more than the heading announces; or what stopped the listing of
/// some part. Each thread lists about so many bytes, the calling one those in front; room is made there for the entries
/// of `whole` bytes.
pub fn list_beside<'a, R: Threads>(
    rt: &R,
    alloc: Global,
    domain: Domain,
    heading: Heading,
    each: usize,
    whole: usize,
    text: &'a [u8],
) -> Result<Listed<Tuples>, Stop<'a>>
    requires { 0 < each }
    ensures { IfOk result (λ listed. Lists domain heading text.entry.now listed.entries listed.lines) }
{
    // Each part ends with a line, so that what is left in front is a little longer or shorter than some parts are: no
    // thread is started for less than half of one.
    if text.len().saturating_sub(each) < each / 2 {
        return list_lines(alloc, domain, heading, whole, text);
    }
    let (front, back) = cut(text, text.len().saturating_sub(each));
    if front.is_empty() || back.is_empty() {
        return list_lines(alloc, domain, heading, whole, text);
    }
    let theirs = move || -> Result<Listed<Tuples>, Stop<'_>>
        ensures { IfOk result (λ listed. Lists domain heading back.entry.now listed.entries listed.lines) }
    { list_lines(alloc, domain, heading, back.len(), back) };
    let ours = move || -> Result<Listed<Tuples>, Stop<'_>>
        requires { 0 < each }
        ensures { IfOk result (λ listed. Lists domain heading front.entry.now listed.entries listed.lines) }
    { list_beside(rt, alloc, domain, heading, each, whole, front) };
    let (others, listed) = join(rt, theirs, ours);
    match (listed, others) {
        (Ok(listed), Ok(others)) => both(rt, listed, others),
        (Err(stop), _) => Err(stop),
        (_, Err(stop)) => Err(stop),
    }
}

/// What two parts list, one behind the other.
fn both<'a, R: Threads>(
    rt: &R,
    listed: Listed<Tuples>,
    others: Listed<Tuples>,
) -> Result<Listed<Tuples>, Stop<'a>>
    ensures { IfOk result (λ all. (all.lines ≡ listed.lines + others.lines)
        × (all.entries ≡ listed.entries ++ others.entries)) }
{
    // No memory has more lines than can be counted.
    let Some(lines) = listed.lines.checked_add(others.lines) else {
        return Err(Stop::NoMemory);
    };
    match listed.entries.join(rt, others.entries) {
        Ok(entries) => Ok(Listed { entries, lines }),
        Err(NoMemory) => Err(Stop::NoMemory),
    }
}

/// A text in two: the first part ends with the first line that ends behind a place, or has all lines.
fn cut(text: &[u8], place: usize) -> (&[u8], &[u8])
    requires { place ≤ length text.now }
    ensures words { words_told text.now ≡ words_told result.0.now ++ words_told result.1.now }
    ensures lengths { length text.now ≡ length result.0.now + length result.1.now }
{
    let (_, behind) = text.split_at(place);
    match memchr(b'\n', behind) {
        Some(at) => text.split_at(place + at + 1),
        None => (text, &[]),
    }
}
