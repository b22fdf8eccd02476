//! The entries that the lines behind the head of a file list.
ghost use Rattle.std.specs.Prelude.{◌≡◌, ◌∷◌, ◌++◌, ◌⊎◌, ◌<◌, ◌≤◌, [], length};
ghost use Rattle.std.specs.Prelude.{IfErr, IfOk, IfSome, MatchOption, OnOk, Err, Ok};
ghost use Rattle.std.specs.Option.{option_to_list};
ghost use Rattle.model.specs.MatrixMarket.{with_mirror};
ghost use Rattle.mmio.specs.Listing.{IsStop, Lists, entries_listed, located, told_in};
ghost use Rattle.mmio.specs.Usual.{SaysFirst};

use crate::collects::Collects;
use crate::entry::entry;
use crate::faults::{fault_at_end, fault_before};
use crate::told::first_told;
use crate::usual::usual_entry;
use algebra::Domain;
use model::{Entry, Heading, Mistake, MmFault, Symmetry};
use std::alloc::Global;

/// Room is made at first for an entry in so many bytes of a file: few have shorter lines, lists that grow are moved,
/// and the number of entries that is announced need not be that of the lines.
const USUAL_LINE: usize = 8;

/// What a text lists under a heading: entries, with those that it leaves out, and how many lines list them.
#[derive(Drop)]
pub struct Listed<C> {
    pub entries: C,
    pub lines: u64,
}

/// Why a text can't be listed to its end.
#[derive(Drop)]
pub enum Stop<'a> {
    NoMemory,
    /// A mistake in the line before which `behind` follows.
    At { mistake: Mistake, behind: &'a [u8] },
}

/// The entries that the end of a file lists under a heading, in order, with those that it leaves out; or the first
/// thing that is wrong.
pub fn listed_entries<C: Collects>(
    alloc: Global,
    domain: Domain,
    heading: Heading,
    file: &[u8],
    text: &[u8],
) -> Result<C, MmFault>
    ensures ok { IfOk result (λ listed. entries_listed domain heading text.now ≡ Ok (C.entries_of listed)) }
    ensures err { IfErr result (λ fault. (fault ≡ MmFault.NoMemory)
        ⊎ (located file.now (entries_listed domain heading text.now) ≡ Err fault)) }
{
    match list_lines(alloc, domain, heading, text.len(), text) {
        Ok(listed) if listed.lines == heading.entries => Ok(listed.entries),
        Ok(_) => Err(fault_at_end(file, Mistake::TooFew)),
        Err(Stop::At { mistake, behind }) => Err(fault_before(file, behind, mistake)),
        Err(Stop::NoMemory) => Err(MmFault::NoMemory),
    }
}

/// What a text lists, as long as that isn't more than the heading announces, with room for the entries of so many
/// bytes; or what is wrong with the first line that lists none. It stays a function of its own, so that its loop shares
/// the registers with no other.
#[inline(never)]
pub fn list_lines<'a, C: Collects>(
    alloc: Global,
    domain: Domain,
    heading: Heading,
    bytes: usize,
    text: &'a [u8],
) -> Result<Listed<C>, Stop<'a>>
    ensures ok { IfOk result (λ listed.
        Lists domain heading text.entry.now (C.entries_of listed.entries) listed.lines) }
    ensures most { IfOk result (λ listed. listed.lines ≤ heading.entries) }
    ensures err { IfErr result (λ stop. IsStop (entries_listed domain heading text.entry.now) stop) }
{
    let mut entries = C::with_capacity(alloc, bytes / USUAL_LINE).map_err(|_| Stop::NoMemory)?;
    let mut lines = 0;
    let mut rest = text;
    while let Some((said, behind)) = first_said(domain, &heading, rest) {
        if lines == heading.entries {
            let mistake = Mistake::TooMany;
            return Err(Stop::At { mistake, behind });
        }
        let entry = match said {
            Ok(entry) => entry,
            Err(mistake) => return Err(Stop::At { mistake, behind }),
        };
        push(&mut entries, heading.symmetry, entry)?;
        lines += 1;
        rest = behind;
    }
    Ok(Listed { entries, lines })
}

/// What the first line of a text that says something says, and what follows it.
#[inline(always)]
fn first_said<'a>(
    domain: Domain,
    heading: &Heading,
    text: &'a [u8],
) -> Option<(Result<Entry, Mistake>, &'a [u8])>
    ensures lines { MatchOption result
        (told_in text.now ≡ [])
        (λ found. SaysFirst domain heading.now text.now found.0 found.1.now) }
    ensures shorter { IfSome result (λ found. length found.1.now < length text.now) }
{
    if let Some((entry, behind)) = usual_entry(domain, *heading, text) {
        return Some((Ok(entry), behind));
    }
    first_of_any_form(domain, heading, text)
}

/// The same for a line of any form. It stays out of the loop of the lines of the usual form for the same reason, and
/// the heading is lent to it, since it would be copied for each line else.
#[inline(never)]
fn first_of_any_form<'a>(
    domain: Domain,
    heading: &Heading,
    text: &'a [u8],
) -> Option<(Result<Entry, Mistake>, &'a [u8])>
    ensures lines { MatchOption result
        (told_in text.now ≡ [])
        (λ found. SaysFirst domain heading.now text.now found.0 found.1.now) }
    ensures shorter { IfSome result (λ found. length found.1.now < length text.now) }
{
    let (line, behind) = first_told(text)?;
    Some((entry(domain, *heading, line), behind))
}

/// Adds an entry, and behind it the one that the file leaves out.
#[inline(always)]
fn push<'a, C: Collects>(listed: &mut C, symmetry: Symmetry, entry: Entry) -> Result<(), Stop<'a>>
    ensures ok { OnOk result (C.entries_of listed.new ≡ C.entries_of listed.old ++ with_mirror symmetry entry) }
    ensures err { IfErr result (λ stop. stop ≡ Stop.NoMemory) }
{
    listed.put(entry).map_err(|_| Stop::NoMemory)?;
    if let Some(mirror) = mirror(symmetry, entry) {
        listed.put(mirror).map_err(|_| Stop::NoMemory)?;
    }
    Ok(())
}

/// The entry that a file leaves out beside one.
#[inline(always)]
fn mirror(symmetry: Symmetry, entry: Entry) -> Option<Entry>
    ensures { with_mirror symmetry entry ≡ entry ∷ option_to_list result }
{
    let Entry { row, col, word } = entry;
    let (row, col) = (col, row);
    match symmetry {
        Symmetry::Symmetric if row != col => Some(Entry { row, col, word }),
        Symmetry::SkewSymmetric => Some(Entry {
            row,
            col,
            word: word.wrapping_neg(),
        }),
        Symmetry::General | Symmetry::Symmetric => None,
    }
}
