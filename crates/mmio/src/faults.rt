//! Mistakes of a file by their lines. They are counted where there is a mistake, so that a file without one is read
//! without counting.
ghost use Rattle.std.specs.Prelude.{◌≡◌, ◌≤◌, length, suc};
ghost use Rattle.model.specs.Grammar.{lines_of};
ghost use Rattle.mmio.specs.Listing.{fault_in};

use lines::first_line;
use model::{Misread, Mistake, MmFault};

/// A mistake in the line before which `behind` follows in a text.
#[cold]
#[inline(never)]
pub fn fault_before(text: &[u8], behind: &[u8], mistake: Mistake) -> MmFault
    ensures { result
        ≡ fault_in text.now (record { left = suc (length (lines_of behind.now)); mistake = mistake }) }
{
    let left = count_lines(behind) + 1;
    fault_in(text, Misread { left, mistake })
}

/// A mistake of a text that ends too early.
#[cold]
#[inline(never)]
pub fn fault_at_end(text: &[u8], mistake: Mistake) -> MmFault
    ensures { result ≡ fault_in text.now (record { left = 0; mistake = mistake }) }
{
    fault_in(text, Misread { left: 0, mistake })
}

/// A mistake by the number of its line.
fn fault_in(text: &[u8], wrong: Misread) -> MmFault
    ensures { result ≡ fault_in text.now wrong }
{
    let lines = count_lines(text) + 1;
    MmFault::Malformed {
        line: lines.saturating_sub(wrong.left),
        mistake: wrong.mistake,
    }
}

/// How many lines a text has.
fn count_lines(text: &[u8]) -> u64
    ensures number { result ≡ length (lines_of text.now) }
    ensures most { result ≤ length text.now }
{
    let mut count = 0;
    let mut rest = text;
    while !rest.is_empty() {
        let (_, behind) = first_line(rest);
        count += 1;
        rest = behind;
    }
    count
}
