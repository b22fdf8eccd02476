//! Entry lines as programs write them: numbers with a space between them, and a line feed.
ghost use Rattle.std.specs.Prelude.{◌<◌, Ok, IfSome, length};
ghost use Rattle.mmio.specs.Usual.{SaysFirst};

use crate::digits::number_before;
use crate::entry::is_position;
use crate::values::{in_domain, signed_word, without_sign};
use algebra::Domain;
use model::{Entry, Field, Heading};

/// The entry that the first line of a text says, and what follows the line, where it is written as most programs do
/// and nothing is wrong with it. Such a line is read in one walk, and its end needn't be looked for.
#[inline(always)]
pub fn usual_entry(domain: Domain, heading: Heading, text: &[u8]) -> Option<(Entry, &[u8])>
    ensures entry { IfSome result (λ found. SaysFirst domain heading text.now (Ok found.0) found.1.now) }
    ensures shorter { IfSome result (λ found. length found.1.now < length text.now) }
{
    let (row, rest) = number_before(text, b' ')?;
    let (col, word, rest) = match heading.field {
        Field::Pattern => {
            let (col, rest) = number_before(rest, b'\n')?;
            (col, 1, rest)
        }
        Field::Integer => {
            let (col, rest) = number_before(rest, b' ')?;
            let (is_negative, digits) = without_sign(rest);
            let (magnitude, rest) = number_before(digits, b'\n')?;
            let residue = signed_word(is_negative, Some(magnitude))?;
            (col, in_domain(domain, residue), rest)
        }
    };
    if !is_position(heading, row, col) {
        return None;
    }
    let (row, col) = (row - 1, col - 1);
    Some((Entry { row, col, word }, rest))
}
