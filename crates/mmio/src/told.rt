//! The lines of a file that say something: neither blank nor a comment.
ghost use Rattle.std.specs.Prelude.{◌≡◌, ◌<◌, ◌∷◌, [], IfSome, MatchOption, false, length, slice_index, suc};
ghost use Rattle.model.specs.Grammar.{is_blank, lines_of, words_of};
ghost use Rattle.model.specs.MatrixMarket.{is_told};
ghost use Rattle.mmio.specs.Listing.{told_in};

use crate::fronts::without_blanks;
use lines::first_line;

/// The first line of a text that says something, and what follows it.
#[inline(always)]
pub fn first_told(text: &[u8]) -> Option<(&[u8], &[u8])>
    ensures lines { MatchOption result
        (told_in text.now ≡ [])
        (λ found. told_in text.now
        ≡ record { left = suc (length (lines_of found.1.now)); words = words_of found.0.now } ∷ told_in found.1.now) }
    ensures shorter { IfSome result (λ found. length found.1.now < length text.now) }
{
    let mut rest = text;
    while !rest.is_empty() {
        let (line, behind) = first_line(rest);
        let line = without_blanks(line);
        if is_told(line) {
            return Some((line, behind));
        }
        rest = behind;
    }
    None
}

/// Whether a line without blanks in front says something.
#[inline(always)]
fn is_told(line: &[u8]) -> bool
    requires { 0 < length line.now → is_blank (slice_index line.now 0) ≡ false }
    ensures { result ≡ is_told (words_of line.now) }
{
    match line {
        [] => false,
        [first, ..] => *first != b'%',
    }
}
