//! What a line begins with: blanks, and then its first word.
ghost use Rattle.std.specs.Prelude.{◌≡◌, ◌<◌, ◌==◌, ◌∷◌, [], MatchOption, false, length, slice_index};
ghost use Rattle.model.specs.Grammar.{is_blank, words_of};
ghost use Rattle.mmio.specs.Fronts.{behind_front, front_of, is_apart};

use lines::is_blank;

/// A text from its first byte on that is no blank.
#[inline(always)]
pub fn without_blanks(text: &[u8]) -> &[u8]
    ensures words { words_of result.now ≡ words_of text.now }
    ensures begins { 0 < length result.now → is_blank (slice_index result.now 0) ≡ false }
{
    let mut start = 0;
    while start < text.len() && is_blank(text[start]) {
        start += 1;
    }
    &text[start..]
}

/// Whether a word that stands before a text ends there: at a blank, or at the line's end.
#[inline(always)]
pub fn is_apart(text: &[u8]) -> bool
    ensures { result ≡ is_apart text.now }
{
    match text {
        [] => true,
        [first, ..] => is_blank(*first),
    }
}

/// Whether a line has no words.
#[inline(always)]
pub fn is_empty(line: &[u8]) -> bool
    ensures { result ≡ (length (words_of line.now) == 0) }
{
    without_blanks(line).is_empty()
}

/// The first word of a line and what follows it, if there is one.
pub fn first_word(line: &[u8]) -> Option<(&[u8], &[u8])>
    ensures { MatchOption result
        (words_of line.now ≡ [])
        (λ found. words_of line.now ≡ found.0.now ∷ words_of found.1.now) }
{
    let text = without_blanks(line);
    if text.is_empty() {
        return None;
    }
    Some(cut_at_blank(text))
}

/// A text up to its first blank, and what follows.
fn cut_at_blank(text: &[u8]) -> (&[u8], &[u8])
    ensures front { result.0.now ≡ front_of text.now }
    ensures behind { result.1.now ≡ behind_front text.now }
{
    let mut end = 0;
    while end < text.len() && !is_blank(text[end]) {
        end += 1;
    }
    text.split_at(end)
}

/// Whether a line has one word.
#[inline(never)]
pub fn has_one_word(line: &[u8]) -> bool
    ensures { result ≡ (length (words_of line.now) == 1) }
{
    match first_word(line) {
        Some((_, rest)) => is_empty(rest),
        None => false,
    }
}
