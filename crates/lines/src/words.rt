//! The words of a line, and what each says alone.
ghost use Rattle.std.specs.Prelude.{◌≡◌, ◌+◌, ◌-◌, ◌*◌, ◌<◌, ◌≤◌, ◌^◌, ◌==◌, ◌||◌, map, length, filter, not};
ghost use Rattle.std.specs.Prelude.{IsTrue, if◌then◌else◌, ◌&&◌, nat_le, neg_ℤ, pos, ◌++◌, ◌∷◌, []};
ghost use Rattle.std.specs.Prelude.{MatchResult, OnOk, false, slice_index, take, true};
ghost use Rattle.std.specs.List.{list_all};
ghost use Rattle.std.specs.Option.{option_map};
ghost use Rattle.model.specs.Grammar.{digits_value, domain_of, is_blank, is_digit, is_letter, is_name, is_number};
ghost use Rattle.model.specs.Grammar.{is_well_formed, name_of, number_of, value_of_word, words_of};
ghost use Rattle.lines.specs.declared.fault.LineFault.TheVariants.{Syntax};

use crate::LineFault;
use crate::gaps::next_gap;
use algebra::Domain;
use model::{LONGEST_LINE, LONGEST_NAME, NoMemory};
use smallvec::SmallVec;

/// So many digits write less than 2^64, whichever they are.
pub(crate) const SAFE_DIGITS: usize = 19;

/// Whether a byte parts words.
pub const fn is_blank(byte: u8) -> bool
    ensures { result ≡ is_blank byte }
{
    byte == b' ' || byte == b'\t'
}

/// Adds the words of a well-formed line, parted by blanks. Eight need no memory, as those of a call but for
/// `build`.
pub fn add_words<'a>(words: &mut SmallVec<&'a [u8], 8>, line: &'a [u8]) -> Result<(), LineFault>
    ensures added { OnOk result (map (λ word. word.now) words.new.items
        ≡ map (λ word. word.now) words.old.items ++ words_of line.now) }
    ensures formed { MatchResult result (λ _. is_well_formed line.now ≡ true)
        (λ fault. fault ≡ Syntax → is_well_formed line.now ≡ false) }
{
    if line.len() > LONGEST_LINE {
        return Err(LineFault::Syntax);
    }
    let mut start = 0;
    while let Some(gap) = next_gap(line, start) {
        if !is_blank(line[gap]) {
            return Err(LineFault::Syntax);
        }
        add(words, &line[start..gap])?;
        start = gap + 1;
    }
    add(words, &line[start..])?;
    Ok(())
}

/// Adds what stands between two blanks, if anything does.
fn add<'a>(words: &mut SmallVec<&'a [u8], 8>, word: &'a [u8]) -> Result<(), NoMemory>
    ensures { OnOk result (map (λ word. word.now) words.new.items
        ≡ map (λ word. word.now) words.old.items ++ filter (λ word. not (length word == 0)) (word.now ∷ [])) }
{
    if word.is_empty() {
        return Ok(());
    }
    // Most lines have few words, and `push` would look twice at where they lie.
    if !words.spilled() && words.len() < words.inline_size() {
        words.push_reserved(word);
        return Ok(());
    }
    words.push(word)?;
    Ok(())
}

/// A word that is a name: an ASCII letter, and then letters, digits and underscores.
#[tactic(auto, unfolding(model::specs::Grammar::name_of))]
pub fn name(word: &[u8]) -> Option<&str>
    ensures { option_map (λ name. name.now) result ≡ name_of word.now }
{
    if !is_name(word) {
        return None;
    }
    Some(str::from_utf8(word).unwrap())
}

fn is_name(word: &[u8]) -> bool
    ensures { result ≡ is_name word.now }
{
    !word.is_empty()
        && word[0].is_ascii_alphabetic()
        && are_name_bytes(word)
        && word.len() <= LONGEST_NAME
}

fn are_name_bytes(word: &[u8]) -> bool
    ensures { result ≡ list_all (λ byte. is_letter byte || is_digit byte || (byte == 95)) word.now }
{
    word.iter()
        .all(|byte| byte.is_ascii_alphanumeric() || *byte == b'_')
}

/// A word that is a number: 1 to 20 digits, below 2^64.
#[inline]
#[tactic(auto, unfolding(model::specs::Grammar::number_of))]
pub fn number(word: &[u8]) -> Option<u64>
    ensures { result ≡ number_of word.now }
{
    let (value, count) = leading_digits(word);
    if count == 0 {
        return None;
    }
    if count == word.len() {
        return Some(value);
    }
    if count < SAFE_DIGITS {
        return None;
    }
    long_number(word)
}

/// The number that the first digits of a word write, as far as they are safe, and how many those are.
#[inline(always)]
pub(crate) fn leading_digits(word: &[u8]) -> (u64, usize)
    ensures exact { result.0 ≡ digits_value (take result.1 word.now) }
    ensures digits { list_all is_digit (take result.1 word.now) ≡ true }
    ensures within { result.1 ≤ length word.now }
    ensures few { result.1 ≤ SAFE_DIGITS }
    ensures ended { result.1 < SAFE_DIGITS → result.1 < length word.now
        → is_digit (slice_index word.now result.1) ≡ false }
{
    let mut value = 0;
    for (count, byte) in word.iter().enumerate() {
        if count == SAFE_DIGITS || !byte.is_ascii_digit() {
            return (value, count);
        }
        value = value * 10 + u64::from(*byte - b'0');
    }
    (value, word.len())
}

/// The number that a word of any length writes. Its digits may need more than 64 bits, so most words don't come here.
#[cold]
#[inline(never)]
#[tactic(auto, unfolding(model::specs::Grammar::number_of))]
fn long_number(word: &[u8]) -> Option<u64>
    ensures { result ≡ number_of word.now }
{
    if !is_number(word) {
        return None;
    }
    match digits_value(word) {
        value if value < 1 << 64 => Some(value as u64),
        _ => None,
    }
}

fn is_number(word: &[u8]) -> bool
    ensures { result ≡ is_number word.now }
{
    !word.is_empty() && word.len() <= 20 && are_digits(word)
}

fn are_digits(word: &[u8]) -> bool
    ensures { result ≡ list_all is_digit word.now }
{
    word.iter().all(|byte| byte.is_ascii_digit())
}

/// The number that at most 20 digits write.
fn digits_value(word: &[u8]) -> u128
    requires digits { IsTrue (list_all is_digit word.now) }
    requires few { length word.now ≤ 20 }
    ensures { result ≡ digits_value word.now }
{
    let mut value = 0;
    for byte in word {
        value = value * 10 + u128::from(*byte - b'0');
    }
    value
}

/// A word that is a value: a number below 2^64, or one from -2^63 on behind a `-`.
#[tactic(auto, unfolding(model::specs::Grammar::value_of_word))]
pub fn value(word: &[u8]) -> Option<i128>
    ensures { result ≡ value_of_word word.now }
{
    if !word.is_empty() && word[0] == b'-' {
        negative(&word[1..])
    } else {
        number(word).map(i128::from)
    }
}

/// The value of the digits behind a `-`.
#[tactic(auto, unfolding(model::specs::Grammar::number_of))]
fn negative(word: &[u8]) -> Option<i128>
    ensures { result ≡ (if is_number word.now && nat_le (digits_value word.now) (2 ^ 63)
        then Some (neg_ℤ (pos (digits_value word.now))) else None) }
{
    match number(word) {
        Some(magnitude) if magnitude <= 1 << 63 => Some(-(magnitude as i128)),
        _ => None,
    }
}

/// A word that names a domain.
#[tactic(auto, unfolding(model::specs::Grammar::domain_of))]
pub fn domain(word: &[u8]) -> Option<Domain>
    ensures { result ≡ domain_of word.now }
{
    Domain::from_name(word)
}
