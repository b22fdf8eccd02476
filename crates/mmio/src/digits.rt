//! The digits at the front of a line: the loop that nearly all time of a file goes into.
ghost use Rattle.std.specs.Prelude.{◌≡◌, ◌%◌, ◌<◌, ◌≤◌, ◌^◌, ◌++◌, ◌∷◌, ℕ, IfNone, IfSome, IsTrue, List, MatchOption};
ghost use Rattle.std.specs.Prelude.{false, is_some, length, slice_index, take, true};
ghost use Rattle.std.specs.List.{list_all};
ghost use Rattle.model.specs.Grammar.{digits_value, is_digit, nth_word, words_of};
ghost use Rattle.model.specs.MatrixMarket.{are_digits};
ghost use Rattle.mmio.specs.Fronts.{LeadsWithNumber, behind_front, front_of, in_64_bits};
ghost use Rattle.mmio.specs.Usual.{IsNumberBefore};

use crate::fronts::{is_apart, without_blanks};

/// So many digits write a number below 2^64.
const MOST_SHORT: usize = 19;

/// The number that the first word of a line writes, and what follows that word; None where it isn't of
/// digits or there is no word. The number is None where it is 2^64 or more.
#[inline(always)]
pub fn first_number(line: &[u8]) -> Option<(Option<u64>, &[u8])>
    ensures { MatchOption result
        (are_digits (nth_word (words_of line.now) 0) ≡ false)
        (λ found. LeadsWithNumber (words_of line.now) found.0 (words_of found.1.now)) }
{
    number_in_front(without_blanks(line))
}

/// The same of a word at the front of a text, which may be empty.
#[inline(always)]
pub fn number_in_front(text: &[u8]) -> Option<(Option<u64>, &[u8])>
    ensures found { is_some result ≡ are_digits (front_of text.now) }
    ensures value { IfSome result (λ found. found.0 ≡ in_64_bits (digits_value (front_of text.now))) }
    ensures rest { IfSome result (λ found. found.1.now ≡ behind_front text.now) }
{
    let (count, short) = leading_digits(text);
    let (word, rest) = text.split_at(count);
    if word.is_empty() || !is_apart(rest) {
        return None;
    }
    if count <= MOST_SHORT {
        Some((Some(short), rest))
    } else {
        Some((long_value(word), rest))
    }
}

/// How many digits a text begins with, and what they write modulo 2^64. It stays a function of its own,
/// since within its callers the value would be kept in memory from digit to digit.
#[inline(never)]
fn leading_digits(text: &[u8]) -> (usize, u64)
    ensures within { result.0 ≤ length text.now }
    ensures digits { list_all is_digit (take result.0 text.now) ≡ true }
    ensures ends { result.0 < length text.now → is_digit (slice_index text.now result.0) ≡ false }
    ensures value { result.1 ≡ digits_value (take result.0 text.now) % 2 ^ 64 }
{
    digits_in_front(text)
}

/// What `leading_digits` finds, within its caller.
#[inline(always)]
fn digits_in_front(text: &[u8]) -> (usize, u64)
    ensures within { result.0 ≤ length text.now }
    ensures digits { list_all is_digit (take result.0 text.now) ≡ true }
    ensures ends { result.0 < length text.now → is_digit (slice_index text.now result.0) ≡ false }
    ensures value { result.1 ≡ digits_value (take result.0 text.now) % 2 ^ 64 }
{
    let mut count = 0;
    let mut value: u64 = 0;
    while count < text.len() && text[count].is_ascii_digit() {
        value = value
            .wrapping_mul(10)
            .wrapping_add(u64::from(text[count] - b'0'));
        count += 1;
    }
    (count, value)
}

/// Most numbers have fewer digits than this.
const FEW: usize = 8;

/// The number of at most 19 digits at the front of a text, and what follows the one byte behind them, where that
/// is `end`. Fewer than `FEW` digits are read without a look at where the text ends, and so without a loop.
#[inline(always)]
pub fn number_before(text: &[u8], end: u8) -> Option<(u64, &[u8])>
    ensures number { IfSome result (λ found. IsNumberBefore text.now end found.0 found.1.now) }
    ensures shorter { IfSome result (λ found. length found.1.now < length text.now) }

    // No number is passed over that is short enough, where its end can be told from a digit.
    ensures none { IfNone result ((digits rest : List ℕ) → text.now ≡ digits ++ end ∷ rest
        → are_digits digits ≡ true → is_digit end ≡ false → MOST_SHORT < length digits) }
{
    if text.len() >= FEW {
        let (count, value) = digits_in_front(&text[..FEW]);
        if count < FEW {
            return number_of(text, count, value, end);
        }
    }
    let (count, value) = leading_digits(text);
    number_of(text, count, value, end)
}

/// What `number_before` gives, where so many digits are in front, and write a value modulo 2^64.
#[inline(always)]
fn number_of(text: &[u8], count: usize, value: u64, end: u8) -> Option<(u64, &[u8])>
    requires within { count ≤ length text.now }
    requires digits { list_all is_digit (take count text.now) ≡ true }
    requires ends { count < length text.now → is_digit (slice_index text.now count) ≡ false }
    requires value { value ≡ digits_value (take count text.now) % 2 ^ 64 }
    ensures number { IfSome result (λ found. IsNumberBefore text.now end found.0 found.1.now) }
    ensures shorter { IfSome result (λ found. length found.1.now < length text.now) }
    ensures none { IfNone result ((digits rest : List ℕ) → text.now ≡ digits ++ end ∷ rest
        → are_digits digits ≡ true → is_digit end ≡ false → MOST_SHORT < length digits) }
{
    if count == 0 || count > MOST_SHORT || count == text.len() || text[count] != end {
        return None;
    }
    Some((value, &text[count + 1..]))
}

/// What any number of digits write, if it is below 2^64.
#[inline(never)]
fn long_value(word: &[u8]) -> Option<u64>
    requires { IsTrue (list_all is_digit word.now) }
    ensures { result ≡ in_64_bits (digits_value word.now) }
{
    let mut value: u64 = 0;
    for byte in word {
        value = value.checked_mul(10)?.checked_add(u64::from(*byte - b'0'))?;
    }
    Some(value)
}
