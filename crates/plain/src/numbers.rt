//! The numbers that words of a file write, of any number of digits.
ghost use Rattle.std.specs.Prelude.{◌≡◌, ◌^◌, nat_lt, neg_ℤ, pos, Some};
ghost use Rattle.std.specs.List.{list_all};
ghost use Rattle.std.specs.Option.{option_and_then, option_map};
ghost use Rattle.model.specs.Fault.{is_dimension};
ghost use Rattle.model.specs.Grammar.{digits_value, is_digit, where_it};
ghost use Rattle.model.specs.MatrixMarket.{are_digits, digits_of, is_of_64_bits, whole_of};
ghost use Rattle.plain.specs.Files.{capped};

use model::GREATEST_DIMENSION;

/// Past all numbers that a file may write. From here on they aren't told apart.
const CAP: u128 = 1 << 70;

/// A word that is a dimension.
pub fn dimension(word: &[u8]) -> Option<u64>
    ensures { result ≡ where_it is_dimension (digits_of word.now) }
{
    match digits_of(word) {
        Some(n) if 1 <= n && n <= u128::from(GREATEST_DIMENSION) => Some(n as u64),
        _ => None,
    }
}

/// A word that is a number below 2^64.
pub fn count(word: &[u8]) -> Option<u64>
    ensures { result ≡ where_it (λ n. nat_lt n (2 ^ 64)) (digits_of word.now) }
{
    match digits_of(word) {
        Some(n) if n < 1 << 64 => Some(n as u64),
        _ => None,
    }
}

/// A word that is a value from -2^63 to 2^64 - 1: digits, perhaps behind a sign.
pub fn value(word: &[u8]) -> Option<i128>
    ensures { result ≡ where_it is_of_64_bits (whole_of word.now) }
{
    if word.is_empty() {
        return None;
    }
    match word[0] {
        b'-' => negative(&word[1..]),
        b'+' => positive(&word[1..]),
        _ => positive(word),
    }
}

/// The value of digits behind a `-`.
fn negative(word: &[u8]) -> Option<i128>
    ensures { result ≡ where_it is_of_64_bits (option_and_then (λ n. Some (neg_ℤ (pos n))) (digits_of word.now)) }
{
    match digits_of(word) {
        Some(n) if n <= 1 << 63 => Some(-(n as i128)),
        _ => None,
    }
}

/// The value of digits.
fn positive(word: &[u8]) -> Option<i128>
    ensures { result ≡ where_it is_of_64_bits (option_and_then (λ n. Some (pos n)) (digits_of word.now)) }
{
    match digits_of(word) {
        Some(n) if n < 1 << 64 => Some(n as i128),
        _ => None,
    }
}

/// The number that a word of digits writes.
fn digits_of(word: &[u8]) -> Option<u128>
    ensures { result ≡ option_map capped (digits_of word.now) }
{
    are_digits(word).then_some(digits_value(word))
}

/// Whether a word is of digits, of any number.
pub fn are_digits(word: &[u8]) -> bool
    ensures { result ≡ are_digits word.now }
{
    !word.is_empty() && has_digits_only(word)
}

fn has_digits_only(word: &[u8]) -> bool
    ensures { result ≡ list_all is_digit word.now }
{
    word.iter().all(|byte| byte.is_ascii_digit())
}

/// The number that digits write.
pub fn digits_value(word: &[u8]) -> u128
    ensures { result ≡ capped (digits_value word.now) }
{
    let mut value = 0;
    for byte in word {
        value = (value * 10 + u128::from(byte.saturating_sub(b'0'))).min(CAP);
    }
    value
}
