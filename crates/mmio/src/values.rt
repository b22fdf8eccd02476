//! The values of entry lines, as words of a domain.
ghost use Rattle.std.specs.Prelude.{◌≡◌};
ghost use Rattle.model.specs.Grammar.{words_of};
ghost use Rattle.mmio.specs.Said.{in_domain, is_negative, only_residue, signed_word, unsigned, value_behind};

use crate::digits::number_in_front;
use crate::fronts::{has_one_word, is_empty, without_blanks};
use algebra::Domain;
use model::Field;

/// The word of what stands behind a position, the rest of its line: a value of an integer field, or 1 for
/// the nothing of a pattern. None where there are more words or fewer, and Some(None) where the word is
/// no value.
#[inline(always)]
pub fn value_behind(domain: Domain, field: Field, rest: &[u8]) -> Option<Option<u64>>
    ensures { result ≡ value_behind domain field (words_of rest.now) }
{
    match field {
        Field::Pattern if is_empty(rest) => Some(Some(1)),
        Field::Pattern => None,
        Field::Integer => match only_residue(rest)? {
            Some(residue) => Some(Some(in_domain(domain, residue))),
            None => Some(None),
        },
    }
}

/// The value of a line's only word, modulo 2^64. None where there are more words or none, and Some(None)
/// where the word is no value.
#[inline(always)]
fn only_residue(line: &[u8]) -> Option<Option<u64>>
    ensures { result ≡ only_residue (words_of line.now) }
{
    let text = without_blanks(line);
    let (is_negative, digits) = without_sign(text);
    match number_in_front(digits) {
        Some((magnitude, rest)) if is_empty(rest) => Some(signed_word(is_negative, magnitude)),
        Some(_) => None,
        None if has_one_word(text) => Some(None),
        None => None,
    }
}

/// Whether a text begins with a `-`, and what follows that, or a `+`.
#[inline(always)]
pub fn without_sign(text: &[u8]) -> (bool, &[u8])
    ensures sign { result.0 ≡ is_negative text.now }
    ensures rest { result.1.now ≡ unsigned text.now }
{
    match text {
        [b'-', rest @ ..] => (true, rest),
        [b'+', rest @ ..] => (false, rest),
        _ => (false, text),
    }
}

/// A value of a sign and a magnitude modulo 2^64, if it is from -2^63 to 2^64 - 1.
#[inline(always)]
pub fn signed_word(is_negative: bool, magnitude: Option<u64>) -> Option<u64>
    ensures { result ≡ signed_word is_negative magnitude }
{
    match magnitude {
        Some(magnitude) if is_negative && magnitude <= 1 << 63 => Some(magnitude.wrapping_neg()),
        Some(_) if is_negative => None,
        _ => magnitude,
    }
}

/// A value modulo 2^64 in a domain: in BOOL whether it isn't 0.
#[inline(always)]
pub fn in_domain(domain: Domain, residue: u64) -> u64
    ensures { result ≡ in_domain domain residue }
{
    match domain {
        Domain::Bool => u64::from(residue != 0),
        Domain::Int64 | Domain::Uint64 | Domain::User(_) => residue,
    }
}
