//! Lists of indices and of tuples.
ghost use Rattle.std.specs.Prelude.{◌≡◌, ◌<◌, IfSome, [], drop, length, map};
ghost use Rattle.std.specs.List.{list_all};
ghost use Rattle.std.specs.Option.{option_map, option_map_or};
ghost use Rattle.lines.specs.Meaning.{IsRead, IsSaid};
ghost use Rattle.model.specs.Grammar.{all_read, are_alike, indices_of, items_of, nth_word, number_of, tuple_of};
ghost use Rattle.model.specs.Grammar.{tuples_of, value_of_word};
ghost use Rattle.model.specs.Object.{same_length};

use crate::kinds::cut;
use crate::words::{SAFE_DIGITS, leading_digits};
use crate::{LineFault, words};
use model::{IndexList, Place, Tuple, TupleList};
use std::alloc::Global;

/// A word that lists indices: `:`, or numbers with commas between them.
#[tactic(auto, unfolding(model::specs::Grammar::indices_of))]
pub fn indices(alloc: Global, word: &[u8]) -> Result<IndexList, LineFault>
    ensures { IsRead (λ indices. indices) (indices_of word.now) result }
{
    if word == b":".as_slice() {
        return Ok(IndexList::all());
    }
    let items = numbers(alloc, word)?;
    Ok(IndexList::new(items)?)
}

/// Numbers with commas between them.
fn numbers(alloc: Global, word: &[u8]) -> Result<Vec<u64>, LineFault>
    ensures { IsRead (λ numbers. numbers.items) (all_read number_of (items_of word.now)) result }
{
    let mut numbers = Vec::new(alloc);
    let mut left = Some(word);
    while let Some(rest) = left {
        let Some((number, others)) = leading_number(rest) else {
            return Err(LineFault::Syntax);
        };
        numbers.push(number)?;
        left = others;
    }
    Ok(numbers)
}

/// The number before the first comma of a word, and what stands behind that comma, if there is one.
#[inline(always)]
fn leading_number(word: &[u8]) -> Option<(u64, Option<&[u8]>)>
    ensures number { option_map (λ item. item.0) result ≡ number_of (nth_word (items_of word.now) 0) }
    ensures others { IfSome result (λ item. drop 1 (items_of word.now)
        ≡ option_map_or (λ rest. items_of rest.now) item.1 []) }
    ensures shorter { IfSome result (λ item. IfSome item.1 (λ rest. length rest.now < length word.now)) }
{
    let (value, count) = leading_digits(word);
    if count == 0 {
        return None;
    }
    if count == word.len() {
        return Some((value, None));
    }
    if word[count] == b',' {
        return Some((value, Some(&word[count + 1..])));
    }
    if count < SAFE_DIGITS {
        return None;
    }
    long_leading_number(word)
}

/// The same where more digits may stand before the comma than 64 bits hold.
#[cold]
#[inline(never)]
fn long_leading_number(word: &[u8]) -> Option<(u64, Option<&[u8]>)>
    ensures number { option_map (λ item. item.0) result ≡ number_of (nth_word (items_of word.now) 0) }
    ensures others { IfSome result (λ item. drop 1 (items_of word.now)
        ≡ option_map_or (λ rest. items_of rest.now) item.1 []) }
    ensures shorter { IfSome result (λ item. IfSome item.1 (λ rest. length rest.now < length word.now)) }
{
    match cut(b',', word) {
        Some((first, rest)) => Some((words::number(first)?, Some(rest))),
        None => Some((words::number(word)?, None)),
    }
}

/// Tuples, of which all have as many indices.
#[tactic(auto, unfolding(model::specs::Grammar::tuples_of))]
pub fn tuples(alloc: Global, words: &[&[u8]]) -> Result<TupleList, LineFault>
    ensures { IsRead (λ tuples. tuples) (tuples_of (map (λ word. word.now) words.now)) result }
{
    let items = each_tuple(alloc, words)?;
    if !are_alike(&items) {
        return Err(LineFault::Syntax);
    }
    Ok(TupleList::new(items)?)
}

/// The tuples that words write.
fn each_tuple(alloc: Global, words: &[&[u8]]) -> Result<Vec<Tuple>, LineFault>
    ensures { IsRead (λ tuples. tuples.items) (all_read tuple_of (map (λ word. word.now) words.now)) result }
{
    let mut tuples = Vec::with_capacity(alloc, words.len())?;
    for word in words {
        tuples.push(tuple_or_fault(word)?)?;
    }
    Ok(tuples)
}

/// A tuple, or the fault that a word is none.
fn tuple_or_fault(word: &[u8]) -> Result<Tuple, LineFault>
    ensures { IsSaid (tuple_of word.now) result }
{
    tuple(word).ok_or(LineFault::Syntax)
}

/// A word that writes one index or two, and a value, with commas between them.
fn tuple(word: &[u8]) -> Option<Tuple>
    ensures { result ≡ tuple_of word.now }
{
    let (first, rest) = leading_number(word)?;
    let rest = rest?;
    let Some((second, last)) = leading_number(rest) else {
        // A value below zero is no number.
        return tuple_at(Place::One(first), rest);
    };
    match last {
        Some(value) => tuple_at(Place::Two(first, second), value),
        None => {
            let place = Place::One(first);
            let value = i128::from(second);
            Some(Tuple { place, value })
        }
    }
}

/// A tuple of a place and of the value that a word writes.
fn tuple_at(place: Place, word: &[u8]) -> Option<Tuple>
    ensures { result ≡ option_map (λ value. record { place = place; value = value }) (value_of_word word.now) }
{
    let value = words::value(word)?;
    Some(Tuple { place, value })
}

/// Whether all have as many indices as the first one.
fn are_alike(tuples: &[Tuple]) -> bool
    ensures { result ≡ are_alike tuples.now }
{
    match tuples {
        [] => true,
        [first, others @ ..] => are_like(first.place, others),
    }
}

/// Whether all have as many indices as a place.
fn are_like(place: Place, tuples: &[Tuple]) -> bool
    ensures { result ≡ list_all (λ tuple. same_length place tuple.place) tuples.now }
{
    tuples.iter().all(|tuple| place.is_like(tuple.place))
}
