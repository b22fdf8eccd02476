//! Calls by their first words: each row of the grammar has an arm here, or in the calls of operations.
ghost use Rattle.std.specs.Prelude.{◌≡◌, ◌<◌, [], ◌∷◌, codes, drop, false, length, map};
ghost use Rattle.std.specs.Option.{option_map};
ghost use Rattle.std.specs.Str.{bytes_eq};
ghost use Rattle.lines.specs.Meaning.{IsRead, bare_calls, places, shapes};
ghost use Rattle.model.specs.declared.call.Call.TheVariants.{On};
ghost use Rattle.model.specs.Grammar.{AName, calls, nth_word, row, said_by};
ghost use Rattle.model.specs.Renamed.{renamed};

use crate::operations::accum;
use crate::{LineFault, kinds, lists, words};
use model::{Act, Call, Place, Shape};
use std::alloc::Global;

/// What these call by a first word that is no operation's, nor `build`, which alone has a list.
#[inline(never)]
pub fn unlisted<'a>(called: &[u8], words: &[&'a [u8]]) -> Option<Call<&'a str, &'a str>>
    requires { bytes_eq called.now (codes "build") ≡ false }
    ensures { option_map (renamed (λ name. name.now) (λ name. name.now)) result
        ≡ said_by calls called.now (map (λ word. word.now) words.now) }
{
    if called == b"matrix".as_slice() {
        return matrix(words);
    }
    if called == b"vector".as_slice() {
        return vector(words);
    }
    if called == b"dup".as_slice() {
        return dup(words);
    }
    if called == b"resize".as_slice() {
        return resize(words);
    }
    if called == b"set".as_slice() {
        return set(words);
    }
    if called == b"remove".as_slice() {
        return remove(words);
    }
    if called == b"get".as_slice() {
        return get(words);
    }
    if called == b"reduce".as_slice() {
        return reduce(words);
    }
    if called == b"wait".as_slice() {
        return wait(words);
    }
    bare(called, words)
}

/// What these call by a first word behind which there is a name alone.
#[inline(always)]
fn bare<'a>(called: &[u8], words: &[&'a [u8]]) -> Option<Call<&'a str, &'a str>>
    ensures { option_map (renamed (λ name. name.now) (λ name. name.now)) result
        ≡ said_by bare_calls called.now (map (λ word. word.now) words.now) }
{
    if called == b"free".as_slice() {
        return act(words, Act::Free);
    }
    if called == b"clear".as_slice() {
        return act(words, Act::Clear);
    }
    if called == b"nvals".as_slice() {
        return act(words, Act::Nvals);
    }
    if called == b"print".as_slice() {
        return act(words, Act::Print);
    }
    None
}

/// The first word.
pub fn first<'a>(words: &[&'a [u8]]) -> &'a [u8]
    requires { 0 < length words.now }
    ensures { result.now ≡ nth_word (map (λ word. word.now) words.now) 0 }
{
    words[0]
}

/// The words behind the first one.
pub fn others<'w, 'a>(words: &'w [&'a [u8]]) -> &'w [&'a [u8]]
    requires { 0 < length words.now }
    ensures { map (λ word. word.now) result.now ≡ drop 1 (map (λ word. word.now) words.now) }
{
    &words[1..]
}

/// `NAME`: a call that does something to one object.
#[tactic(auto, unfolding(model::specs::Grammar::said_by))]
fn act<'a>(words: &[&'a [u8]], act: Act) -> Option<Call<&'a str, &'a str>>
    ensures { option_map (renamed (λ name. name.now) (λ name. name.now)) result
        ≡ said_by (row [] (AName ∷ []) (λ object. On object act) ∷ []) [] (map (λ word. word.now) words.now) }
{
    if words.len() != 1 {
        return None;
    }
    let object = words::name(words[0])?;
    Some(Call::On { object, act })
}

/// `matrix NAME DOMAIN NUM NUM`
#[tactic(auto, unfolding(model::specs::Grammar::said_by))]
fn matrix<'a>(words: &[&'a [u8]]) -> Option<Call<&'a str, &'a str>>
    ensures { option_map (renamed (λ name. name.now) (λ name. name.now)) result
        ≡ said_by calls (codes "matrix") (map (λ word. word.now) words.now) }
{
    if words.len() != 4 {
        return None;
    }
    let name = words::name(words[0])?;
    let domain = words::domain(words[1])?;
    let rows = words::number(words[2])?;
    let shape = Shape::Two(rows, words::number(words[3])?);
    Some(Call::Create {
        name,
        domain,
        shape,
    })
}

/// `vector NAME DOMAIN NUM`
#[tactic(auto, unfolding(model::specs::Grammar::said_by))]
fn vector<'a>(words: &[&'a [u8]]) -> Option<Call<&'a str, &'a str>>
    ensures { option_map (renamed (λ name. name.now) (λ name. name.now)) result
        ≡ said_by calls (codes "vector") (map (λ word. word.now) words.now) }
{
    if words.len() != 3 {
        return None;
    }
    let name = words::name(words[0])?;
    let domain = words::domain(words[1])?;
    let shape = Shape::One(words::number(words[2])?);
    Some(Call::Create {
        name,
        domain,
        shape,
    })
}

/// `dup NEW OLD`
#[tactic(auto, unfolding(model::specs::Grammar::said_by))]
fn dup<'a>(words: &[&'a [u8]]) -> Option<Call<&'a str, &'a str>>
    ensures { option_map (renamed (λ name. name.now) (λ name. name.now)) result
        ≡ said_by calls (codes "dup") (map (λ word. word.now) words.now) }
{
    if words.len() != 2 {
        return None;
    }
    let name = words::name(words[0])?;
    let object = words::name(words[1])?;
    Some(Call::Dup { name, object })
}

/// `resize NAME NUM` or `resize NAME NUM NUM`
#[tactic(auto, unfolding(model::specs::Grammar::said_by))]
fn resize<'a>(words: &[&'a [u8]]) -> Option<Call<&'a str, &'a str>>
    ensures { option_map (renamed (λ name. name.now) (λ name. name.now)) result
        ≡ said_by calls (codes "resize") (map (λ word. word.now) words.now) }
{
    if words.is_empty() {
        return None;
    }
    let object = words::name(words[0])?;
    let act = Act::Resize(shape(&words[1..])?);
    Some(Call::On { object, act })
}

/// `build NAME DUP TUPLE..`
#[tactic(auto, unfolding(model::specs::Grammar::said_by))]
pub fn build<'a>(alloc: Global, words: &[&'a [u8]]) -> Result<Call<&'a str, &'a str>, LineFault>
    ensures { IsRead (renamed (λ name. name.now) (λ name. name.now))
        (said_by calls (codes "build") (map (λ word. word.now) words.now)) result }
{
    if words.len() < 2 {
        return Err(LineFault::Syntax);
    }
    let object = words::name(words[0]).ok_or(LineFault::Syntax)?;
    let dup = accum(words[1]).ok_or(LineFault::Syntax)?;
    let tuples = lists::tuples(alloc, &words[2..])?;
    let act = Act::Build { dup, tuples };
    Ok(Call::On { object, act })
}

/// `set NAME NUM VALUE` or `set NAME NUM NUM VALUE`
#[tactic(auto, unfolding(model::specs::Grammar::said_by))]
fn set<'a>(words: &[&'a [u8]]) -> Option<Call<&'a str, &'a str>>
    ensures { option_map (renamed (λ name. name.now) (λ name. name.now)) result
        ≡ said_by calls (codes "set") (map (λ word. word.now) words.now) }
{
    if words.len() == 3 {
        let object = words::name(words[0])?;
        let place = Place::One(words::number(words[1])?);
        let value = words::value(words[2])?;
        let act = Act::Set { place, value };
        return Some(Call::On { object, act });
    }
    if words.len() != 4 {
        return None;
    }
    let object = words::name(words[0])?;
    let row = words::number(words[1])?;
    let place = Place::Two(row, words::number(words[2])?);
    let value = words::value(words[3])?;
    let act = Act::Set { place, value };
    Some(Call::On { object, act })
}

/// `remove NAME NUM` or `remove NAME NUM NUM`
#[tactic(auto, unfolding(model::specs::Grammar::said_by))]
fn remove<'a>(words: &[&'a [u8]]) -> Option<Call<&'a str, &'a str>>
    ensures { option_map (renamed (λ name. name.now) (λ name. name.now)) result
        ≡ said_by calls (codes "remove") (map (λ word. word.now) words.now) }
{
    if words.is_empty() {
        return None;
    }
    let object = words::name(words[0])?;
    let act = Act::Remove(place(&words[1..])?);
    Some(Call::On { object, act })
}

/// `get NAME NUM` or `get NAME NUM NUM`
#[tactic(auto, unfolding(model::specs::Grammar::said_by))]
fn get<'a>(words: &[&'a [u8]]) -> Option<Call<&'a str, &'a str>>
    ensures { option_map (renamed (λ name. name.now) (λ name. name.now)) result
        ≡ said_by calls (codes "get") (map (λ word. word.now) words.now) }
{
    if words.is_empty() {
        return None;
    }
    let object = words::name(words[0])?;
    let act = Act::Get(place(&words[1..])?);
    Some(Call::On { object, act })
}

/// `reduce NAME MONOID`
#[tactic(auto, unfolding(model::specs::Grammar::said_by))]
fn reduce<'a>(words: &[&'a [u8]]) -> Option<Call<&'a str, &'a str>>
    ensures { option_map (renamed (λ name. name.now) (λ name. name.now)) result
        ≡ said_by calls (codes "reduce") (map (λ word. word.now) words.now) }
{
    if words.len() != 2 {
        return None;
    }
    let object = words::name(words[0])?;
    let act = Act::Reduce(kinds::monoid_name(words[1])?);
    Some(Call::On { object, act })
}

/// `wait NAME MODE`
#[tactic(auto, unfolding(model::specs::Grammar::said_by))]
fn wait<'a>(words: &[&'a [u8]]) -> Option<Call<&'a str, &'a str>>
    ensures { option_map (renamed (λ name. name.now) (λ name. name.now)) result
        ≡ said_by calls (codes "wait") (map (λ word. word.now) words.now) }
{
    if words.len() != 2 {
        return None;
    }
    let object = words::name(words[0])?;
    let act = Act::Wait(kinds::wait_mode(words[1])?);
    Some(Call::On { object, act })
}

/// `NUM` or `NUM NUM`: the size of a vector, or those of a matrix
#[tactic(auto, unfolding(model::specs::Grammar::said_by))]
fn shape(words: &[&[u8]]) -> Option<Shape>
    ensures { result ≡ said_by shapes [] (map (λ word. word.now) words.now) }
{
    if words.len() == 1 {
        return Some(Shape::One(words::number(words[0])?));
    }
    if words.len() != 2 {
        return None;
    }
    let rows = words::number(words[0])?;
    Some(Shape::Two(rows, words::number(words[1])?))
}

/// `NUM` or `NUM NUM`: an index of a vector, or a row and a column of a matrix
#[tactic(auto, unfolding(model::specs::Grammar::said_by))]
fn place(words: &[&[u8]]) -> Option<Place>
    ensures { result ≡ said_by places [] (map (λ word. word.now) words.now) }
{
    if words.len() == 1 {
        return Some(Place::One(words::number(words[0])?));
    }
    if words.len() != 2 {
        return None;
    }
    let row = words::number(words[0])?;
    Some(Place::Two(row, words::number(words[1])?))
}
