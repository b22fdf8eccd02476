//! The calls of operations: C, MASK, ACCUM and DESC are read here for all of them.
ghost use Rattle.std.specs.Prelude.{◌≡◌, ◌<◌, ◌≤◌, [], MatchOption, codes, false, length, map, true};
ghost use Rattle.std.specs.Option.{option_map};
ghost use Rattle.lines.specs.Joining.{joining_word, joins};
ghost use Rattle.lines.specs.Meaning.{IsRead, regions};
ghost use Rattle.model.specs.Grammar.{is_none_word, middle_of, name_of, op_name_of, operate_of, operations};
ghost use Rattle.model.specs.Grammar.{nth_word, operations_of_one, out_of_words, perhaps, said_by};
ghost use Rattle.model.specs.Renamed.{renamed, renamed_operation, renamed_out};
ghost use Rattle.model.specs.Written.{form_word, positions_word};

use crate::{LineFault, kinds, lists, words};
use algebra::{FunctionName, OpName};
use model::{Call, Form, OneInput, Operation, Out, Positions, Region, TwoInputs};
use std::alloc::Global;

/// Whether a word stands for no mask, no accumulator or no flags.
pub(crate) fn is_none(word: &[u8]) -> bool
    ensures { result ≡ is_none_word word.now }
{
    matches!(word, b"-")
}

/// A mask's name, or none.
fn mask(word: &[u8]) -> Option<Option<&str>>
    ensures { option_map (option_map (λ name. name.now)) result ≡ perhaps name_of word.now }
{
    if is_none(word) {
        return Some(None);
    }
    Some(Some(words::name(word)?))
}

/// An operator's names, or none.
pub(crate) fn accum(word: &[u8]) -> Option<Option<OpName>>
    ensures { result ≡ perhaps op_name_of word.now }
{
    if is_none(word) {
        return Some(None);
    }
    Some(Some(kinds::op_name(word)?))
}

/// `C MASK ACCUM .. DESC`
#[inline(always)]
#[tactic(auto, unfolding(model::specs::Grammar::out_of_words))]
fn out<'a>(words: &[&'a [u8]]) -> Option<Out<&'a str>>
    ensures { option_map (renamed_out (λ name. name.now)) result ≡ out_of_words (map (λ word. word.now) words.now) }
{
    if words.len() < 5 {
        return None;
    }
    let c = words::name(words[1])?;
    let mask = mask(words[2])?;
    let accum = accum(words[3])?;
    let desc = kinds::desc(words[words.len() - 1])?;
    Some(Out {
        c,
        mask,
        accum,
        desc,
    })
}

/// The call of an operation of two inputs.
#[tactic(auto, unfolding(model::specs::Grammar::operate_of))]
pub fn join<'a>(joining: Joining, words: &[&'a [u8]]) -> Option<Call<&'a str, &'a str>>
    requires { nth_word (map (λ word. word.now) words.now) 0 ≡ joining_word joining }
    ensures { option_map (renamed (λ name. name.now) (λ name. name.now)) result
        ≡ operate_of (map (λ word. word.now) words.now) }
{
    if words.len() < 5 {
        return None;
    }
    let operation = joined(joining, middle(words))?;
    let out = out(words)?;
    Some(Call::Operate { out, operation })
}

/// The call of another operation.
#[tactic(auto, unfolding(model::specs::Grammar::operate_of))]
pub fn operate<'a>(alloc: Global, words: &[&'a [u8]]) -> Result<Call<&'a str, &'a str>, LineFault>
    requires some { 0 < length words.now }
    requires called { joins (nth_word (map (λ word. word.now) words.now) 0) ≡ false }
    ensures { IsRead (renamed (λ name. name.now) (λ name. name.now)) (operate_of (map (λ word. word.now) words.now))
        result }
{
    if words.len() < 5 {
        return Err(LineFault::Syntax);
    }
    let operation = operation(alloc, words[0], middle(words))?;
    let Some(out) = out(words) else {
        return Err(LineFault::Syntax);
    };
    Ok(Call::Operate { out, operation })
}

/// The words between ACCUM and DESC.
fn middle<'w, 'a>(words: &'w [&'a [u8]]) -> &'w [&'a [u8]]
    requires { 5 ≤ length words.now }
    ensures { map (λ word. word.now) result.now ≡ middle_of (map (λ word. word.now) words.now) }
{
    &words[4..words.len() - 1]
}

/// What joins two inputs.
#[derive(Clone, Copy)]
pub enum Joining {
    Product(Form),
    Combination(Positions),
}

/// What joins two inputs under this first word.
pub fn joining_of(called: &[u8]) -> Option<Joining>
    ensures { MatchOption result (joins called.now ≡ false)
        (λ joining. (called.now ≡ joining_word joining) × (joins (joining_word joining) ≡ true)) }
{
    match called {
        b"mxm" => Some(Joining::Product(Form::MatrixMatrix)),
        b"mxv" => Some(Joining::Product(Form::MatrixVector)),
        b"vxm" => Some(Joining::Product(Form::VectorMatrix)),
        b"ewiseadd" => Some(Joining::Combination(Positions::Union)),
        b"ewisemult" => Some(Joining::Combination(Positions::Intersection)),
        _ => None,
    }
}

/// `SEMIRING A B` or `OP A B`
fn joined<'a>(joining: Joining, words: &[&'a [u8]]) -> Option<Operation<&'a str>>
    ensures { option_map (renamed_operation (λ name. name.now)) result
        ≡ said_by operations (joining_word joining) (map (λ word. word.now) words.now) }
{
    match joining {
        Joining::Product(form) => multiply(form, words),
        Joining::Combination(positions) => combine(positions, words),
    }
}

/// What these say by a first word that joins no two inputs.
fn operation<'a>(
    alloc: Global,
    called: &[u8],
    words: &[&'a [u8]],
) -> Result<Operation<&'a str>, LineFault>
    requires { joins called.now ≡ false }
    ensures { IsRead (renamed_operation (λ name. name.now))
        (said_by operations called.now (map (λ word. word.now) words.now)) result }
{
    if called == b"extract".as_slice() {
        return extract(alloc, words);
    }
    if called == b"assign".as_slice() {
        return assign(alloc, words);
    }
    if called == b"fill".as_slice() {
        return fill(alloc, words);
    }
    of_one(called, words).ok_or(LineFault::Syntax)
}

/// What these say by the first word of an operation of one input that names no region.
fn of_one<'a>(called: &[u8], words: &[&'a [u8]]) -> Option<Operation<&'a str>>
    ensures { option_map (renamed_operation (λ name. name.now)) result
        ≡ said_by operations_of_one called.now (map (λ word. word.now) words.now) }
{
    if called == b"apply".as_slice() {
        return apply(words);
    }
    if called == b"applyindex".as_slice() {
        return apply_index(words);
    }
    if called == b"applyfirst".as_slice() {
        return apply_first(words);
    }
    if called == b"applysecond".as_slice() {
        return apply_second(words);
    }
    if called == b"select".as_slice() {
        return select(words);
    }
    if called == b"reducerows".as_slice() {
        return reduce_rows(words);
    }
    if called == b"transpose".as_slice() {
        return transpose(words);
    }
    None
}

/// `SEMIRING A B`
#[tactic(auto, unfolding(model::specs::Grammar::said_by))]
fn multiply<'a>(form: Form, words: &[&'a [u8]]) -> Option<Operation<&'a str>>
    ensures { option_map (renamed_operation (λ name. name.now)) result
        ≡ said_by operations (form_word form) (map (λ word. word.now) words.now) }
{
    if words.len() != 3 {
        return None;
    }
    let semiring = kinds::semiring_name(words[0])?;
    let a = words::name(words[1])?;
    let b = words::name(words[2])?;
    let computes = TwoInputs::Multiply { form, semiring };
    Some(Operation::OfTwo { computes, a, b })
}

/// `OP A B`
#[tactic(auto, unfolding(model::specs::Grammar::said_by))]
fn combine<'a>(positions: Positions, words: &[&'a [u8]]) -> Option<Operation<&'a str>>
    ensures { option_map (renamed_operation (λ name. name.now)) result
        ≡ said_by operations (positions_word positions) (map (λ word. word.now) words.now) }
{
    if words.len() != 3 {
        return None;
    }
    let op = kinds::op_name(words[0])?;
    let a = words::name(words[1])?;
    let b = words::name(words[2])?;
    let computes = TwoInputs::Combine { positions, op };
    Some(Operation::OfTwo { computes, a, b })
}

/// `UNARY A`
#[tactic(auto, unfolding(model::specs::Grammar::said_by))]
fn apply<'a>(words: &[&'a [u8]]) -> Option<Operation<&'a str>>
    ensures { option_map (renamed_operation (λ name. name.now)) result
        ≡ said_by operations (codes "apply") (map (λ word. word.now) words.now) }
{
    if words.len() != 2 {
        return None;
    }
    let op = kinds::unary_name(words[0])?;
    let a = words::name(words[1])?;
    let computes = OneInput::Apply(FunctionName::Unary(op));
    Some(Operation::OfOne { computes, a })
}

/// `INDEXOP A VALUE`
#[tactic(auto, unfolding(model::specs::Grammar::said_by))]
fn apply_index<'a>(words: &[&'a [u8]]) -> Option<Operation<&'a str>>
    ensures { option_map (renamed_operation (λ name. name.now)) result
        ≡ said_by operations (codes "applyindex") (map (λ word. word.now) words.now) }
{
    if words.len() != 3 {
        return None;
    }
    let op = kinds::index_name(words[0])?;
    let a = words::name(words[1])?;
    let scalar = words::value(words[2])?;
    let computes = OneInput::Apply(FunctionName::Index { op, scalar });
    Some(Operation::OfOne { computes, a })
}

/// `OP VALUE A`
#[tactic(auto, unfolding(model::specs::Grammar::said_by))]
fn apply_first<'a>(words: &[&'a [u8]]) -> Option<Operation<&'a str>>
    ensures { option_map (renamed_operation (λ name. name.now)) result
        ≡ said_by operations (codes "applyfirst") (map (λ word. word.now) words.now) }
{
    if words.len() != 3 {
        return None;
    }
    let op = kinds::op_name(words[0])?;
    let value = words::value(words[1])?;
    let a = words::name(words[2])?;
    let computes = OneInput::Apply(FunctionName::First { op, value });
    Some(Operation::OfOne { computes, a })
}

/// `OP A VALUE`
#[tactic(auto, unfolding(model::specs::Grammar::said_by))]
fn apply_second<'a>(words: &[&'a [u8]]) -> Option<Operation<&'a str>>
    ensures { option_map (renamed_operation (λ name. name.now)) result
        ≡ said_by operations (codes "applysecond") (map (λ word. word.now) words.now) }
{
    if words.len() != 3 {
        return None;
    }
    let op = kinds::op_name(words[0])?;
    let a = words::name(words[1])?;
    let value = words::value(words[2])?;
    let computes = OneInput::Apply(FunctionName::Second { op, value });
    Some(Operation::OfOne { computes, a })
}

/// `INDEXOP A VALUE`
#[tactic(auto, unfolding(model::specs::Grammar::said_by))]
fn select<'a>(words: &[&'a [u8]]) -> Option<Operation<&'a str>>
    ensures { option_map (renamed_operation (λ name. name.now)) result
        ≡ said_by operations (codes "select") (map (λ word. word.now) words.now) }
{
    if words.len() != 3 {
        return None;
    }
    let op = kinds::index_name(words[0])?;
    let a = words::name(words[1])?;
    let scalar = words::value(words[2])?;
    let computes = OneInput::Select { op, scalar };
    Some(Operation::OfOne { computes, a })
}

/// `MONOID A`
#[tactic(auto, unfolding(model::specs::Grammar::said_by))]
fn reduce_rows<'a>(words: &[&'a [u8]]) -> Option<Operation<&'a str>>
    ensures { option_map (renamed_operation (λ name. name.now)) result
        ≡ said_by operations (codes "reducerows") (map (λ word. word.now) words.now) }
{
    if words.len() != 2 {
        return None;
    }
    let monoid = kinds::monoid_name(words[0])?;
    let a = words::name(words[1])?;
    let computes = OneInput::ReduceRows(monoid);
    Some(Operation::OfOne { computes, a })
}

/// `A`
#[tactic(auto, unfolding(model::specs::Grammar::said_by))]
fn transpose<'a>(words: &[&'a [u8]]) -> Option<Operation<&'a str>>
    ensures { option_map (renamed_operation (λ name. name.now)) result
        ≡ said_by operations (codes "transpose") (map (λ word. word.now) words.now) }
{
    if words.len() != 1 {
        return None;
    }
    let a = words::name(words[0])?;
    let computes = OneInput::Transpose;
    Some(Operation::OfOne { computes, a })
}

/// `A LIST` or `A LIST LIST`
#[tactic(auto, unfolding(model::specs::Grammar::said_by))]
fn extract<'a>(alloc: Global, words: &[&'a [u8]]) -> Result<Operation<&'a str>, LineFault>
    ensures { IsRead (renamed_operation (λ name. name.now))
        (said_by operations (codes "extract") (map (λ word. word.now) words.now)) result }
{
    if words.is_empty() {
        return Err(LineFault::Syntax);
    }
    let a = words::name(words[0]).ok_or(LineFault::Syntax)?;
    let region = region(alloc, &words[1..])?;
    let computes = OneInput::Extract(region);
    Ok(Operation::OfOne { computes, a })
}

/// `A LIST` or `A LIST LIST`
#[tactic(auto, unfolding(model::specs::Grammar::said_by))]
fn assign<'a>(alloc: Global, words: &[&'a [u8]]) -> Result<Operation<&'a str>, LineFault>
    ensures { IsRead (renamed_operation (λ name. name.now))
        (said_by operations (codes "assign") (map (λ word. word.now) words.now)) result }
{
    if words.is_empty() {
        return Err(LineFault::Syntax);
    }
    let a = words::name(words[0]).ok_or(LineFault::Syntax)?;
    let region = region(alloc, &words[1..])?;
    let computes = OneInput::Assign(region);
    Ok(Operation::OfOne { computes, a })
}

/// `VALUE LIST` or `VALUE LIST LIST`
#[tactic(auto, unfolding(model::specs::Grammar::said_by))]
fn fill<'a>(alloc: Global, words: &[&'a [u8]]) -> Result<Operation<&'a str>, LineFault>
    ensures { IsRead (renamed_operation (λ name. name.now))
        (said_by operations (codes "fill") (map (λ word. word.now) words.now)) result }
{
    if words.is_empty() {
        return Err(LineFault::Syntax);
    }
    let value = words::value(words[0]).ok_or(LineFault::Syntax)?;
    let region = region(alloc, &words[1..])?;
    Ok(Operation::Fill { value, region })
}

/// `LIST` or `LIST LIST`
#[tactic(auto, unfolding(model::specs::Grammar::said_by))]
fn region(alloc: Global, words: &[&[u8]]) -> Result<Region, LineFault>
    ensures { IsRead (λ region. region) (said_by regions [] (map (λ word. word.now) words.now)) result }
{
    if words.len() == 1 {
        return Ok(Region::One(lists::indices(alloc, words[0])?));
    }
    if words.len() != 2 {
        return Err(LineFault::Syntax);
    }
    let rows = lists::indices(alloc, words[0])?;
    let cols = lists::indices(alloc, words[1])?;
    Ok(Region::Two(rows, cols))
}
