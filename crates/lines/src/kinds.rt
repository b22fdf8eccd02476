//! Words with parts: the names of operators and semirings, and flags.
ghost use Rattle.std.specs.Prelude.{◌≡◌, ◌==◌, ◌∷◌, [], ◌<◌, length, IfSome, MatchOption};
ghost use Rattle.std.specs.List.{position, slice_split};
ghost use Rattle.std.specs.Option.{option_map};
ghost use Rattle.model.specs.Grammar.{by_position_of, by_value_of, desc_of, dotted_of, flag_added, flags_added};
ghost use Rattle.model.specs.Grammar.{index_name_of, monoid_name_of, op_name_of, semiring_name_of, unary_name_of};
ghost use Rattle.model.specs.Grammar.{wait_mode_of};

use crate::operations::is_none;
use crate::words;
use algebra::{
    BinaryKind, Domain, IndexKind, IndexName, MonoidKind, MonoidName, OpName, SemiringName,
    UnaryKind, UnaryName,
};
use model::{Desc, WaitMode};

/// Where a byte first is in a word.
fn first_in(byte: u8, word: &[u8]) -> Option<usize>
    ensures { result ≡ position (λ b. b == byte) word.now }
{
    word.iter().position(|b| *b == byte)
}

/// What stands before the first of a byte in a word, and what stands after it.
pub(crate) fn cut(byte: u8, word: &[u8]) -> Option<(&[u8], &[u8])>
    ensures parts { MatchOption result (slice_split (λ b. b == byte) word.now ≡ word.now ∷ [])
        (λ parts. slice_split (λ b. b == byte) word.now ≡ parts.0.now ∷ slice_split (λ b. b == byte) parts.1.now) }
    ensures shorter { IfSome result (λ parts. length parts.1.now < length word.now) }
{
    match first_in(byte, word) {
        Some(at) => Some((&word[..at], &word[at + 1..])),
        None => None,
    }
}

/// A word that names a semiring: a monoid, an operator and a domain, with points between them.
#[tactic(auto, unfolding(model::specs::Grammar::semiring_name_of))]
pub fn semiring_name(word: &[u8]) -> Option<SemiringName>
    ensures { result ≡ semiring_name_of word.now }
{
    let (add, rest) = cut(b'.', word)?;
    let (multiply, domain) = cut(b'.', rest)?;
    if let Some(_) = cut(b'.', domain) {
        return None;
    }
    let add = MonoidKind::from_name(add)?;
    let multiply = BinaryKind::from_name(multiply)?;
    let domain = words::domain(domain)?;
    Some(SemiringName {
        add,
        multiply,
        domain,
    })
}

/// A name and a domain, with a point between them.
#[tactic(auto, unfolding(model::specs::Grammar::dotted_of))]
fn dotted(word: &[u8]) -> Option<(&[u8], Domain)>
    ensures { option_map (λ parts. (parts.0.now, parts.1)) result ≡ dotted_of word.now }
{
    let (name, domain) = cut(b'.', word)?;
    if let Some(_) = cut(b'.', domain) {
        return None;
    }
    Some((name, words::domain(domain)?))
}

/// A word that names a binary operator.
#[tactic(auto, unfolding(model::specs::Grammar::op_name_of))]
pub fn op_name(word: &[u8]) -> Option<OpName>
    ensures { result ≡ op_name_of word.now }
{
    let (name, domain) = dotted(word)?;
    let kind = BinaryKind::from_name(name)?;
    Some(OpName { kind, domain })
}

/// A word that names a unary operator.
#[tactic(auto, unfolding(model::specs::Grammar::unary_name_of))]
pub fn unary_name(word: &[u8]) -> Option<UnaryName>
    ensures { result ≡ unary_name_of word.now }
{
    let (name, domain) = dotted(word)?;
    let kind = UnaryKind::from_name(name)?;
    Some(UnaryName { kind, domain })
}

/// A word that names a monoid.
#[tactic(auto, unfolding(model::specs::Grammar::monoid_name_of))]
pub fn monoid_name(word: &[u8]) -> Option<MonoidName>
    ensures { result ≡ monoid_name_of word.now }
{
    let (name, domain) = dotted(word)?;
    let kind = MonoidKind::from_name(name)?;
    Some(MonoidName { kind, domain })
}

/// A word that names an index operator: a bare name for one by position, else a name and a domain.
#[tactic(auto, unfolding(model::specs::Grammar::index_name_of))]
pub fn index_name(word: &[u8]) -> Option<IndexName>
    ensures { result ≡ index_name_of word.now }
{
    match by_position(word) {
        Some(name) => Some(name),
        None => by_value(word),
    }
}

/// A word that names an index operator by position.
#[tactic(auto, unfolding(model::specs::Grammar::by_position_of))]
fn by_position(word: &[u8]) -> Option<IndexName>
    ensures { result ≡ by_position_of word.now }
{
    let kind = IndexKind::from_name(word)?;
    if !kind.is_by_position() {
        return None;
    }
    // It has no domain of its own, since it doesn't look at the value.
    let domain = Domain::Int64;
    Some(IndexName { kind, domain })
}

/// A word that names an operator that compares values, and their domain.
#[tactic(auto, unfolding(model::specs::Grammar::by_value_of))]
fn by_value(word: &[u8]) -> Option<IndexName>
    ensures { result ≡ by_value_of word.now }
{
    let (name, domain) = dotted(word)?;
    let kind = IndexKind::from_name(name)?;
    if kind.is_by_position() {
        return None;
    }
    Some(IndexName { kind, domain })
}

/// A word that says what a wait asks for.
#[tactic(auto, unfolding(model::specs::Grammar::wait_mode_of))]
pub fn wait_mode(word: &[u8]) -> Option<WaitMode>
    ensures { result ≡ wait_mode_of word.now }
{
    if word == b"complete".as_slice() {
        Some(WaitMode::Complete)
    } else if word == b"materialize".as_slice() {
        Some(WaitMode::Materialize)
    } else {
        None
    }
}

/// A descriptor with one flag more, which it didn't have.
#[tactic(auto, unfolding(model::specs::Grammar::flag_added))]
fn flag_added(desc: Desc, word: &[u8]) -> Option<Desc>
    ensures { result ≡ flag_added desc word.now }
{
    match word {
        b"R" if !desc.replace => Some(Desc {
            replace: true,
            ..desc
        }),
        b"S" if !desc.structure => Some(Desc {
            structure: true,
            ..desc
        }),
        b"C" if !desc.complement => Some(Desc {
            complement: true,
            ..desc
        }),
        b"T0" if !desc.transpose_first => Some(Desc {
            transpose_first: true,
            ..desc
        }),
        b"T1" if !desc.transpose_second => Some(Desc {
            transpose_second: true,
            ..desc
        }),
        _ => None,
    }
}

/// A descriptor with the flags that commas part. As no flag comes twice, there are few steps.
fn flags_added(desc: Desc, word: &[u8]) -> Option<Desc>
    ensures { result ≡ flags_added desc (slice_split (λ b. b == 44) word.now) }
{
    match cut(b',', word) {
        Some((flag, others)) => flags_added(flag_added(desc, flag)?, others),
        None => flag_added(desc, word),
    }
}

/// A word of flags.
#[tactic(auto, unfolding(model::specs::Grammar::desc_of))]
pub fn desc(word: &[u8]) -> Option<Desc>
    ensures { result ≡ desc_of word.now }
{
    let none = Desc {
        replace: false,
        structure: false,
        complement: false,
        transpose_first: false,
        transpose_second: false,
    };
    if is_none(word) {
        return Some(none);
    }
    flags_added(none, word)
}
