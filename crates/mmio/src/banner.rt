//! The banner: the first line of a file.
ghost use Rattle.std.specs.Prelude.{◌≡◌, ◌==◌, ◌∷◌, [], MatchOption, codes, false, length};
ghost use Rattle.std.specs.List.{list_any};
ghost use Rattle.model.specs.Grammar.{words_of};
ghost use Rattle.model.specs.MatrixMarket.{can_hold, field_of, is_banner, kind_of, says, symmetry_of};
ghost use Rattle.mmio.specs.Heads.{kind_announced, words_in};

use crate::fronts::{first_word, is_empty};
use algebra::Domain;
use model::{Field, Mistake, Symmetry};

/// The words of a first line that has five.
#[derive(Clone, Copy)]
struct Banner<'a> {
    format: &'a [u8],
    object: &'a [u8],
    layout: &'a [u8],
    field: &'a [u8],
    symmetry: &'a [u8],
}

/// What the first line of a file announces, of what can be read into a domain.
pub fn announced(domain: Domain, line: &[u8]) -> Result<(Field, Symmetry), Mistake>
    ensures { result ≡ kind_announced domain (words_of line.now) }
{
    let Some(banner) = five_words(line) else {
        return Err(Mistake::Banner);
    };
    if !is_banner(&banner) {
        return Err(Mistake::Banner);
    }
    kind_of(domain, &banner).ok_or(Mistake::Unsupported)
}

fn five_words(line: &[u8]) -> Option<Banner<'_>>
    ensures { MatchOption result
        ((length (words_of line.now) == 5) ≡ false)
        (λ banner. words_of line.now ≡ words_in banner) }
{
    let (format, rest) = first_word(line)?;
    let (object, rest) = first_word(rest)?;
    let (layout, rest) = first_word(rest)?;
    let (field, rest) = first_word(rest)?;
    let (symmetry, rest) = first_word(rest)?;
    if !is_empty(rest) {
        return None;
    }
    Some(Banner {
        format,
        object,
        layout,
        field,
        symmetry,
    })
}

/// Whether the words are those of a banner, also of one that isn't read.
#[tactic(auto, unfolding(model::specs::MatrixMarket::is_banner))]
fn is_banner(banner: &Banner) -> bool
    ensures { result ≡ is_banner (words_in banner.now) }
{
    banner.format == b"%%MatrixMarket".as_slice()
        && says(banner.object, b"matrix")
        && is_layout(banner.layout)
        && is_field(banner.field)
        && is_symmetry(banner.symmetry)
}

fn is_layout(word: &[u8]) -> bool
    ensures { result ≡ list_any (λ text. says text word.now) (codes "coordinate" ∷ codes "array" ∷ []) }
{
    says(word, b"coordinate") || says(word, b"array")
}

fn is_field(word: &[u8]) -> bool
    ensures { result ≡ list_any (λ text. says text word.now)
        (codes "integer" ∷ codes "pattern" ∷ codes "real" ∷ codes "complex" ∷ []) }
{
    says(word, b"integer")
        || says(word, b"pattern")
        || says(word, b"real")
        || says(word, b"complex")
}

fn is_symmetry(word: &[u8]) -> bool
    ensures { result ≡ list_any (λ text. says text word.now)
        (codes "general" ∷ codes "symmetric" ∷ codes "skew-symmetric" ∷ codes "hermitian" ∷ []) }
{
    says(word, b"general")
        || says(word, b"symmetric")
        || says(word, b"skew-symmetric")
        || says(word, b"hermitian")
}

/// The kind of file that a banner announces, if it can be read into a domain.
#[tactic(auto, unfolding(model::specs::MatrixMarket::kind_of))]
fn kind_of(domain: Domain, banner: &Banner) -> Option<(Field, Symmetry)>
    ensures { result ≡ kind_of domain (words_in banner.now) }
{
    if !says(banner.layout, b"coordinate") {
        return None;
    }
    let field = field_of(banner.field)?;
    let symmetry = symmetry_of(banner.symmetry)?;
    if can_hold(domain, field, symmetry) {
        Some((field, symmetry))
    } else {
        None
    }
}

#[tactic(auto, unfolding(model::specs::MatrixMarket::field_of))]
fn field_of(word: &[u8]) -> Option<Field>
    ensures { result ≡ field_of word.now }
{
    if says(word, b"integer") {
        Some(Field::Integer)
    } else if says(word, b"pattern") {
        Some(Field::Pattern)
    } else {
        None
    }
}

#[tactic(auto, unfolding(model::specs::MatrixMarket::symmetry_of))]
fn symmetry_of(word: &[u8]) -> Option<Symmetry>
    ensures { result ≡ symmetry_of word.now }
{
    if says(word, b"general") {
        Some(Symmetry::General)
    } else if says(word, b"symmetric") {
        Some(Symmetry::Symmetric)
    } else if says(word, b"skew-symmetric") {
        Some(Symmetry::SkewSymmetric)
    } else {
        None
    }
}

/// Whether a domain has the values of a file, and their negatives where entries are left out for those.
fn can_hold(domain: Domain, field: Field, symmetry: Symmetry) -> bool
    ensures { result ≡ can_hold domain field symmetry }
{
    match symmetry {
        Symmetry::SkewSymmetric => { matches!((domain, field), (Domain::Int64, Field::Integer)) }
        Symmetry::General | Symmetry::Symmetric => true,
    }
}

/// Whether a word is a text, in lower or upper case.
fn says(word: &[u8], text: &[u8]) -> bool
    ensures { result ≡ says text.now word.now }
{
    word.eq_ignore_ascii_case(text)
}
