//! The heads of files: what the banner and the size line say.
ghost use Rattle.std.specs.Prelude.{◌≡◌, IsTrue, length};
ghost use Rattle.std.specs.List.{list_any};
ghost use Rattle.model.specs.MatrixMarket.{can_hold, field_of, has_fitting_shape, heading_of, is_banner, kind_of};
ghost use Rattle.model.specs.MatrixMarket.{says, symmetry_of};
ghost use Rattle.plain.specs.Files.{is_kind, texts_in};

use crate::numbers::{count, dimension};
use algebra::Domain;
use model::{Field, Heading, Symmetry};

/// Whether the words of a line are those of a banner.
#[tactic(auto, unfolding(model::specs::MatrixMarket::is_banner, crate::specs::Files::is_kind))]
pub fn is_banner(words: &[&[u8]]) -> bool
    ensures test { result ≡ is_banner (texts_in words.now) }
    ensures five { IsTrue result → length words.now ≡ 5 }
{
    if words.len() != 5 {
        return false;
    }
    words[0] == b"%%MatrixMarket".as_slice()
        && says(b"matrix", words[1])
        && is_kind(words[2], words[3], words[4])
}

/// Whether there are files of such a format, field and symmetry.
#[tactic(auto, unfolding(crate::specs::Files::is_kind))]
fn is_kind(format: &[u8], field: &[u8], symmetry: &[u8]) -> bool
    ensures { result ≡ is_kind format.now field.now symmetry.now }
{
    says_any(&[b"coordinate", b"array"], format)
        && says_any(&[b"integer", b"pattern", b"real", b"complex"], field)
        && says_any(
            &[b"general", b"symmetric", b"skew-symmetric", b"hermitian"],
            symmetry,
        )
}

/// Whether a word is one of some texts, in lower or upper case.
fn says_any(texts: &[&[u8]], word: &[u8]) -> bool
    ensures { result ≡ list_any (λ text. says text.now word.now) texts.now }
{
    texts.iter().any(|text| says(text, word))
}

/// Whether a word is a text, in lower or upper case.
fn says(text: &[u8], word: &[u8]) -> bool
    ensures { result ≡ says text.now word.now }
{
    word.eq_ignore_ascii_case(text)
}

/// The values and the symmetry that a banner announces, if such files are read into a domain.
#[tactic(auto, unfolding(model::specs::MatrixMarket::kind_of))]
pub fn kind_of(domain: Domain, words: &[&[u8]]) -> Option<(Field, Symmetry)>
    requires { length words.now ≡ 5 }
    ensures { result ≡ kind_of domain (texts_in words.now) }
{
    if !says(b"coordinate", words[2]) {
        return None;
    }
    let field = field_of(words[3])?;
    let symmetry = symmetry_of(words[4])?;
    can_hold(domain, field, symmetry).then_some((field, symmetry))
}

#[tactic(auto, unfolding(model::specs::MatrixMarket::field_of))]
fn field_of(word: &[u8]) -> Option<Field>
    ensures { result ≡ field_of word.now }
{
    if says(b"integer", word) {
        Some(Field::Integer)
    } else if says(b"pattern", word) {
        Some(Field::Pattern)
    } else {
        None
    }
}

#[tactic(auto, unfolding(model::specs::MatrixMarket::symmetry_of))]
fn symmetry_of(word: &[u8]) -> Option<Symmetry>
    ensures { result ≡ symmetry_of word.now }
{
    if says(b"general", word) {
        Some(Symmetry::General)
    } else if says(b"symmetric", word) {
        Some(Symmetry::Symmetric)
    } else if says(b"skew-symmetric", word) {
        Some(Symmetry::SkewSymmetric)
    } else {
        None
    }
}

/// Whether a domain has the values that a file leaves out.
const fn can_hold(domain: Domain, field: Field, symmetry: Symmetry) -> bool
    ensures { result ≡ can_hold domain field symmetry }
{
    match (domain, field, symmetry) {
        (Domain::Int64, Field::Integer, Symmetry::SkewSymmetric) => true,
        (_, _, Symmetry::SkewSymmetric) => false,
        _ => true,
    }
}

/// What a banner and the words of a size line say.
#[tactic(auto, unfolding(model::specs::MatrixMarket::heading_of))]
pub fn heading_of(kind: (Field, Symmetry), words: &[&[u8]]) -> Option<Heading>
    ensures { result ≡ heading_of kind (texts_in words.now) }
{
    if words.len() != 3 {
        return None;
    }
    let rows = dimension(words[0])?;
    let cols = dimension(words[1])?;
    let entries = count(words[2])?;
    Some(Heading {
        field: kind.0,
        symmetry: kind.1,
        rows,
        cols,
        entries,
    })
}

/// Whether a matrix that is mirrored is square.
pub const fn has_fitting_shape(heading: Heading) -> bool
    ensures { result ≡ has_fitting_shape heading }
{
    matches!(heading.symmetry, Symmetry::General) || heading.rows == heading.cols
}
