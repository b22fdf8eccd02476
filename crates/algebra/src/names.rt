//! The words that name kinds and domains.
ghost use Rattle.std.specs.Prelude.{◌≡◌, Some, find};
ghost use Rattle.std.specs.Str.{bytes_eq};
ghost use Rattle.algebra.specs.Names.{binary_from_name, binary_name, built_in_from_name, domain_from_name, domain_name};
ghost use Rattle.algebra.specs.Names.{domain_word, index_from_name, index_name, monoid_from_name, monoid_name};
ghost use Rattle.algebra.specs.Names.{by_values, comparisons, connectives, numerics, positional, unary_from_name};
ghost use Rattle.algebra.specs.Names.{unary_name, user_number};

use crate::{BinaryKind, Domain, IndexKind, MonoidKind, UnaryKind};
use std::fmt;

impl UnaryKind {
    /// The name of the kind.
    pub const fn name(self) -> &'static str
        ensures { result.now ≡ unary_name self }
    {
        match self {
            UnaryKind::Identity => "IDENTITY",
            UnaryKind::Ainv => "AINV",
            UnaryKind::Abs => "ABS",
            UnaryKind::Lnot => "LNOT",
            UnaryKind::Bnot => "BNOT",
        }
    }

    /// The kind of a name.
    #[tactic(auto, unfolding(crate::specs::Names::unary_from_name))]
    pub fn from_name(word: &[u8]) -> Option<UnaryKind>
        ensures { result ≡ unary_from_name word.now }
    {
        match word {
            b"IDENTITY" => Some(UnaryKind::Identity),
            b"AINV" => Some(UnaryKind::Ainv),
            b"ABS" => Some(UnaryKind::Abs),
            b"LNOT" => Some(UnaryKind::Lnot),
            b"BNOT" => Some(UnaryKind::Bnot),
            _ => None,
        }
    }
}

impl BinaryKind {
    /// The name of the kind.
    pub const fn name(self) -> &'static str
        ensures { result.now ≡ binary_name self }
    {
        match self {
            BinaryKind::First => "FIRST",
            BinaryKind::Second => "SECOND",
            BinaryKind::Oneb => "ONEB",
            BinaryKind::Min => "MIN",
            BinaryKind::Max => "MAX",
            BinaryKind::Plus => "PLUS",
            BinaryKind::Minus => "MINUS",
            BinaryKind::Times => "TIMES",
            BinaryKind::Eq => "EQ",
            BinaryKind::Ne => "NE",
            BinaryKind::Gt => "GT",
            BinaryKind::Lt => "LT",
            BinaryKind::Ge => "GE",
            BinaryKind::Le => "LE",
            BinaryKind::Lor => "LOR",
            BinaryKind::Land => "LAND",
            BinaryKind::Lxor => "LXOR",
            BinaryKind::Lxnor => "LXNOR",
            BinaryKind::Bor => "BOR",
            BinaryKind::Band => "BAND",
            BinaryKind::Bxor => "BXOR",
            BinaryKind::Bxnor => "BXNOR",
        }
    }

    /// The kind of a name.
    #[tactic(auto, using(crate::proofs::NameLaws::binary_in_groups))]
    pub fn from_name(word: &[u8]) -> Option<BinaryKind>
        ensures { result ≡ binary_from_name word.now }
    {
        if let Some(kind) = numeric(word) {
            return Some(kind);
        }
        if let Some(kind) = comparison(word) {
            return Some(kind);
        }
        connective(word)
    }
}

/// The kind of a name of an operator whose answers are values of its domain.
fn numeric(word: &[u8]) -> Option<BinaryKind>
    ensures { result ≡ find (λ kind. bytes_eq (binary_name kind) word.now) numerics }
{
    match word {
        b"FIRST" => Some(BinaryKind::First),
        b"SECOND" => Some(BinaryKind::Second),
        b"ONEB" => Some(BinaryKind::Oneb),
        b"MIN" => Some(BinaryKind::Min),
        b"MAX" => Some(BinaryKind::Max),
        b"PLUS" => Some(BinaryKind::Plus),
        b"MINUS" => Some(BinaryKind::Minus),
        b"TIMES" => Some(BinaryKind::Times),
        _ => None,
    }
}

/// The kind of a name of an operator that compares.
fn comparison(word: &[u8]) -> Option<BinaryKind>
    ensures { result ≡ find (λ kind. bytes_eq (binary_name kind) word.now) comparisons }
{
    match word {
        b"EQ" => Some(BinaryKind::Eq),
        b"NE" => Some(BinaryKind::Ne),
        b"GT" => Some(BinaryKind::Gt),
        b"LT" => Some(BinaryKind::Lt),
        b"GE" => Some(BinaryKind::Ge),
        b"LE" => Some(BinaryKind::Le),
        _ => None,
    }
}

/// The kind of a name of an operator on truths or bits.
fn connective(word: &[u8]) -> Option<BinaryKind>
    ensures { result ≡ find (λ kind. bytes_eq (binary_name kind) word.now) connectives }
{
    match word {
        b"LOR" => Some(BinaryKind::Lor),
        b"LAND" => Some(BinaryKind::Land),
        b"LXOR" => Some(BinaryKind::Lxor),
        b"LXNOR" => Some(BinaryKind::Lxnor),
        b"BOR" => Some(BinaryKind::Bor),
        b"BAND" => Some(BinaryKind::Band),
        b"BXOR" => Some(BinaryKind::Bxor),
        b"BXNOR" => Some(BinaryKind::Bxnor),
        _ => None,
    }
}

impl IndexKind {
    /// The name of the kind.
    pub const fn name(self) -> &'static str
        ensures { result.now ≡ index_name self }
    {
        match self {
            IndexKind::RowIndex => "ROWINDEX",
            IndexKind::ColIndex => "COLINDEX",
            IndexKind::DiagIndex => "DIAGINDEX",
            IndexKind::Tril => "TRIL",
            IndexKind::Triu => "TRIU",
            IndexKind::Diag => "DIAG",
            IndexKind::OffDiag => "OFFDIAG",
            IndexKind::ColLe => "COLLE",
            IndexKind::ColGt => "COLGT",
            IndexKind::RowLe => "ROWLE",
            IndexKind::RowGt => "ROWGT",
            IndexKind::ValueEq => "VALUEEQ",
            IndexKind::ValueNe => "VALUENE",
            IndexKind::ValueLt => "VALUELT",
            IndexKind::ValueLe => "VALUELE",
            IndexKind::ValueGt => "VALUEGT",
            IndexKind::ValueGe => "VALUEGE",
        }
    }

    /// The kind of a name.
    #[tactic(auto, using(crate::proofs::NameLaws::index_in_groups))]
    pub fn from_name(word: &[u8]) -> Option<IndexKind>
        ensures { result ≡ index_from_name word.now }
    {
        match by_position(word) {
            Some(kind) => Some(kind),
            None => by_value(word),
        }
    }
}

/// The kind of a name of an operator that looks at positions alone.
fn by_position(word: &[u8]) -> Option<IndexKind>
    ensures { result ≡ find (λ kind. bytes_eq (index_name kind) word.now) positional }
{
    match word {
        b"ROWINDEX" => Some(IndexKind::RowIndex),
        b"COLINDEX" => Some(IndexKind::ColIndex),
        b"DIAGINDEX" => Some(IndexKind::DiagIndex),
        b"TRIL" => Some(IndexKind::Tril),
        b"TRIU" => Some(IndexKind::Triu),
        b"DIAG" => Some(IndexKind::Diag),
        b"OFFDIAG" => Some(IndexKind::OffDiag),
        b"COLLE" => Some(IndexKind::ColLe),
        b"COLGT" => Some(IndexKind::ColGt),
        b"ROWLE" => Some(IndexKind::RowLe),
        b"ROWGT" => Some(IndexKind::RowGt),
        _ => None,
    }
}

/// The kind of a name of an operator that compares values.
fn by_value(word: &[u8]) -> Option<IndexKind>
    ensures { result ≡ find (λ kind. bytes_eq (index_name kind) word.now) by_values }
{
    match word {
        b"VALUEEQ" => Some(IndexKind::ValueEq),
        b"VALUENE" => Some(IndexKind::ValueNe),
        b"VALUELT" => Some(IndexKind::ValueLt),
        b"VALUELE" => Some(IndexKind::ValueLe),
        b"VALUEGT" => Some(IndexKind::ValueGt),
        b"VALUEGE" => Some(IndexKind::ValueGe),
        _ => None,
    }
}

impl MonoidKind {
    /// The name of the kind.
    pub const fn name(self) -> &'static str
        ensures { result.now ≡ monoid_name self }
    {
        self.operator().name()
    }

    /// The kind of a name.
    #[tactic(auto, unfolding(crate::specs::Names::monoid_from_name))]
    pub fn from_name(word: &[u8]) -> Option<MonoidKind>
        ensures { result ≡ monoid_from_name word.now }
    {
        match word {
            b"PLUS" => Some(MonoidKind::Plus),
            b"TIMES" => Some(MonoidKind::Times),
            b"MIN" => Some(MonoidKind::Min),
            b"MAX" => Some(MonoidKind::Max),
            b"BOR" => Some(MonoidKind::Bor),
            b"BAND" => Some(MonoidKind::Band),
            b"BXOR" => Some(MonoidKind::Bxor),
            b"LOR" => Some(MonoidKind::Lor),
            b"LAND" => Some(MonoidKind::Land),
            b"LXOR" => Some(MonoidKind::Lxor),
            b"LXNOR" => Some(MonoidKind::Lxnor),
            _ => None,
        }
    }
}

/// What stands before the number of a user domain.
const USER: &str = "USER:";

impl Domain {
    /// The name of a built-in domain, and what stands before the number of a user domain.
    const fn word(self) -> &'static str
        ensures { result.now ≡ domain_word self }
    {
        match self {
            Domain::Bool => "BOOL",
            Domain::Int64 => "INT64",
            Domain::Uint64 => "UINT64",
            Domain::User(_) => USER,
        }
    }

    /// The domain of a name: BOOL, INT64, UINT64, or USER:k with k of 1 to 10 digits, at most
    /// 4294967295.
    #[tactic(auto, unfolding(crate::specs::Names::domain_from_name))]
    pub fn from_name(word: &[u8]) -> Option<Domain>
        ensures { result ≡ domain_from_name word.now }
    {
        match word {
            [b'U', b'S', b'E', b'R', b':', digits @ ..] => user_number(digits).map(Domain::User),
            _ => built_in(word),
        }
    }
}

/// The built-in domain of a name.
fn built_in(word: &[u8]) -> Option<Domain>
    ensures { result ≡ built_in_from_name word.now }
{
    match word {
        b"BOOL" => Some(Domain::Bool),
        b"INT64" => Some(Domain::Int64),
        b"UINT64" => Some(Domain::Uint64),
        _ => None,
    }
}

/// The number that 1 to 10 digits write, where it has 32 bits.
fn user_number(digits: &[u8]) -> Option<u32>
    ensures { result ≡ user_number digits.now }
{
    // `parse` would take a number behind a `+`, which no name of a domain has.
    if digits.is_empty() || digits.len() > 10 || digits[0] == b'+' {
        return None;
    }
    str::from_utf8(digits).ok()?.parse().ok()
}

/// The name of the domain.
impl fmt::Display for Domain {
    ghost output = { λ domain. Some (domain_name domain) };

    fn fmt<W: fmt::Write>(&self, f: &mut fmt::Formatter<W>) -> fmt::Result {
        match self {
            Domain::User(number) => {
                f.write_str(self.word())?;
                write!(f, "{number}")
            }
            _ => f.write_str(self.word()),
        }
    }
}
