//! Domains, and their values as words (`GrB_Type`).
ghost use Rattle.std.specs.Prelude.{◌≡◌, int_lt, true, false, MatchOption};
ghost use Rattle.algebra.specs.Value.{are_compatible, cast_of, greatest_of, is_boolean, is_built_in, is_integer};
ghost use Rattle.algebra.specs.Value.{same_domain, is_value_of, least_of, value_of, word_of};
ghost use Rattle.algebra.specs.Operators.{int_equal};

/// The domain of an object's values (`GrB_Type` of GraphBLAS C API 2.0).
///
/// Each value is held as one 64-bit word: BOOL as 0 or 1, INT64 in two's complement, UINT64 as it is.
/// Where a word of BOOL is read, every word but 0 counts as 1. A user domain holds any word and has
/// no operators but those by position.
#[derive(Clone, Copy, Debug, PartialEq, Eq)]
pub enum Domain {
    Bool,
    Int64,
    Uint64,
    User(u32),
}

impl Domain {
    /// Whether the domain is BOOL.
    pub const fn is_boolean(self) -> bool
        ensures { result ≡ is_boolean self }
    {
        matches!(self, Domain::Bool)
    }

    /// Whether the domain is INT64 or UINT64.
    pub const fn is_integer(self) -> bool
        ensures { result ≡ is_integer self }
    {
        matches!(self, Domain::Int64 | Domain::Uint64)
    }

    /// Whether the domain is one of the standard's: BOOL or an integer.
    pub const fn is_built_in(self) -> bool
        ensures { result ≡ is_built_in self }
    {
        !matches!(self, Domain::User(_))
    }

    /// The whole number that a word stands for.
    pub const fn value_of(self, word: u64) -> i128
        ensures { result ≡ value_of self word }
    {
        match self {
            Domain::Bool => (word != 0) as i128,
            Domain::Int64 => word.cast_signed() as i128,
            Domain::Uint64 | Domain::User(_) => word as i128,
        }
    }

    /// The word that holds a whole number; None where the number is no value of the domain.
    pub const fn word_of(self, value: i128) -> Option<u64>
        ensures { MatchOption result
            (is_value_of self value ≡ false)
            (λ word. (is_value_of self value ≡ true) × (word ≡ word_of self value)) }
    {
        match self {
            Domain::Bool if 0 <= value && value <= 1 => Some(value as u64),
            Domain::Bool => None,
            Domain::Int64 if i64::MIN as i128 <= value && value <= i64::MAX as i128 => {
                Some((value as i64).cast_unsigned())
            }
            Domain::Int64 => None,
            Domain::Uint64 | Domain::User(_) if 0 <= value && value <= u64::MAX as i128 => {
                Some(value as u64)
            }
            Domain::Uint64 | Domain::User(_) => None,
        }
    }

    /// The word of a whole number that is brought into the domain: in BOOL whether it isn't 0, else
    /// modulo 2^64.
    pub const fn wrapped(self, value: i128) -> u64
        ensures { result ≡ word_of self value }
    {
        match self {
            Domain::Bool => (value != 0) as u64,
            Domain::Int64 | Domain::Uint64 | Domain::User(_) => value.rem_euclid(1 << 64) as u64,
        }
    }

    /// Whether both domains are the same.
    pub const fn is_same(self, other: Domain) -> bool
        ensures { result ≡ same_domain self other }
    {
        match (self, other) {
            (Domain::Bool, Domain::Bool)
            | (Domain::Int64, Domain::Int64)
            | (Domain::Uint64, Domain::Uint64) => true,
            (Domain::User(number), Domain::User(other)) => number == other,
            _ => false,
        }
    }

    /// The word of the least value.
    pub(crate) const fn least(self) -> u64
        ensures { result ≡ word_of self (least_of self) }
    {
        match self {
            Domain::Int64 => i64::MIN.cast_unsigned(),
            Domain::Bool | Domain::Uint64 | Domain::User(_) => 0,
        }
    }

    /// The word of the greatest value.
    pub(crate) const fn greatest(self) -> u64
        ensures { result ≡ word_of self (greatest_of self) }
    {
        match self {
            Domain::Bool => 1,
            Domain::Int64 => i64::MAX.cast_unsigned(),
            Domain::Uint64 | Domain::User(_) => u64::MAX,
        }
    }

    /// Whether the value of `a` is below that of `b`.
    #[inline(always)]
    pub(crate) const fn is_less(self, a: u64, b: u64) -> bool
        ensures { result ≡ int_lt (value_of self a) (value_of self b) }
    {
        match self {
            Domain::Bool => a == 0 && b != 0,
            Domain::Int64 => a.cast_signed() < b.cast_signed(),
            Domain::Uint64 | Domain::User(_) => a < b,
        }
    }

    /// Whether two words stand for the same value.
    #[inline(always)]
    pub(crate) const fn is_equal(self, a: u64, b: u64) -> bool
        ensures { result ≡ int_equal (value_of self a) (value_of self b) }
    {
        match self {
            Domain::Bool => (a == 0) == (b == 0),
            Domain::Int64 | Domain::Uint64 | Domain::User(_) => a == b,
        }
    }
}

/// Whether values of one domain can be cast to the other: both are built in, or both are the same.
pub const fn compatible(a: Domain, b: Domain) -> bool
    ensures { result ≡ are_compatible a b }
{
    match (a, b) {
        (Domain::User(a), Domain::User(b)) => a == b,
        _ => a.is_built_in() && b.is_built_in(),
    }
}

/// A word of the domain `from` as a word of the domain `to`: in BOOL whether the value is not 0, else
/// the value modulo 2^64.
#[inline(always)]
pub const fn cast(word: u64, from: Domain, to: Domain) -> u64
    ensures { result ≡ cast_of from to word }
{
    match (from, to) {
        (Domain::Bool, _) | (_, Domain::Bool) => (word != 0) as u64,
        _ => word,
    }
}
