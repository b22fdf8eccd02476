//! Operators and semirings by name, whether they are offered or not.
ghost use Rattle.std.specs.Prelude.{◌≡◌, MatchOption, true, false};
ghost use Rattle.algebra.specs.IndexOperators.{index_answer_domain, offers_index, scalar_domain, takes_index};
ghost use Rattle.algebra.specs.OperatorNames.{index_named, monoid_named, op_named, semiring_named, unary_named};
ghost use Rattle.algebra.specs.Operators.{answer_domain, combines_by, offers, offers_semiring};
ghost use Rattle.algebra.specs.UnaryOperators.{offers_unary};

use crate::{
    BinaryKind, BinaryOp, Domain, IndexKind, IndexOp, Monoid, MonoidKind, Semiring, UnaryKind,
    UnaryOp, compatible,
};

/// A binary operator by its kind and the domain of its inputs. Not every such name is one of an
/// operator that there is.
#[derive(Clone, Copy, Debug, PartialEq, Eq)]
pub struct OpName {
    pub kind: BinaryKind,
    pub domain: Domain,
}

impl OpName {
    /// Whether there is an operator of this name.
    pub const fn is_offered(self) -> bool
        ensures { result ≡ offers self.kind self.domain }
    {
        self.kind.is_on(self.domain)
    }

    /// The domain of the answer: BOOL for a comparison, else that of the inputs.
    pub const fn answer(self) -> Domain
        ensures { result ≡ answer_domain self.kind self.domain }
    {
        self.kind.answer(self.domain)
    }

    /// The operator of the name; None where there is none.
    pub fn resolve(self) -> Option<BinaryOp>
        ensures { MatchOption result
            (offers self.kind self.domain ≡ false)
            (λ op. (offers self.kind self.domain ≡ true) × (op_named op ≡ self)) }
    {
        BinaryOp::new(self.kind, self.domain)
    }
}

/// A unary operator by its kind and its domain, perhaps of none that there is.
#[derive(Clone, Copy, Debug, PartialEq, Eq)]
pub struct UnaryName {
    pub kind: UnaryKind,
    pub domain: Domain,
}

impl UnaryName {
    /// Whether there is an operator of this name.
    pub const fn is_offered(self) -> bool
        ensures { result ≡ offers_unary self.kind self.domain }
    {
        self.kind.is_on(self.domain)
    }

    /// The operator of the name; None where there is none.
    pub fn resolve(self) -> Option<UnaryOp>
        ensures { MatchOption result
            (offers_unary self.kind self.domain ≡ false)
            (λ op. (offers_unary self.kind self.domain ≡ true) × (unary_named op ≡ self)) }
    {
        UnaryOp::new(self.kind, self.domain)
    }
}

/// An index operator by its kind and the domain of its values, perhaps of none that there is.
#[derive(Clone, Copy, Debug, PartialEq, Eq)]
pub struct IndexName {
    pub kind: IndexKind,
    pub domain: Domain,
}

impl IndexName {
    /// Whether there is an operator of this name.
    pub const fn is_offered(self) -> bool
        ensures { result ≡ offers_index self.kind self.domain }
    {
        self.kind.is_on(self.domain)
    }

    /// The domain of the scalar: INT64 for an operator by position, else that of the values.
    pub const fn scalar(self) -> Domain
        ensures { result ≡ scalar_domain self.kind self.domain }
    {
        self.kind.scalar(self.domain)
    }

    /// The domain of the answer: INT64 for ROWINDEX, COLINDEX and DIAGINDEX, else BOOL.
    pub const fn answer(self) -> Domain
        ensures { result ≡ index_answer_domain self.kind }
    {
        self.kind.answer()
    }

    /// Whether it takes values of a domain, cast to its own; an operator by position takes any.
    pub const fn takes(self, from: Domain) -> bool
        ensures { result ≡ takes_index self.kind self.domain from }
    {
        self.kind.is_by_position() || compatible(from, self.domain)
    }

    /// The operator of the name; None where there is none.
    pub fn resolve(self) -> Option<IndexOp>
        ensures { MatchOption result
            (offers_index self.kind self.domain ≡ false)
            (λ op. (offers_index self.kind self.domain ≡ true) × (index_named op ≡ self)) }
    {
        IndexOp::new(self.kind, self.domain)
    }
}

/// A monoid by its kind and its domain, perhaps of none that there is.
#[derive(Clone, Copy, Debug, PartialEq, Eq)]
pub struct MonoidName {
    pub kind: MonoidKind,
    pub domain: Domain,
}

impl MonoidName {
    /// Whether there is a monoid of this name.
    pub const fn is_offered(self) -> bool
        ensures { result ≡ offers (combines_by self.kind) self.domain }
    {
        self.kind.operator().is_on(self.domain)
    }

    /// The monoid of the name; None where there is none.
    pub fn resolve(self) -> Option<Monoid>
        ensures { MatchOption result
            (offers (combines_by self.kind) self.domain ≡ false)
            (λ monoid. (offers (combines_by self.kind) self.domain ≡ true) × (monoid_named monoid ≡ self)) }
    {
        Monoid::new(self.kind, self.domain)
    }
}

/// A semiring by the kinds of its monoid and of its operator, and the domain of the operator's
/// inputs, perhaps of none that there is.
#[derive(Clone, Copy, Debug, PartialEq, Eq)]
pub struct SemiringName {
    pub add: MonoidKind,
    pub multiply: BinaryKind,
    pub domain: Domain,
}

impl SemiringName {
    /// Whether there is a semiring of this name.
    pub const fn is_offered(self) -> bool
        ensures { result ≡ offers_semiring self.add self.multiply self.domain }
    {
        self.multiply.is_on(self.domain) && self.add.operator().is_on(self.answer())
    }

    /// The domain of the sums: that of the operator's answers.
    pub const fn answer(self) -> Domain
        ensures { result ≡ answer_domain self.multiply self.domain }
    {
        self.multiply.answer(self.domain)
    }

    /// The semiring of the name; None where there is none.
    pub fn resolve(self) -> Option<Semiring>
        ensures { MatchOption result
            (offers_semiring self.add self.multiply self.domain ≡ false)
            (λ semiring. (offers_semiring self.add self.multiply self.domain ≡ true)
            × (semiring_named semiring ≡ self)) }
    {
        Semiring::new(self.add, self.multiply, self.domain)
    }
}
