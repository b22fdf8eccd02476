//! Monoids (`GrB_Monoid`).
ghost use Rattle.std.specs.Prelude.{◌≡◌, ◌↔◌, IsTrue, IsSome, IfSome, true};
ghost use Rattle.algebra.specs.Monoids.{identity_of};
ghost use Rattle.algebra.specs.Operators.{combines_by, offers};

use crate::{BinaryOp, Domain, MonoidKind};

/// A monoid: an operator that is associative and commutative on the words of its domain, with an
/// identity there.
#[derive(Clone, Copy)]
pub struct Monoid {
    pub kind: MonoidKind,
    pub op: BinaryOp,
    ghost combines: { op.kind ≡ combines_by kind },
}

impl Monoid {
    /// The monoid of a kind on a domain; None where there is none.
    #[inline(always)]
    pub const fn new(kind: MonoidKind, domain: Domain) -> Option<Monoid>
        ensures offered { IsSome result ↔ IsTrue (offers (combines_by kind) domain) }
        ensures kind { IfSome result (λ monoid. monoid.op.kind ≡ combines_by kind) }
        ensures domain { IfSome result (λ monoid. monoid.op.domain ≡ domain) }
        ensures name { IfSome result (λ monoid. monoid.kind ≡ kind) }
    {
        match BinaryOp::new(kind.operator(), domain) {
            Some(op) => Some(Monoid { kind, op }),
            None => None,
        }
    }

    /// The monoid of a kind that is known to be offered: where both are literals, the compiler sees
    /// through it.
    #[inline(always)]
    pub fn of(kind: MonoidKind, domain: Domain) -> Monoid
        requires { offers (combines_by kind) domain ≡ true }
        ensures kind { result.op.kind ≡ combines_by kind }
        ensures domain { result.op.domain ≡ domain }
        ensures name { result.kind ≡ kind }
    {
        Monoid::new(kind, domain).unwrap()
    }

    /// The word that changes no word that it is combined with.
    pub const fn identity(self) -> u64
        ensures { result ≡ identity_of self.kind self.op.domain }
    {
        match self.kind {
            MonoidKind::Plus
            | MonoidKind::Bor
            | MonoidKind::Bxor
            | MonoidKind::Lor
            | MonoidKind::Lxor => 0,
            MonoidKind::Times | MonoidKind::Land | MonoidKind::Lxnor => 1,
            MonoidKind::Min => self.op.domain.greatest(),
            MonoidKind::Max => self.op.domain.least(),
            MonoidKind::Band => u64::MAX,
        }
    }
}
