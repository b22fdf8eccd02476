//! Semirings (`GrB_Semiring`).
ghost use Rattle.std.specs.Prelude.{◌≡◌, ◌↔◌, IsTrue, IsSome, IfSome, true};
ghost use Rattle.algebra.specs.Operators.{answer_domain, combines_by, offers_semiring};

use crate::{BinaryKind, BinaryOp, Domain, Monoid, MonoidKind};

/// A semiring: the products of an operator, summed by a monoid on the operator's answers
/// (`GrB_Semiring` of GraphBLAS C API 2.0).
#[derive(Clone, Copy)]
pub struct Semiring {
    pub add: Monoid,
    pub multiply: BinaryOp,
    pub ghost adds_answers: { add.op.domain ≡ answer_domain multiply.kind multiply.domain },
}

impl Semiring {
    /// The semiring of a monoid and an operator on a domain; None where either isn't offered or the
    /// monoid isn't on the domain of the operator's answer.
    #[inline(always)]
    pub const fn new(add: MonoidKind, multiply: BinaryKind, domain: Domain) -> Option<Semiring>
        ensures offered { IsSome result ↔ IsTrue (offers_semiring add multiply domain) }
        ensures add { IfSome result (λ semiring. semiring.add.op.kind ≡ combines_by add) }
        ensures add_domain { IfSome result (λ semiring. semiring.add.op.domain ≡ answer_domain multiply domain) }
        ensures add_name { IfSome result (λ semiring. semiring.add.kind ≡ add) }
        ensures multiply { IfSome result (λ semiring. semiring.multiply.kind ≡ multiply) }
        ensures multiply_domain { IfSome result (λ semiring. semiring.multiply.domain ≡ domain) }
    {
        let Some(multiply) = BinaryOp::new(multiply, domain) else {
            return None;
        };
        let Some(add) = Monoid::new(add, multiply.answer()) else {
            return None;
        };
        Some(Semiring { add, multiply })
    }

    /// The semiring of kinds that are known to be offered: where they are literals, the compiler sees
    /// through it.
    #[inline(always)]
    pub fn of(add: MonoidKind, multiply: BinaryKind, domain: Domain) -> Semiring
        requires { offers_semiring add multiply domain ≡ true }
        ensures add { result.add.op.kind ≡ combines_by add }
        ensures add_domain { result.add.op.domain ≡ answer_domain multiply domain }
        ensures add_name { result.add.kind ≡ add }
        ensures multiply { result.multiply.kind ≡ multiply }
        ensures multiply_domain { result.multiply.domain ≡ domain }
    {
        Semiring::new(add, multiply, domain).unwrap()
    }
}
