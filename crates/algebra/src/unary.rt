//! Unary operators (`GrB_UnaryOp`).
ghost use Rattle.std.specs.Prelude.{◌≡◌, ◌↔◌, IsTrue, IsSome, IfSome, true};
ghost use Rattle.algebra.specs.UnaryOperators.{offers_unary, unary_eval_of};

use crate::{Domain, UnaryKind, cast};

impl UnaryKind {
    /// Whether there is an operator of this kind on a domain.
    pub const fn is_on(self, domain: Domain) -> bool
        ensures { result ≡ offers_unary self domain }
    {
        match self {
            UnaryKind::Identity => domain.is_built_in(),
            UnaryKind::Lnot => domain.is_boolean(),
            UnaryKind::Ainv | UnaryKind::Abs | UnaryKind::Bnot => domain.is_integer(),
        }
    }
}

/// A unary operator on one domain: its input and its answer are of it.
#[derive(Clone, Copy)]
pub struct UnaryOp {
    pub kind: UnaryKind,
    pub domain: Domain,
    ghost offered: { offers_unary kind domain ≡ true },
}

impl UnaryOp {
    /// The operator of a kind on a domain; None where there is none.
    #[inline(always)]
    pub const fn new(kind: UnaryKind, domain: Domain) -> Option<UnaryOp>
        ensures offered { IsSome result ↔ IsTrue (offers_unary kind domain) }
        ensures kind { IfSome result (λ op. op.kind ≡ kind) }
        ensures domain { IfSome result (λ op. op.domain ≡ domain) }
    {
        if kind.is_on(domain) {
            Some(UnaryOp { kind, domain })
        } else {
            None
        }
    }

    /// The operator of a kind that is known to be offered: where both are literals, the compiler sees
    /// through it.
    #[inline(always)]
    pub fn of(kind: UnaryKind, domain: Domain) -> UnaryOp
        requires { offers_unary kind domain ≡ true }
        ensures kind { result.kind ≡ kind }
        ensures domain { result.domain ≡ domain }
    {
        UnaryOp::new(kind, domain).unwrap()
    }

    /// What the operator gives for a word of its domain.
    #[inline(always)]
    pub const fn eval(self, a: u64) -> u64
        ensures { result ≡ unary_eval_of self.kind self.domain a }
    {
        match self.kind {
            UnaryKind::Identity => cast(a, self.domain, self.domain),
            UnaryKind::Ainv => a.wrapping_neg(),
            UnaryKind::Abs if self.domain.is_less(a, 0) => a.wrapping_neg(),
            UnaryKind::Abs => a,
            UnaryKind::Lnot => (a == 0) as u64,
            UnaryKind::Bnot => !a,
        }
    }
}
