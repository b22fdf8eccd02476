//! Binary operators (`GrB_BinaryOp`).
ghost use Rattle.std.specs.Prelude.{◌≡◌, ◌↔◌, IsTrue, IsSome, IfSome, true};
ghost use Rattle.algebra.specs.Operators.{answer_domain, eval_of, offers};

use crate::{BinaryKind, Domain, cast};

impl BinaryKind {
    /// Whether there is an operator of this kind on a domain.
    pub const fn is_on(self, domain: Domain) -> bool
        ensures { result ≡ offers self domain }
    {
        match self {
            BinaryKind::First
            | BinaryKind::Second
            | BinaryKind::Oneb
            | BinaryKind::Eq
            | BinaryKind::Ne => domain.is_built_in(),
            BinaryKind::Lor | BinaryKind::Land | BinaryKind::Lxor | BinaryKind::Lxnor => {
                domain.is_boolean()
            }
            _ => domain.is_integer(),
        }
    }

    /// The domain of the answer on a domain: BOOL for a comparison, else that of the inputs.
    pub const fn answer(self, domain: Domain) -> Domain
        ensures { result ≡ answer_domain self domain }
    {
        match self {
            BinaryKind::Eq
            | BinaryKind::Ne
            | BinaryKind::Gt
            | BinaryKind::Lt
            | BinaryKind::Ge
            | BinaryKind::Le => Domain::Bool,
            _ => domain,
        }
    }
}

/// A binary operator on one domain: both its inputs are of it.
#[derive(Clone, Copy)]
pub struct BinaryOp {
    pub kind: BinaryKind,
    pub domain: Domain,
    ghost offered: { offers kind domain ≡ true },
}

impl BinaryOp {
    /// The operator of a kind on a domain; None where there is none.
    #[inline(always)]
    pub const fn new(kind: BinaryKind, domain: Domain) -> Option<BinaryOp>
        ensures offered { IsSome result ↔ IsTrue (offers kind domain) }
        ensures kind { IfSome result (λ op. op.kind ≡ kind) }
        ensures domain { IfSome result (λ op. op.domain ≡ domain) }
    {
        if kind.is_on(domain) {
            Some(BinaryOp { kind, domain })
        } else {
            None
        }
    }

    /// The operator of a kind that is known to be offered: where both are literals, the compiler sees
    /// through it.
    #[inline(always)]
    pub fn of(kind: BinaryKind, domain: Domain) -> BinaryOp
        requires { offers kind domain ≡ true }
        ensures kind { result.kind ≡ kind }
        ensures domain { result.domain ≡ domain }
    {
        BinaryOp::new(kind, domain).unwrap()
    }

    /// The domain of the answer: BOOL for a comparison, else that of the inputs.
    pub const fn answer(self) -> Domain
        ensures { result ≡ answer_domain self.kind self.domain }
    {
        self.kind.answer(self.domain)
    }

    /// What the operator gives for two words of its domain.
    #[inline(always)]
    pub const fn eval(self, a: u64, b: u64) -> u64
        ensures { result ≡ eval_of self.kind self.domain a b }
    {
        match self.kind {
            BinaryKind::First => cast(a, self.domain, self.domain),
            BinaryKind::Second => cast(b, self.domain, self.domain),
            BinaryKind::Oneb => 1,
            BinaryKind::Min if self.domain.is_less(b, a) => b,
            BinaryKind::Min => a,
            BinaryKind::Max if self.domain.is_less(b, a) => a,
            BinaryKind::Max => b,
            BinaryKind::Plus => a.wrapping_add(b),
            BinaryKind::Minus => a.wrapping_sub(b),
            BinaryKind::Times => a.wrapping_mul(b),
            BinaryKind::Eq | BinaryKind::Lxnor => self.domain.is_equal(a, b) as u64,
            BinaryKind::Ne | BinaryKind::Lxor => !self.domain.is_equal(a, b) as u64,
            BinaryKind::Gt => self.domain.is_less(b, a) as u64,
            BinaryKind::Lt => self.domain.is_less(a, b) as u64,
            BinaryKind::Ge => !self.domain.is_less(a, b) as u64,
            BinaryKind::Le => !self.domain.is_less(b, a) as u64,
            BinaryKind::Lor => (a != 0 || b != 0) as u64,
            BinaryKind::Land => (a != 0 && b != 0) as u64,
            BinaryKind::Bor => a | b,
            BinaryKind::Band => a & b,
            BinaryKind::Bxor => a ^ b,
            BinaryKind::Bxnor => !(a ^ b),
        }
    }
}
