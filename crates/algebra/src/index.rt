//! Index operators (`GrB_IndexUnaryOp`).
ghost use Rattle.std.specs.Prelude.{◌≡◌, ◌↔◌, ◌+ℤ◌, pos, IsTrue, IsSome, IfSome, true};
ghost use Rattle.std.specs.Int.{cast_signed, w64};
ghost use Rattle.algebra.specs.IndexOperators.{index_answer_domain, index_eval_of, is_by_position, offers_index};
ghost use Rattle.algebra.specs.IndexOperators.{passes, scalar_domain};

use crate::{Domain, IndexKind};

impl IndexKind {
    /// Whether there is an operator of this kind on a domain. One by position is on every domain.
    pub const fn is_on(self, domain: Domain) -> bool
        ensures { result ≡ offers_index self domain }
    {
        match self {
            IndexKind::ValueEq | IndexKind::ValueNe => domain.is_built_in(),
            IndexKind::ValueLt | IndexKind::ValueLe | IndexKind::ValueGt | IndexKind::ValueGe => {
                domain.is_integer()
            }
            _ => true,
        }
    }

    /// Whether an operator of this kind looks at positions alone, and not at the value.
    pub const fn is_by_position(self) -> bool
        ensures { result ≡ is_by_position self }
    {
        !matches!(
            self,
            IndexKind::ValueEq
                | IndexKind::ValueNe
                | IndexKind::ValueLt
                | IndexKind::ValueLe
                | IndexKind::ValueGt
                | IndexKind::ValueGe
        )
    }

    /// The domain of the scalar on a domain: INT64 for an operator by position, else that of the values.
    pub const fn scalar(self, domain: Domain) -> Domain
        ensures { result ≡ scalar_domain self domain }
    {
        if self.is_by_position() {
            Domain::Int64
        } else {
            domain
        }
    }

    /// The domain of the answer: INT64 for ROWINDEX, COLINDEX and DIAGINDEX, else BOOL.
    pub const fn answer(self) -> Domain
        ensures { result ≡ index_answer_domain self }
    {
        match self {
            IndexKind::RowIndex | IndexKind::ColIndex | IndexKind::DiagIndex => Domain::Int64,
            _ => Domain::Bool,
        }
    }
}

/// An index operator on one domain: of a value, its row and column, and a scalar.
#[derive(Clone, Copy)]
pub struct IndexOp {
    pub kind: IndexKind,
    pub domain: Domain,
    ghost offered: { offers_index kind domain ≡ true },
}

impl IndexOp {
    /// The operator of a kind on a domain; None where there is none.
    #[inline(always)]
    pub const fn new(kind: IndexKind, domain: Domain) -> Option<IndexOp>
        ensures offered { IsSome result ↔ IsTrue (offers_index kind domain) }
        ensures kind { IfSome result (λ op. op.kind ≡ kind) }
        ensures domain { IfSome result (λ op. op.domain ≡ domain) }
    {
        if kind.is_on(domain) {
            Some(IndexOp { kind, domain })
        } else {
            None
        }
    }

    /// The domain of the scalar: INT64 for an operator by position, else that of the values.
    pub const fn scalar(self) -> Domain
        ensures { result ≡ scalar_domain self.kind self.domain }
    {
        self.kind.scalar(self.domain)
    }

    /// The domain of the answer: INT64 for ROWINDEX, COLINDEX and DIAGINDEX, else BOOL.
    pub const fn answer(self) -> Domain
        ensures { result ≡ index_answer_domain self.kind }
    {
        self.kind.answer()
    }

    /// Whether the answer for a word of its domain at row `i` and column `j`, cast to BOOL, is true.
    #[inline(always)]
    pub const fn passes(self, a: u64, i: u64, j: u64, s: u64) -> bool
        ensures { result ≡ passes self.kind self.domain a i j s }
    {
        self.eval(a, i, j, s) != 0
    }

    /// The operator of a kind that is known to be offered: where both are literals, the compiler sees
    /// through it.
    #[inline(always)]
    pub fn of(kind: IndexKind, domain: Domain) -> IndexOp
        requires { offers_index kind domain ≡ true }
        ensures kind { result.kind ≡ kind }
        ensures domain { result.domain ≡ domain }
    {
        IndexOp::new(kind, domain).unwrap()
    }

    /// What the operator gives for a word `a` of its domain at row `i` and column `j`, and a word `s`
    /// of the scalar's domain. Tests by position are on whole numbers: no sum in them wraps.
    #[inline(always)]
    pub const fn eval(self, a: u64, i: u64, j: u64, s: u64) -> u64
        ensures { result ≡ index_eval_of self.kind self.domain a i j s }
    {
        match self.kind {
            IndexKind::RowIndex => i.wrapping_add(s),
            IndexKind::ColIndex => j.wrapping_add(s),
            IndexKind::DiagIndex => j.wrapping_sub(i).wrapping_add(s),
            IndexKind::Tril => (j as i128 <= moved(i, s)) as u64,
            IndexKind::Triu => (moved(i, s) <= j as i128) as u64,
            IndexKind::Diag => (j as i128 == moved(i, s)) as u64,
            IndexKind::OffDiag => (j as i128 != moved(i, s)) as u64,
            IndexKind::ColLe => (j as i128 <= s.cast_signed() as i128) as u64,
            IndexKind::ColGt => (j as i128 > s.cast_signed() as i128) as u64,
            IndexKind::RowLe => (i as i128 <= s.cast_signed() as i128) as u64,
            IndexKind::RowGt => (i as i128 > s.cast_signed() as i128) as u64,
            IndexKind::ValueEq => self.domain.is_equal(a, s) as u64,
            IndexKind::ValueNe => !self.domain.is_equal(a, s) as u64,
            IndexKind::ValueLt => self.domain.is_less(a, s) as u64,
            IndexKind::ValueLe => !self.domain.is_less(s, a) as u64,
            IndexKind::ValueGt => self.domain.is_less(s, a) as u64,
            IndexKind::ValueGe => !self.domain.is_less(a, s) as u64,
        }
    }
}

/// The column of a row on the diagonal that the scalar names.
#[inline(always)]
const fn moved(row: u64, s: u64) -> i128
    ensures { result ≡ pos row +ℤ cast_signed w64 s }
{
    row as i128 + s.cast_signed() as i128
}
