//! Functions of one value and its position (the operators that `GrB_apply` takes).
ghost use Rattle.std.specs.Prelude.{◌≡◌, MatchOption, true, false};
ghost use Rattle.algebra.specs.Functions.{function_answer, function_domain, function_named, function_of, has_value};
ghost use Rattle.algebra.specs.Functions.{offers_function, takes};

use crate::{BinaryOp, Domain, IndexName, IndexOp, OpName, UnaryName, UnaryOp, compatible};

/// A function of one value, by name, perhaps of none that there is.
#[derive(Clone, Copy, Debug, PartialEq, Eq)]
pub enum FunctionName {
    Unary(UnaryName),
    /// A binary operator whose first operand is a plain value (`GrB_apply` with `GrB_BinaryOp`, bound
    /// first).
    First { op: OpName, value: i128 },
    /// A binary operator whose second operand is a plain value.
    Second { op: OpName, value: i128 },
    /// An index operator with its scalar.
    Index { op: IndexName, scalar: i128 },
}

impl FunctionName {
    /// Whether there is a function of this name.
    pub const fn is_offered(self) -> bool
        ensures { result ≡ offers_function self }
    {
        match self {
            FunctionName::Unary(op) => op.is_offered(),
            FunctionName::First { op, .. } => op.is_offered(),
            FunctionName::Second { op, .. } => op.is_offered(),
            FunctionName::Index { op, .. } => op.is_offered(),
        }
    }

    /// The domain of the values that it takes.
    pub const fn domain(self) -> Domain
        ensures { result ≡ function_domain self }
    {
        match self {
            FunctionName::Unary(op) => op.domain,
            FunctionName::First { op, .. } => op.domain,
            FunctionName::Second { op, .. } => op.domain,
            FunctionName::Index { op, .. } => op.domain,
        }
    }

    /// Whether it takes values of a domain, cast to its own; an operator by position takes any.
    pub const fn takes(self, from: Domain) -> bool
        ensures { result ≡ takes self from }
    {
        match self {
            FunctionName::Unary(op) => compatible(from, op.domain),
            FunctionName::First { op, .. } => compatible(from, op.domain),
            FunctionName::Second { op, .. } => compatible(from, op.domain),
            FunctionName::Index { op, .. } => op.takes(from),
        }
    }

    /// Whether its plain value is one of the domain that reads it.
    pub fn has_value(self) -> bool
        ensures { result ≡ has_value self }
    {
        match self {
            FunctionName::Unary(_) => true,
            FunctionName::First { op, value } => op.domain.word_of(value).is_some(),
            FunctionName::Second { op, value } => op.domain.word_of(value).is_some(),
            FunctionName::Index { op, scalar } => op.scalar().word_of(scalar).is_some(),
        }
    }

    /// The domain of its answers.
    pub const fn answer(self) -> Domain
        ensures { result ≡ function_answer self }
    {
        match self {
            FunctionName::Unary(op) => op.domain,
            FunctionName::First { op, .. } => op.answer(),
            FunctionName::Second { op, .. } => op.answer(),
            FunctionName::Index { op, .. } => op.answer(),
        }
    }

    /// The function of the name; None where there is none.
    pub fn resolve(self) -> Option<Function>
        ensures { MatchOption result
            (offers_function self ≡ false)
            (λ function. (offers_function self ≡ true) × (function_named function ≡ self)) }
    {
        match self {
            FunctionName::Unary(op) => Some(Function::Unary(op.resolve()?)),
            FunctionName::First { op, value } => {
                let op = op.resolve()?;
                Some(Function::First { op, value })
            }
            FunctionName::Second { op, value } => {
                let op = op.resolve()?;
                Some(Function::Second { op, value })
            }
            FunctionName::Index { op, scalar } => {
                let op = op.resolve()?;
                Some(Function::Index { op, scalar })
            }
        }
    }
}

/// A function of one value and its position, whose operator is there.
#[derive(Clone, Copy)]
pub enum Function {
    Unary(UnaryOp),
    /// A binary operator whose first operand is a plain value, brought into its domain.
    First { op: BinaryOp, value: i128 },
    /// A binary operator whose second operand is a plain value, brought into its domain.
    Second { op: BinaryOp, value: i128 },
    /// An index operator with its scalar, brought into the domain that reads it.
    Index { op: IndexOp, scalar: i128 },
}

impl Function {
    /// The domain of its answers.
    pub const fn answer(self) -> Domain
        ensures { result ≡ function_answer (function_named self) }
    {
        match self {
            Function::Unary(op) => op.domain,
            Function::First { op, .. } => op.answer(),
            Function::Second { op, .. } => op.answer(),
            Function::Index { op, .. } => op.answer(),
        }
    }

    /// What it gives for a word of its domain at row `i` and column `j`.
    pub fn eval(self, word: u64, i: u64, j: u64) -> u64
        ensures { result ≡ function_of (function_named self) i j word }
    {
        match self {
            Function::Unary(op) => op.eval(word),
            Function::First { op, value } => op.eval(op.domain.wrapped(value), word),
            Function::Second { op, value } => op.eval(word, op.domain.wrapped(value)),
            Function::Index { op, scalar } => op.eval(word, i, j, op.scalar().wrapped(scalar)),
        }
    }
}
