//! Domains, casts, operators, monoids and semirings (GraphBLAS C API 2.0): the arithmetic of values,
//! each held as one 64-bit word. Everything here is total and takes no memory.
#![tactic(auto)]

mod arms;
mod binary;
mod domain;
mod functions;
mod index;
mod kinds;
mod monoid;
mod names;
mod operator_names;
mod semiring;
mod unary;

pub use binary::BinaryOp;
pub use domain::{Domain, cast, compatible};
pub use functions::{Function, FunctionName};
pub use index::IndexOp;
pub use kinds::{BinaryKind, IndexKind, MonoidKind, UnaryKind};
pub use monoid::Monoid;
pub use operator_names::{IndexName, MonoidName, OpName, SemiringName, UnaryName};
pub use semiring::Semiring;
pub use unary::UnaryOp;
