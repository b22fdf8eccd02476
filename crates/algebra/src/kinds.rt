//! The kinds of operators and monoids.
ghost use Rattle.std.specs.Prelude.{◌≡◌};

/// The names of the unary operators (`GrB_UnaryOp` of GraphBLAS C API 2.0).
#[derive(Clone, Copy, Debug, PartialEq, Eq)]
pub enum UnaryKind {
    Identity,
    Ainv,
    Abs,
    Lnot,
    Bnot,
}

/// The names of the binary operators (`GrB_BinaryOp` of GraphBLAS C API 2.0).
#[derive(Clone, Copy, Debug, PartialEq, Eq)]
pub enum BinaryKind {
    First,
    Second,
    Oneb,
    Min,
    Max,
    Plus,
    Minus,
    Times,
    Eq,
    Ne,
    Gt,
    Lt,
    Ge,
    Le,
    Lor,
    Land,
    Lxor,
    Lxnor,
    Bor,
    Band,
    Bxor,
    Bxnor,
}

/// The names of the index operators (`GrB_IndexUnaryOp` of GraphBLAS C API 2.0): those by position,
/// and the VALUE operators, which compare a value with a scalar.
#[derive(Clone, Copy, Debug, PartialEq, Eq)]
pub enum IndexKind {
    RowIndex,
    ColIndex,
    DiagIndex,
    Tril,
    Triu,
    Diag,
    OffDiag,
    ColLe,
    ColGt,
    RowLe,
    RowGt,
    ValueEq,
    ValueNe,
    ValueLt,
    ValueLe,
    ValueGt,
    ValueGe,
}

/// The names of the monoids (`GrB_Monoid` of GraphBLAS C API 2.0; as monoids BOR, BAND and BXOR are
/// this profile's).
#[derive(Clone, Copy, Debug, PartialEq, Eq)]
pub enum MonoidKind {
    Plus,
    Times,
    Min,
    Max,
    Bor,
    Band,
    Bxor,
    Lor,
    Land,
    Lxor,
    Lxnor,
}

impl MonoidKind {
    ghost use Rattle.algebra.specs.Operators.{combines_by};

    /// The operator by which the monoid combines two values.
    pub const fn operator(self) -> BinaryKind
        ensures { result ≡ combines_by self }
    {
        match self {
            MonoidKind::Plus => BinaryKind::Plus,
            MonoidKind::Times => BinaryKind::Times,
            MonoidKind::Min => BinaryKind::Min,
            MonoidKind::Max => BinaryKind::Max,
            MonoidKind::Bor => BinaryKind::Bor,
            MonoidKind::Band => BinaryKind::Band,
            MonoidKind::Bxor => BinaryKind::Bxor,
            MonoidKind::Lor => BinaryKind::Lor,
            MonoidKind::Land => BinaryKind::Land,
            MonoidKind::Lxor => BinaryKind::Lxor,
            MonoidKind::Lxnor => BinaryKind::Lxnor,
        }
    }
}
