//! Shapes of objects, and positions in them.
ghost use Rattle.std.specs.Prelude.{◌≡◌};
ghost use Rattle.model.specs.Fault.{are_dimensions, is_dimension};
ghost use Rattle.model.specs.Object.{cols_of, is_inside, is_matrix, is_of_kind, row_of, col_of, rows_of, same_kind};
ghost use Rattle.model.specs.Object.{same_length};
ghost use Rattle.model.specs.Object.{same_shape, transposed_shape};

use crate::limits::GREATEST_DIMENSION;
use algebra::Domain;

/// The shape of an object: the size of a vector, or the rows and the columns of a matrix
/// (`GrB_Vector`, `GrB_Matrix`).
#[derive(Clone, Copy, Debug, PartialEq, Eq)]
pub enum Shape {
    One(u64),
    Two(u64, u64),
}

impl Shape {
    /// Whether it is a matrix's.
    pub const fn is_matrix(self) -> bool
        ensures { result ≡ is_matrix self }
    {
        matches!(self, Shape::Two(_, _))
    }

    /// The number of rows; a vector is a column.
    pub const fn rows(self) -> u64
        ensures { result ≡ rows_of self }
    {
        match self {
            Shape::One(size) => size,
            Shape::Two(rows, _) => rows,
        }
    }

    /// The number of columns; a vector is a column.
    pub const fn cols(self) -> u64
        ensures { result ≡ cols_of self }
    {
        match self {
            Shape::One(_) => 1,
            Shape::Two(_, cols) => cols,
        }
    }

    /// Whether both are vectors' or both are matrices'.
    pub const fn is_like(self, other: Shape) -> bool
        ensures { result ≡ same_kind self other }
    {
        self.is_matrix() == other.is_matrix()
    }

    /// Whether both are the same.
    pub const fn is_same(self, other: Shape) -> bool
        ensures { result ≡ same_shape self other }
    {
        match (self, other) {
            (Shape::One(size), Shape::One(other)) => size == other,
            (Shape::Two(rows, cols), Shape::Two(other_rows, other_cols)) => {
                rows == other_rows && cols == other_cols
            }
            _ => false,
        }
    }

    /// The shape of the transpose; a vector's is its own.
    pub const fn transposed(self) -> Shape
        ensures { result ≡ transposed_shape self }
    {
        match self {
            Shape::One(size) => Shape::One(size),
            Shape::Two(rows, cols) => Shape::Two(cols, rows),
        }
    }

    /// Whether each dimension is one that objects may have.
    pub const fn is_allowed(self) -> bool
        ensures { result ≡ are_dimensions self }
    {
        is_dimension(self.rows()) && is_dimension(self.cols())
    }
}

/// Whether a number is a dimension.
const fn is_dimension(number: u64) -> bool
    ensures { result ≡ is_dimension number }
{
    1 <= number && number <= GREATEST_DIMENSION
}

/// A position as a call names it: one index for a vector, two for a matrix, from 0.
#[derive(Clone, Copy, Debug, PartialEq, Eq)]
pub enum Place {
    One(u64),
    Two(u64, u64),
}

impl Place {
    /// The row.
    pub const fn row(self) -> u64
        ensures { result ≡ row_of self }
    {
        match self {
            Place::One(row) | Place::Two(row, _) => row,
        }
    }

    /// The column; that of a vector's position is 0.
    pub const fn col(self) -> u64
        ensures { result ≡ col_of self }
    {
        match self {
            Place::One(_) => 0,
            Place::Two(_, col) => col,
        }
    }

    /// Whether it has as many indices as a shape has dimensions.
    pub const fn is_of_kind(self, shape: Shape) -> bool
        ensures { result ≡ is_of_kind self shape }
    {
        match (self, shape) {
            (Place::One(_), Shape::One(_)) | (Place::Two(_, _), Shape::Two(_, _)) => true,
            _ => false,
        }
    }

    /// Whether another has as many indices.
    pub const fn is_like(self, other: Place) -> bool
        ensures { result ≡ same_length self other }
    {
        match (self, other) {
            (Place::One(_), Place::One(_)) | (Place::Two(_, _), Place::Two(_, _)) => true,
            _ => false,
        }
    }

    /// Whether it is a position of a shape.
    pub const fn is_inside(self, shape: Shape) -> bool
        ensures { result ≡ is_inside self shape }
    {
        match (self, shape) {
            (Place::One(row), Shape::One(size)) => row < size,
            (Place::Two(row, col), Shape::Two(rows, cols)) => row < rows && col < cols,
            _ => false,
        }
    }
}

/// What is known of an object without its values.
#[derive(Clone, Copy, Debug, PartialEq, Eq)]
pub struct Signature {
    pub domain: Domain,
    pub shape: Shape,
}
