//! Products, one position at a time.
ghost use Rattle.std.specs.Prelude.{◌≡◌};
ghost use Rattle.algebra.specs.OperatorNames.{semiring_named};
ghost use Rattle.model.specs.Object.{in_domain};
ghost use Rattle.model.specs.Operations.{multiplied};
ghost use Rattle.model.specs.Product.{product_of};
ghost use Rattle.model.specs.Table.{inner_size};
ghost use Rattle.plain.specs.Evaluated.{input_of, place_in, terms_of};

use crate::grid::Mapping;
use crate::inputs::Input;
use crate::sums::row_sum;
use algebra::Semiring;
use model::Form;

/// The terms that are summed for a column of a product: at each row and each index of the sum.
#[derive(Clone, Copy)]
struct Terms<'a> {
    form: Form,
    semiring: Semiring,
    a: Input<'a>,
    b: Input<'a>,
    col: u64,
}

impl Mapping for Terms<'_> {
    ghost content = { λ t. terms_of t.form (semiring_named t.semiring) (input_of t.a) (input_of t.b) t.col };

    fn at(&self, row: u64, index: u64) -> Option<u64> {
        let domain = self.semiring.multiply.domain;
        let (row, col) = place_in(self.form, row, index);
        let x = self.a.word_in(domain, row, col);
        let y = self.b.word_in(domain, index, self.col);
        times(self.semiring, x, y)
    }
}

/// The sum of the products at a position, in the domain of the semiring's sums.
pub fn product(
    form: Form,
    semiring: Semiring,
    a: Input,
    b: Input,
    row: u64,
    col: u64,
) -> Option<u64>
    ensures { let semiring = semiring_named semiring in
        result ≡ multiplied form semiring (inner_size form (input_of a.entry).shape)
        (in_domain semiring.domain (input_of a.entry)) (in_domain semiring.domain (input_of b.entry)) row col }
{
    let (row, col) = place_in(form, row, col);
    let terms = Terms {
        form,
        semiring,
        a,
        b,
        col,
    };
    row_sum(semiring.add, &terms, row, form.inner_size(a.shape()))
}

/// The row and the column of a position, which are exchanged where what stands there is a row that is
/// held as a column.
const fn place_in(form: Form, row: u64, col: u64) -> (u64, u64)
    ensures { result ≡ place_in form row col }
{
    match form {
        Form::MatrixMatrix | Form::MatrixVector => (row, col),
        Form::VectorMatrix => (col, row),
    }
}

/// A word times a word, where both are there.
const fn times(semiring: Semiring, x: Option<u64>, y: Option<u64>) -> Option<u64>
    ensures { result ≡ product_of (semiring_named semiring) x y }
{
    match (x, y) {
        (Some(x), Some(y)) => Some(semiring.multiply.eval(x, y)),
        _ => None,
    }
}
