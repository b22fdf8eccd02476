//! Regions of shapes.
ghost use Rattle.std.specs.Prelude.{◌≡◌, ◌*◌};
ghost use Rattle.std.specs.Option.{option_map};
ghost use Rattle.model.specs.Indices.{count_of};
ghost use Rattle.model.specs.Lent.{operation_lent};
ghost use Rattle.model.specs.Object.{cols_of, rows_of};
ghost use Rattle.model.specs.Operations.{region_written};
ghost use Rattle.model.specs.Regions.{cols_in, has_no_repeat, is_region_of, lies_inside, rows_in, shape_in};

use crate::call::{OneInput, Region};
use crate::found::Lent;
use crate::shape::Shape;

impl Region {
    /// Whether it has as many lists as a shape has dimensions.
    pub fn is_region_of(&self, shape: Shape) -> bool
        ensures { result ≡ is_region_of self.now shape }
    {
        match self {
            Region::One(_) => !shape.is_matrix(),
            Region::Two(_, _) => shape.is_matrix(),
        }
    }

    /// The shape that the lengths of the lists make, where they are of a shape's dimensions.
    pub fn shape_in(&self, shape: Shape) -> Shape
        ensures { result ≡ shape_in shape self.now }
    {
        match self {
            Region::One(list) => Shape::One(list.count(shape.rows())),
            Region::Two(rows, cols) => {
                Shape::Two(rows.count(shape.rows()), cols.count(shape.cols()))
            }
        }
    }

    /// Whether each index is inside a shape.
    pub fn lies_inside(&self, shape: Shape) -> bool
        ensures { result ≡ lies_inside shape self.now }
    {
        match self {
            Region::One(list) => list.are_below(shape.rows()),
            Region::Two(rows, cols) => {
                rows.are_below(shape.rows()) && cols.are_below(shape.cols())
            }
        }
    }

    /// Whether no index is repeated in its list.
    pub fn has_no_repeat(&self) -> bool
        ensures { result ≡ has_no_repeat self.now }
    {
        match self {
            Region::One(list) => list.is_distinct(),
            Region::Two(rows, cols) => rows.is_distinct() && cols.is_distinct(),
        }
    }

    /// How many positions of a shape it names, counted as often as its lists do.
    pub fn positions_in(&self, shape: Shape) -> u128
        ensures { result ≡ count_of (rows_of shape) (rows_in self.now) * count_of (cols_of shape) (cols_in self.now) }
    {
        let (rows, cols) = match self {
            Region::One(list) => (list.count(shape.rows()), shape.cols()),
            Region::Two(rows, cols) => (rows.count(shape.rows()), cols.count(shape.cols())),
        };
        rows as u128 * cols as u128
    }
}

impl<'a, K: Copy> Lent<'a, K> {
    /// The region of the output that the operation writes, where it doesn't write all of it.
    pub fn region_written(self) -> Option<&'a Region>
        ensures { option_map (λ region. region.now) result ≡ region_written (operation_lent self.entry) }
    {
        match self {
            Lent::Fill { region, .. } => Some(region),
            Lent::OfOne {
                computes: OneInput::Assign(region),
                ..
            } => Some(region),
            _ => None,
        }
    }
}
