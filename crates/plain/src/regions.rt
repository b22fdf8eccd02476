//! What stands at the positions of regions.
ghost use Rattle.std.specs.Prelude.{◌≡◌, ◌==◌};
ghost use Rattle.std.specs.List.{position};
ghost use Rattle.model.specs.Indices.{All, index_at, place_in};
ghost use Rattle.model.specs.Object.{cols_of, rows_of};
ghost use Rattle.model.specs.Regions.{cols_in, extracted, is_listed, placed, rows_in};
ghost use Rattle.plain.specs.Evaluated.{input_of};

use crate::inputs::Input;
use model::{IndexList, Region, Shape};

/// Whether a position of a shape is in a region.
pub fn is_listed(shape: Shape, region: &Region, row: u64, col: u64) -> bool
    ensures { result ≡ is_listed (rows_of shape) (cols_of shape) (rows_in region.now) (cols_in region.now) row col }
{
    match region {
        Region::One(list) => place_in(shape.rows(), list, row).is_some() && col < shape.cols(),
        Region::Two(rows, cols) => {
            place_in(shape.rows(), rows, row).is_some()
                && place_in(shape.cols(), cols, col).is_some()
        }
    }
}

/// What is extracted of an input to a position.
pub fn extracted(region: &Region, a: Input, row: u64, col: u64) -> Option<u64>
    ensures { let a = input_of a.entry in
        result ≡ extracted (rows_of a.shape) (cols_of a.shape) (rows_in region.now) (cols_in region.now) a.content
        row col }
{
    let shape = a.shape();
    let (row, col) = match region {
        Region::One(list) => (
            index_at(shape.rows(), list, row)?,
            below(shape.cols(), col)?,
        ),
        Region::Two(rows, cols) => (
            index_at(shape.rows(), rows, row)?,
            index_at(shape.cols(), cols, col)?,
        ),
    };
    a.word(row, col)
}

/// What an input puts at a position of an output of a shape.
pub fn placed(shape: Shape, region: &Region, a: Input, row: u64, col: u64) -> Option<u64>
    ensures { result ≡ placed (rows_of shape) (cols_of shape) (rows_in region.now) (cols_in region.now)
        (input_of a.entry).content row col }
{
    let (row, col) = match region {
        Region::One(list) => (
            place_in(shape.rows(), list, row)?,
            below(shape.cols(), col)?,
        ),
        Region::Two(rows, cols) => (
            place_in(shape.rows(), rows, row)?,
            place_in(shape.cols(), cols, col)?,
        ),
    };
    a.word(row, col)
}

/// An index of a dimension, if it is one.
fn below(size: u64, index: u64) -> Option<u64>
    ensures place { result ≡ place_in size All index }
    ensures index { result ≡ index_at size All index }
{
    (index < size).then_some(index)
}

/// The index at a place of a list.
fn index_at(size: u64, list: &IndexList, place: u64) -> Option<u64>
    ensures { result ≡ index_at size list.now place }
{
    match list.listed() {
        None => below(size, place),
        Some(items) => items.get(place as usize).copied(),
    }
}

/// The first place at which a list has an index.
fn place_in(size: u64, list: &IndexList, index: u64) -> Option<u64>
    ensures { result ≡ place_in size list.now index }
{
    match list.listed() {
        None => below(size, index),
        Some(items) => {
            let place = first_at(items, index)?;
            Some(place as u64)
        }
    }
}

/// The first place of an index.
fn first_at(items: &[u64], index: u64) -> Option<usize>
    ensures { result ≡ position (λ item. item == index) items.now }
{
    items.iter().position(|item| *item == index)
}
