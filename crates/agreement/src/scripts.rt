//! Scripts: the answers of the runtime beside those of the plain evaluator.

use crate::answers::{of_keeping, of_plain, of_runtime};
use crate::compared::Compared;
use crate::held::Files;
use desk::Order;
use lines::{Line, first_line, parse_line};
use mmio::{FileReader, OneThread};
use model::{Act, Call, Shape};
use script::Sources;
use std::alloc::{AllocError, Global};

/// Only shorter scripts are cut off.
const LEAST_UNCUT: usize = 2_000;

/// The plain evaluator looks at each position of an object, so texts that make larger ones are left out.
const MOST_POSITIONS: u64 = 4_096;

/// The orders in which the runtime does the work of a whole script.
const ORDERS: [Order; 4] = [Order::First, Order::Last, Order::Seed(1), Order::Seed(2)];

/// Compares a script, and where it is short each beginning of it before, and then its runs by two runners. It ends at
/// the first difference.
pub fn compare(alloc: Global, script: &[u8], files: Files<'_>) -> Result<Compared, AllocError> {
    let mut compared = Compared::new();
    let shortest = if script.len() < LEAST_UNCUT {
        0
    } else {
        script.len()
    };
    for end in shortest..=script.len() {
        let text = &script[..end];
        // One order is enough for a beginning, of which there are many.
        let orders = if end == script.len() {
            &ORDERS[..]
        } else {
            &ORDERS[..1]
        };
        compared.is_whole = is_small(alloc, text, files);
        if compared.is_whole {
            compared.count();
            compared.difference = difference(alloc, text, files, orders)?;
        }
        if compared.difference.is_some() {
            return Ok(compared);
        }
    }
    compared.difference = failure(alloc, script, files)?;
    Ok(compared)
}

/// Where the answers to a script first differ by one of the orders, in words.
fn difference(
    alloc: Global,
    script: &[u8],
    files: Files<'_>,
    orders: &[Order],
) -> Result<Option<String>, AllocError> {
    let plain = of_plain(alloc, script, files)?;
    for order in orders {
        let run = of_runtime(alloc, script, files, *order)?;
        if run != plain {
            let length = script.len();
            let lines = common_lines(run.as_slice(), plain.as_slice());
            let text = format!(in alloc;
                "cut to {length} bytes, the answers in the order {order:?} differ behind line {lines} of them"
            )?;
            return Ok(Some(text));
        }
    }
    Ok(None)
}

/// Where the answers differ of a run whose every recipe is asked for, or where one of these fails, in words. The plain
/// evaluator has no part in it, so no script is too large.
fn failure(alloc: Global, script: &[u8], files: Files<'_>) -> Result<Option<String>, AllocError> {
    let asked = of_runtime(alloc, script, files, Order::First)?;
    let (run, failed) = of_keeping(alloc, script, files, Order::Last)?;
    if run != asked {
        let lines = common_lines(run.as_slice(), asked.as_slice());
        let text = format!(in alloc;
            "where each recipe is asked for, the answers differ behind line {lines} of them"
        )?;
        return Ok(Some(text));
    }
    if failed > 0 {
        let text = format!(in alloc; "{failed} recipes failed, though memory was there")?;
        return Ok(Some(text));
    }
    Ok(None)
}

/// How many lines two texts begin with that are the same.
fn common_lines(first: &[u8], second: &[u8]) -> usize {
    let lines = first.split(|byte| *byte == b'\n');
    let others = second.split(|byte| *byte == b'\n');
    lines.zip(others).take_while(|(a, b)| a == b).count()
}

/// Whether no line of a script makes an object that is too large.
pub fn is_small(alloc: Global, script: &[u8], files: Files<'_>) -> bool {
    let mut rest = script;
    while !rest.is_empty() {
        let (line, others) = first_line(rest);
        if let Some(shape) = shape_of(alloc, line, files)
            && positions(shape) > MOST_POSITIONS
        {
            return false;
        }
        rest = others;
    }
    true
}

/// The shape that a line gives an object, if it gives one.
fn shape_of(alloc: Global, line: &[u8], files: Files<'_>) -> Option<Shape> {
    match parse_line(alloc, line).ok()? {
        Line::Call(Call::Create { shape, .. }) => Some(shape),
        Line::Call(
            Call::On {
                act: Act::Resize(shape),
                ..
            },
        ) => Some(shape),
        Line::Load(load) => {
            let bytes = files.bytes(load.file.as_bytes())?;
            let (rows, cols, _) = OneThread.read_entries(alloc, bytes, load.domain).ok()?;
            Some(Shape::Two(rows, cols))
        }
        _ => None,
    }
}

/// How many positions an object has, or the greatest number.
fn positions(shape: Shape) -> u64 {
    shape.rows().saturating_mul(shape.cols())
}
