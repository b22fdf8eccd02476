//! How much work is done.
mod held;

use deferral::run_over;
use desk::Picker;
use history::History;
use script::Sources;
use std::alloc::{AllocError, Global};
use std::marker::Brand;

// Two matrices whose edits are done, and one without entries.
const OBJECTS: &str =
    "matrix A INT64 2 2\nmatrix B INT64 2 2\nmatrix C INT64 2 2\nset A 0 1 3\nset B 1 0 5\nwait A complete\n\
        wait B complete\n";

const PRODUCT: &str = "mxm C - - PLUS.TIMES.INT64 A B -\n";

// Picks the oldest task, and counts.
#[derive(Drop)]
struct Counting<'a> {
    picks: &'a mut u64,
}

impl Picker for Counting<'_> {
    fn pick(&mut self) -> u64 {
        *self.picks = self.picks.saturating_add(1);
        0
    }
}

// No files.
#[derive(Drop)]
struct NoFiles;

impl Sources for NoFiles {
    ghost use Rattle.std.specs.Prelude.{None};

    ghost held = { λ _ _. None };

    fn bytes(&self, _name: &[u8]) -> Option<&[u8]> {
        None
    }
}

// How many tasks are done for so many products, each into the same matrix, and then a last line.
fn tasks_of(alloc: Global, products: usize, last: &str) -> Result<u64, AllocError> {
    let mut script = String::from_str(alloc, OBJECTS)?;
    for _ in 0..products {
        script.push_str(PRODUCT)?;
    }
    script.push_str(last)?;
    let mut picks = 0;
    let picker = Counting { picks: &mut picks };
    let mut out = Vec::new(alloc);
    run_over::<Brand, NoFiles, Counting<'_>>(
        alloc,
        History::new(),
        script.as_bytes(),
        &NoFiles,
        picker,
        &mut out,
    )
    .map_err(|_| AllocError)?;
    Ok(picks)
}

#[test]
fn no_product_is_computed_before_it_is_asked_for(rt: HostRuntime) -> Result<(), AllocError> {
    let alloc = rt.alloc();
    assert!(rt; tasks_of(alloc, 1, "nvals A\n")? == 0);
    assert!(rt; tasks_of(alloc, 1, "wait C complete\n")? == 1);
    Ok(())
}

#[test]
fn products_that_are_overwritten_cost_nothing(rt: HostRuntime) -> Result<(), AllocError> {
    let alloc = rt.alloc();
    assert!(rt; tasks_of(alloc, 1_000, "nvals A\n")? == 0);
    assert!(rt; tasks_of(alloc, 1_000, "nvals C\n")? == 1);
    // The last product overwrites a sum of which each term rests on the one before.
    let sums = "ewiseadd C - - PLUS.INT64 C A -\newiseadd C - - PLUS.INT64 C A -\n";
    let mut rest = String::from_str(alloc, sums)?;
    rest.push_str(PRODUCT)?;
    rest.push_str("nvals C\n")?;
    assert!(rt; tasks_of(alloc, 1, rest.as_str())? == 1);
    Ok(())
}

#[test]
fn values_are_made_where_an_epoch_ends(rt: HostRuntime) -> Result<(), AllocError> {
    let alloc = rt.alloc();
    assert!(rt; tasks_of(alloc, 4_096, "nvals A\n")? == 0);
    // The call that begins the next epoch has the product before it computed.
    assert!(rt; tasks_of(alloc, 4_097, "nvals A\n")? == 1);
    Ok(())
}
