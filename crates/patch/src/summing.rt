//! Stores of entries whose values are summed.
ghost use Rattle.std.specs.Prelude.{◌≡◌, ℕ, IfOk, Some, true};
ghost use Rattle.std.specs.List.{All};
ghost use Rattle.algebra.specs.Value.{IsWordOf, is_built_in};
ghost use Rattle.model.specs.Builds.{gathered};
ghost use Rattle.model.specs.MatrixMarket.{sum_in_file};
ghost use Rattle.store.specs.Stored.{AreIn, content_of};

use crate::EntrySummer;
use algebra::Domain;
use model::NoMemory;
use std::alloc::Global;
use store::{RowBlock, Store, Tuples};

/// The store of so many rows and columns that entries in any order make, as those of a file. The values
/// of one position are summed, of BOOL by LOR.
///
/// Entries that came row by row, each at a position of its own, lie as the store's rows already and are taken
/// over. Others are summed by whoever is told.
pub fn sum_entries<S: EntrySummer>(
    alloc: Global,
    summer: &S,
    entries: Tuples,
    domain: Domain,
    rows: u64,
    cols: u64,
) -> Result<Store, NoMemory>
    requires built_in { is_built_in domain ≡ true }
    requires inside { AreIn 0 rows cols entries }
    requires words { All (λ e. IsWordOf domain e.word) entries }
    ensures rows { IfOk result (λ store. store.rows ≡ rows) }
    ensures cols { IfOk result (λ store. store.cols ≡ cols) }
    ensures content { IfOk result (λ store. (i j : ℕ) → content_of store i j
        ≡ gathered (Some (sum_in_file domain)) entries i j) }
{
    let mut lists = match entries.into_rows() {
        Ok(lists) => lists,
        Err(others) => summer.sum(alloc, others.into_lists()?, domain, rows, cols)?,
    };
    lists.shrink_to_fit();
    Ok(Store::from_block(rows, RowBlock::of_rows(0, rows, cols, lists)))
}
