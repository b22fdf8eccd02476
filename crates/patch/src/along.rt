//! Entries as they lie in a store.
ghost use Rattle.std.specs.Prelude.{◌≡◌};
ghost use Rattle.store.specs.Stored.{along, transposed};

use model::Entry;

/// Entries as they lie in a store of so many columns: where there is one, their rows and columns are
/// exchanged.
pub(crate) fn lay_along(mut entries: Vec<Entry>, cols: u64) -> Vec<Entry>
    ensures { result.items ≡ along cols entries.items }
{
    if cols == 1 {
        transpose(&mut entries);
    }
    entries
}

/// Exchanges the rows and columns of entries.
fn transpose(entries: &mut [Entry])
    ensures { entries.new ≡ transposed entries.old }
{
    for entry in entries.iter_mut() {
        *entry = Entry {
            row: entry.col,
            col: entry.row,
            word: entry.word,
        };
    }
}
