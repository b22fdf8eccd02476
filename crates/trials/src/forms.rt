//! The form in which a store is kept once it is settled. No contract of a store tells it, since a store is the same in
//! any form.
ghost use Rattle.std.specs.Prelude.{◌≤◌};

use std::alloc::{AllocError, Global};
use store::{Form, Store};

// A column of 64 rows, of which so many have an entry.
fn settled(alloc: Global, entries: u64) -> Result<Store, AllocError>
    requires { entries ≤ 64 }
{
    let mut store = Store::new(alloc, 64, 1);
    for i in 0..entries {
        store.set(i, 0, 1).map_err(|_| AllocError)?;
    }
    store.settle(alloc);
    Ok(store)
}

#[test]
fn many_entries_are_kept_as_a_bitmap(rt: HostRuntime) -> Result<(), AllocError> {
    let alloc = rt.alloc();
    let many = settled(alloc, 8)?;
    let few = settled(alloc, 7)?;
    assert!(rt; matches!(many.form(), Form::Bitmap(_)));
    assert!(rt; matches!(few.form(), Form::Sparse(_)));
    Ok(())
}
