//! The log of a pool.
ghost use Rattle.std.specs.Prelude.{◌≡◌};

use journal::{Log, Naming};
use std::marker::PhantomData;

/// The log that has a name.
#[derive(Drop)]
pub struct Named<J: Naming> {
    pub log: Log,
    of: PhantomData<J>,
    ghost named: { log ≡ J.log },
}

impl<J: Naming> Named<J> {
    pub(crate) fn new(log: Log) -> Named<J>
        requires { log ≡ J.log }
    {
        Named {
            log,
            of: PhantomData,
        }
    }
}
