//! How tasks are cut.
ghost use Rattle.std.specs.Prelude.{◌≡◌};

/// How tasks are cut into pieces of rows, which threads do apart.
#[derive(Clone, Copy, Debug)]
pub struct Cutting {
    /// How many rows each piece has at least, but for the last.
    pub rows: u64,
    /// How many threads there are; no task is cut for one.
    pub threads: u64,
}

impl Cutting {
    /// No task is cut.
    pub fn none() -> Cutting
        ensures { result.threads ≡ 1 }
    {
        Cutting {
            rows: 1,
            threads: 1,
        }
    }
}
