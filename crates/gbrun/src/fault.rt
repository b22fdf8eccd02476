//! Why the program fails, and what it says of that.
ghost use Rattle.std.specs.Prelude.{◌≡◌};
ghost use Rattle.gbrun.specs.Faults.{line_of, status_of};
ghost use Rattle.gbrun.specs.Writing.{Begins};
ghost use Rattle.gbrun.specs.declared.fault.Fault.TheVariants.{OutOfMemory};

use crate::delivery::deliver;
use model::NoMemory;
use std::alloc::{AllocError, AllocFailed};
use std::io::Write;
use thiserror::Error;

/// Why the program fails.
#[derive(Debug, Drop, Error)]
#[error("{}", self.line())]
pub enum Fault {
    /// The words of the command line are wrong, as this text says, which ends in a line feed.
    CommandLine(String),
    /// The word of `--order` names no order.
    BadOrder,
    /// The script could not be read, or memory could not hold it.
    UnreadableScript,
    /// Memory ran out. Where that was in a run, output has the answers that were whole.
    OutOfMemory,
    /// Memory ran out in a run, and output refused answers that were whole. Memory is told, since
    /// it came first.
    OutOfMemoryUndelivered,
    /// Standard output refused bytes.
    UnwritableOutput,
}

impl Fault {
    /// The exit status.
    pub fn status(&self) -> u8
        ensures { result ≡ status_of self.now }
    {
        match self {
            Fault::CommandLine(_) | Fault::BadOrder => 2,
            Fault::UnreadableScript
            | Fault::OutOfMemory
            | Fault::OutOfMemoryUndelivered
            | Fault::UnwritableOutput => 1,
        }
    }

    /// What standard error gets, with its line feed.
    pub fn line(&self) -> &str
        ensures { result.now ≡ line_of self.now }
    {
        match self {
            Fault::CommandLine(text) => text.as_str(),
            Fault::BadOrder => "gbrun: bad order\n",
            Fault::UnreadableScript => "gbrun: cannot read script\n",
            Fault::OutOfMemory | Fault::OutOfMemoryUndelivered => "gbrun: out of memory\n",
            Fault::UnwritableOutput => "gbrun: cannot write output\n",
        }
    }

    /// Writes the line, and gives the exit status. An error of `err` is dropped, since there is
    /// nowhere left to tell of it.
    pub fn report<E: Write>(&self, err: &mut E) -> u8
        ensures status { result ≡ status_of self.now }
        ensures told { Begins (line_of self.now) (E.contents err.old) (E.contents err.new) }
    {
        let _ = deliver(err, self.line().as_bytes());
        self.status()
    }
}

impl From<NoMemory> for Fault {
    ghost from_gives = { λ _ fault. fault ≡ OutOfMemory };

    fn from(_refused: NoMemory) -> Fault {
        Fault::OutOfMemory
    }
}

impl From<AllocError> for Fault {
    ghost from_gives = { λ _ fault. fault ≡ OutOfMemory };

    fn from(_error: AllocError) -> Fault {
        Fault::OutOfMemory
    }
}

impl<T: Drop> From<AllocFailed<T>> for Fault {
    ghost from_gives = { λ _ fault. fault ≡ OutOfMemory };

    fn from(_error: AllocFailed<T>) -> Fault {
        Fault::OutOfMemory
    }
}
