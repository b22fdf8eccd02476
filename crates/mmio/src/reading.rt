//! Matrices from the bytes of a file.
ghost use Rattle.std.specs.Prelude.{◌≡◌, ◌⊎◌, IfErr, IfOk, Ok, Err, map};
ghost use Rattle.model.specs.declared.market.MmFault.TheVariants.{NoMemory};
ghost use Rattle.model.specs.Entries.{entry_at};
ghost use Rattle.model.specs.MatrixMarket.{matrix_in};

use crate::collects::Collects;
use crate::head::head;
use crate::listing::{Stop, listed_entries};
use crate::parts::list_beside;
use algebra::Domain;
use bitmap::{OneThread, SeveralThreads};
use model::MmFault;
use std::alloc::Global;
use std::thread::Threads;
use store::Tuples;

/// How many bytes of a file a thread is started for: to start it takes about a fifth of the time of these.
const WORTH_A_THREAD: usize = 1 << 16;

/// Who reads files: the calling thread, or others beside it.
pub trait FileReader {
    /// The matrix that a Matrix Market file stands for: its rows, its columns, and its entries in the order of
    /// the file, each with the one that the file leaves out behind it. Of the format `integer` and `pattern`
    /// are read, and all symmetries but `hermitian`; values are cast to the domain.
    ///
    /// An error is the first thing that is wrong, line by line from the top, with its line, or `NoMemory`. The
    /// time is linear in the file, and so is the memory: what number the file announces reserves nothing.
    /// Entries that come row by row lie as the rows of a store then.
    fn read_entries(
        &self,
        alloc: Global,
        bytes: &[u8],
        domain: Domain,
    ) -> Result<(u64, u64, Tuples), MmFault>
        ensures ok { IfOk result (λ found. matrix_in domain bytes.now
            ≡ Ok (record { rows = found.0; cols = found.1; entries = found.2 })) }
        ensures err { IfErr result (λ fault. (fault ≡ NoMemory) ⊎ (matrix_in domain bytes.now ≡ Err fault)) };
}

impl FileReader for OneThread {
    fn read_entries(
        &self,
        alloc: Global,
        bytes: &[u8],
        domain: Domain,
    ) -> Result<(u64, u64, Tuples), MmFault> {
        read_as(alloc, bytes, domain)
    }
}

impl<R: Threads> FileReader for SeveralThreads<'_, R> {
    fn read_entries(
        &self,
        alloc: Global,
        bytes: &[u8],
        domain: Domain,
    ) -> Result<(u64, u64, Tuples), MmFault> {
        let parts = (bytes.len() / WORTH_A_THREAD) as u64;
        let parts = parts.min(self.others().saturating_add(1)) as usize;
        if parts < 2 {
            return read_as(alloc, bytes, domain);
        }
        let (heading, rest) = head(domain, bytes)?;
        let each = bytes.len() / parts + 1;
        match list_beside(
            self.starter(),
            alloc,
            domain,
            heading,
            each,
            rest.len(),
            rest,
        ) {
            Ok(listed) if listed.lines == heading.entries => {
                Ok((heading.rows, heading.cols, listed.entries))
            }
            Err(Stop::NoMemory) => Err(MmFault::NoMemory),
            // Which line is the first that is wrong is told by one thread.
            _ => read_as(alloc, bytes, domain),
        }
    }
}

/// The matrix that a Matrix Market file stands for, as `FileReader::read_entries` gives it, with each entry as its row,
/// its column and its word.
pub fn read(
    alloc: Global,
    bytes: &[u8],
    domain: Domain,
) -> Result<(u64, u64, Vec<(u64, u64, u64)>), MmFault>
    ensures ok { IfOk result (λ found. matrix_in domain bytes.now ≡ Ok (record {
      rows = found.0;
      cols = found.1;
      entries = map (λ entry. entry_at entry.0 entry.1 entry.2) found.2.items;
    })) }
    ensures err { IfErr result (λ fault. (fault ≡ NoMemory) ⊎ (matrix_in domain bytes.now ≡ Err fault)) }
{
    read_as(alloc, bytes, domain)
}

/// The same with the entries in what they are collected in, by the calling thread.
fn read_as<C: Collects>(
    alloc: Global,
    bytes: &[u8],
    domain: Domain,
) -> Result<(u64, u64, C), MmFault>
    ensures ok { IfOk result (λ found. matrix_in domain bytes.now
        ≡ Ok (record { rows = found.0; cols = found.1; entries = C.entries_of found.2 })) }
    ensures err { IfErr result (λ fault. (fault ≡ NoMemory) ⊎ (matrix_in domain bytes.now ≡ Err fault)) }
{
    let (heading, rest) = head(domain, bytes)?;
    let listed = listed_entries(alloc, domain, heading, bytes, rest)?;
    Ok((heading.rows, heading.cols, listed))
}
