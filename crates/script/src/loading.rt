//! Matrices of files, under new names.
ghost use Rattle.std.specs.Prelude.{◌≡◌, ◌<◌, ◌≤◌, ◌+◌, ◌-◌, ◌^◌, ◌⊎◌, IfErr, IfOk, Ok, OnOk, true};
ghost use Rattle.std.specs.Result.{is_err};
ghost use Rattle.model.specs.Loads.{file_in};
ghost use Rattle.model.specs.MatrixMarket.{matrix_in};
ghost use Rattle.session.specs.Performed.{made_in};

use crate::environment::{Environment, put};
use crate::sources::Sources;
use algebra::Domain;
use lines::Load;
use mmio::{FileReader, MmFault};
use model::Status;
use patch::EntrySummer;
use runner::Runner;
use std::alloc::Global;
use store::Tuples;

impl<R: Runner + Drop> Environment<R> {
    ghost use Rattle.script.specs.Named.{state_in};
    ghost use Rattle.script.specs.Replied.{EndsAsLoad};

    /// Makes a matrix of what a file holds, under a new name. An error leaves the objects as they were; where there was
    /// no memory for the name alone, the matrix' number is used up.
    pub fn load<F: FileReader + EntrySummer, S: Sources>(
        &mut self,
        reader: &F,
        sources: &S,
        load: Load<'_>,
    ) -> Result<(), Status>
        requires made { made_in self.old.session < 2 ^ 64 - 1 }
        ensures ends { EndsAsLoad (state_in self.old) load.entry.name.now load.entry.domain
            (file_in (S.held sources.now) load.entry.domain load.entry.file.now) (state_in self.new) result }
        ensures made { OnOk result (made_in self.new.session ≡ made_in self.old.session + 1) }
        ensures least { made_in self.old.session ≤ made_in self.new.session }
        ensures most { made_in self.new.session ≤ made_in self.old.session + 1 }
    {
        if self.numbers.contains_key(load.name) {
            return Err(Status::NameTaken);
        }
        let Some(bytes) = sources.bytes(load.file.as_bytes()) else {
            return Err(Status::NoFile);
        };
        let (rows, cols, entries) = matrix_of(reader, self.alloc, bytes, load.domain)?;
        let name = String::from_str(self.alloc, load.name)?;
        let object = self
            .session
            .load_by(reader, load.domain, rows, cols, entries)?;
        put(&mut self.numbers, &mut self.session, name, object)?;
        Ok(())
    }
}

/// The dimensions and the entries of the matrix that bytes stand for.
fn matrix_of<F: FileReader>(
    reader: &F,
    alloc: Global,
    bytes: &[u8],
    domain: Domain,
) -> Result<(u64, u64, Tuples), Status>
    ensures ok { IfOk result (λ m. matrix_in domain bytes.now
        ≡ Ok (record { rows = m.0; cols = m.1; entries = m.2 })) }
    ensures err { IfErr result (λ status. (status ≡ Status.OutOfMemory)
        ⊎ ((status ≡ Status.BadFile) × (is_err (matrix_in domain bytes.now) ≡ true))) }
{
    match reader.read_entries(alloc, bytes, domain) {
        Ok(matrix) => Ok(matrix),
        Err(MmFault::NoMemory) => Err(Status::OutOfMemory),
        Err(_) => Err(Status::BadFile),
    }
}
