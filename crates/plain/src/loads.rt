//! Matrices that are loaded of files.
ghost use Rattle.std.specs.Prelude.{◌≡◌, IfOk, MatchResult, None, Ok, OnErr, OnOk, Some};
ghost use Rattle.std.specs.Prelude.{false, is_some, nat_le, true};
ghost use Rattle.std.specs.Option.{option_map};
ghost use Rattle.std.specs.String.{string_bytes};
ghost use Rattle.algebra.specs.Value.{is_built_in};
ghost use Rattle.model.specs.Builds.{gathered};
ghost use Rattle.model.specs.Loads.{load_fault};
ghost use Rattle.model.specs.MatrixMarket.{matrix_in, object_read, sum_in_file};
ghost use Rattle.model.specs.Object.{IsObject};
ghost use Rattle.model.specs.Run.{load};
ghost use Rattle.plain.specs.Environments.{answer_of, environment_of};
ghost use Rattle.plain.specs.Evaluated.{object_of};
ghost use Rattle.plain.specs.Files.{matrix_of, matrix_of_plain};

use crate::answers::PlainAnswer;
use crate::builds::gathered_at;
use crate::environment::PlainEnvironment;
use crate::grid::{Mapping, entries};
use crate::market::{PlainMatrix, read};
use crate::objects::PlainObject;
use algebra::{BinaryKind, Domain, OpName};
use model::{Entry, MOST_OBJECTS, MmFault, Shape, Status};
use std::alloc::{AllocError, Global};

impl PlainEnvironment {
    /// Loads a matrix of a file's bytes, if the file is there: the answer and what it leaves are those of
    /// the definition of `load`. An error, which is that memory was refused, leaves the objects as they
    /// were.
    #[tactic(auto, unfolding(model::specs::Run::load, model::specs::Run::loaded))]
    pub fn load(
        &mut self,
        alloc: Global,
        number: u64,
        name: &str,
        domain: Domain,
        file: Option<&[u8]>,
    ) -> Result<PlainAnswer, AllocError>
        requires { is_built_in domain ≡ true }
        ensures answer { let read = option_map (λ bytes. matrix_in domain bytes.now) file.entry in
            IfOk result (λ answer.
            answer_of answer ≡ (load number (environment_of self.old) name.now domain read).0) }
        ensures left { let read = option_map (λ bytes. matrix_in domain bytes.now) file.entry in
            OnOk result (environment_of self.new ≡ (load number (environment_of self.old) name.now domain read).1) }
        ensures refused { OnErr result (environment_of self.new ≡ environment_of self.old) }
    {
        let found = read_file(alloc, domain, file)?;
        match self.accepted(name, found) {
            Err(status) => Ok(PlainAnswer::without_lines(alloc, number, status)),
            Ok(matrix) => {
                let object = object_read(alloc, name, domain, &matrix)?;
                self.put(object, self.live + 1)?;
                Ok(PlainAnswer::without_lines(alloc, number, Status::Ok))
            }
        }
    }

    /// The matrix that is read of a file, or the fault of loading it.
    #[tactic(auto, unfolding(model::specs::Loads::load_fault))]
    fn accepted(
        &self,
        name: &str,
        found: Option<Result<PlainMatrix, MmFault>>,
    ) -> Result<PlainMatrix, Status>
        ensures { let env = environment_of self.now in let file = option_map matrix_of_plain found in
            let fault = load_fault env.count (is_some (env.find_object name.now)) file in
            MatchResult result
            (λ m. (fault ≡ None) × (file ≡ Some (Ok (matrix_of m))) × (nat_le MOST_OBJECTS self.now.live ≡ false))
            (λ status. fault ≡ Some status) }
    {
        if self.find(name).is_some() {
            return Err(Status::NameTaken);
        }
        match found {
            None => Err(Status::NoFile),
            Some(Err(_)) => Err(Status::BadFile),
            Some(Ok(_)) if self.live >= MOST_OBJECTS => Err(Status::NotImplemented),
            Some(Ok(matrix)) => Ok(matrix),
        }
    }
}

/// What is read of a file, if it is there.
fn read_file(
    alloc: Global,
    domain: Domain,
    file: Option<&[u8]>,
) -> Result<Option<Result<PlainMatrix, MmFault>>, AllocError>
    ensures { IfOk result (λ found.
        option_map matrix_of_plain found ≡ option_map (λ bytes. matrix_in domain bytes.now) file.entry) }
{
    match file {
        Some(bytes) => Ok(Some(read(alloc, bytes, domain)?)),
        None => Ok(None),
    }
}

/// The object that a matrix of a file makes.
fn object_read(
    alloc: Global,
    name: &str,
    domain: Domain,
    matrix: &PlainMatrix,
) -> Result<PlainObject, AllocError>
    requires built_in { is_built_in domain ≡ true }
    requires object { IsObject (object_read domain (matrix_of matrix.now)) }
    ensures name { IfOk result (λ object. string_bytes object.name ≡ name.now) }
    ensures object { IfOk result (λ object. object_of object ≡ object_read domain (matrix_of matrix.now)) }
{
    let shape = Shape::Two(matrix.rows, matrix.cols);
    let listed = Listed {
        domain,
        entries: matrix.entries.as_slice(),
    };
    let entries = entries(alloc, &listed, shape)?;
    let name = String::from_str(alloc, name)?;
    Ok(PlainObject {
        name,
        domain,
        shape,
        entries,
    })
}

/// The entries of a file, of which the values of one position are summed.
#[derive(Clone, Copy)]
struct Listed<'a> {
    domain: Domain,
    entries: &'a [Entry],
    ghost built_in: { is_built_in domain ≡ true },
}

impl Mapping for Listed<'_> {
    ghost content = { λ listed. gathered (Some (sum_in_file listed.domain)) listed.entries.now };

    fn at(&self, row: u64, col: u64) -> Option<u64> {
        gathered_at(Some(sum_in_file(self.domain)), self.entries, row, col)
    }
}

/// The operator by which values of one position are summed.
const fn sum_in_file(domain: Domain) -> OpName
    ensures { result ≡ sum_in_file domain }
{
    let kind = match domain {
        Domain::Bool => BinaryKind::Lor,
        _ => BinaryKind::Plus,
    };
    OpName { kind, domain }
}
