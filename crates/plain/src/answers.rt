//! The answers of calls.
ghost use Rattle.std.specs.Prelude.{◌≡◌, [], IfOk, None};
ghost use Rattle.model.specs.Run.{data_lines_of, on_objects};
ghost use Rattle.plain.specs.Environments.{answer_of, environment_of, fault_in, named};
ghost use Rattle.plain.specs.Evaluated.{lines_of};

use crate::acts::act_lines;
use crate::environment::PlainEnvironment;
use model::{Call, Status};
use std::alloc::{AllocError, Global};

/// An answer: its line's number, its status, and its data lines.
#[derive(Drop)]
pub struct PlainAnswer {
    pub number: u64,
    pub status: Status,
    pub data_lines: Vec<Vec<u8>>,
}

impl PlainAnswer {
    /// An answer without data lines.
    pub(crate) fn without_lines(alloc: Global, number: u64, status: Status) -> PlainAnswer
        ensures { answer_of result ≡ record { number = number; status = status; data_lines = [] } }
    {
        PlainAnswer {
            number,
            status,
            data_lines: Vec::new(alloc),
        }
    }
}

impl PlainEnvironment {
    /// The data lines of an accepted call.
    #[tactic(auto, unfolding(model::specs::Run::data_lines_of))]
    pub(crate) fn data_lines(
        &self,
        alloc: Global,
        call: &Call<&str, &str>,
    ) -> Result<Vec<Vec<u8>>, AllocError>
        requires { fault_in self.now (named call.now) ≡ None }
        ensures { IfOk result (λ lines.
            lines_of lines ≡ data_lines_of (on_objects (environment_of self.now) (named call.now))) }
    {
        match call {
            Call::On { object, act } => act_lines(alloc, act, self.object(object)),
            _ => Ok(Vec::new(alloc)),
        }
    }
}
