//! Any call on a session.
ghost use Rattle.std.specs.Prelude.{◌≡◌, Err, IfOk, MatchResult, Ok};

use crate::reply::Reply;
use crate::sessions::Session;
use bitmap::OneThread;
use calls::{Act, Call, Obj};
use elementwise::WordFolder;
use model::Status;
use runner::Runner;

impl<R: Runner + Drop> Session<R> {
    ghost use Rattle.session.specs.Performed.{Answers, IsPerformed, environment_of, numbered};

    /// Does a call, and gives what it answers.
    pub fn perform<N: Drop>(&mut self, call: Call<Obj, N>) -> Result<Reply, Status>
        ensures performed { IsPerformed self.old self.new (numbered self.old call) result }
        ensures answer { IfOk result (Answers (environment_of self.old) (numbered self.old call)) }
    {
        self.perform_by(&OneThread, call)
    }

    /// The same, where `folder` sums the values of an object.
    pub fn perform_by<F: WordFolder, N: Drop>(
        &mut self,
        folder: &F,
        call: Call<Obj, N>,
    ) -> Result<Reply, Status>
        ensures performed { IsPerformed self.old self.new (numbered self.old call) result }
        ensures answer { IfOk result (Answers (environment_of self.old) (numbered self.old call)) }
    {
        match call {
            Call::Create { domain, shape, .. } => Ok(Reply::Made(self.create(domain, shape)?)),
            Call::Dup { object, .. } => Ok(Reply::Made(self.dup(object)?)),
            Call::On { object, act } => self.act(folder, object, act),
            Call::Operate { out, operation } => done(self.operate(&out, operation)),
        }
    }

    /// Does something to an object, or answers what is asked of it.
    fn act<F: WordFolder>(&mut self, folder: &F, object: Obj, act: Act) -> Result<Reply, Status>
        ensures performed { IsPerformed self.old self.new (Call.On object act) result }
        ensures answer { IfOk result (Answers (environment_of self.old) (Call.On object act)) }
    {
        match act {
            Act::Free => done(self.free(object)),
            Act::Clear => done(self.clear(object)),
            Act::Resize(shape) => done(self.resize(object, shape)),
            Act::Build { dup, tuples } => done(self.build(object, dup, tuples)),
            Act::Set { place, value } => done(self.set(object, place, value)),
            Act::Remove(place) => done(self.remove(object, place)),
            Act::Get(place) => Ok(Reply::Value(self.get(object, place)?)),
            Act::Nvals => Ok(Reply::Count(self.nvals(object)?)),
            Act::Print => done(self.complete(object)),
            Act::Reduce(monoid) => Ok(Reply::Value(self.reduce_by(folder, object, monoid)?)),
            Act::Wait(mode) => done(self.wait(object, mode)),
        }
    }
}

/// The reply of a call that answers no more than that it was done.
fn done(outcome: Result<(), Status>) -> Result<Reply, Status>
    ensures { MatchResult outcome (λ _. result ≡ Ok Reply.Done) (λ status. result ≡ Err status) }
{
    outcome?;
    Ok(Reply::Done)
}
