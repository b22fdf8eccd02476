//! Calls that ask for the value of an object.
ghost use Rattle.std.specs.Prelude.{IfOk};

use crate::reply::Reply;
use crate::sessions::Session;
use algebra::MonoidName;
use bitmap::OneThread;
use calls::{Act, Call, Obj, Place, check_place, check_reduce, check_there, check_wait};
use elementwise::{WordFolder, reduce_all_by};
use model::{Status, WaitMode};
use objects::store;
use runner::Runner;

impl<R: Runner + Drop> Session<R> {
    ghost use Rattle.session.specs.Performed.{Answers, IsPerformed, environment_of};

    /// The value of an entry (`GrB_Matrix_extractElement`, `GrB_Vector_extractElement`).
    pub fn get(&mut self, object: Obj, place: Place) -> Result<i128, Status>
        ensures performed { IsPerformed self.old self.new (Call.On object (Act.Get place)) result }
        ensures value { IfOk result (λ value. Answers (environment_of self.old) (Call.On object (Act.Get place))
            (Reply.Value value)) }
    {
        check_place(self, object, place)?;
        self.finish(object)?;
        let domain = self.known(object).domain;
        match store(&self.table, object).get(place.row(), place.col()) {
            Some(word) => Ok(domain.value_of(word)),
            None => Err(Status::NoValue),
        }
    }

    /// The number of entries (`GrB_Matrix_nvals`, `GrB_Vector_nvals`).
    pub fn nvals(&mut self, object: Obj) -> Result<u64, Status>
        ensures performed { IsPerformed self.old self.new (Call.On object Act.Nvals) result }
        ensures number { IfOk result (λ number. Answers (environment_of self.old) (Call.On object Act.Nvals)
            (Reply.Count number)) }
    {
        check_there(self, object)?;
        self.finish(object)?;
        Ok(store(&self.table, object).nvals())
    }

    /// The sum of all values of an object by a monoid, the identity where it has none (`GrB_reduce`).
    pub fn reduce(&mut self, object: Obj, monoid: MonoidName) -> Result<i128, Status>
        ensures performed { IsPerformed self.old self.new (Call.On object (Act.Reduce monoid)) result }
        ensures value { IfOk result (λ value. Answers (environment_of self.old) (Call.On object (Act.Reduce monoid))
            (Reply.Value value)) }
    {
        self.reduce_by(&OneThread, object, monoid)
    }

    /// The same, where `folder` sums the values.
    pub fn reduce_by<F: WordFolder>(
        &mut self,
        folder: &F,
        object: Obj,
        monoid: MonoidName,
    ) -> Result<i128, Status>
        ensures performed { IsPerformed self.old self.new (Call.On object (Act.Reduce monoid)) result }
        ensures value { IfOk result (λ value. Answers (environment_of self.old) (Call.On object (Act.Reduce monoid))
            (Reply.Value value)) }
    {
        let monoid = check_reduce(self, object, monoid)?;
        self.finish(object)?;
        let sum = reduce_all_by(folder, store(&self.table, object), monoid);
        Ok(monoid.op.domain.value_of(sum))
    }

    /// Has the value of an object, and all that it needs, come to be there (`GrB_Matrix_wait`, `GrB_Vector_wait`).
    /// `GrB_MATERIALIZE` has what reads the object later rest on its value alone.
    pub fn wait(&mut self, object: Obj, mode: WaitMode) -> Result<(), Status>
        ensures { IsPerformed self.old self.new (Call.On object (Act.Wait mode)) result }
    {
        check_wait(self, object, mode)?;
        self.finish(object)?;
        if let WaitMode::Materialize = mode {
            self.take_ticket(object);
        }
        Ok(())
    }
}
