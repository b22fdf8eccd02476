//! What a session lends and tells of its objects.
ghost use Rattle.std.specs.Prelude.{◌≡◌, IfOk, OnOk, is_some, ok_or, true};
ghost use Rattle.std.specs.Borrow.{sem};
ghost use Rattle.std.specs.Io.BufRead.{Rests};
ghost use Rattle.std.specs.Option.{option_map};
ghost use Rattle.model.specs.Run.{object_at};

use crate::listing::listed;
use crate::sessions::Session;
use algebra::Domain;
use calls::{Act, Call, Obj, Shape, check_there};
use model::Status;
use objects::{signature, store};
use runner::Runner;
use store::Store;

impl<R: Runner + Drop> Session<R> {
    ghost use Rattle.calls.specs.Checks.{Decides};
    ghost use Rattle.session.specs.contracts.sessions.Session.{the_row};
    ghost use Rattle.session.specs.Lending.{IsStoreOf};
    ghost use Rattle.session.specs.Listed.{tuples_of};
    ghost use Rattle.session.specs.Performed.{IsPerformed, early_in, environment_of, is_finished_in};

    /// The store of an object, once its value is there (`GrB_Matrix_wait`, `GrB_Vector_wait`). It is lent, and nothing
    /// is copied; where the value is there it takes no memory.
    pub fn store(&mut self, object: Obj) -> Result<&Store, Status>
        ensures* performed { sem 𝓛 (Rests (the_row R.row R.Ticket.row R.Runner) self.entry
            (λ new. IsPerformed self.entry.now new (Call.On object Act.Print) result)) }
        ensures decided { is_finished_in self.old object ≡ true
            → Decides (early_in self.old (Call.On object Act.Print)) result }
        ensures store { IfOk result (λ store. IsStoreOf (environment_of self.old) object store.now) }
    {
        self.complete(object)?;
        Ok(store(&self.table, object))
    }

    /// Has the value of an object come to be there, which ends as a print of it does.
    pub(crate) fn complete(&mut self, object: Obj) -> Result<(), Status>
        ensures performed { IsPerformed self.old self.new (Call.On object Act.Print) result }
        ensures kept { OnOk result (environment_of self.new ≡ environment_of self.old) }
        ensures there { OnOk result (is_some ((environment_of self.new).find_object object) ≡ true) }
        ensures finished { OnOk result (is_finished_in self.new object ≡ true) }
        ensures decided { is_finished_in self.old object ≡ true
            → Decides (early_in self.old (Call.On object Act.Print)) result }
    {
        check_there(self, object)?;
        self.finish(object)?;
        Ok(())
    }

    /// Row, column and value of each entry of an object, row by row (`GrB_Matrix_extractTuples`,
    /// `GrB_Vector_extractTuples`). The entries of a vector have column 0.
    pub fn tuples(&mut self, object: Obj) -> Result<Vec<(u64, u64, i128)>, Status>
        ensures performed { IsPerformed self.old self.new (Call.On object Act.Print) result }
        ensures tuples { IfOk result (λ tuples. tuples.items ≡ tuples_of (object_at (environment_of self.old) object)) }
    {
        self.complete(object)?;
        let domain = self.known(object).domain;
        let lists = store(&self.table, object).as_sparse(self.alloc)?;
        let tuples = listed(self.alloc, domain, lists.get())?;
        Ok(tuples)
    }

    /// The shape of an object (`GrB_Matrix_nrows`, `GrB_Matrix_ncols`, `GrB_Vector_size`). It takes no memory.
    pub fn shape(&self, object: Obj) -> Result<Shape, Status>
        ensures { result ≡ ok_or (option_map (λ o. o.shape) ((environment_of self.now).find_object object))
            Status.UninitializedObject }
    {
        match signature(&self.table, object) {
            Some(known) => Ok(known.shape),
            None => Err(Status::UninitializedObject),
        }
    }

    /// The domain of an object. It takes no memory.
    pub fn domain(&self, object: Obj) -> Result<Domain, Status>
        ensures { result ≡ ok_or (option_map (λ o. o.domain) ((environment_of self.now).find_object object))
            Status.UninitializedObject }
    {
        match signature(&self.table, object) {
            Some(known) => Ok(known.domain),
            None => Err(Status::UninitializedObject),
        }
    }
}
