//! Sessions, and the objects that they make and free.
ghost use Rattle.std.specs.Prelude.{◌≡◌, ◌==◌, ◌+◌, ◌-◌, ◌^◌, ◌<◌, IfOk, None, OnErr, OnOk, [], false, is_some, true};
ghost use Rattle.std.specs.Arc.{arc_value};
ghost use Rattle.std.specs.List.{All};
ghost use Rattle.algebra.specs.Value.{IsWordOf, is_built_in};
ghost use Rattle.calls.specs.Stores.{object_with};
ghost use Rattle.calls.specs.declared.obj.Obj.{Obj as Object};
ghost use Rattle.model.specs.Entries.{IsInside};
ghost use Rattle.model.specs.Marks.{Settles, first_state, with_mark};
ghost use Rattle.model.specs.MatrixMarket.{object_read};
ghost use Rattle.model.specs.Run.{with_object};
ghost use Rattle.objects.specs.Tables.{same_object, state_in};
ghost use Rattle.objects.specs.Values.{IsValueOf, map_with, mark_with};

use algebra::Domain;
use bitmap::OneThread;
use calls::{Act, Call, Obj, Shape, Shapes, Signature, check_create, check_there};
use model::{MOST_OBJECTS, NoMemory, Status};
use objects::{Table, Value, insert, remove, settle, signature};
use patch::{EntrySummer, sum_entries};
use runner::Runner;
use std::alloc::Global;
use std::sync::Arc;
use store::{Store, Tuples};

/// So many calls hand work to a runner before it is emptied, and what it knows of them is forgotten.
const EPOCH: u64 = 4_096;

/// Objects by number, and all calls on them. Each call is checked at once; what an accepted call has to do is handed to
/// a runner, and done when it likes, or when a call asks for the value. A call that answers an error changes nothing.
#[derive(Drop)]
pub struct Session<R: Runner + Drop> {
    pub(crate) alloc: Global,
    pub(crate) runner: R,
    pub(crate) table: Table<R>,
    next: u64,
    submitting: u64,
    ghost fresh: { (object : Object) → is_some ((state_in table).environment.find_object object) ≡ true
        → object.0 < next },
}

impl<R: Runner + Drop> Shapes for Session<R> {
    ghost use Rattle.session.specs.Performed.{count_in, known_in};

    ghost known = { known_in };

    ghost count = { count_in };

    fn object(&self, object: Obj) -> Option<(Domain, Shape)> {
        match signature(&self.table, object) {
            Some(known) => Some((known.domain, known.shape)),
            None => None,
        }
    }

    fn live(&self) -> u64 {
        if self.next == u64::MAX {
            MOST_OBJECTS
        } else {
            self.table.len()
        }
    }
}

impl<R: Runner + Drop> Session<R> {
    ghost use Rattle.session.specs.Performed.{IsMade, IsPerformed, environment_of, made_in, next_object, state_of};

    /// A session without objects, whose values a runner makes. It takes no memory.
    pub fn new(alloc: Global, runner: R) -> Session<R>
        ensures state { state_of result ≡ first_state }
        ensures made { made_in result ≡ 0 }
    {
        Session {
            alloc,
            runner,
            table: Table::new(alloc),
            next: 0,
            submitting: 0,
        }
    }

    /// Makes an object without entries (`GrB_Matrix_new`, `GrB_Vector_new`). After 2^64 - 1 objects
    /// no other can be made.
    pub fn create(&mut self, domain: Domain, shape: Shape) -> Result<Obj, Status>
        ensures performed { IsPerformed self.old self.new (Call.Create (next_object self.old) domain shape) result }
        ensures made { IfOk result (λ object. object ≡ next_object self.old) }
        ensures unused { (environment_of self.old).find_object (next_object self.old) ≡ None }
    {
        check_create(self, domain, shape)?;
        let object = self.insert(Signature { domain, shape }, Value::New)?;
        Ok(object)
    }

    /// Makes a matrix with the entries of a file, of which the values of one position are summed (`GrB_Matrix_new`,
    /// and `GrB_Matrix_build` with PLUS, of BOOL with LOR). It takes no memory beside the entries and the store.
    pub fn load(
        &mut self,
        domain: Domain,
        rows: u64,
        cols: u64,
        entries: Tuples,
    ) -> Result<Obj, Status>
        requires built_in { is_built_in domain ≡ true }
        requires inside { IsInside rows cols entries }
        requires words { All (λ e. IsWordOf domain e.word) entries }
        ensures loaded { IsMade self.old self.new
            (object_read domain (record { rows = rows; cols = cols; entries = entries })) result }
        ensures made { IfOk result (λ object. object ≡ next_object self.old) }
        ensures unused { (environment_of self.old).find_object (next_object self.old) ≡ None }
    {
        self.load_by(&OneThread, domain, rows, cols, entries)
    }

    /// The same, where another sums the entries that don't come row by row.
    pub fn load_by<S: EntrySummer>(
        &mut self,
        summer: &S,
        domain: Domain,
        rows: u64,
        cols: u64,
        entries: Tuples,
    ) -> Result<Obj, Status>
        requires built_in { is_built_in domain ≡ true }
        requires inside { IsInside rows cols entries }
        requires words { All (λ e. IsWordOf domain e.word) entries }
        ensures loaded { IsMade self.old self.new
            (object_read domain (record { rows = rows; cols = cols; entries = entries })) result }
        ensures made { IfOk result (λ object. object ≡ next_object self.old) }
        ensures unused { (environment_of self.old).find_object (next_object self.old) ≡ None }
    {
        let shape = Shape::Two(rows, cols);
        check_create(self, domain, shape)?;
        let store = sum_entries(self.alloc, summer, entries, domain, rows, cols)?;
        let store = share(self.alloc, store)?;
        let object = self.insert(Signature { domain, shape }, Value::Here(store))?;
        Ok(object)
    }

    /// Puts an object under the next number, behind which there is another.
    pub(crate) fn insert(&mut self, of: Signature, value: Value<R::Ticket>) -> Result<Obj, NoMemory>
        requires left { (made_in self.old == 2 ^ 64 - 1) ≡ false }
        requires value { IsValueOf R.object_of of value }
        ensures object { IfOk result (λ object. object ≡ next_object self.old) }
        ensures put { OnOk result (state_of self.new ≡ with_mark same_object (state_of self.old)
            (with_object same_object (environment_of self.old) (next_object self.old)
            (object_with of (map_with R.object_of [] value)) ((environment_of self.old).count + 1))
            (next_object self.old) (mark_with [] value)) }
        ensures made { OnOk result (made_in self.new ≡ made_in self.old + 1) }
        ensures kept { OnErr result (state_of self.new ≡ state_of self.old) }
        ensures unmade { OnErr result (made_in self.new ≡ made_in self.old) }
    {
        let object = Obj(self.next);
        insert(
            self.alloc,
            &mut self.runner,
            &mut self.table,
            object,
            of,
            value,
        )?;
        self.next += 1;
        Ok(object)
    }

    /// Begins a call that hands work to the runner, and ends the epoch before it where that is over.
    pub(crate) fn begin(&mut self) -> Result<(), NoMemory>
        ensures settles { Settles (state_of self.old) (state_of self.new) }
        ensures made { made_in self.new ≡ made_in self.old }
    {
        if self.submitting < EPOCH {
            self.submitting += 1;
            return Ok(());
        }
        self.end_epoch()
    }

    /// Has the values of all objects come to be there, where they can, and empties the runner. Refused, the objects
    /// keep their values, and the epoch isn't over.
    fn end_epoch(&mut self) -> Result<(), NoMemory>
        ensures settles { Settles (state_of self.old) (state_of self.new) }
        ensures made { made_in self.new ≡ made_in self.old }
    {
        settle(&mut self.runner, &mut self.table);
        self.runner.renew()?;
        self.submitting = 1;
        Ok(())
    }

    /// Frees an object (`GrB_free`). Its number is never used again.
    pub fn free(&mut self, object: Obj) -> Result<(), Status>
        ensures performed { IsPerformed self.old self.new (Call.On object Act.Free) result }
        ensures there { OnErr result ((environment_of self.old).find_object object ≡ None) }
    {
        check_there(self, object)?;
        remove(&mut self.runner, &mut self.table, object);
        Ok(())
    }
}

/// A store that was made, in the form that suits it, to be shared.
pub(crate) fn share(alloc: Global, store: Store) -> Result<Arc<Store>, NoMemory>
    ensures { IfOk result (λ shared. arc_value shared ≡ store) }
{
    let mut store = store;
    store.settle(alloc);
    Ok(Arc::new(alloc, store)?)
}
