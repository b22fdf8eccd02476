//! Calls that change one object, or copy it.
ghost use Rattle.std.specs.Prelude.{◌≡◌, IfOk, None, OnErr, OnOk, is_some, true};
ghost use Rattle.calls.specs.Checks.{Decides};
ghost use Rattle.model.specs.Marks.{told};
ghost use Rattle.model.specs.Object.{cols_of, rows_of, signature_of};
ghost use Rattle.model.specs.Run.{object_at, resized, with_object};
ghost use Rattle.objects.specs.Tables.{same_object};
ghost use Rattle.objects.specs.Waiting.{IsEditOf, edited_object};
ghost use Rattle.patch.specs.Edits.{IsInside};
ghost use Rattle.session.specs.Deferred.{IsPutOff};

use crate::sessions::{Session, share};
use algebra::OpName;
use calls::{
    Act, Call, Obj, Place, Recipe, Resize, Roles, Shape, Signature, TupleList, check_build,
    check_dup, check_place, check_resize, check_set, check_there,
};
use model::{NoMemory, Status};
use objects::{Value, edit, is_told, store, ticket};
use patch::{Edit, build};
use runner::Runner;

impl<R: Runner + Drop> Session<R> {
    ghost use Rattle.model.specs.Marks.{put_off};
    ghost use Rattle.session.specs.Performed.{IsPerformed, early_in, environment_of, made_in, next_object, state_of};

    /// Makes an object with the domain, the shape and the entries of another (`GrB_Matrix_dup`,
    /// `GrB_Vector_dup`). No entry is copied: the two share what makes the entries, until one is changed.
    pub fn dup(&mut self, object: Obj) -> Result<Obj, Status>
        ensures performed { IsPerformed self.old self.new (Call.Dup (next_object self.old) object) result }
        ensures made { IfOk result (λ made. made ≡ next_object self.old) }
        ensures unused { (environment_of self.old).find_object (next_object self.old) ≡ None }
    {
        check_dup(self, object)?;
        self.begin()?;
        let of = self.known(object);
        let value = self.copied(object)?;
        let made = self.insert(of, value)?;
        Ok(made)
    }

    /// The value of a copy of an object.
    fn copied(&mut self, object: Obj) -> Result<Value<R::Ticket>, NoMemory>
        requires there { is_some ((environment_of self.old).find_object object) ≡ true }
        ensures value { IfOk result (IsPutOff R.object_of (told (state_of self.old) object)
            (object_at (environment_of self.old) object)) }
        ensures state { state_of self.new ≡ state_of self.old }
        ensures made { made_in self.new ≡ made_in self.old }
    {
        if !self.give(object)? {
            return Ok(Value::Failed);
        }
        let copy = self.runner.hold(ticket(&self.table, object))?;
        Ok(Value::Open(copy))
    }

    /// Gives an object another shape, in which the entries stay that fit it (`GrB_Matrix_resize`,
    /// `GrB_Vector_resize`).
    pub fn resize(&mut self, object: Obj, shape: Shape) -> Result<(), Status>
        ensures { IsPerformed self.old self.new (Call.On object (Act.Resize shape)) result }
    {
        check_resize(self, object, shape)?;
        self.begin()?;
        let of = self.known(object);
        let value = self.resized(object, of, shape)?;
        self.put(object, Signature { shape, ..of }, value);
        Ok(())
    }

    /// The value of an object in another shape.
    fn resized(
        &mut self,
        object: Obj,
        of: Signature,
        shape: Shape,
    ) -> Result<Value<R::Ticket>, NoMemory>
        requires there { is_some ((environment_of self.old).find_object object) ≡ true }
        requires known { of ≡ signature_of (object_at (environment_of self.old) object) }
        ensures value { IfOk result (IsPutOff R.object_of (told (state_of self.old) object)
            (resized (object_at (environment_of self.old) object) shape)) }
        ensures state { state_of self.new ≡ state_of self.old }
        ensures made { made_in self.new ≡ made_in self.old }
    {
        if !self.give(object)? {
            return Ok(Value::Failed);
        }
        let resize = Box::new(self.alloc, Resize { of, shape })?;
        let inputs = Roles::of_old(ticket(&self.table, object));
        let resized = self.runner.submit(Recipe::Resized(resize), inputs)?;
        Ok(Value::Open(resized))
    }

    /// Puts values at positions of an object without entries; those of one position are combined in the order
    /// of the list (`GrB_Matrix_build`, `GrB_Vector_build`).
    pub fn build(
        &mut self,
        object: Obj,
        dup: Option<OpName>,
        tuples: TupleList,
    ) -> Result<(), Status>
        ensures { IsPerformed self.old self.new (Call.On object (Act.Build dup tuples)) result }
    {
        let op = check_build(self, object, dup, &tuples)?;
        self.finish(object)?;
        if store(&self.table, object).nvals() > 0 {
            return Err(Status::OutputNotEmpty);
        }
        let of = self.known(object);
        let store = build(self.alloc, of.shape, of.domain, op, &tuples)?;
        let store = share(self.alloc, store)?;
        self.put(object, of, Value::Here(store));
        Ok(())
    }

    /// Removes all entries of an object (`GrB_Matrix_clear`, `GrB_Vector_clear`). It takes no memory.
    pub fn clear(&mut self, object: Obj) -> Result<(), Status>
        ensures performed { IsPerformed self.old self.new (Call.On object Act.Clear) result }
        ensures decided { Decides (early_in self.old (Call.On object Act.Clear)) result }
    {
        check_there(self, object)?;
        let of = self.known(object);
        self.put(object, of, Value::New);
        Ok(())
    }

    /// Removes an entry, where there is one (`GrB_Matrix_removeElement`, `GrB_Vector_removeElement`).
    pub fn remove(&mut self, object: Obj, place: Place) -> Result<(), Status>
        ensures { IsPerformed self.old self.new (Call.On object (Act.Remove place)) result }
    {
        check_place(self, object, place)?;
        self.edit(object, Edit::Remove(place.row(), place.col()))?;
        Ok(())
    }

    /// Sets an entry (`GrB_Matrix_setElement`, `GrB_Vector_setElement`).
    pub fn set(&mut self, object: Obj, place: Place, value: i128) -> Result<(), Status>
        ensures { IsPerformed self.old self.new (Call.On object (Act.Set place value)) result }
    {
        let word = check_set(self, object, place, value)?;
        self.edit(object, Edit::Set(place.row(), place.col(), word))?;
        Ok(())
    }

    /// Has an edit inside an object done later. One that was told to have failed stays so.
    fn edit(&mut self, object: Obj, change: Edit) -> Result<(), NoMemory>
        requires there { is_some ((environment_of self.old).find_object object) ≡ true }
        requires inside { IsInside (rows_of (object_at (environment_of self.old) object).shape)
            (cols_of (object_at (environment_of self.old) object).shape) change }
        requires word { IsEditOf (object_at (environment_of self.old) object).domain change }
        ensures edited { OnOk result (state_of self.new ≡ put_off same_object (state_of self.old)
            (with_object same_object (environment_of self.old) object
            (edited_object (object_at (environment_of self.old) object) change) (environment_of self.old).count)
            object (told (state_of self.old) object)) }
        ensures refused { OnErr result (state_of self.new ≡ state_of self.old) }
        ensures made { made_in self.new ≡ made_in self.old }
    {
        if is_told(&self.table, object) {
            let of = self.known(object);
            self.put(object, of, Value::Failed);
            return Ok(());
        }
        edit(
            self.alloc,
            &mut self.runner,
            &mut self.table,
            object,
            change,
        )
    }
}
