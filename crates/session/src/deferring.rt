//! One object of a session: what is known of it, its ticket, and another value in its place.
ghost use Rattle.std.specs.Prelude.{◌≡◌, IfOk, OnErr, OnOk, false, is_some, not, true};
ghost use Rattle.std.specs.Prelude.{[]};
ghost use Rattle.calls.specs.Stores.{object_with};
ghost use Rattle.calls.specs.declared.obj.Obj.{Obj as AnyObj};
ghost use Rattle.model.specs.Marks.{told};
ghost use Rattle.model.specs.Object.{signature_of};
ghost use Rattle.model.specs.Run.{object_at};
ghost use Rattle.objects.specs.Tables.{Reads, with_kept};
ghost use Rattle.objects.specs.Values.{IsValueOf, map_with, mark_with};

use crate::sessions::Session;
use calls::{Obj, Signature};
use model::NoMemory;
use objects::{Refusal, Value, finish, give, put, signature, take_ticket};
use runner::Runner;

impl<R: Runner + Drop> Session<R> {
    ghost use Rattle.session.specs.Performed.{environment_of, is_finished_in, is_ready_in, made_in, state_of};

    /// What is known of an object that is there.
    pub(crate) fn known(&self, object: Obj) -> Signature
        requires { is_some ((environment_of self.now).find_object object) ≡ true }
        ensures { result ≡ signature_of (object_at (environment_of self.now) object) }
    {
        match signature(&self.table, object) {
            Some(known) => known,
            None => unreachable!(),
        }
    }

    /// Has a ticket stand for an object that is there, and says whether one does: none does where it was told to have
    /// failed. Refused, all objects stay.
    pub(crate) fn give(&mut self, object: Obj) -> Result<bool, NoMemory>
        requires there { is_some ((environment_of self.old).find_object object) ≡ true }
        ensures state { state_of self.new ≡ state_of self.old }
        ensures made { made_in self.new ≡ made_in self.old }
        ensures given { IfOk result (λ given. given ≡ not (told (state_of self.old) object)) }
        ensures ready { IfOk result (λ given. given ≡ true → is_ready_in self.new object ≡ true) }
        ensures still { (other : AnyObj) → is_ready_in self.old other ≡ true → is_ready_in self.new other ≡ true }
    {
        give(self.alloc, &mut self.runner, &mut self.table, object)
    }

    /// Has the value of an object come to be there, which is there.
    pub(crate) fn finish(&mut self, object: Obj) -> Result<(), Refusal>
        requires there { is_some ((environment_of self.old).find_object object) ≡ true }
        ensures ends { Reads (state_of self.old) object (state_of self.new) result }
        ensures made { made_in self.new ≡ made_in self.old }
        ensures finished { OnOk result (is_finished_in self.new object ≡ true) }
        ensures unfinished { OnErr result (is_finished_in self.old object ≡ false) }
    {
        finish(self.alloc, &mut self.runner, &mut self.table, object)
    }

    /// Gives the ticket of an object back that is there and whose store is.
    pub(crate) fn take_ticket(&mut self, object: Obj)
        requires there { is_some ((environment_of self.old).find_object object) ≡ true }
        ensures state { state_of self.new ≡ state_of self.old }
        ensures made { made_in self.new ≡ made_in self.old }
    {
        take_ticket(&mut self.runner, &mut self.table, object);
    }

    /// Puts a value into an object that is there, of which this is known then.
    pub(crate) fn put(&mut self, object: Obj, of: Signature, value: Value<R::Ticket>)
        requires there { is_some ((environment_of self.old).find_object object) ≡ true }
        requires value { IsValueOf R.object_of of value }
        ensures state { state_of self.new ≡ with_kept (state_of self.old) object
            (object_with of (map_with R.object_of [] value)) (mark_with [] value) }
        ensures made { made_in self.new ≡ made_in self.old }
    {
        put(
            self.alloc,
            &mut self.runner,
            &mut self.table,
            object,
            of,
            value,
        );
    }
}
