//! The objects of a run by their names.
ghost use Rattle.std.specs.Prelude.{◌≡◌, ◌<◌, ◌+◌, ◌-◌, ◌^◌, ℕ, List, IfErr, OnErr, OnOk};
ghost use Rattle.std.specs.Prelude.{Some, false, if◌then◌else◌, is_some, true};
ghost use Rattle.std.specs.HashMap.{get_by_text};
ghost use Rattle.std.specs.Str.{bytes_eq};
ghost use Rattle.std.specs.String.{string_bytes};
ghost use Rattle.calls.specs.declared.obj.Obj.{Obj as Object};
ghost use Rattle.model.specs.declared.call.Call.TheVariants.{Operate};
ghost use Rattle.model.specs.declared.call.Operation.TheVariants.{OfTwo};
ghost use Rattle.model.specs.Marks.{first_state};
ghost use Rattle.model.specs.Renamed.{renamed, renamed_out};
ghost use Rattle.script.specs.Freed.{IsFreed};
ghost use Rattle.session.specs.Performed.{environment_of, made_in, state_of};

use crate::printing::print;
use crate::replies::write_reply;
use algebra::Domain;
use mmio::FileWriter;
use model::{Act, Call, Lookup, Out, Shape, Status, TwoInputs};
use runner::Runner;
use session::{Obj, Reply, Session, WordFolder};
use std::alloc::Global;
use std::collections::HashMap;

/// The objects of a run: their names, and the session that has them by number.
#[derive(Drop)]
pub struct Environment<R: Runner + Drop> {
    pub(crate) alloc: Global,
    pub numbers: HashMap<String, Obj>,
    pub session: Session<R>,
    ghost distinct: { (a b : List ℕ) (object : Object) → get_by_text numbers a ≡ Some object
        → get_by_text numbers b ≡ Some object → a ≡ b },
    ghost there: { (name : List ℕ) (object : Object) → get_by_text numbers name ≡ Some object
        → is_some ((environment_of session).find_object object) ≡ true },
}

impl<R: Runner + Drop> Environment<R> {
    ghost use Rattle.script.specs.Named.{asks_text, changes_names, is_print, state_in};
    ghost use Rattle.script.specs.Replied.{IsAnswered, IsNamed, IsReplied};

    /// No objects, whose values a runner makes. It takes no memory.
    pub fn new(alloc: Global, runner: R) -> Environment<R>
        ensures state { state_in result ≡ first_state }
        ensures made { made_in result.session ≡ 0 }
    {
        Environment {
            alloc,
            numbers: HashMap::new(alloc),
            session: Session::new(alloc, runner),
        }
    }

    /// Does a call that asks for no text, and writes the data lines of its answer; `folder` sums values. An error
    /// leaves the objects as they were; what it leaves at the text's end is no answer.
    #[tactic(auto, unfolding(model::specs::Run::data_lines_of))]
    pub fn perform<F: WordFolder>(
        &mut self,
        folder: &F,
        call: Call<&str, &str>,
        text: &mut Vec<u8>,
    ) -> Result<(), Status>
        requires made { made_in self.old.session < 2 ^ 64 - 1 }
        requires textless { asks_text call ≡ false }
        ensures { IsAnswered self.old self.new (renamed (λ name. name.now) (λ name. name.now) call.entry)
            text.old.items text.new.items result }
    {
        match call {
            Call::Create {
                name,
                domain,
                shape,
            } => self.create(name, domain, shape),
            Call::Dup { name, object } => self.dup(name, object),
            Call::On { object, act } => self.act(folder, object, act, text),
            call => self.perform_known(folder, call, text),
        }
    }

    /// Does something to the object of a name, which asks for no text, or writes what it answers.
    fn act<F: WordFolder>(
        &mut self,
        folder: &F,
        object: &str,
        act: Act,
        text: &mut Vec<u8>,
    ) -> Result<(), Status>
        requires made { made_in self.old.session < 2 ^ 64 - 1 }
        requires textless { is_print act ≡ false }
        ensures { IsAnswered self.old self.new (Call.On object.now act) text.old.items text.new.items result }
    {
        match act {
            Act::Free => self.free(object),
            act => self.perform_known(folder, Call::On { object, act }, text),
        }
    }

    /// Does a call on objects that are there, which asks for no text, and writes the data lines of its answer.
    fn perform_known<F: WordFolder>(
        &mut self,
        folder: &F,
        call: Call<&str, &str>,
        text: &mut Vec<u8>,
    ) -> Result<(), Status>
        requires made { made_in self.old.session < 2 ^ 64 - 1 }
        requires known { changes_names call ≡ false }
        requires textless { asks_text call ≡ false }
        ensures { IsAnswered self.old self.new (renamed (λ name. name.now) (λ name. name.now) call.entry)
            text.old.items text.new.items result }
    {
        let reply = self.reply(folder, call)?;
        write_reply(reply, text)?;
        Ok(())
    }

    /// Does a call on objects that are there, which asks for no text, and gives what it answers.
    fn reply<F: WordFolder>(&mut self, folder: &F, call: Call<&str, &str>) -> Result<Reply, Status>
        requires made { made_in self.old.session < 2 ^ 64 - 1 }
        requires known { changes_names call ≡ false }
        requires textless { asks_text call ≡ false }
        ensures { IsReplied self.old self.new (renamed (λ name. name.now) (λ name. name.now) call.entry) result }
    {
        let Some(call) = call.found(self) else {
            return Err(Status::UninitializedObject);
        };
        self.session.perform_by(folder, call)
    }

    /// Does an operation of two inputs on the objects of names, which answers no lines: what `perform` does with it. It
    /// has a path of its own, since most lines that compute are such, and calls of all kinds are dear to hand on.
    #[inline(never)]
    pub fn join(
        &mut self,
        out: &Out<&str>,
        computes: TwoInputs,
        a: &str,
        b: &str,
    ) -> Result<(), Status>
        requires { made_in self.old.session < 2 ^ 64 - 1 }
        ensures { IsNamed self.old self.new
            (Operate (renamed_out (λ name. name.now) out.now) (OfTwo computes a.now b.now)) result }
    {
        let Some(out) = out.found(self) else {
            return Err(Status::UninitializedObject);
        };
        let Some(a) = self.find(a) else {
            return Err(Status::UninitializedObject);
        };
        let Some(b) = self.find(b) else {
            return Err(Status::UninitializedObject);
        };
        self.session.of_two(&out, computes, a, b)
    }

    /// Writes the canonical text of the object of a name. An error leaves what it is written behind as it was.
    pub fn print<W: FileWriter>(
        &mut self,
        writer: &W,
        name: &str,
        text: &mut Vec<u8>,
    ) -> Result<(), Status>
        requires { made_in self.old.session < 2 ^ 64 - 1 }
        ensures answered { IsAnswered self.old self.new (Call.On name.now Act.Print)
            text.old.items text.new.items result }
        ensures err { OnErr result (text.new.items ≡ text.old.items) }
    {
        let Some(object) = self.find(name) else {
            return Err(Status::UninitializedObject);
        };
        print(writer, &mut self.session, object, text)
    }

    /// Makes an object under a new name.
    fn create(&mut self, name: &str, domain: Domain, shape: Shape) -> Result<(), Status>
        requires { made_in self.old.session < 2 ^ 64 - 1 }
        ensures { IsNamed self.old self.new (Call.Create name.now domain shape) result }
    {
        if self.numbers.contains_key(name) {
            return Err(Status::NameTaken);
        }
        let name = String::from_str(self.alloc, name)?;
        let object = self.session.create(domain, shape)?;
        put(&mut self.numbers, &mut self.session, name, object)?;
        Ok(())
    }

    /// Makes an object under a new name, with the domain, the shape and the entries of another.
    fn dup(&mut self, name: &str, object: &str) -> Result<(), Status>
        requires { made_in self.old.session < 2 ^ 64 - 1 }
        ensures { IsNamed self.old self.new (Call.Dup name.now object.now) result }
    {
        if self.find(name).is_some() {
            return Err(Status::NameTaken);
        }
        let Some(object) = self.find(object) else {
            return Err(Status::UninitializedObject);
        };
        let name = String::from_str(self.alloc, name)?;
        let made = self.session.dup(object)?;
        put(&mut self.numbers, &mut self.session, name, made)?;
        Ok(())
    }

    /// Frees the object of a name, which then stands for none.
    fn free(&mut self, name: &str) -> Result<(), Status>
        requires { made_in self.old.session < 2 ^ 64 - 1 }
        ensures { IsNamed self.old self.new (Call.On name.now Act.Free) result }
    {
        let Some(object) = self.numbers.remove(name) else {
            return Err(Status::UninitializedObject);
        };
        self.session.free(object)
    }
}

/// Has a name stand for an object that a session just made. Without room for the name the object goes again.
pub(crate) fn put<R: Runner + Drop>(
    numbers: &mut HashMap<String, Obj>,
    session: &mut Session<R>,
    name: String,
    object: Obj,
) -> Result<(), Status>
    requires { is_some ((environment_of session.old).find_object object) ≡ true }
    ensures named { OnOk result ((n : List ℕ) → get_by_text numbers.new n
        ≡ (if bytes_eq (string_bytes name) n then Some object else get_by_text numbers.old n)) }
    ensures made { OnOk result (session.new ≡ session.old) }
    ensures kept { OnErr result ((n : List ℕ) → get_by_text numbers.new n ≡ get_by_text numbers.old n) }
    ensures gone { OnErr result (IsFreed (state_of session.old) object (state_of session.new)) }
    ensures count { made_in session.new ≡ made_in session.old }
    ensures err { IfErr result (λ status. status ≡ Status.OutOfMemory) }
{
    if let Err(_) = numbers.insert(name, object) {
        let _ = session.free(object);
        return Err(Status::OutOfMemory);
    }
    Ok(())
}
