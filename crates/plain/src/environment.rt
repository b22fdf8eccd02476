//! The objects of a run, by their names.
ghost use Rattle.std.specs.Prelude.{◌≡◌, ◌≤◌, MatchResult, None, OnErr, OnOk, IfOk, filter, not};
ghost use Rattle.std.specs.Option.{option_copied};
ghost use Rattle.std.specs.Str.{bytes_eq};
ghost use Rattle.std.specs.String.{string_bytes};
ghost use Rattle.std.specs.Vec.{vec_capacity, vec_len};
ghost use Rattle.model.specs.Object.{signature_of, transposed_object};
ghost use Rattle.model.specs.Run.{no_objects, step, with_object};
ghost use Rattle.model.specs.Table.{transposed_if};
ghost use Rattle.plain.specs.Environments.{answer_of, effect_in, environment_of, find_in, named, object_in};
ghost use Rattle.plain.specs.Evaluated.{input_of, object_of};

use crate::answers::PlainAnswer;
use crate::inputs::Input;
use crate::objects::PlainObject;
use algebra::Domain;
use model::{Act, Call, Shape, Signature, Status};
use std::alloc::{AllocError, Global};

/// The objects of a run, and how many there are. Each call is done as the definition of `step` says, with
/// no regard to speed.
#[derive(Drop)]
pub struct PlainEnvironment {
    pub(crate) objects: Vec<PlainObject>,
    pub(crate) live: u64,
}

impl PlainEnvironment {
    /// No objects. It takes no memory.
    pub fn new(alloc: Global) -> PlainEnvironment
        ensures { environment_of result ≡ no_objects }
    {
        PlainEnvironment {
            objects: Vec::new(alloc),
            live: 0,
        }
    }

    /// The first object of a name.
    pub(crate) fn find(&self, name: &str) -> Option<&PlainObject>
        ensures { option_copied result ≡ find_in self.now.objects.items name.now }
    {
        self.objects
            .iter()
            .find(|object| object.name.as_str() == name)
    }

    /// What a name stands for, transposed if the flag says so; an object without positions, if it stands
    /// for none.
    pub(crate) fn read(&self, is_transposed: bool, name: &str) -> Input<'_>
        ensures { input_of result ≡ transposed_if transposed_object is_transposed (object_in self.now name.now) }
    {
        match self.find(name) {
            Some(object) => Input {
                domain: object.domain,
                kept_shape: object.shape,
                entries: &object.entries,
                is_transposed,
            },
            None => Input {
                domain: Domain::Bool,
                kept_shape: Shape::One(0),
                entries: &[],
                is_transposed,
            },
        }
    }

    /// What a name stands for.
    pub(crate) fn object(&self, name: &str) -> Input<'_>
        ensures { input_of result ≡ object_in self.now name.now }
    {
        self.read(false, name)
    }

    /// What is known of what a name stands for.
    pub(crate) fn signature(&self, name: &str) -> Signature
        ensures { result ≡ signature_of (object_in self.now name.now) }
    {
        self.object(name).signature()
    }

    /// Puts an object in the place of those of its name, and counts the objects anew. An error leaves them
    /// as they were.
    pub(crate) fn put(&mut self, object: PlainObject, live: u64) -> Result<(), AllocError>
        ensures { let old = environment_of self.old in MatchResult result
            (λ _. environment_of self.new
            ≡ with_object bytes_eq old (string_bytes object.name) (object_of object) live)
            (λ _. environment_of self.new ≡ old) }
    {
        self.objects.reserve(1)?;
        take_off(&mut self.objects, object.name.as_str());
        self.objects.push_reserved(object);
        self.live = live;
        Ok(())
    }

    /// Frees the object of a name.
    #[tactic(auto, unfolding(model::specs::Run::effect))]
    pub(crate) fn free(&mut self, name: &str)
        ensures { environment_of self.new ≡ effect_in self.old (Call.On name.now Act.Free) }
    {
        take_off(&mut self.objects, name);
        self.live = self.live.saturating_sub(1);
    }

    /// Does a call: its answer and what it leaves are those of the definition of `step`. An error,
    /// which is that memory was refused, leaves the objects as they were.
    #[tactic(auto, unfolding(model::specs::Run::step))]
    pub fn step(
        &mut self,
        alloc: Global,
        number: u64,
        call: &Call<&str, &str>,
    ) -> Result<PlainAnswer, AllocError>
        ensures answer { IfOk result (λ answer.
            answer_of answer ≡ (step number (environment_of self.old) (named call.now)).0) }
        ensures left { OnOk result
            (environment_of self.new ≡ (step number (environment_of self.old) (named call.now)).1) }
        ensures refused { OnErr result (environment_of self.new ≡ environment_of self.old) }
    {
        if let Some(status) = self.fault(alloc, call)? {
            return Ok(PlainAnswer::without_lines(alloc, number, status));
        }
        let data_lines = self.data_lines(alloc, call)?;
        self.apply(alloc, call)?;
        Ok(PlainAnswer {
            number,
            status: Status::Ok,
            data_lines,
        })
    }
}

/// Takes the objects of a name off a list.
fn take_off(objects: &mut Vec<PlainObject>, name: &str)
    ensures left { objects.new.items ≡ filter (λ o. not (bytes_eq (string_bytes o.name) name.now)) objects.old.items }
    ensures len { vec_len objects.new ≤ vec_len objects.old }
    ensures capacity { vec_capacity objects.new ≡ vec_capacity objects.old }
{
    objects.retain(|object| !(object.name.as_str() == name));
}
