//! What accepted calls leave: one object that is made or changed, evaluated position by position.
ghost use Rattle.std.specs.Prelude.{◌≡◌, IfOk, MatchResult, None};
ghost use Rattle.std.specs.Option.{option_map};
ghost use Rattle.model.specs.Grammar.{Name};
ghost use Rattle.model.specs.Run.{on_objects};
ghost use Rattle.plain.specs.Environments.{content_made, count_after, effect_in, environment_of, fault_in, made};
ghost use Rattle.plain.specs.Environments.{known_as, named, target_of, with_name};

use crate::acts::{known_left, word_left};
use crate::environment::PlainEnvironment;
use crate::grid::{Mapping, entries};
use crate::objects::PlainObject;
use model::{Act, Call, Signature};
use std::alloc::{AllocError, Global};

/// The map of the object that an accepted call makes or changes.
#[derive(Clone, Copy)]
struct Made<'a> {
    environment: &'a PlainEnvironment,
    call: &'a Call<&'a str, &'a str>,
    ghost accepted: { fault_in environment.now (named call.now) ≡ None },
}

impl Mapping for Made<'_> {
    ghost content = { λ m. content_made (on_objects (environment_of m.environment.now) (named m.call.now)) };

    fn at(&self, row: u64, col: u64) -> Option<u64> {
        self.environment.made_at(self.call, row, col)
    }
}

impl PlainEnvironment {
    /// The word at a position of the object that an accepted call makes or changes.
    fn made_at(&self, call: &Call<&str, &str>, row: u64, col: u64) -> Option<u64>
        requires { fault_in self.now (named call.now) ≡ None }
        ensures { result ≡ content_made (on_objects (environment_of self.now) (named call.now)) row col }
    {
        match call {
            Call::Create { .. } => None,
            Call::Dup { object, .. } => self.object(object).word(row, col),
            Call::On { object, act } => word_left(act, self.object(object), row, col),
            Call::Operate { out, operation } => self.result_at(out, operation, row, col),
        }
    }

    /// The name of the object that a call makes or changes, and what is known of it then.
    fn target<'a>(&self, call: &Call<&'a str, &'a str>) -> Option<(&'a str, Signature)>
        ensures { option_map target_of result
            ≡ option_map known_as (made (environment_of self.now) (named call.now)) }
    {
        match call {
            Call::Create {
                name,
                domain,
                shape,
            } => Some((
                name,
                Signature {
                    domain: *domain,
                    shape: *shape,
                },
            )),
            Call::Dup { name, object } => Some((name, self.signature(object))),
            Call::On { object, act } => {
                let left = known_left(act, self.signature(object))?;
                Some((object, left))
            }
            Call::Operate { out, .. } => Some((out.c, self.signature(out.c))),
        }
    }

    /// The object that an accepted call makes or changes, as it is then.
    fn made(
        &self,
        alloc: Global,
        call: &Call<&str, &str>,
    ) -> Result<Option<PlainObject>, AllocError>
        requires { fault_in self.now (named call.now) ≡ None }
        ensures { IfOk result (λ object.
            option_map with_name object ≡ made (environment_of self.now) (named call.now)) }
    {
        let Some((name, Signature { domain, shape })) = self.target(call) else {
            return Ok(None);
        };
        let map = Made {
            environment: self,
            call,
        };
        let entries = entries(alloc, &map, shape)?;
        let name = String::from_str(alloc, name)?;
        Ok(Some(PlainObject {
            name,
            domain,
            shape,
            entries,
        }))
    }

    /// How many objects there are after an accepted call that frees none.
    fn count_after(&self, call: &Call<&str, &str>) -> u64
        requires { fault_in self.now (named call.now) ≡ None }
        ensures { result ≡ count_after (named call.now) self.now.live }
    {
        match call {
            Call::Create { .. } | Call::Dup { .. } => self.live + 1,
            _ => self.live,
        }
    }

    /// Does an accepted call that frees no object. An error leaves the objects as they were.
    fn change(&mut self, alloc: Global, call: &Call<&str, &str>) -> Result<(), AllocError>
        requires accepted { fault_in self.old (named call.now) ≡ None }
        requires stays { (name : Name) → named call.now ≡ Call.On name Act.Free → ⊥ }
        ensures { MatchResult result
            (λ _. environment_of self.new ≡ effect_in self.old (named call.now))
            (λ _. environment_of self.new ≡ environment_of self.old) }
    {
        let live = self.count_after(call);
        match self.made(alloc, call)? {
            Some(object) => self.put(object, live),
            None => Ok(()),
        }
    }

    /// Does an accepted call. An error leaves the objects as they were.
    pub(crate) fn apply(&mut self, alloc: Global, call: &Call<&str, &str>) -> Result<(), AllocError>
        requires { fault_in self.old (named call.now) ≡ None }
        ensures { MatchResult result
            (λ _. environment_of self.new ≡ effect_in self.old (named call.now))
            (λ _. environment_of self.new ≡ environment_of self.old) }
    {
        if let Call::On {
            object,
            act: Act::Free,
        } = call
        {
            self.free(object);
            return Ok(());
        }
        self.change(alloc, call)
    }
}
