//! Names to the objects that they stand for.

use crate::environment::Environment;
use model::Lookup;
use runner::Runner;
use session::Obj;

impl<'a, R: Runner + Drop> Lookup<&'a str> for Environment<R> {
    ghost use Rattle.script.specs.Named.{number_in};

    type Found = Obj;

    ghost found = { λ names name. number_in names name.now };

    fn find(&self, name: &'a str) -> Option<Obj> {
        self.numbers.get(name).copied()
    }
}
