//! Objects by number, and what is known of them.
ghost use Rattle.std.specs.Prelude.{◌≡◌, ℕ, Option};
ghost use Rattle.std.specs.Option.{option_map};
ghost use Rattle.calls.specs.declared.obj.Obj.{Obj as Object};
ghost use Rattle.model.specs.declared.shape.Signature.{Signature as Known};

use algebra::Domain;
use model::{Lookup, Shape, Signature};

/// An object of a session, by its number, which no other object of the session ever has.
#[derive(Clone, Copy, Debug, PartialEq, Eq)]
pub struct Obj(pub u64);

/// What is known of objects without their values.
pub trait Shapes {
    ghost known: { Self → Object → Option Known };

    ghost count: { Self → ℕ };

    /// The domain and the shape of an object; None where there is none of that number.
    fn object(&self, object: Obj) -> Option<(Domain, Shape)>
        ensures { result ≡ option_map (λ signature. (signature.domain, signature.shape)) (known self.now object) };

    /// How many objects there are.
    fn live(&self) -> u64
        ensures { result ≡ count self.now };
}

/// What is known of objects, as a look-up.
#[derive(Clone, Copy)]
pub(crate) struct Signatures<'a, S>(pub(crate) &'a S);

impl<S: Shapes> Lookup<Obj> for Signatures<'_, S> {
    type Found = Signature;

    ghost found = { λ signatures object. S.known signatures.0.now object };

    fn find(&self, object: Obj) -> Option<Signature> {
        let (domain, shape) = self.0.object(object)?;
        Some(Signature { domain, shape })
    }
}
