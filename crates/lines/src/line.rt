//! What a line of a script is.
ghost use Rattle.std.specs.Prelude.{◌≡◌, true};
ghost use Rattle.algebra.specs.Value.{is_built_in};

use algebra::Domain;
use model::Call;

/// What a line of a script is. Its names borrow from the line.
#[derive(Drop)]
pub enum Line<'a> {
    /// Blank or a comment: it has no answer.
    Silent,
    /// A call.
    Call(Call<&'a str, &'a str>),
    /// A matrix that is read of a file.
    Load(Load<'a>),
}

/// A matrix that is read of the file of a name, with values of a built-in domain, under a new name.
#[derive(Clone, Copy)]
pub struct Load<'a> {
    pub name: &'a str,
    pub domain: Domain,
    pub file: &'a str,
    pub ghost built_in: { is_built_in domain ≡ true },
}
