//! What is known of what recipes make.
ghost use Rattle.std.specs.Prelude.{◌≡◌};
ghost use Rattle.calls.specs.Recipes.{known_of};

use crate::recipe::Recipe;
use model::Signature;

impl Recipe {
    /// The domain and the shape of what it makes.
    pub fn signature(&self) -> Signature
        ensures { result ≡ known_of self.now }
    {
        match self {
            Recipe::New(of) => **of,
            Recipe::Given(given) => given.of,
            Recipe::Patch(patch) => patch.of,
            Recipe::Resized(resize) => Signature {
                shape: resize.shape,
                ..resize.of
            },
            Recipe::Transposed(turn) => turn.of.transposed_if(true),
            Recipe::Computed(computation) => computation.accepted.out.c,
        }
    }
}
