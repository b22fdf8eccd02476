//! Where the bytes of files come from.
ghost use Rattle.std.specs.Prelude.{◌≡◌, ℕ, List};
ghost use Rattle.std.specs.Option.{option_map};
ghost use Rattle.std.specs.declared.option.Option.{Option};

/// A source of files, which stay as they are.
pub trait Sources {
    // What each file holds, if it is there.
    ghost held: { Self → List ℕ → Option (List ℕ) };

    /// All the bytes of the file of a name, if it is there.
    fn bytes(&self, name: &[u8]) -> Option<&[u8]>
        ensures { option_map (λ bytes. bytes.now) result ≡ held self.now name.now };
}
