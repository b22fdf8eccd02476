//! Files in memory, as the source of what scripts load.
ghost use Rattle.std.specs.Prelude.{◌||◌, string_bytes};
ghost use Rattle.std.specs.List.{find};
ghost use Rattle.std.specs.Option.{option_map};
ghost use Rattle.std.specs.Str.{bytes_eq};

use script::Sources;

/// A file: its path, its name in its folder, and its bytes.
#[derive(Drop)]
pub struct Held {
    pub path: String,
    pub name: String,
    pub bytes: Vec<u8>,
}

/// The files of a folder, which scripts may name by their names or by their paths.
#[derive(Clone, Copy)]
pub struct Files<'a>(pub &'a [Held]);

impl Sources for Files<'_> {
    ghost held = { λ files name. option_map (λ file. file.bytes.items)
        (find (λ file. bytes_eq (string_bytes file.name) name || bytes_eq (string_bytes file.path) name)
        files.0.now) };

    fn bytes(&self, name: &[u8]) -> Option<&[u8]> {
        let file = self.0.iter().find(|file| file.name.as_bytes() == name
            || file.path.as_bytes() == name)?;
        Some(file.bytes.as_slice())
    }
}
