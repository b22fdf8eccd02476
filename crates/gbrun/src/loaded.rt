//! The files that a script loads.
ghost use Rattle.std.specs.Prelude.{ℕ, ◌≡◌, List, IfOk, OnOk, is_some, true};
ghost use Rattle.std.specs.Option.{option_map};
ghost use Rattle.gbrun.specs.Known.{AreFiles, HasReadable, IsFile};
ghost use Rattle.gbrun.specs.Loaded.{HasTried, held_in, is_tried};

use crate::files::FileSource;
use lines::{first_line, loaded_file};
use model::NoMemory;
use script::Sources;
use std::alloc::Global;
use std::collections::BTreeMap;
use std::io::ErrorKind;
use std::thread::Threads;

/// The files that a script loads, by their names; none where a file can't be opened and read whole.
#[derive(Drop)]
pub struct Loaded<'a> {
    pub by_name: BTreeMap<&'a [u8], Option<Vec<u8>>>,
}

impl Sources for Loaded<'_> {
    ghost held = { held_in };

    fn bytes(&self, name: &[u8]) -> Option<&[u8]> {
        match self.by_name.get(name) {
            Some(Some(bytes)) => Some(bytes.as_slice()),
            _ => None,
        }
    }
}

impl<'a> Loaded<'a> {
    /// Reads each file that a well-formed load of a script names, once, by so many threads at most. Those that can be
    /// read are held.
    pub fn read<H: Threads, F: FileSource>(
        rt: &H,
        alloc: Global,
        script: &'a [u8],
        files: &F,
        threads: u64,
    ) -> Result<Loaded<'a>, NoMemory>
        ensures files { IfOk result (λ loaded. AreFiles (F.content files.now) (held_in loaded)) }
        ensures readable { IfOk result (λ loaded.
            HasReadable (F.readable files.now) script.entry.now (held_in loaded)) }
    {
        let mut loaded = Loaded {
            by_name: BTreeMap::new(alloc),
        };
        let mut rest = script;
        while !rest.is_empty() {
            let (line, others) = first_line(rest);
            if let Some(name) = loaded_file(alloc, line)? {
                loaded.add(rt, name, files, threads)?;
            }
            rest = others;
        }
        Ok(loaded)
    }

    /// Reads the file of a name, unless it was read before.
    fn add<H: Threads, F: FileSource>(
        &mut self,
        rt: &H,
        name: &'a str,
        files: &F,
        threads: u64,
    ) -> Result<(), NoMemory>
        requires files { AreFiles (F.content files.now) (held_in self.old) }
        requires tried { HasTried (F.readable files.now) self.old }
        ensures files { AreFiles (F.content files.now) (held_in self.new) }
        ensures tried { HasTried (F.readable files.now) self.new }
        ensures kept { (other : List ℕ) → is_tried self.old other ≡ true → is_tried self.new other ≡ true }
        ensures added { OnOk result (is_tried self.new name.now ≡ true) }
    {
        if self.by_name.contains_key(name.as_bytes()) {
            return Ok(());
        }
        let bytes = whole(rt, name, files, threads)?;
        self.by_name.insert(name.as_bytes(), bytes)?;
        Ok(())
    }
}

/// The bytes of a file, if it can be opened and read whole. Want of memory is no want of a file.
fn whole<H: Threads, F: FileSource>(
    rt: &H,
    name: &str,
    files: &F,
    threads: u64,
) -> Result<Option<Vec<u8>>, NoMemory>
    ensures file { IfOk result (λ bytes.
        IsFile (F.content files.now name.now) (option_map (λ bytes. bytes.items) bytes)) }
    ensures readable { IfOk result (λ bytes. F.readable files.now name.now → is_some bytes ≡ true) }
{
    match files.read(rt, name, threads) {
        Ok(bytes) => Ok(Some(bytes)),
        Err(error) if error.kind() == ErrorKind::OutOfMemory => Err(NoMemory),
        Err(_) => Ok(None),
    }
}
