//! Where the file of a script comes from.
ghost use Rattle.std.specs.Prelude.{◌≡◌, ◌<◌, ℕ, List, None, IfErr, IfOk, IfSome};
ghost use Rattle.std.specs.IoError.{error_kind};
ghost use Rattle.std.specs.declared.io.ErrorKind.TheVariants.{OutOfMemory};
ghost use Rattle.std.specs.declared.option.Option.{Option};

use script::threads_of;
use std::alloc::Global;
use std::fs::{File, OpenFile};
use std::io;
use std::io::{Read, Seek, SeekFrom};
use std::os::unix::fs::FileExt;
use std::thread::{Threads, join_mut};

/// How many bytes of a file a thread is started for: to start it takes about a third of the time in which they are
/// read.
const WORTH_A_THREAD: u64 = 1 << 17;

/// A source of files.
pub trait FileSource {
    // The bytes of the file of a name, where they are known.
    ghost content: { Self → List ℕ → Option (List ℕ) } = { λ _ _. None };
    // Whether it is known that the file of a name can be read whole, if memory isn't refused.
    ghost readable: { Self → List ℕ → Type 0 } = { λ _ _. ⊥ };

    /// All the bytes of the file `name`, or why it can't be opened and read whole. At most so many threads read it,
    /// which `rt` starts.
    fn read<H: Threads>(&self, rt: &H, name: &str, threads: u64) -> io::Result<Vec<u8>>
        ensures bytes { IfOk result (λ bytes. IfSome (content self.now name.now)
            (λ known. bytes.items ≡ known)) }
        ensures refused { IfErr result (λ error. readable self.now name.now → error_kind error ≡ OutOfMemory) };
}

/// The files of the system.
#[derive(Drop)]
pub struct Disk<'a>(&'a HostRuntime);

impl<'a> Disk<'a> {
    /// The files that `rt` opens.
    pub fn new(rt: &'a HostRuntime) -> Disk<'a> {
        Disk(rt)
    }
}

impl FileSource for Disk<'_> {
    fn read<H: Threads>(&self, rt: &H, name: &str, threads: u64) -> io::Result<Vec<u8>> {
        let mut file = File::open(self.0, name)?;
        // What a file says of its length may be wrong: what follows is read as well.
        let length = file.metadata().map_or(0, |metadata| metadata.len());
        let mut bytes = Vec::new(self.0.alloc());
        if let Some(front) = read_beside(rt, self.0.alloc(), &file, length, threads) {
            file.seek(SeekFrom::Start(length))?;
            bytes = front;
        } else {
            let _ = bytes.reserve_exact((length as usize).saturating_add(1));
        }
        file.read_to_end(&mut bytes)?;
        Ok(bytes)
    }
}

/// So many bytes of a file from its beginning, which several threads read; none where they are few or can't all be
/// read, or where there is no memory for them.
fn read_beside<R: Threads, F: FileExt + Sync>(
    rt: &R,
    alloc: Global,
    file: &F,
    length: u64,
    threads: u64,
) -> Option<Vec<u8>> {
    let parts = length / WORTH_A_THREAD;
    if parts.min(threads) < 2 {
        return None;
    }
    let parts = parts.min(threads_of(rt, threads).others().saturating_add(1));
    let length = length as usize;
    // With room for one byte more, in which a read finds the end.
    let Ok(mut bytes) = vec![in alloc; 0; length.saturating_add(1)] else {
        return None;
    };
    bytes.truncate(length);
    let each = length / parts as usize + 1;
    if !fill(rt, file, 0, each, &mut bytes) {
        return None;
    }
    Some(bytes)
}

/// Fills a list with what a file has from a place on, `each` bytes by a thread, and says whether there was as much.
fn fill<R: Threads, F: FileExt + Sync>(
    rt: &R,
    file: &F,
    place: u64,
    each: usize,
    bytes: &mut [u8],
) -> bool
    requires { 0 < each }
{
    if bytes.len() <= each {
        return file.read_exact_at(bytes, place).is_ok();
    }
    let (front, back) = bytes.split_at_mut(each);
    let behind = place.saturating_add(each as u64);
    let mut theirs = || -> bool { file.read_exact_at(front, place).is_ok() };
    let mut ours = || -> bool
        requires { 0 < each }
    { fill(rt, file, behind, each, back) };
    let (first, others) = join_mut(rt, &mut theirs, &mut ours);
    first && others
}
