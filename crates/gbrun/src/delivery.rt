//! Bytes on their way to a writer.
ghost use Rattle.std.specs.Prelude.{OnOk};
ghost use Rattle.std.specs.Io.KnownBytes.{Appends};
ghost use Rattle.gbrun.specs.Writing.{Begins};

use std::io;
use std::io::{ErrorKind, Write};

/// Writes the bytes and flushes. Known contents grow by a beginning of the bytes, and by all of
/// them where nothing fails.
pub fn deliver<W: Write>(out: &mut W, bytes: &[u8]) -> io::Result<()>
    ensures whole { OnOk result (Appends (W.contents out.old) (W.contents out.new) bytes.now) }
    ensures begun { Begins bytes.now (W.contents out.old) (W.contents out.new) }
{
    write_all(out, bytes)?;
    out.flush()
}

// In place of the writer's own method, which doesn't say what it wrote before it failed.
fn write_all<W: Write>(out: &mut W, bytes: &[u8]) -> io::Result<()>
    ensures whole { OnOk result (Appends (W.contents out.old) (W.contents out.new) bytes.now) }
    ensures begun { Begins bytes.now (W.contents out.old) (W.contents out.new) }
{
    let mut rest = bytes;
    for _ in 0..u64::MAX {
        if rest.is_empty() {
            return Ok(());
        }
        match out.write(rest) {
            Ok(0) => break,
            Ok(count) => rest = &rest[count..],
            Err(error) if error.kind() == ErrorKind::Interrupted => {}
            Err(error) => return Err(error),
        }
    }
    Err(io::Error::from(ErrorKind::WriteZero))
}
