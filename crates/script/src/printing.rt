//! The texts of objects.
ghost use Rattle.std.specs.Prelude.{◌≡◌, ◌++◌, OnErr, OnOk};
ghost use Rattle.std.specs.List.{flat_map};
ghost use Rattle.model.specs.Run.{object_at};
ghost use Rattle.model.specs.Text.{canonical_lines, ended};
ghost use Rattle.session.specs.Performed.{IsPerformed, environment_of};

use mmio::{FileWriter, write_by};
use model::{Act, Call, Status};
use runner::Runner;
use session::{Obj, Session};

/// Appends the canonical text of an object of a session, whose objects stay as they are. An error leaves what it is
/// appended to as it was.
pub fn print<W: FileWriter, R: Runner + Drop>(
    writer: &W,
    session: &mut Session<R>,
    object: Obj,
    text: &mut Vec<u8>,
) -> Result<(), Status>
    ensures performed { IsPerformed session.old session.new (Call.On object Act.Print) result }
    ensures lines { OnOk result (text.new.items ≡ text.old.items
        ++ flat_map ended (canonical_lines (object_at (environment_of session.old) object))) }
    ensures err { OnErr result (text.new.items ≡ text.old.items) }
{
    let shape = session.shape(object)?;
    let domain = session.domain(object)?;
    let store = session.store(object)?;
    write_by(writer, store, shape, domain, text)?;
    Ok(())
}
