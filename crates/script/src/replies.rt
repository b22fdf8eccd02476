//! The data lines of what calls answer.
ghost use Rattle.std.specs.Prelude.{◌≡◌, ◌++◌, OnErr, OnOk};
ghost use Rattle.std.specs.List.{flat_map};
ghost use Rattle.model.specs.Text.{ended};
ghost use Rattle.script.specs.Named.{HasLines, reply_lines};

use crate::text;
use session::Reply;
use std::alloc::AllocError;

/// Appends the data lines of a reply.
pub fn write_reply(reply: Reply, text: &mut Vec<u8>) -> Result<(), AllocError>
    ensures ok { OnOk result (text.new.items ≡ text.old.items ++ flat_map ended (reply_lines reply)) }
    ensures err { OnErr result (HasLines reply) }
{
    match reply {
        Reply::Done | Reply::Made(_) => Ok(()),
        Reply::Value(value) => text::write_value_line(text, value),
        Reply::Count(number) => text::write_number_line(text, number),
    }
}
