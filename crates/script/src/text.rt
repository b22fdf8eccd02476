//! Answers as text.
ghost use Rattle.std.specs.Prelude.{◌≡◌, ◌++◌, ◌∷◌, [], OnOk, decimal};
ghost use Rattle.std.specs.Fmt.{signed_decimal};
ghost use Rattle.std.specs.List.{flat_map};
ghost use Rattle.model.specs.Text.{ended, status_name};

use itoa::Buffer;
use model::Status;
use std::alloc::AllocError;

/// Appends an answer's first line: its number and the name of its status.
pub fn write_status(out: &mut Vec<u8>, number: u64, status: Status) -> Result<(), AllocError>
    ensures { OnOk result (out.new.items ≡ out.old.items ++ (decimal number ++ 32 ∷ ended (status_name status))) }
{
    write_number(out, number)?;
    out.push(b' ')?;
    out.extend_from_slice(status.name().as_bytes())?;
    out.push(b'\n')?;
    Ok(())
}

/// Appends a number as a data line.
pub fn write_number_line(out: &mut Vec<u8>, number: u64) -> Result<(), AllocError>
    ensures { OnOk result (out.new.items ≡ out.old.items ++ flat_map ended (decimal number ∷ [])) }
{
    write_number(out, number)?;
    out.push(b'\n')?;
    Ok(())
}

/// Appends a value as a data line.
pub fn write_value_line(out: &mut Vec<u8>, value: i128) -> Result<(), AllocError>
    ensures { OnOk result (out.new.items ≡ out.old.items ++ flat_map ended (signed_decimal value ∷ [])) }
{
    let mut buffer = Buffer::new();
    out.extend_from_slice(buffer.format(value).as_bytes())?;
    out.push(b'\n')?;
    Ok(())
}

fn write_number(out: &mut Vec<u8>, number: u64) -> Result<(), AllocError>
    ensures { OnOk result (out.new.items ≡ out.old.items ++ decimal number) }
{
    let mut buffer = Buffer::new();
    out.extend_from_slice(buffer.format(number).as_bytes())
}
