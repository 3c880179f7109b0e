//! Pieces of the lines of a plan.
ghost use Rattle.std.specs.Prelude.{◌≡◌, ◌++◌, OnOk, codes, decimal};
ghost use Rattle.run_plan.specs.Plans.{address, all_names, further, line};

use bouncer_config::Address;
use irc_line::Name;
use itoa::Buffer;
use std::alloc::AllocError;

/// Appends a line with this name and this content.
pub fn push_line(out: &mut Vec<u8>, name: &[u8], content: &[u8]) -> Result<(), AllocError>
    ensures { OnOk result (out.new.items ≡ out.old.items ++ line name.now content.now) }
{
    out.extend_from_slice(name)?;
    out.extend_from_slice(b": ")?;
    out.extend_from_slice(content)?;
    out.extend_from_slice(b"\n")
}

/// Appends a number in decimal digits.
pub fn push_number(out: &mut Vec<u8>, number: u64) -> Result<(), AllocError>
    ensures { OnOk result (out.new.items ≡ out.old.items ++ decimal number) }
{
    let mut buffer = Buffer::new();
    out.extend_from_slice(buffer.format(number).as_bytes())
}

/// Appends an address.
pub fn push_address(out: &mut Vec<u8>, at: Address) -> Result<(), AllocError>
    ensures { OnOk result (out.new.items ≡ out.old.items ++ address at) }
{
    out.extend_from_slice(b"127.0.0.1:")?;
    push_number(out, at.port() as u64)
}

/// Appends names in order, or that there are none.
pub fn push_names(out: &mut Vec<u8>, names: &[Name]) -> Result<(), AllocError>
    ensures { OnOk result (out.new.items ≡ out.old.items ++ all_names names.now) }
{
    match names {
        [] => out.extend_from_slice(b"none"),
        [name, names @ ..] => {
            out.extend_from_slice(name.as_bytes())?;
            push_further(out, names)
        }
    }
}

/// Appends further names, each after a comma.
fn push_further(out: &mut Vec<u8>, names: &[Name]) -> Result<(), AllocError>
    ensures { OnOk result (out.new.items ≡ out.old.items ++ further names.now) }
{
    match names {
        [] => Ok(()),
        [name, names @ ..] => {
            out.extend_from_slice(b", ")?;
            out.extend_from_slice(name.as_bytes())?;
            push_further(out, names)
        }
    }
}
