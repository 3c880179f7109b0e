//! What comes before the text of a line of two parameters.
ghost use Rattle.std.specs.Prelude.{◌≡◌, ◌++◌, OnOk};
ghost use Rattle.irc_line.specs.Lines.{lent_prefix};
ghost use Rattle.buffer_lines.specs.Heads.{head};

use std::alloc::AllocError;

/// Appends a line up to its second parameter, which is a trailing one.
/// After an error a part of it may have been appended.
pub(crate) fn push_head(
    out: &mut Vec<u8>,
    prefix: Option<&[u8]>,
    command: &[u8],
    target: &[u8],
) -> Result<(), AllocError>
    ensures { OnOk result (out.new.items ≡ out.old.items ++
        head (lent_prefix prefix.entry) command.now target.now) }
{
    if let Some(prefix) = prefix {
        out.push(b':')?;
        out.extend_from_slice(prefix)?;
        out.push(b' ')?;
    }
    out.extend_from_slice(command)?;
    out.push(b' ')?;
    out.extend_from_slice(target)?;
    out.extend_from_slice(b" :")
}
