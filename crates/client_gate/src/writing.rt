//! Lines that a gate writes, each with its CR LF. After an error a part of one may have been
//! appended.
ghost use Rattle.std.specs.Prelude.{◌≡◌, ◌++◌, ◌∷◌, [], OnOk, map, take};
ghost use Rattle.irc_line.specs.Lines.{line_of, spelling};
ghost use Rattle.client_gate.specs.Replies.{reply, shown_cut, status, with_end};

use buffer_lines::Shown;
use irc_line::{CONTENT_LIMIT, Name, write_parts};
use std::alloc::AllocError;

/// Appends a line with this prefix.
fn push_line(
    out: &mut Vec<u8>,
    prefix: &[u8],
    command: &[u8],
    parameters: &[&[u8]],
) -> Result<(), AllocError>
    ensures { OnOk result (out.new.items ≡ out.old.items ++ with_end (spelling
        (line_of prefix.now command.now (map (λ x. x.now) parameters.now)))) }
{
    write_parts(out, Some(prefix), command, parameters)?;
    out.extend_from_slice(b"\r\n")
}

/// Appends a line of the bouncer itself.
pub fn push_reply(out: &mut Vec<u8>, command: &[u8], parameters: &[&[u8]]) -> Result<(), AllocError>
    ensures { OnOk result (out.new.items ≡ out.old.items ++
        reply command.now (map (λ x. x.now) parameters.now)) }
{
    push_line(out, b"bouncer.local", command, parameters)
}

/// Appends a text of the bouncer itself to a client of this nick.
pub fn push_status(out: &mut Vec<u8>, nick: &Name, text: &[u8]) -> Result<(), AllocError>
    ensures { OnOk result (out.new.items ≡ out.old.items ++ status nick.now text.now) }
{
    push_line(
        out,
        b"*status!bouncer@local",
        b"PRIVMSG",
        &[nick.as_bytes(), text],
    )
}

/// Appends what is shown, cut to a line's length.
pub fn push_shown(out: &mut Vec<u8>, shown: &Shown) -> Result<(), AllocError>
    ensures { OnOk result (out.new.items ≡ out.old.items ++ shown_cut shown.now) }
{
    let text = at_most(shown.spelling(), CONTENT_LIMIT);
    out.reserve(text.len() + 2)?;
    out.extend_from_slice(text)?;
    out.extend_from_slice(b"\r\n")
}

/// The first `n` bytes, or all if there are fewer.
pub fn at_most(bytes: &[u8], n: usize) -> &[u8]
    ensures { result.now ≡ take n bytes.now }
{
    if n < bytes.len() { &bytes[..n] } else { bytes }
}
