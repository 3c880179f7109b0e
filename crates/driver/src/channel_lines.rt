//! What a line from the server says about a channel, for the user with this nick.
ghost use Rattle.std.specs.Prelude.{◌≡◌, ◌++◌, IfOk, OnOk};
ghost use Rattle.buffer_machine.specs.Messages.{is_by, is_own, is_own_kick};
ghost use Rattle.driver.specs.Absent.{cut_reason, in_brackets, is_refusal, is_settled, kick_reason};
ghost use Rattle.driver.specs.Keys.{is_bad_key};
ghost use Rattle.driver.specs.Parameters.{last_parameter};

use crate::absent_channels::MOST_REASON;
use crate::rewording::{last_parameter, nick_or_server};
use buffer_machine::{has_command, source_of};
use irc_line::{Line, is_channel_name, is_same, is_same_name};
use std::alloc::{AllocError, Global};

/// Whether a line is by this nick.
fn is_by(line: &Line, nick: &[u8]) -> bool
    ensures { result ≡ is_by nick.now line.now }
{
    line.prefix().is_some() && is_same_name(source_of(line), nick)
}

/// Whether a line is by this nick, has this command and names a channel.
pub fn is_own(line: &Line, word: &[u8], nick: &[u8]) -> bool
    ensures { result ≡ is_own word.now nick.now line.now }
{
    has_command(line, word) && is_by(line, nick) && is_channel_name(line.parameter(0))
}

/// Whether a line kicks this nick from a channel (RFC 2812, 3.2.8).
pub fn is_own_kick(line: &Line, nick: &[u8]) -> bool
    ensures { result ≡ is_own_kick nick.now line.now }
{
    has_command(line, b"KICK")
        && is_same_name(nick, line.parameter(1))
        && is_channel_name(line.parameter(0))
}

/// Whether a line says that this nick joined a channel or left it.
pub fn is_settled(line: &Line, nick: &[u8]) -> bool
    ensures { result ≡ is_settled nick.now line.now }
{
    is_own(line, b"JOIN", nick) || is_own(line, b"PART", nick)
}

/// Whether a line refuses something: its command is 400 to 499.
pub fn is_refusal(line: &Line) -> bool
    ensures { result ≡ is_refusal line.now.command }
{
    match line.command() {
        [b'4', _, _] => true,
        _ => false,
    }
}

/// Whether a line says that a channel was not joined because its key was wrong (RFC 2812, 5.2: ERR_BADCHANNELKEY).
pub fn is_bad_key(line: &Line) -> bool
    ensures { result ≡ is_bad_key line.now }
{
    is_same(line.command(), b"475")
}

/// Who kicked, and why, cut to what fits.
pub fn kick_reason(alloc: Global, line: &Line) -> Result<Vec<u8>, AllocError>
    ensures { IfOk result (λ text. text.items ≡ cut_reason (kick_reason line.now)) }
{
    let mut text = Vec::from_slice(alloc, b"kicked by ")?;
    text.extend_from_slice(nick_or_server(source_of(line)))?;
    push_in_brackets(&mut text, line.parameter(2))?;
    text.truncate(MOST_REASON);
    Ok(text)
}

/// Appends a text in brackets, if it is not empty.
fn push_in_brackets(out: &mut Vec<u8>, text: &[u8]) -> Result<(), AllocError>
    ensures { OnOk result (out.new.items ≡ out.old.items ++ in_brackets text.now) }
{
    if text.is_empty() {
        return Ok(());
    }
    out.extend_from_slice(b" (")?;
    out.extend_from_slice(text)?;
    out.extend_from_slice(b")")?;
    Ok(())
}

/// Why the server refuses something, cut to what fits.
pub fn refusal_reason(alloc: Global, line: &Line) -> Result<Vec<u8>, AllocError>
    ensures { IfOk result (λ text. text.items ≡ cut_reason (last_parameter line.now)) }
{
    let mut text = Vec::from_slice(alloc, last_parameter(line))?;
    text.truncate(MOST_REASON);
    Ok(text)
}
