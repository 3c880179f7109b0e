//! Lines that the driver itself sends to clients.
ghost use Rattle.std.specs.Prelude.{◌≡◌, IfOk};
ghost use Rattle.driver.specs.Kicks.{kick_line};
ghost use Rattle.driver.specs.Nicks.{no_motd, renaming};

use std::alloc::{AllocError, Global};

/// The line that tells a client that its nick is another.
pub fn renaming(alloc: Global, was: &[u8], new: &[u8]) -> Result<Vec<u8>, AllocError>
    ensures { IfOk result (λ line. line.items ≡ renaming was.now new.now) }
{
    let mut line = Vec::from_slice(alloc, b":")?;
    line.extend_from_slice(was)?;
    line.extend_from_slice(b" NICK ")?;
    line.extend_from_slice(new)?;
    line.extend_from_slice(b"\r\n")?;
    Ok(line)
}

/// The line that tells a client of this nick that there is no message of the day. Many programs treat it as the end of
/// their welcome, and join and send nothing before it.
pub fn no_motd(alloc: Global, nick: &[u8]) -> Result<Vec<u8>, AllocError>
    ensures { IfOk result (λ line. line.items ≡ no_motd nick.now) }
{
    let mut line = Vec::from_slice(alloc, b":bouncer.local 422 ")?;
    line.extend_from_slice(nick)?;
    line.extend_from_slice(b" :No message of the day")?;
    line.extend_from_slice(b"\r\n")?;
    Ok(line)
}

/// The line that kicks the user with this nick from a channel, because the server was gone.
pub fn kick_line(alloc: Global, channel: &[u8], nick: &[u8]) -> Result<Vec<u8>, AllocError>
    ensures { IfOk result (λ line. line.items ≡ kick_line channel.now nick.now) }
{
    let mut line = Vec::from_slice(alloc, b":bouncer.local KICK ")?;
    line.extend_from_slice(channel)?;
    line.extend_from_slice(b" ")?;
    line.extend_from_slice(nick)?;
    line.extend_from_slice(b" :The server was gone\r\n")?;
    Ok(line)
}
