//! The lines that an uplink writes (RFC 2812, 3.1 and 3.7). After an error a part of them may have
//! been appended.
ghost use Rattle.std.specs.Prelude.{◌≡◌, ◌++◌, map, OnOk};
ghost use Rattle.std.specs.Option.{option_map};
ghost use Rattle.irc_line.specs.Lines.{lent_prefix};
ghost use Rattle.uplink.specs.Sending.{first_bytes, nick_line, password_line, pong, sent, user_line};

use irc_line::{Line, Name, Text, write_parts};
use std::alloc::AllocError;

/// Appends a command in its canonical encoding, with CR LF.
#[tactic(auto, unfolding(crate::specs::Sending::sent))]
fn send(out: &mut Vec<u8>, command: &[u8], parameters: &[&[u8]]) -> Result<(), AllocError>
    ensures { OnOk result (out.new.items ≡
        out.old.items ++ sent command.now (map (λ x. x.now) parameters.now)) }
{
    write_parts(out, None, command, parameters)?;
    out.extend_from_slice(b"\r\n")
}

/// Appends what comes first on the connection.
pub fn send_first(out: &mut Vec<u8>, nick: &Name, password: Option<&Text>) -> Result<(), AllocError>
    ensures { OnOk result (out.new.items ≡
        out.old.items ++ first_bytes nick.now (lent_prefix password.entry)) }
{
    send_password(out, password)?;
    send_nick(out, nick)?;
    let nick = nick.as_bytes();
    send(out, b"USER", &[nick, b"0", b"*", nick])
}

fn send_password(out: &mut Vec<u8>, password: Option<&Text>) -> Result<(), AllocError>
    ensures { OnOk result (out.new.items ≡
        out.old.items ++ password_line (lent_prefix password.entry)) }
{
    match password {
        None => Ok(()),
        Some(password) => send(out, b"PASS", &[password.as_bytes()]),
    }
}

/// Appends the line that asks for a nick.
pub fn send_nick(out: &mut Vec<u8>, nick: &Name) -> Result<(), AllocError>
    ensures { OnOk result (out.new.items ≡ out.old.items ++ nick_line nick.now) }
{
    send(out, b"NICK", &[nick.as_bytes()])
}

/// Appends the answer to a PING, if it has a parameter.
pub fn send_pong(out: &mut Vec<u8>, ping: &Line) -> Result<(), AllocError>
    ensures { OnOk result (out.new.items ≡ out.old.items ++ pong ping.now.parameters) }
{
    if ping.parameter_count() == 0 {
        return Ok(());
    }
    send(out, b"PONG", &[ping.parameter(0)])
}
