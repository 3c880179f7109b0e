ghost use Rattle.std.specs.Prelude.{◌≡◌};
ghost use Rattle.uplink.specs.Sessions.{meaning_of};

use irc_line::{Line, is_same};

/// What a line means to a session, by its command alone.
#[derive(Clone, Copy)]
pub enum Meaning {
    /// The server sends a PING (RFC 2812, 3.7.2).
    Ping,
    /// The server takes the client in: 001 (RFC 2812, 5.1).
    Welcome,
    /// The nick that was asked for is in use: 433 (RFC 2812, 5.2).
    NickInUse,
    Other,
}

pub fn meaning_of(line: &Line) -> Meaning
    ensures { result ≡ meaning_of line.now }
{
    let command = line.command();
    if is_same(command, b"PING") {
        Meaning::Ping
    } else if is_same(command, b"001") {
        Meaning::Welcome
    } else if is_same(command, b"433") {
        Meaning::NickInUse
    } else {
        Meaning::Other
    }
}
