ghost use Rattle.std.specs.Prelude.{◌≡◌, ◌≤◌, option_map};
ghost use Rattle.irc_line.specs.Comparing.{behind};
ghost use Rattle.bouncer_config.specs.Texts.{address_of, port_after};

use std::fmt;
use std::marker::Model;

/// What every address begins with.
const FRONT: &[u8] = b"127.0.0.1:";

/// An address on this machine, `127.0.0.1:PORT`, its port 1 to 65535.
///
/// A clause sees it as the port.
#[derive(Clone, Copy, Debug, PartialEq, Eq)]
pub struct Address {
    port: u16,
}

impl Model for Address {
    ghost use Rattle.std.specs.Prelude.{ℕ, ◌≤◌};

    ghost Value = { ℕ };

    ghost view = { λ a. a.port };

    ghost invariant = { λ a. 1 ≤ a.port };

    ghost inverse = { λ n. record { port = n } };
}

impl Address {
    /// The address of this text, if it is one: the port in decimal digits without a leading 0.
    pub fn from_text(text: &[u8]) -> Option<Address>
        ensures { result ≡ address_of text.now }
    {
        match after(FRONT, text) {
            Some([b'0', ..]) => None,
            Some(digits) => match port_after(0, digits) {
                Some(port) if port >= 1 => Some(Address { port }),
                _ => None,
            },
            None => None,
        }
    }

    pub fn port(self) -> u16
        ensures value { result ≡ self }
        ensures least { 1 ≤ self }
    {
        self.port
    }
}

impl fmt::Display for Address {
    fn fmt<W: fmt::Write>(&self, f: &mut fmt::Formatter<W>) -> fmt::Result {
        let port = self.port();
        write!(f, "127.0.0.1:{port}")
    }
}

/// What follows a front, if the bytes begin with it.
fn after<'a>(front: &[u8], bytes: &'a [u8]) -> Option<&'a [u8]>
    ensures { option_map (λ rest. rest.now) result ≡ behind front.now bytes.now }
{
    match front {
        [] => Some(bytes),
        [wanted, front @ ..] => match bytes {
            [byte, bytes @ ..] if *byte == *wanted => after(front, bytes),
            _ => None,
        },
    }
}

/// The port that results from further digits after those of a port, if it is at most 65535.
fn port_after(port: u16, digits: &[u8]) -> Option<u16>
    ensures { result ≡ port_after port digits.now }
{
    match digits {
        [] => Some(port),
        [digit, digits @ ..] => {
            if *digit < b'0' || *digit > b'9' {
                return None;
            }
            let next = port as u32 * 10 + (*digit - b'0') as u32;
            if next > 65535 {
                return None;
            }
            port_after(next as u16, digits)
        }
    }
}
