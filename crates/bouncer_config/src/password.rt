ghost use Rattle.std.specs.Prelude.{◌≡◌, ◌&&◌, not, ◌==◌, false, IsTrue, MatchOption};
ghost use Rattle.std.specs.List.{list_all};
ghost use Rattle.irc_line.specs.Names.{IsPassed};
ghost use Rattle.bouncer_config.specs.Texts.{is_password, is_password_byte};

use std::marker::Model;

/// The most bytes of a password.
// with PASS before it, it stays far below the limit of a line
const PASSWORD_LIMIT: usize = 64;

/// A password: 1 to 64 bytes, none of them a space or a byte that no line can have (NUL, CR and
/// LF).
#[derive(Drop)]
pub struct Password {
    bytes: Vec<u8>,
}

impl Model for Password {
    ghost use Rattle.std.specs.Prelude.{ℕ, List, IsTrue};
    ghost use Rattle.bouncer_config.specs.Texts.{is_password};

    ghost Value = { List ℕ };

    ghost view = { λ p. p.bytes.items };

    ghost invariant = { λ p. IsTrue (is_password p.bytes.items) };
}

impl Password {
    /// The password of these bytes, if they are one.
    pub fn from_bytes(bytes: Vec<u8>) -> Option<Password>
        ensures { MatchOption result (is_password bytes.items ≡ false)
            (IsPassed is_password bytes.items) }
    {
        if is_a_password(bytes.as_slice()) {
            Some(Password { bytes })
        } else {
            None
        }
    }

    pub fn as_bytes(&self) -> &[u8]
        ensures value { result.now ≡ self.now }
        ensures password { IsTrue (is_password self.now) }
    {
        self.bytes.as_slice()
    }
}

fn may_stand(byte: u8) -> bool
    ensures { result ≡ is_password_byte byte }
{
    byte != 0 && byte != b'\r' && byte != b'\n' && byte != b' '
}

fn all_may_stand(bytes: &[u8]) -> bool
    ensures { result ≡ list_all is_password_byte bytes.now }
{
    bytes.iter().all(|byte| may_stand(*byte))
}

/// Whether these bytes are a password.
pub(crate) fn is_a_password(bytes: &[u8]) -> bool
    ensures { result ≡ is_password bytes.now }
{
    1 <= bytes.len() && bytes.len() <= PASSWORD_LIMIT && all_may_stand(bytes)
}
