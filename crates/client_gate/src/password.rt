ghost use Rattle.std.specs.Prelude.{◌≡◌, IfOk};
ghost use Rattle.irc_line.specs.Names.{same_bytes};

use irc_line::is_same;
use std::alloc::{AllocError, Global};
use std::marker::Model;

/// What a client sends in PASS.
#[derive(Drop)]
pub struct Password {
    bytes: Vec<u8>,
}

impl Model for Password {
    ghost use Rattle.std.specs.Prelude.{ℕ, List};

    ghost Value = { List ℕ };

    ghost view = { λ p. p.bytes.items };
}

impl Password {
    pub fn new(bytes: Vec<u8>) -> Password
        ensures { result ≡ bytes.items }
    {
        Password { bytes }
    }

    pub fn from_slice(alloc: Global, bytes: &[u8]) -> Result<Password, AllocError>
        ensures { IfOk result (λ p. p ≡ bytes.now) }
    {
        Ok(Password {
            bytes: Vec::from_slice(alloc, bytes)?,
        })
    }

    /// Whether this is the same password as another.
    pub fn is(&self, other: &Password) -> bool
        ensures { result ≡ same_bytes self.now other.now }
    {
        is_same(self.bytes.as_slice(), other.bytes.as_slice())
    }

    /// Whether the password has these bytes.
    pub fn has_bytes(&self, bytes: &[u8]) -> bool
        ensures { result ≡ same_bytes bytes.now self.now }
    {
        is_same(bytes, self.bytes.as_slice())
    }

    pub fn as_bytes(&self) -> &[u8]
        ensures { result.now ≡ self.now }
    {
        self.bytes.as_slice()
    }

    pub fn copy(&self, alloc: Global) -> Result<Password, AllocError>
        ensures { IfOk result (λ p. p ≡ self.now) }
    {
        Password::from_slice(alloc, self.bytes.as_slice())
    }
}
