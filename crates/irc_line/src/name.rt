ghost use Rattle.std.specs.Prelude.{◌≡◌, false, IfOk, IsTrue, MatchOption};
ghost use Rattle.std.specs.List.{list_all};
ghost use Rattle.irc_line.specs.Names.{IsPassed, has_channel_mark, is_channel, is_name, is_name_byte};

use crate::bytes::{begins_with, is_allowed};
use crate::limits::NAME_LIMIT;
use std::alloc::{AllocError, Global};
use std::marker::Model;

/// The name of a channel or of a nick: 1 to 64 bytes, none of them NUL, CR, LF, space, comma or
/// byte 7, the first not a colon.
#[derive(Drop)]
pub struct Name {
    bytes: Vec<u8>,
}

impl Model for Name {
    ghost use Rattle.std.specs.Prelude.{ℕ, List, IsTrue};
    ghost use Rattle.irc_line.specs.Names.{is_name};

    ghost Value = { List ℕ };

    ghost view = { λ n. n.bytes.items };

    ghost invariant = { λ n. IsTrue (is_name n.bytes.items) };
}

impl Name {
    /// The name of these bytes, if they are one.
    pub fn from_bytes(bytes: Vec<u8>) -> Option<Name>
        ensures { MatchOption result (is_name bytes.items ≡ false) (IsPassed is_name bytes.items) }
    {
        if is_a_name(bytes.as_slice()) {
            Some(Name { bytes })
        } else {
            None
        }
    }

    pub fn as_bytes(&self) -> &[u8]
        ensures value { result.now ≡ self.now }
        ensures name { IsTrue (is_name self.now) }
    {
        self.bytes.as_slice()
    }

    /// Whether this is a channel's name and no nick.
    pub fn is_channel(&self) -> bool
        ensures { result ≡ is_channel self.now }
    {
        is_channel_name(self.as_bytes())
    }

    pub fn copy(&self, alloc: Global) -> Result<Name, AllocError>
        ensures { IfOk result (λ n. n ≡ self.now) }
    {
        Ok(Name {
            bytes: Vec::from_slice(alloc, self.as_bytes())?,
        })
    }
}

fn may_name(byte: u8) -> bool
    ensures { result ≡ is_name_byte byte }
{
    is_allowed(byte) && byte != b' ' && byte != b',' && byte != 7
}

fn all_may_name(bytes: &[u8]) -> bool
    ensures { result ≡ list_all is_name_byte bytes.now }
{
    bytes.iter().all(|byte| may_name(*byte))
}

/// Whether these bytes are a name.
#[tactic(auto, unfolding(crate::specs::Names::is_name))]
pub fn is_a_name(bytes: &[u8]) -> bool
    ensures { result ≡ is_name bytes.now }
{
    1 <= bytes.len()
        && bytes.len() <= NAME_LIMIT
        && all_may_name(bytes)
        && !begins_with(bytes, b':')
}

/// Whether these bytes are a channel's name: a name that begins with `#`, `&`, `+` or `!`
/// (RFC 2812, 1.3).
#[tactic(auto, unfolding(crate::specs::Names::is_channel))]
pub fn is_channel_name(bytes: &[u8]) -> bool
    ensures { result ≡ is_channel bytes.now }
{
    is_a_name(bytes) && begins_as_channel(bytes)
}

fn begins_as_channel(bytes: &[u8]) -> bool
    ensures { result ≡ has_channel_mark bytes.now }
{
    begins_with(bytes, b'#')
        || begins_with(bytes, b'&')
        || begins_with(bytes, b'+')
        || begins_with(bytes, b'!')
}
