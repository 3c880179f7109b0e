//! A line that joins channels.
ghost use Rattle.std.specs.Prelude.{◌≡◌, ◌++◌, ◌∷◌, IfOk, OnOk, drop};
ghost use Rattle.driver.specs.Joining.{fits_in, join_bytes, key_size, key_text, no_channels, with_channel};

use std::alloc::{AllocError, Global};
use std::marker::Model;

/// The most bytes of a line that joins channels, without its end.
// a line of IRC has 512 bytes with its end, which takes two
const MOST_BYTES: usize = 510;

/// The length of a line that joins channels, without the channels and keys and a comma before each.
// the word takes four; a space takes the place of the first comma of the channels, and of the first
// comma of the keys
const WORD: usize = 4;

/// A line that joins channels. Those with a key come first, since the server takes keys in the order of the channels.
///
/// A clause sees the channels that have a key, their keys, and the other channels, with a comma before each.
#[derive(Drop)]
pub struct JoinLine {
    keyed: Vec<u8>,
    keys: Vec<u8>,
    plain: Vec<u8>,
}

impl Model for JoinLine {
    ghost use Rattle.driver.specs.Joining.{Joined};

    ghost Value = { Joined };

    ghost view = { λ j. record
        { keyed = j.keyed.items; keys = j.keys.items; plain = j.plain.items } };
}

impl JoinLine {
    /// A line that joins one channel, by this key, or without a key if it is empty.
    pub fn of(alloc: Global, channel: &[u8], key: &[u8]) -> Result<JoinLine, AllocError>
        ensures { IfOk result (λ line. line ≡ with_channel channel.now key.now no_channels) }
    {
        let mut line = JoinLine {
            keyed: Vec::new(alloc),
            keys: Vec::new(alloc),
            plain: Vec::new(alloc),
        };
        line.add(channel, key)?;
        Ok(line)
    }

    /// Whether one more channel fits, with its key.
    pub fn fits(&self, channel: &[u8], key: &[u8]) -> bool
        ensures { result ≡ fits_in self.now channel.now key.now }
    {
        let names = self.keyed.len().saturating_add(self.plain.len());
        let line = names.saturating_add(self.keys.len());
        let more = channel.len().saturating_add(key_size(key));
        line.saturating_add(more) < MOST_BYTES - WORD
    }

    /// Adds a channel, by this key, or without a key if it is empty.
    pub fn add(&mut self, channel: &[u8], key: &[u8]) -> Result<(), AllocError>
        ensures { OnOk result (self.new ≡ with_channel channel.now key.now self.old) }
    {
        if key.is_empty() {
            return push_name(&mut self.plain, channel);
        }
        push_name(&mut self.keyed, channel)?;
        push_name(&mut self.keys, key)
    }

    /// The line, with its end.
    pub fn into_bytes(self, alloc: Global) -> Result<Vec<u8>, AllocError>
        ensures { IfOk result (λ bytes. bytes.items ≡ join_bytes self) }
    {
        let mut channels = self.keyed;
        channels.extend_from_slice(self.plain.as_slice())?;
        let mut bytes = Vec::from_slice(alloc, b"JOIN ")?;
        bytes.extend_from_slice(behind_comma(channels.as_slice()))?;
        push_keys(&mut bytes, self.keys.as_slice())?;
        bytes.extend_from_slice(b"\r\n")?;
        Ok(bytes)
    }
}

/// How many bytes a key takes, with its comma.
fn key_size(key: &[u8]) -> usize
    ensures { result ≡ key_size key.now }
{
    match key {
        [] => 0,
        _ => key.len().saturating_add(1),
    }
}

/// Appends a comma and a name.
fn push_name(out: &mut Vec<u8>, name: &[u8]) -> Result<(), AllocError>
    ensures { OnOk result (out.new.items ≡ out.old.items ++ 44 ∷ name.now) }
{
    out.push(b',')?;
    out.extend_from_slice(name)
}

/// Appends keys after a space, if there are any.
fn push_keys(out: &mut Vec<u8>, keys: &[u8]) -> Result<(), AllocError>
    ensures { OnOk result (out.new.items ≡ out.old.items ++ key_text keys.now) }
{
    if keys.is_empty() {
        return Ok(());
    }
    out.push(b' ')?;
    out.extend_from_slice(behind_comma(keys))
}

/// The part of a list after its first comma.
fn behind_comma(names: &[u8]) -> &[u8]
    ensures { result.now ≡ drop 1 names.now }
{
    match names {
        [] => names,
        [_, behind @ ..] => behind,
    }
}
