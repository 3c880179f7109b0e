//! The keys by which channels were joined, or by which a JOIN was tried.
ghost use Rattle.std.specs.Prelude.{◌≡◌, OnOk, filter, map};
ghost use Rattle.std.specs.List.{list_all};
ghost use Rattle.client_gate.specs.Words.{pieces};
ghost use Rattle.driver.specs.Keys.{is_key, is_key_byte, is_pair, joined_by, key_in, keys_heard, learnt_from, no_keys};
ghost use Rattle.driver.specs.Keys.{pairs, tried_by, with_key, with_room, without};

use crate::channel_key::ChannelKey;
use crate::channel_lines::{is_bad_key, is_own};
use buffer_machine::has_command;
use client_gate::pieces;
use irc_line::{Line, is_channel_name, is_same_name};
use std::alloc::{AllocError, Global};
use std::marker::Model;

/// The most keys that are kept. When one more comes, the oldest is dropped.
// a setup names at most 100 channels, and people may join more
const MOST_KEYS: usize = 256;

/// The keys by which channels were joined, and those in JOINs that went to the server, the newest last.
///
/// A clause sees them as lists.
#[derive(Drop)]
pub struct KeyRing {
    alloc: Global,
    known: Vec<ChannelKey>,
    /// Those in JOINs that went to the server.
    tried: Vec<ChannelKey>,
}

impl Model for KeyRing {
    ghost use Rattle.driver.specs.Keys.{Keys};

    ghost Value = { Keys };

    ghost view = { λ r. record { known = r.known.items; tried = r.tried.items } };
}

impl KeyRing {
    /// No keys.
    pub fn new(alloc: Global) -> KeyRing
        ensures { result ≡ no_keys }
    {
        KeyRing {
            alloc,
            known: Vec::new(alloc),
            tried: Vec::new(alloc),
        }
    }

    /// A line goes to the server. If it joins channels by keys, these are tried.
    pub fn hear(&mut self, line: &Line) -> Result<(), AllocError>
        ensures { OnOk result (self.new ≡ tried_by line.now self.old) }
    {
        if !has_command(line, b"JOIN") {
            return Ok(());
        }
        let (channels, keys) = (line.parameter(0), line.parameter(1));
        learn_all(self.alloc, &mut self.tried, channels, keys)
    }

    /// A line came from the server, for the user with this nick. When a channel is joined, the key that was tried
    /// becomes known; a wrong key is no longer tried.
    pub fn hear_answer(&mut self, nick: &[u8], line: &Line) -> Result<(), AllocError>
        ensures { OnOk result (self.new ≡ keys_heard nick.now line.now self.old) }
    {
        if is_own(line, b"JOIN", nick) {
            return self.keep(line.parameter(0));
        }
        if is_bad_key(line) {
            forget(&mut self.tried, line.parameter(1));
        }
        Ok(())
    }

    /// A channel was joined: the key that was tried, if there was one, becomes known.
    fn keep(&mut self, channel: &[u8]) -> Result<(), AllocError>
        ensures { OnOk result (self.new ≡ joined_by channel.now self.old) }
    {
        let key = key_in(channel, self.tried.as_slice());
        if key.is_empty() {
            return Ok(());
        }
        learn(self.alloc, &mut self.known, channel, key)
    }

    /// The key by which a channel was joined; empty if there is none.
    pub fn key_of(&self, channel: &[u8]) -> &[u8]
        ensures { result.now ≡ key_in channel.now self.now.known }
    {
        key_in(channel, self.known.as_slice())
    }
}

/// Each channel of a list with commas goes with the key at its place in another list, if there is one.
fn learn_all(
    alloc: Global,
    known: &mut Vec<ChannelKey>,
    channels: &[u8],
    keys: &[u8],
) -> Result<(), AllocError>
    ensures { OnOk result (known.new.items
        ≡ learnt_from (filter is_pair (pairs (pieces 44 channels.now) (pieces 44 keys.now)))
        known.old.items) }
{
    let channels = pieces(alloc, channels, b',')?;
    let keys = pieces(alloc, keys, b',')?;
    learn_each(alloc, known, channels.as_slice(), keys.as_slice())
}

/// Each of these channels goes with the key at its place, if there is one.
fn learn_each(
    alloc: Global,
    known: &mut Vec<ChannelKey>,
    channels: &[&[u8]],
    keys: &[&[u8]],
) -> Result<(), AllocError>
    ensures { OnOk result (known.new.items ≡ learnt_from (filter is_pair
        (pairs (map (λ x. x.now) channels.now) (map (λ x. x.now) keys.now))) known.old.items) }
{
    let [channel, channels @ ..] = channels else {
        return Ok(());
    };
    let [key, keys @ ..] = keys else {
        return Ok(());
    };
    if is_pair(*channel, *key) {
        learn(alloc, known, *channel, *key)?;
    }
    learn_each(alloc, known, channels, keys)
}

/// Sets the key of a channel: the one known before is forgotten, and so is the oldest if too many are known.
fn learn(
    alloc: Global,
    keys: &mut Vec<ChannelKey>,
    channel: &[u8],
    key: &[u8],
) -> Result<(), AllocError>
    ensures { OnOk result (keys.new.items ≡ with_key channel.now key.now keys.old.items) }
{
    forget(keys, channel);
    make_room(keys);
    let channel = Vec::from_slice(alloc, channel)?;
    let key = Vec::from_slice(alloc, key)?;
    keys.push(ChannelKey { channel, key })?;
    Ok(())
}

/// Drops the oldest if the list is full.
fn make_room(keys: &mut Vec<ChannelKey>)
    ensures { keys.new.items ≡ with_room keys.old.items }
{
    if keys.len() >= MOST_KEYS {
        keys.remove(0);
    }
}

/// Forgets this channel.
fn forget(keys: &mut Vec<ChannelKey>, channel: &[u8])
    ensures { keys.new.items ≡ without channel.now keys.old.items }
{
    keys.retain(|known| !is_same_name(channel, known.channel.as_slice()));
}

/// The key of a channel in a list; empty if it has none.
pub fn key_in<'a>(channel: &[u8], keys: &'a [ChannelKey]) -> &'a [u8]
    ensures { result.now ≡ key_in channel.now keys.now }
{
    let [known, others @ ..] = keys else {
        return &[];
    };
    if is_same_name(channel, known.channel.as_slice()) {
        return known.key.as_slice();
    }
    key_in(channel, others)
}

/// Whether this is a channel's name, and that a key.
fn is_pair(channel: &[u8], key: &[u8]) -> bool
    ensures { result ≡ is_pair (record { channel = channel.now; key = key.now }) }
{
    is_channel_name(channel) && is_key(key)
}

/// Whether a key can be one of several in a JOIN: it is not empty, has no space and no comma, and begins with no colon.
fn is_key(key: &[u8]) -> bool
    ensures { result ≡ is_key key.now }
{
    match key {
        [] | [b':', ..] => false,
        _ => are_key_bytes(key),
    }
}

fn are_key_bytes(bytes: &[u8]) -> bool
    ensures { result ≡ list_all is_key_byte bytes.now }
{
    bytes.iter().all(|byte| *byte != b' ' && *byte != b',')
}
