//! The keys of channels.
ghost use Rattle.std.specs.Prelude.{◌≡◌, [], Some, None, IfErr, IfOk, map, option_map};
ghost use Rattle.toml.specs.View.{table_view, view};
ghost use Rattle.bouncer_config.specs.Found.{key_of_channel, pair_in, pairs_after, pairs_in, value_at};
ghost use Rattle.bouncer_config.specs.Wrong.{IsProblem};

use crate::key::Key;
use crate::lists::channel_named;
use crate::problem::Problem;
use crate::reading::find;
use irc_line::Name;
use std::alloc::{AllocError, Global};
use toml::{Table, Value};

/// A channel, and the key that joins it.
#[derive(Drop)]
pub struct ChannelKey {
    pub channel: Name,
    /// 1 to 64 bytes without space or comma, the first no colon.
    pub key: Name,
}

/// The key of these bytes, if they are one.
#[tactic(auto, using(crate::proofs::Places::passed_name))]
fn key_of_channel(alloc: Global, bytes: &[u8]) -> Result<Option<Name>, AllocError>
    ensures { IfOk result (λ key. key ≡ key_of_channel bytes.now) }
{
    Ok(Name::from_bytes(Vec::from_slice(alloc, bytes)?))
}

/// A channel of this name and the key in a value, if they are valid.
fn pair_at(alloc: Global, channel: &str, value: &Value) -> Result<Option<ChannelKey>, AllocError>
    ensures { IfOk result (λ pair.
        option_map (λ k. (k.channel, k.key)) pair ≡ pair_in channel.now (view value.now)) }
{
    let Some(channel) = channel_named(alloc, channel.as_bytes())? else {
        return Ok(None);
    };
    let Some(text) = value.as_str() else {
        return Ok(None);
    };
    match key_of_channel(alloc, text.as_bytes())? {
        Some(key) => Ok(Some(ChannelKey { channel, key })),
        None => Ok(None),
    }
}

/// The channels of a table with their keys, if each is valid.
pub(crate) fn pairs_of(alloc: Global, table: &Table) -> Result<Option<Vec<ChannelKey>>, AllocError>
    ensures { IfOk result (λ pairs. option_map (λ all. map (λ k. (k.channel, k.key)) all.items) pairs
        ≡ pairs_after [] (table_view table.now)) }
{
    let mut pairs = Vec::new(alloc);
    'pairs: for (channel, value) in table.iter() {
        match pair_at(alloc, channel.as_str(), value)? {
            Some(pair) => pairs.push(pair)?,
            None => return Ok(None),
        }
    }
    Ok(Some(pairs))
}

/// The keys of channels, none by default.
pub(crate) fn channel_keys(alloc: Global, table: &Table) -> Result<Vec<ChannelKey>, Problem>
    ensures ok { IfOk result (λ pairs. pairs_in (value_at Key.ChannelKeys (table_view table.now))
        ≡ Some (map (λ k. (k.channel, k.key)) pairs.items)) }
    ensures err { IfErr result (IsProblem (table_view table.now)) }
{
    let Some(value) = find(table, Key::ChannelKeys) else {
        return Ok(Vec::new(alloc));
    };
    let Some(pairs) = value.as_table() else {
        return Err(Problem::Kind(Key::ChannelKeys));
    };
    match pairs_of(alloc, pairs)? {
        Some(pairs) => Ok(pairs),
        None => Err(Problem::Refused(Key::ChannelKeys)),
    }
}
