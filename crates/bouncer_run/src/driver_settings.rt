//! The driver's settings, from a configuration.
ghost use Rattle.std.specs.Prelude.{◌≡◌, ◌++◌, IfOk, OnOk};
ghost use Rattle.bouncer_run.specs.Settings.{AreSettingsOf, known_keys, said_keys};

use crate::first_lines::first_lines;
use bouncer_config::Config;
use driver::{ChannelKey, Settings};
use irc_line::Text;
use raft_log::GroupSize;
use std::alloc::{AllocError, Global};

/// The driver's settings for a configuration whose group has this many nodes.
pub fn settings_of(alloc: Global, config: &Config, size: GroupSize) -> Result<Settings, AllocError>
    ensures { IfOk result (AreSettingsOf config.now size) }
{
    Ok(Settings {
        size,
        nick: config.setup.nick().copy(alloc)?,
        password: Vec::from_slice(alloc, config.password.as_bytes())?,
        upstream_password: upstream_password(alloc, config)?,
        on_connect: first_lines(alloc, config.on_connect.as_slice())?,
        channel_keys: keys_of(alloc, config.channel_keys.as_slice())?,
        beat_ms: config.beat_ms,
        timeout_ms: config.timeout_ms,
        flood_burst: config.flood_burst,
        flood_ms: config.flood_ms,
    })
}

/// The keys of channels, as the driver takes them.
fn keys_of(
    alloc: Global,
    keys: &[bouncer_config::ChannelKey],
) -> Result<Vec<ChannelKey>, AllocError>
    ensures { IfOk result (λ all. known_keys all.items ≡ said_keys keys.now) }
{
    let mut all = Vec::new(alloc);
    push_keys(alloc, keys, &mut all)?;
    Ok(all)
}

/// Appends the keys of channels to others.
fn push_keys(
    alloc: Global,
    keys: &[bouncer_config::ChannelKey],
    all: &mut Vec<ChannelKey>,
) -> Result<(), AllocError>
    ensures { OnOk result (known_keys all.new.items
        ≡ known_keys all.old.items ++ said_keys keys.now) }
{
    match keys {
        [] => Ok(()),
        [first, keys @ ..] => {
            all.push(ChannelKey {
                channel: Vec::from_slice(alloc, first.channel.as_bytes())?,
                key: Vec::from_slice(alloc, first.key.as_bytes())?,
            })?;
            push_keys(alloc, keys, all)
        }
    }
}

/// What the server is sent in PASS, if anything. A password is always a text that a line may carry.
fn upstream_password(alloc: Global, config: &Config) -> Result<Option<Text>, AllocError>
    ensures { IfOk result (λ text. text ≡ config.now.upstream_password) }
{
    let Some(password) = &config.upstream_password else {
        return Ok(None);
    };
    let bytes = Vec::from_slice(alloc, password.as_bytes())?;
    Ok(Text::from_bytes(bytes))
}
