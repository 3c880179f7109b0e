//! What happens to a channel that is attached again, or left where it is not joined.
ghost use Rattle.std.specs.Prelude.{◌≡◌, ◌&&◌, is_some, not};
ghost use Rattle.irc_line.specs.Names.{fold_name};
ghost use Rattle.buffer_machine.specs.Steps.{attached_again, is_detached, is_joined, let_go};
ghost use Rattle.buffer_targets.specs.Targets.{channel_of_key};

use crate::client_names::Names;
use buffer_commands::Setup;
use buffer_targets::Channels;

/// Attaches the channel of a name again, where it is detached.
pub fn attach_again(setup: &Setup, names: &Names, channels: &mut Channels, name: &[u8])
    ensures { channels.new ≡ attached_again setup.now.clears_channels names.now
        (fold_name name.now) channels.old (channel_of_key (fold_name name.now) channels.old) }
{
    if is_detached_at(channels, name) {
        channels.set_detached_at(name, false);
        if !names.is_empty() {
            // it is played to all who are attached
            channels.see_at(name, names.here());
        } else if setup.clears_channels() {
            channels.clear_at(name);
        }
    }
}

/// Removes the channel of a name, if it is not joined.
pub fn let_channel_go(channels: &mut Channels, name: &[u8])
    ensures { channels.new ≡ let_go (fold_name name.now) channels.old
        (channel_of_key (fold_name name.now) channels.old) }
{
    if is_idle_at(channels, name) {
        channels.remove_at(name);
    }
}

/// Whether the channel of a name is known and detached.
fn is_detached_at(channels: &Channels, name: &[u8]) -> bool
    ensures { result ≡ is_detached (channel_of_key (fold_name name.now) channels.now) }
{
    match channels.find(name) {
        None => false,
        Some(channel) => channel.is_detached(),
    }
}

/// Whether the channel of a name is known and not joined.
fn is_idle_at(channels: &Channels, name: &[u8]) -> bool
    ensures { result ≡ (is_some (channel_of_key (fold_name name.now) channels.now) && not
        (is_joined (channel_of_key (fold_name name.now) channels.now))) }
{
    match channels.find(name) {
        None => false,
        Some(channel) => !channel.is_joined(),
    }
}
