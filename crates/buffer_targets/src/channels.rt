ghost use Rattle.std.specs.Prelude.{◌≡◌, ℕ, List, [], true, false, length, map, option_map, IfOk, IsOk, IsTrue, MatchResult, OnOk, OnErr};
ghost use Rattle.std.specs.List.{list_any};
ghost use Rattle.std.specs.List.Sorted.{IsSearchInRange};
ghost use Rattle.irc_line.specs.Keys.{are_rising};
ghost use Rattle.irc_line.specs.Names.{fold_name};
ghost use Rattle.buffer_lines.specs.Stamps.{ring};
ghost use Rattle.buffer_targets.specs.Places.{IsGap, IsPlace, IsSearched};
ghost use Rattle.buffer_targets.specs.Targets.{StandsAt, at_channel, channel, channel_names, channel_of_key, cleared, has_key, joined_by, open_cleared, open_seen, over, pushed, resized, seen_all, target, with_detached, with_joined, without_channel, IsChannelAt, has_channel, unjoined, channel_resized, ChannelKeeps, IsStoredAt};

use crate::channel::Channel;
use buffer_lines::KeptLine;
use irc_line::Name;
use std::alloc::{AllocError, Global};
use std::marker::Model;

/// Channels in rising order of their keys, found by name in any letter case. Bytes that are no channel's name find
/// nothing.
#[derive(Drop)]
pub struct Channels {
    channels: Vec<Channel>,
}

impl Model for Channels {
    ghost use Rattle.std.specs.Prelude.{List, IsTrue};
    ghost use Rattle.std.specs.Coded.{coded_list};
    ghost use Rattle.irc_line.specs.Keys.{are_rising};
    ghost use Rattle.buffer_targets.specs.Targets.{ChannelLines, channel_code, channel_names};

    ghost Value = { List ChannelLines };

    ghost coded = { coded_list channel_code };

    ghost view = { λ c. c.channels.items };

    ghost invariant = { λ c. IsTrue (are_rising (channel_names c.channels.items)) };
}

impl Channels {
    /// Channels of these names that the own nick is not in, shown to clients, each of this size and empty.
    pub fn new(alloc: Global, names: &[Name], size: usize) -> Result<Channels, AllocError>
        requires { IsTrue (are_rising names.now) }
        ensures { IfOk result (λ cs. cs ≡ unjoined size names.now) }
    {
        Ok(Channels {
            channels: new_channels(alloc, names, size)?,
        })
    }

    /// In rising order of their keys.
    pub fn as_slice(&self) -> &[Channel]
        ensures all { result.now ≡ self.now }
        ensures rising { IsTrue (are_rising (channel_names self.now)) }
    {
        self.channels.as_slice()
    }

    /// The place of a name's channel, or where it would be.
    fn search(&self, name: &[u8]) -> Result<usize, usize>
        ensures bound { IsSearchInRange result (length self.now) }
        ensures place { IsSearched (fold_name name.now) (channel_names self.now) result }
    {
        self.channels
            .binary_search_by(|channel| channel.target().compare(name))
    }

    /// The channel of a name.
    pub fn find(&self, name: &[u8]) -> Option<&Channel>
        ensures { option_map (λ c. c.now) result ≡ channel_of_key (fold_name name.now) self.now }
    {
        self.at(self.place_of(name))
    }

    /// Empties the channel of a name.
    pub fn clear_at(&mut self, name: &[u8])
        ensures { self.new ≡ at_channel (fold_name name.now) (over cleared) self.old }
    {
        match self.search(name) {
            Ok(at) => self.channels[at].clear(),
            Err(_) => {}
        }
    }

    /// Gives the channel of a name another size. A refused call changes nothing;
    /// a size that is not larger is never refused.
    pub fn resize_at(&mut self, name: &[u8], size: usize) -> Result<(), AllocError>
        ensures ok { OnOk result (self.new ≡ channel_resized (fold_name name.now) size self.old) }
        ensures err { OnErr result (self.new ≡ self.old) }
        ensures smaller { ChannelKeeps (fold_name name.now) size self.old → IsOk result }
    {
        match self.search(name) {
            Ok(at) => self.channels[at].resize(size),
            Err(_) => Ok(()),
        }
    }

    /// The place of a name's channel. It is valid until a channel is made or removed.
    pub fn place_of(&self, name: &[u8]) -> Option<usize>
        ensures { StandsAt (fold_name name.now) self.now result }
    {
        match self.search(name) {
            Ok(at) => Some(at),
            Err(_) => None,
        }
    }

    /// The channel at a place.
    pub fn at(&self, place: Option<usize>) -> Option<&Channel>
        ensures { IsChannelAt self.now place (option_map (λ c. c.now) result) }
    {
        match place {
            Some(at) => {
                if at < self.channels.len() {
                    Some(&self.channels[at])
                } else {
                    None
                }
            }
            None => None,
        }
    }

    /// Adds a line to the channel at a place; the readers who are here see it.
    pub fn store_at(&mut self, place: Option<usize>, line: KeptLine, here: &[bool])
        ensures { IsStoredAt place line here.now self.old self.new }
    {
        match place {
            Some(at) => {
                if at < self.channels.len() {
                    self.channels[at].push(line, here);
                }
            }
            None => {}
        }
    }

    /// Sets whether the own nick is in the channel of a name.
    pub fn set_joined_at(&mut self, name: &[u8], joined: bool)
        ensures { self.new ≡ at_channel (fold_name name.now) (with_joined joined) self.old }
    {
        match self.search(name) {
            Ok(at) => self.channels[at].set_joined(joined),
            Err(_) => {}
        }
    }

    /// Sets whether clients are shown nothing of the channel of a name.
    pub fn set_detached_at(&mut self, name: &[u8], detached: bool)
        ensures { self.new ≡ at_channel (fold_name name.now) (with_detached detached) self.old }
    {
        match self.search(name) {
            Ok(at) => self.channels[at].set_detached(detached),
            Err(_) => {}
        }
    }

    /// Notes that the own nick is in the channel of this name, which is made with this size if none has its key. A
    /// refused call changes nothing.
    pub fn join(&mut self, name: &Name, size: usize) -> Result<(), AllocError>
        ensures ok { OnOk result (self.new ≡ joined_by name.now size self.old) }
        ensures err { OnErr result (self.new ≡ self.old) }
        ensures known { has_channel (fold_name name.now) self.old ≡ true → IsOk result }
    {
        match self.search(name.as_bytes()) {
            Ok(at) => {
                self.channels[at].set_joined(true);
                Ok(())
            }
            Err(at) => {
                let channel = Channel::new(*self.channels.allocator(), name, size, true)?;
                Ok(self.channels.insert(at, channel)?)
            }
        }
    }

    /// Removes the channel of a name with all that it has.
    pub fn remove_at(&mut self, name: &[u8])
        ensures { self.new ≡ without_channel (fold_name name.now) self.old }
    {
        match self.search(name) {
            Ok(at) => {
                self.channels.remove(at);
            }
            Err(_) => {}
        }
    }

    /// Empties all channels.
    pub fn clear_all(&mut self)
        ensures { self.new ≡ map (over cleared) self.old }
    {
        clear_each(self.channels.as_mut_slice());
    }

    /// Empties the channels that clients are shown.
    pub fn clear_open(&mut self)
        ensures { self.new ≡ open_cleared self.old }
    {
        clear_each_open(self.channels.as_mut_slice());
    }

    /// Notes that the readers who are here have seen all that is kept of a name's channel.
    pub fn see_at(&mut self, name: &[u8], here: &[bool])
        ensures { self.new ≡ at_channel (fold_name name.now) (over (seen_all here.now)) self.old }
    {
        match self.search(name) {
            Ok(at) => self.channels[at].see(here),
            Err(_) => {}
        }
    }

    /// Notes that the readers who are here have seen all that is kept of the channels that clients are shown.
    pub fn see_open(&mut self, here: &[bool])
        ensures { self.new ≡ open_seen here.now self.old }
    {
        see_each_open(self.channels.as_mut_slice(), here);
    }

    /// Notes that the own nick is in no channel.
    pub fn leave_all(&mut self)
        ensures { self.new ≡ map (with_joined false) self.old }
    {
        leave_each(self.channels.as_mut_slice());
    }
}

fn clear_each(channels: &mut [Channel])
    ensures { channels.new ≡ map (over cleared) channels.old }
{
    for channel in channels.iter_mut() {
        channel.clear();
    }
}

fn clear_each_open(channels: &mut [Channel])
    ensures { channels.new ≡ open_cleared channels.old }
{
    for channel in channels.iter_mut() {
        channel.clear_if_open();
    }
}

fn see_each_open(channels: &mut [Channel], here: &[bool])
    ensures { channels.new ≡ open_seen here.now channels.old }
{
    for channel in channels.iter_mut() {
        channel.see_if_open(here);
    }
}

fn leave_each(channels: &mut [Channel])
    ensures { channels.new ≡ map (with_joined false) channels.old }
{
    for channel in channels.iter_mut() {
        channel.set_joined(false);
    }
}

fn new_channels(alloc: Global, names: &[Name], size: usize) -> Result<Vec<Channel>, AllocError>
    ensures { IfOk result (λ v. v.items ≡ unjoined size names.now) }
{
    let mut channels = Vec::new(alloc);
    for name in names {
        channels.push(Channel::new(alloc, name, size, false)?)?;
    }
    Ok(channels)
}
