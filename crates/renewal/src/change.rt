//! From which setup to which a list is renewed, and what is dropped and added by that.
ghost use Rattle.std.specs.Prelude.{◌≡◌, ◌-◌, IfOk, OnOk, map};
ghost use Rattle.std.specs.List.{list_all};
ghost use Rattle.irc_line.specs.Keys.{is_in};
ghost use Rattle.irc_line.specs.Names.{fold_name};
ghost use Rattle.buffer_machine.specs.Crowd.{is_id_in};
ghost use Rattle.buffer_targets.specs.Targets.{has_channel, newest};
ghost use Rattle.renewal.specs.Moved.{added, goes, is_added, is_staying, size_moved};

use buffer_commands::Setup;
use buffer_targets::{Channel, Target};
use irc_line::{Name, is_same, is_same_name};
use std::alloc::{AllocError, Global};

/// From which setup to which a list is renewed.
#[derive(Clone, Copy)]
pub struct Change<'a> {
    pub from: &'a Setup,
    pub to: &'a Setup,
    /// The names of clients that are forgotten.
    pub forgotten: &'a [Name],
    /// The channels that the own nick was in when a session was last in force.
    pub joined: &'a [Name],
}

/// How many lines a target keeps under the old setup, and under the new one.
#[derive(Clone, Copy)]
pub struct Sizes {
    pub from: usize,
    pub to: usize,
}

impl Sizes {
    /// The size of a target that had this one.
    pub fn moved(self, size: usize) -> usize
        ensures { result ≡ size_moved self.from self.to size }
    {
        if size == self.from { self.to } else { size }
    }
}

/// The sizes of channels.
pub fn channel_sizes(change: &Change) -> Sizes
    ensures from { result.from ≡ change.now.from.now.channel_size }
    ensures to { result.to ≡ change.now.to.now.channel_size }
{
    Sizes {
        from: change.from.channel_size(),
        to: change.to.channel_size(),
    }
}

/// The sizes of queries.
pub fn query_sizes(change: &Change) -> Sizes
    ensures from { result.from ≡ change.now.from.now.query_size }
    ensures to { result.to ≡ change.now.to.now.query_size }
{
    Sizes {
        from: change.from.query_size(),
        to: change.to.query_size(),
    }
}

/// Whether a name of a client is one of these.
pub fn is_id_among(id: &Name, ids: &[Name]) -> bool
    ensures { result ≡ is_id_in id.now ids.now }
{
    ids.iter()
        .any(|other| is_same(id.as_bytes(), other.as_bytes()))
}

/// Whether all names that are to be forgotten are among these.
pub fn are_known(forgotten: &[Name], ids: &[Name]) -> bool
    ensures { result ≡ list_all (λ id. is_id_in id ids.now) forgotten.now }
{
    forgotten.iter().all(|id| is_id_among(id, ids))
}

/// For each name, whether it is forgotten.
pub fn goes(alloc: Global, forgotten: &[Name], ids: &[Name]) -> Result<Vec<bool>, AllocError>
    ensures { IfOk result (λ v. v.items ≡ goes forgotten.now ids.now) }
{
    let mut all = Vec::new(alloc);
    for id in ids {
        all.push(is_id_among(id, forgotten))?;
    }
    Ok(all)
}

/// Whether a channel is one of these.
#[tactic(auto, unfolding(irc_line::specs::Names::same_name, irc_line::specs::Keys::at_key))]
pub fn is_among(name: &Name, names: &[Name]) -> bool
    ensures { result ≡ is_in (fold_name name.now) names.now }
{
    names
        .iter()
        .any(|other| is_same_name(name.as_bytes(), other.as_bytes()))
}

/// Whether a channel has this name.
#[tactic(auto, unfolding(irc_line::specs::Names::same_name, irc_line::specs::Keys::at_key))]
fn is_there(name: &Name, channels: &[Channel]) -> bool
    ensures { result ≡ has_channel (fold_name name.now) channels.now }
{
    channels.iter().any(|channel| is_same_name(name.as_bytes(), channel.target().name().as_bytes()))
}

/// Whether a channel stays.
pub fn is_staying(channel: &Channel, change: &Change) -> bool
    ensures { result ≡ is_staying change.now.from.now change.now.to.now
        (λ key. is_in key change.now.joined.now) channel.now }
{
    let name = channel.target().name();
    !is_among(name, change.from.channels())
        || is_among(name, change.to.channels())
        || is_among(name, change.joined)
}

fn is_added(name: &Name, channels: &[Channel], change: &Change) -> bool
    ensures { result ≡ is_added change.now.from.now channels.now name.now }
{
    !is_among(name, change.from.channels()) && !is_there(name, channels)
}

/// The channels of the new setup that the old one does not name and that do not exist.
pub fn added(alloc: Global, channels: &[Channel], change: &Change) -> Result<Vec<Name>, AllocError>
    ensures { IfOk result (λ v. v.items ≡
        added change.now.from.now change.now.to.now channels.now) }
{
    let mut names = Vec::new(alloc);
    for name in change.to.channels() {
        if is_added(name, channels, change) {
            names.push(name.copy(alloc)?)?;
        }
    }
    Ok(names)
}

/// The queries that stay: past the most queries allowed, the ones made first are dropped.
pub fn newest<'a>(queries: &'a [Target], change: &Change) -> &'a [Target]
    ensures { result.now ≡ newest change.now.to.now.most_queries queries.now }
{
    let gone = queries.len().saturating_sub(change.to.most_queries());
    &queries[gone..]
}
