ghost use Rattle.std.specs.Prelude.{◌≡◌, ◌≤◌, [], false, if◌then◌else◌, IfOk, IsOk, OnOk, OnErr};
ghost use Rattle.buffer_lines.specs.Stamps.{ring};
ghost use Rattle.buffer_targets.specs.Targets.{channel, cleared, none_seen, over, pushed, resized, seen_all, target, with_detached, with_joined};

use crate::target::Target;
use buffer_lines::KeptLine;
use irc_line::Name;
use std::alloc::{AllocError, Global};
use std::marker::Model;

/// A channel with the last lines that came for it.
#[derive(Drop)]
pub struct Channel {
    target: Target,
    joined: bool,
    detached: bool,
}

impl Model for Channel {
    ghost use Rattle.buffer_targets.specs.Targets.{ChannelLines, channel, channel_code};

    ghost Value = { ChannelLines };

    ghost coded = { channel_code };

    ghost view = { λ c. channel c.target c.joined c.detached };
}

impl Channel {
    /// A channel of this name that is shown to clients, with no lines.
    pub(crate) fn new(
        alloc: Global,
        name: &Name,
        size: usize,
        joined: bool,
    ) -> Result<Channel, AllocError>
        ensures { IfOk result (λ c. c ≡ channel (target name.now (ring [] size) none_seen) joined false) }
    {
        Ok(Channel {
            target: Target::new(alloc, name, size)?,
            joined,
            detached: false,
        })
    }

    /// Its name and its lines.
    pub fn target(&self) -> &Target
        ensures { result.now ≡ self.now.target }
    {
        &self.target
    }

    /// Whether the own nick is in the channel.
    pub fn is_joined(&self) -> bool
        ensures { result ≡ self.now.joined }
    {
        self.joined
    }

    /// Whether clients are shown nothing of the channel.
    pub fn is_detached(&self) -> bool
        ensures { result ≡ self.now.detached }
    {
        self.detached
    }

    /// Removes all lines.
    pub(crate) fn clear(&mut self)
        ensures { self.new ≡ over cleared self.old }
    {
        self.target.clear();
    }

    /// Removes all lines where clients are shown the channel.
    pub(crate) fn clear_if_open(&mut self)
        ensures { self.new ≡ (if self.old.detached then self.old else over cleared self.old) }
    {
        if !self.detached {
            self.target.clear();
        }
    }

    /// Keeps at most this many lines from now on. A refused call changes nothing.
    pub(crate) fn resize(&mut self, size: usize) -> Result<(), AllocError>
        ensures ok { OnOk result (self.new ≡ over (resized size) self.old) }
        ensures err { OnErr result (self.new ≡ self.old) }
        ensures smaller { size ≤ self.old.target.lines.size → IsOk result }
    {
        self.target.resize(size)
    }

    /// Adds a line, which the readers who are here see.
    pub(crate) fn push(&mut self, line: KeptLine, here: &[bool])
        ensures { self.new ≡ over (pushed line here.now) self.old }
    {
        self.target.push(line, here);
    }

    /// Notes that the readers who are here have seen all that is kept.
    pub(crate) fn see(&mut self, here: &[bool])
        ensures { self.new ≡ over (seen_all here.now) self.old }
    {
        self.target.see(here);
    }

    /// Notes the same where clients are shown the channel.
    pub(crate) fn see_if_open(&mut self, here: &[bool])
        ensures { self.new ≡
            (if self.old.detached then self.old else over (seen_all here.now) self.old) }
    {
        if self.detached {
            return;
        }
        self.target.see(here);
    }

    pub(crate) fn set_joined(&mut self, joined: bool)
        ensures { self.new ≡ with_joined joined self.old }
    {
        self.joined = joined;
    }

    pub(crate) fn set_detached(&mut self, detached: bool)
        ensures { self.new ≡ with_detached detached self.old }
    {
        self.detached = detached;
    }
}
