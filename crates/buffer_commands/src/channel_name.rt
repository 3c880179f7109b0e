ghost use Rattle.std.specs.Prelude.{◌≡◌, false, IfOk, IsTrue, MatchOption};
ghost use Rattle.irc_line.specs.Names.{IsPassed, is_channel};

use irc_line::{Name, is_channel_name};
use std::alloc::{AllocError, Global};
use std::marker::Model;
use wire_bytes::{Copied, Wire, WireFault, take_sized};

/// The name of a channel: a name that begins with `#`, `&`, `+` or `!` (RFC 2812, 1.3).
#[derive(Drop)]
pub struct ChannelName {
    name: Name,
}

impl Model for ChannelName {
    ghost use Rattle.std.specs.Prelude.{ℕ, List, IsTrue};
    ghost use Rattle.irc_line.specs.Names.{is_channel};

    ghost Value = { List ℕ };

    ghost view = { λ c. c.name };

    ghost invariant = { λ c. IsTrue (is_channel c.name) };
}

impl ChannelName {
    /// The name, where it is a channel's.
    pub fn from_name(name: Name) -> Option<ChannelName>
        ensures { MatchOption result (is_channel name ≡ false) (IsPassed is_channel name) }
    {
        if name.is_channel() {
            Some(ChannelName { name })
        } else {
            None
        }
    }

    pub fn name(&self) -> &Name
        ensures value { result.now ≡ self.now }
        ensures channel { IsTrue (is_channel self.now) }
    {
        &self.name
    }
}

impl Copied for ChannelName {
    fn copy(&self, alloc: Global) -> Result<Self, AllocError> {
        Ok(ChannelName {
            name: self.name.copy(alloc)?,
        })
    }
}

/// Written like any name; a name that is no channel's is refused as that field.
impl Wire for ChannelName {
    ghost use Rattle.wire_bytes.specs.Contents.{sized};
    ghost use Rattle.buffer_commands.specs.Spellings.{FitsChannel, channel_name};
    ghost use Rattle.wire_bytes.specs.Wants.{once_whole};
    ghost use Rattle.buffer_commands.specs.ActionCodec.{channel_is_codec};

    ghost spelled = { sized };

    ghost fits = { FitsChannel };

    ghost taken = { channel_name };

    ghost wants = { once_whole channel_name };

    #[tactic(auto, using(crate::specs::ActionCodec::channel_named))]
    fn put(&self, out: &mut Vec<u8>) -> Result<(), AllocError> {
        self.name().put(out)
    }

    fn take(alloc: Global, input: &[u8]) -> Result<(Self, usize), WireFault> {
        // The bytes are checked before a name is made of them, so that running out of memory hides
        // no fault.
        if !is_channel_name(take_sized(input)?) {
            return Err(WireFault::Bad(0));
        }
        let (name, len) = Name::take(alloc, input)?;
        Ok((ChannelName { name }, len))
    }

    ghost is_codec = { channel_is_codec };
}
