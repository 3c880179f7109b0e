//! Which channels a client has open.
ghost use Rattle.std.specs.Prelude.{◌≡◌, OnOk};
ghost use Rattle.driver.specs.Opening.{closed, has_open, open_behind};

use crate::client::Client;
use crate::client::joining::moved_by;
use bouncer_tower::TowerEffect;
use std::alloc::AllocError;

impl Client {
    /// An effect shown under this nick may open a channel, or close one.
    pub(crate) fn follow(&mut self, nick: &[u8], effect: &TowerEffect) -> Result<(), AllocError>
        ensures { OnOk result (self.new
            ≡ record self.old { channels = open_behind nick.now effect.now self.old.channels }) }
    {
        let (opens, closes) = moved_by(effect, nick);
        if let Some(channel) = opens {
            self.channels.add(channel)?;
        }
        if let Some(channel) = closes {
            self.channels.close(channel);
        }
        Ok(())
    }

    /// Whether it has a channel of this name open.
    pub fn has_open(&self, channel: &[u8]) -> bool
        ensures { result ≡ has_open channel.now self.now.channels }
    {
        self.channels.has(channel)
    }

    /// Closes the channel of this name.
    pub fn close(&mut self, channel: &[u8])
        ensures { self.new ≡ record self.old { channels = closed channel.now self.old.channels } }
    {
        self.channels.close(channel);
    }
}
