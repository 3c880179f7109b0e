//! Channels that should be joined but are not, and why.
ghost use Rattle.std.specs.Prelude.{◌≡◌, IfOk, OnOk, option_map};
ghost use Rattle.driver.specs.Absent.{absent_text, asked, barred, cleared, has_number, is_waited_for, none_absent};
ghost use Rattle.driver.specs.Absent.{settled, text_numbered, with_channel, with_room};

use irc_line::is_same_name;
use std::alloc::{AllocError, Global};
use std::marker::Model;

/// The most channels that are kept. When one more comes, the oldest is dropped.
// a setup names at most 100 channels, and people may join more
const MOST_CHANNELS: usize = 256;

/// The most bytes of a reason that are kept.
// with a nick and a channel of 64 bytes each it fits in a line
pub const MOST_REASON: usize = 300;

/// Why a channel is not joined.
///
/// A clause sees its number and its text.
#[derive(Drop)]
pub struct Reason {
    /// Its number among all reasons so far.
    number: u64,
    text: Vec<u8>,
}

impl Model for Reason {
    ghost use Rattle.driver.specs.Absent.{Why};

    ghost Value = { Why };

    ghost view = { λ r. record { number = r.number; text = r.text.items } };
}

/// A channel that should be joined but is not.
///
/// A clause sees its name, and why, if that is known.
#[derive(Drop)]
pub struct AbsentChannel {
    channel: Vec<u8>,
    /// None until the server has answered.
    why: Option<Reason>,
}

impl Model for AbsentChannel {
    ghost use Rattle.driver.specs.Absent.{Missed};

    ghost Value = { Missed };

    ghost view = { λ c. record { channel = c.channel.items; why = c.why } };
}

impl AbsentChannel {
    /// What people are shown about it, once the reason is known.
    pub fn text(&self, alloc: Global) -> Result<Option<Vec<u8>>, AllocError>
        ensures { IfOk result (λ text. option_map (λ text. text.items) text
            ≡ absent_text self.now) }
    {
        let Some(why) = &self.why else {
            return Ok(None);
        };
        let mut text = Vec::from_slice(alloc, self.channel.as_slice())?;
        text.extend_from_slice(b" is not joined: ")?;
        text.extend_from_slice(why.text.as_slice())?;
        Ok(Some(text))
    }

    /// Whether its reason has this number.
    fn has_number(&self, number: u64) -> bool
        ensures { result ≡ has_number number self.now.why }
    {
        match &self.why {
            Some(why) => why.number == number,
            None => false,
        }
    }
}

/// Channels that should be joined but are not, the newest last.
///
/// A clause sees them as a list, and how many reasons there have been.
#[derive(Drop)]
pub struct AbsentChannels {
    alloc: Global,
    all: Vec<AbsentChannel>,
    count: u64,
}

impl Model for AbsentChannels {
    ghost use Rattle.driver.specs.Absent.{Absences};

    ghost Value = { Absences };

    ghost view = { λ a. record { channels = a.all.items; count = a.count } };
}

impl AbsentChannels {
    /// No channels.
    pub fn new(alloc: Global) -> AbsentChannels
        ensures { result ≡ none_absent }
    {
        AbsentChannels {
            alloc,
            all: Vec::new(alloc),
            count: 0,
        }
    }

    /// All of them.
    pub fn as_slice(&self) -> &[AbsentChannel]
        ensures { result.now ≡ self.now.channels }
    {
        self.all.as_slice()
    }

    /// A JOIN of a channel was sent.
    pub fn ask(&mut self, channel: &[u8]) -> Result<(), AllocError>
        ensures { OnOk result (self.new ≡ asked channel.now self.old) }
    {
        self.put(channel, None)
    }

    /// A channel is not joined, for this reason. Returns the reason's number.
    pub fn bar(&mut self, channel: &[u8], text: Vec<u8>) -> Result<u64, AllocError>
        ensures barred { OnOk result (self.new ≡ barred channel.now text.items self.old) }
        ensures number { IfOk result (λ number. number ≡ self.new.count) }
    {
        let number = self.count.saturating_add(1);
        self.put(channel, Some(Reason { number, text }))?;
        self.count = number;
        Ok(number)
    }

    /// A channel is joined, or is not wanted any more.
    pub fn settle(&mut self, channel: &[u8])
        ensures { self.new ≡ settled channel.now self.old }
    {
        self.all
            .retain(|missed| !is_same_name(channel, missed.channel.as_slice()));
    }

    /// A session begins: nothing is known.
    pub fn clear(&mut self)
        ensures { self.new ≡ cleared self.old }
    {
        self.all = Vec::new(self.alloc);
    }

    /// Whether the server has yet to answer a JOIN of this channel.
    pub fn is_waited_for(&self, channel: &[u8]) -> bool
        ensures { result ≡ is_waited_for channel.now self.now }
    {
        self.all.iter().any(|missed| {
            is_same_name(channel, missed.channel.as_slice()) && missed.why.is_none()
        })
    }

    /// Adds a channel as the newest.
    fn put(&mut self, channel: &[u8], why: Option<Reason>) -> Result<(), AllocError>
        ensures { OnOk result (self.new ≡ record self.old
            { channels = with_channel channel.now why self.old.channels }) }
    {
        self.settle(channel);
        self.make_room();
        let channel = Vec::from_slice(self.alloc, channel)?;
        self.all.push(AbsentChannel { channel, why })?;
        Ok(())
    }

    /// Drops the oldest if the list is full.
    fn make_room(&mut self)
        ensures { self.new ≡ record self.old { channels = with_room self.old.channels } }
    {
        if self.all.len() >= MOST_CHANNELS {
            self.all.remove(0);
        }
    }

    /// What people are shown about the channel whose reason has this number, if there is one.
    pub fn text_numbered(&self, number: u64) -> Result<Option<Vec<u8>>, AllocError>
        ensures { IfOk result (λ text. option_map (λ text. text.items) text
            ≡ text_numbered number self.now.channels) }
    {
        text_numbered(self.alloc, number, self.all.as_slice())
    }
}

/// The text with this number in a list.
fn text_numbered(
    alloc: Global,
    number: u64,
    channels: &[AbsentChannel],
) -> Result<Option<Vec<u8>>, AllocError>
    ensures { IfOk result (λ text. option_map (λ text. text.items) text
        ≡ text_numbered number channels.now) }
{
    let [missed, more @ ..] = channels else {
        return Ok(None);
    };
    if missed.has_number(number) {
        return missed.text(alloc);
    }
    text_numbered(alloc, number, more)
}
