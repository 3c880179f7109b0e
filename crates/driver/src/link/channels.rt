//! What the server says about channels in the session.
ghost use Rattle.std.specs.Prelude.{◌≡◌, IfOk, OnOk, option_map};
ghost use Rattle.driver.specs.Absent.{absent_behind, is_refused, reason_number, text_numbered};
ghost use Rattle.driver.specs.Sessions.{channels_heard};

use crate::absent_channels::AbsentChannel;
use crate::channel_lines::{is_own_kick, is_refusal, is_settled, kick_reason, refusal_reason};
use crate::link::Link;
use irc_line::Line;
use std::alloc::AllocError;

impl Link {
    /// A line from the server, for the user with this nick, may say that a channel is joined, or that it is not, and
    /// why. Returns the number of the reason, if it gives one.
    pub fn hear_channels(&mut self, nick: &[u8], line: &Line) -> Result<Option<u64>, AllocError>
        ensures number { IfOk result (λ number.
            number ≡ reason_number nick.now line.now self.old.absent) }
        ensures heard { OnOk result (self.new ≡ channels_heard nick.now line.now self.old) }
    {
        self.keys.hear_answer(nick, line)?;
        self.hear_absent(nick, line)
    }

    /// Updates the channels that are not joined, by such a line.
    fn hear_absent(&mut self, nick: &[u8], line: &Line) -> Result<Option<u64>, AllocError>
        ensures number { IfOk result (λ number.
            number ≡ reason_number nick.now line.now self.old.absent) }
        ensures heard { OnOk result (self.new ≡ record self.old
            { absent = absent_behind nick.now line.now self.old.absent }) }
    {
        if is_settled(line, nick) {
            self.absent.settle(line.parameter(0));
            return Ok(None);
        }
        if is_own_kick(line, nick) {
            let text = kick_reason(self.alloc, line)?;
            let number = self.absent.bar(line.parameter(0), text)?;
            return Ok(Some(number));
        }
        if self.is_refused(line) {
            let text = refusal_reason(self.alloc, line)?;
            let number = self.absent.bar(line.parameter(1), text)?;
            return Ok(Some(number));
        }
        Ok(None)
    }

    /// Whether a line answers a JOIN with a refusal.
    fn is_refused(&self, line: &Line) -> bool
        ensures { result ≡ is_refused line.now self.now.absent }
    {
        is_refusal(line) && self.absent.is_waited_for(line.parameter(1))
    }

    /// The channels that should be joined but are not.
    pub fn absent(&self) -> &[AbsentChannel]
        ensures { result.now ≡ self.now.absent.channels }
    {
        self.absent.as_slice()
    }

    /// What people are shown about the channel whose reason has this number, if there is one.
    pub fn why_absent(&self, number: u64) -> Result<Option<Vec<u8>>, AllocError>
        ensures { IfOk result (λ text. option_map (λ text. text.items) text
            ≡ text_numbered number self.now.absent.channels) }
    {
        self.absent.text_numbered(number)
    }
}
