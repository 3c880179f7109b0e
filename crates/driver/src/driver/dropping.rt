//! What waits to go to the server is dropped when a client asks for that.
ghost use Rattle.std.specs.Prelude.{◌≡◌, IfOk, OnErr, OnOk};
ghost use Rattle.driver.specs.Answering.{Drops};
ghost use Rattle.driver.specs.Dropping.{EndsDrop, MayWait, TellsDropped, drop_words, dropped_text, dropping_begun};
ghost use Rattle.driver.specs.Dropping.{drops, has_waiting, may_have_waiting, more_dropped, waiting_left};
ghost use Rattle.driver.specs.Links.{status_at};

use crate::driver::Driver;
use crate::leader::leader_of;
use crate::link::missing::push_number;
use crate::outgoing::asks_names;
use irc_line::Line;
use raft_log::NodeId;
use std::alloc::{AllocError, Global};

impl Driver {
    /// Said lines that wait to go to the server are dropped, and so are later ones until the leader has no line left to
    /// claim. The client that asked learns whether anything waits.
    pub(crate) fn drop_waiting(&mut self, number: u64) -> Result<(), AllocError>
        ensures dropped { OnOk result (Drops number self.old self.new) }
        ensures failed { OnErr result (self.new ≡ record self.old { orders = self.new.orders }) }
    {
        let waits = self.waits();
        self.tell_lines(number, &[drop_words(waits)])?;
        self.drop_if(waits);
        Ok(())
    }

    /// Whether something said waits, or may wait in the log.
    fn waits(&self) -> bool
        ensures { MayWait self.now result }
    {
        let leader = leader_of(&self.monitors);
        self.dropping.is_some() || self.link.has_said() || self.may_have_waiting(&leader)
    }

    /// Whether a line may wait in the log, if this node leads, or none does.
    fn may_have_waiting(&self, leader: &Option<NodeId>) -> bool
        ensures { result ≡ may_have_waiting leader.now self.now.monitors }
    {
        match leader {
            Some(node) => self.has_waiting(*node),
            None => true,
        }
    }

    /// Whether a line waits in the log for this node, as far as is known.
    fn has_waiting(&self, node: NodeId) -> bool
        ensures { result ≡ has_waiting (status_at self.now.monitors node) }
    {
        match self.monitors.get(node.value() as usize - 1) {
            Some(monitor) => monitor.has_waiting(),
            None => false,
        }
    }

    /// If something said waits it is dropped, and the drop goes on.
    fn drop_if(&mut self, waits: bool)
        ensures { self.new ≡ record self.old {
          dropping = dropping_begun waits self.old.link.waiting self.old.dropping;
          link = record self.old.link { waiting = waiting_left waits self.old.link.waiting };
        } }
    {
        if !waits {
            return;
        }
        let lines = self.link.drop_said();
        self.count_dropped(lines);
    }

    /// Counts further dropped lines.
    pub(crate) fn count_dropped(&mut self, lines: u64)
        ensures { self.new
            ≡ record self.old { dropping = more_dropped lines self.old.dropping } }
    {
        let count = self.dropping.unwrap_or(0);
        self.dropping = Some(count.saturating_add(lines));
    }

    /// Whether a line that is handed out is dropped: a drop goes on, and it is said.
    pub(crate) fn drops(&self, line: &Line) -> bool
        ensures { result ≡ drops self.now.dropping line.now }
    {
        self.dropping.is_some() && !asks_names(line)
    }

    /// Ends a drop if no line waits in the log for this node, which leads.
    pub(crate) fn end_drop(&mut self, node: NodeId) -> Result<(), AllocError>
        ensures { OnOk result (EndsDrop node self.old self.new) }
    {
        if self.has_waiting(node) {
            return Ok(());
        }
        match self.dropping {
            Some(count) => self.tell_dropped(count),
            None => Ok(()),
        }
    }

    /// A drop ends that dropped this many lines: all attached clients are told.
    fn tell_dropped(&mut self, count: u64) -> Result<(), AllocError>
        ensures { OnOk result (TellsDropped count self.old self.new) }
    {
        self.dropping = None;
        let text = dropped_text(self.alloc, count)?;
        self.notice(text.as_slice())
    }
}

/// What all clients are sent when a drop ends that dropped this many lines.
fn dropped_text(alloc: Global, count: u64) -> Result<Vec<u8>, AllocError>
    ensures { IfOk result (λ text. text.items ≡ dropped_text count) }
{
    let mut text = Vec::from_slice(alloc, b"Lines that were dropped: ")?;
    push_number(&mut text, count)?;
    text.push(b'.')?;
    Ok(text)
}

/// The answer to the client that asked for a drop, whether something waits or not.
fn drop_words(waits: bool) -> &'static [u8]
    ensures { result.now ≡ drop_words waits }
{
    if waits {
        b"What waits is dropped, with what is said until that is done."
    } else {
        b"Nothing waits."
    }
}
