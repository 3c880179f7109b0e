//! The connection to the server.
ghost use Rattle.std.specs.Prelude.{◌≡◌, ◌∷◌, [], if◌then◌else◌, IfOk, OnOk, Option};
ghost use Rattle.driver.specs.declared.order.Order.TheVariants.{Connect};
ghost use Rattle.driver.specs.Absent.{none_absent};
ghost use Rattle.driver.specs.Keys.{no_keys};
ghost use Rattle.driver.specs.Links.{Connects, HasBegun, HasReceived, Receives};
ghost use Rattle.driver.specs.Links.{is_open, is_session_of, may_connect, node_of};
ghost use Rattle.driver.specs.Links.{first_backoff, notes_of, send_some};
ghost use Rattle.driver.specs.Monitors.{at};
ghost use Rattle.driver.specs.Outgoing.{nothing_waits};
ghost use Rattle.driver.specs.Sessions.{opened_with};
ghost use Rattle.driver.specs.Telling.{ordered};

mod channels;
mod losing;
pub(crate) mod missing;
mod notes;
mod sending;
mod silence;
mod standing;

use crate::absent_channels::AbsentChannels;
use crate::backoff::Backoff;
use crate::key_ring::KeyRing;
use crate::link::notes::notes_of;
use crate::news::Ending;
use crate::order::{Now, TowerNote};
use crate::orders::Orders;
use crate::outgoing::Outgoing;
use crate::settings::Settings;
use crate::timer::Timer;
use irc_line::Line;
use raft_log::NodeId;
use std::alloc::{AllocError, Global};
use uplink::{Passed, Uplink};

/// The first and the longest wait before the server is tried again, in milliseconds.
// A server that failed for a moment is soon tried again, and one that is gone is not pestered.
const FIRST_WAIT: u32 = 1000;

const LONGEST_WAIT: u32 = 60_000;

/// The state of the connection.
#[derive(Drop)]
enum Stage {
    /// There is none. The next one may be tried this many milliseconds after that moment.
    Idle(Timer, u32),
    /// At that moment the server was told that the session is over, and is to close the connection. The next one may be
    /// tried this many milliseconds later.
    Closing(Timer, u32),
    /// It was asked for, for this node.
    Connecting(NodeId),
    /// It is open, for this node.
    Open(Session),
}

/// An open connection.
#[derive(Drop)]
struct Session {
    node: NodeId,
    uplink: Uplink,
    since: Timer,
    heard: Timer,
    /// When the server was sent a PING, if it has said nothing since.
    asked: Option<Timer>,
    /// The server has given the session.
    is_opened: bool,
}

/// The connection to the server, which belongs to the node that leads.
#[derive(Drop)]
pub struct Link {
    alloc: Global,
    stage: Stage,
    backoff: Backoff,
    /// Why the last connection ended or was not made; none before the first.
    ended: Option<Ending>,
    /// What waits to go out in the session.
    waiting: Outgoing,
    /// The keys by which channels were joined in any session.
    keys: KeyRing,
    /// Channels that should be joined but are not.
    absent: AbsentChannels,
}

impl Link {
    /// There is no connection, and one may be tried.
    pub fn new(alloc: Global, now: &Now) -> Link
        ensures stage { result.stage ≡ Stage.Idle (at now.now.ms) 0 }
        ensures backoff { result.backoff ≡ first_backoff }
        ensures ended { result.ended ≡ None }
        ensures waiting { result.waiting ≡ nothing_waits }
        ensures keys { result.keys ≡ no_keys }
        ensures absent { result.absent ≡ none_absent }
    {
        Link {
            alloc,
            stage: Stage::Idle(Timer::from(now.ms), 0),
            backoff: Backoff::new(FIRST_WAIT, LONGEST_WAIT),
            ended: None,
            waiting: Outgoing::new(alloc),
            keys: KeyRing::new(alloc),
            absent: AbsentChannels::new(alloc),
        }
    }

    /// The node that it belongs to, if there is one.
    pub fn node(&self) -> Option<NodeId>
        ensures { result ≡ node_of self.now.stage }
    {
        match &self.stage {
            Stage::Idle(_, _) | Stage::Closing(_, _) => None,
            Stage::Connecting(node) => Some(*node),
            Stage::Open(session) => Some(session.node),
        }
    }

    /// This node leads: connects to the server for it, if that may be tried.
    pub fn connect(
        &mut self,
        now: &Now,
        node: NodeId,
        orders: &mut Orders,
    ) -> Result<(), AllocError>
        ensures told { OnOk result (orders.new ≡ ordered orders.old
            (if may_connect self.old.stage now.now.ms then Connect ∷ [] else [])) }
        ensures stage { OnOk result (self.new.stage ≡ (if may_connect self.old.stage now.now.ms
            then Stage.Connecting node else self.old.stage)) }
        ensures rest { self.new ≡ record self.old { stage = self.new.stage } }
    {
        match &self.stage {
            Stage::Idle(since, wait) => {
                if !since.has_passed(*wait as u64, now.ms) {
                    return Ok(());
                }
            }
            Stage::Closing(_, _) | Stage::Connecting(_) | Stage::Open(_) => return Ok(()),
        }
        orders.connect()?;
        self.stage = Stage::Connecting(node);
        Ok(())
    }

    /// The connection is open: asks for the session.
    pub fn connected(
        &mut self,
        now: &Now,
        settings: &Settings,
        orders: &mut Orders,
    ) -> Result<(), AllocError>
        ensures stands { OnOk result (Connects self.old.stage settings.now now.now.ms
            orders.old self.new.stage orders.new) }
        ensures rest { self.new ≡ record self.old { stage = self.new.stage } }
    {
        if let Stage::Connecting(node) = &self.stage {
            let session = begin(self.alloc, *node, now, settings, orders)?;
            self.stage = Stage::Open(session);
        }
        Ok(())
    }

    /// Bytes came from the server, in pieces of any size. Returns what they bring to the node, if anything.
    pub fn receive(
        &mut self,
        now: &Now,
        bytes: &[u8],
        orders: &mut Orders,
    ) -> Result<Vec<TowerNote>, AllocError>
        ensures received { IfOk result (λ notes. Receives self.old.stage now.now.ms now.now.at
            bytes.now orders.old self.new.stage notes.items orders.new) }
        ensures rest { self.new ≡ record self.old { stage = self.new.stage } }
    {
        match &mut self.stage {
            Stage::Open(session) => {
                let notes = receive_in(self.alloc, session, now, bytes, orders)?;
                Ok(notes)
            }
            Stage::Idle(_, _) | Stage::Closing(_, _) | Stage::Connecting(_) => {
                Ok(Vec::new(self.alloc))
            }
        }
    }

    /// The server gave the session that was asked for: these lines wait in it before all else, but only once. Its
    /// channels are joined anew.
    pub fn open(&mut self, lines: &[Line]) -> Result<(), AllocError>
        ensures { OnOk result (self.new ≡ opened_with lines.now self.old) }
    {
        let Stage::Open(session) = &mut self.stage else {
            return Ok(());
        };
        if !session.is_opened {
            self.waiting.push_opening(lines)?;
            self.absent.clear();
        }
        session.is_opened = true;
        Ok(())
    }

    /// Whether there is a session of this node.
    pub fn is_session_of(&self, node: NodeId) -> bool
        ensures { result ≡ is_session_of self.now.stage node }
    {
        match &self.stage {
            Stage::Open(session) => session.node == node,
            Stage::Idle(_, _) | Stage::Closing(_, _) | Stage::Connecting(_) => false,
        }
    }

    /// Whether the connection is open, and its session is not over.
    pub fn is_open(&self) -> bool
        ensures { result ≡ is_open self.now.stage }
    {
        matches!(self.stage, Stage::Open(_))
    }
}

/// A session of this node begins: sends the server its first bytes.
fn begin(
    alloc: Global,
    node: NodeId,
    now: &Now,
    settings: &Settings,
    orders: &mut Orders,
) -> Result<Session, AllocError>
    ensures { IfOk result (λ session. HasBegun settings.now now.now.ms node
        orders.old session orders.new) }
{
    let nick = settings.nick.copy(alloc)?;
    let (uplink, first) = Uplink::new(alloc, nick, settings.upstream_password.as_ref())?;
    orders.send(first)?;
    Ok(Session {
        node,
        uplink,
        since: Timer::from(now.ms),
        heard: Timer::from(now.ms),
        asked: None,
        is_opened: false,
    })
}

/// Bytes came in a session.
fn receive_in(
    alloc: Global,
    session: &mut Session,
    now: &Now,
    bytes: &[u8],
    orders: &mut Orders,
) -> Result<Vec<TowerNote>, AllocError>
    ensures { IfOk result (λ notes. HasReceived now.now.ms now.now.at bytes.now session.old
        orders.old session.new notes.items orders.new) }
{
    session.heard = Timer::from(now.ms);
    session.asked = None;
    let Passed { inputs, reply } = session.uplink.feed(bytes)?;
    send_back(reply, orders)?;
    let notes = notes_of(alloc, now, inputs)?;
    Ok(notes)
}

/// Sends what an uplink writes to the server, if that is not empty.
fn send_back(reply: Vec<u8>, orders: &mut Orders) -> Result<(), AllocError>
    ensures { OnOk result (orders.new ≡ ordered orders.old (send_some reply reply.items)) }
{
    if reply.is_empty() {
        return Ok(());
    }
    orders.send(reply)
}
