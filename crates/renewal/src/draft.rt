//! A list of bodies that is being made: those that a leader of one term brings for one client.
ghost use Rattle.std.specs.Prelude.{◌≡◌, ◌≤◌, ◌^◌, IfOk};

use crate::fault::ProposalFault;
use bouncer_tower::TowerBody;
use buffer_commands::{Action, Command, WireLine};
use irc_line::{Line, LineFault, Name, is_same, is_same_name};
use request_once::Body;
use session_fence::FenceCommand;
use std::alloc::Global;
use upstream_claim::ClaimsCommand;
use wire_bytes::{LAST_NUMBER, Moment, Number, Origin, SessionId};

/// Whose bodies a new list has: those of a leader of a term, and of one client of a run. No older list has any bodies
/// of this term or this run.
#[derive(Clone, Copy)]
pub struct Start {
    pub term: Number,
    pub client: Origin,
}

/// The bodies so far, and what comes next.
#[derive(Drop)]
pub struct Draft {
    alloc: Global,
    term: Number,
    client: Origin,
    bodies: Vec<TowerBody>,
    /// How many attempts the term has had, lines the session, requests the client, and lines it has sent.
    sessions: u64,
    heard: u64,
    asked: u64,
    sent: u64,
    nick: Vec<u8>,
    attached: bool,
}

/// A number, if it is within its limit.
fn number(value: u64) -> Result<Number, ProposalFault>
    ensures { IfOk result (λ n. n ≡ value) }
{
    if value > LAST_NUMBER {
        return Err(ProposalFault::Spent);
    }
    Ok(Number::new(value))
}

/// The moment of requests that store no line.
fn no_moment() -> Moment {
    Moment::new(0)
}

impl Draft {
    pub fn new(alloc: Global, start: &Start) -> Draft {
        Draft {
            alloc,
            term: start.term,
            client: start.client,
            bodies: Vec::new(alloc),
            sessions: 0,
            heard: 0,
            asked: 0,
            sent: 0,
            nick: Vec::new(alloc),
            attached: false,
        }
    }

    pub fn allocator(&self) -> Global {
        self.alloc
    }

    pub fn into_bodies(self) -> Vec<TowerBody> {
        self.bodies
    }

    fn add(&mut self, body: TowerBody) -> Result<(), ProposalFault> {
        match self.bodies.push(body) {
            Ok(()) => Ok(()),
            Err(_) => Err(ProposalFault::Memory),
        }
    }

    fn add_of_session(
        &mut self,
        command: FenceCommand<Command, WireLine>,
    ) -> Result<(), ProposalFault> {
        self.add(Body::Inner(ClaimsCommand::Inner(command)))
    }

    fn session(&self) -> Result<SessionId, ProposalFault> {
        let attempt = number(self.sessions)?;
        Ok(SessionId::new(self.term.value(), attempt.value()))
    }

    /// What a new leader appends first.
    pub fn blank(&mut self) -> Result<(), ProposalFault> {
        self.add(Body::Blank)
    }

    /// Opens the next session.
    pub fn open(&mut self) -> Result<(), ProposalFault> {
        self.sessions = self.sessions.saturating_add(1);
        self.heard = 0;
        let session = self.session()?;
        self.add_of_session(FenceCommand::Opened(session))
    }

    /// Shuts the session: the own nick is then in no channel.
    pub fn shut(&mut self) -> Result<(), ProposalFault> {
        let session = self.session()?;
        self.add_of_session(FenceCommand::Shut(session))
    }

    /// Adds a line from upstream, heard at a moment.
    pub fn hear(&mut self, at: Moment, line: WireLine) -> Result<(), ProposalFault> {
        self.heard = self.heard.saturating_add(1);
        let (session, place) = (self.session()?, number(self.heard)?);
        self.add_of_session(FenceCommand::Heard(session, place, at, line))
    }

    /// Adds a line of these bytes from upstream.
    pub fn hear_bytes(&mut self, bytes: &[u8]) -> Result<(), ProposalFault> {
        let line = match Line::parse(self.alloc, bytes) {
            Ok(line) => line,
            Err(LineFault::Memory) => return Err(ProposalFault::Memory),
            Err(_) => return Err(ProposalFault::NotTheSame),
        };
        let line = WireLine::from_line(line).ok_or(ProposalFault::NotTheSame)?;
        self.hear(no_moment(), line)
    }

    /// Lets the server give the own nick this name, unless it has it.
    pub fn be(&mut self, nick: &[u8]) -> Result<(), ProposalFault> {
        if is_same(&self.nick, nick) {
            return Ok(());
        }
        let mut line = Vec::from_slice(self.alloc, b"001 ")?;
        line.extend_from_slice(nick)?;
        self.hear_bytes(&line)?;
        self.nick = Vec::from_slice(self.alloc, nick)?;
        Ok(())
    }

    /// Changes the own nick to this one, unless it is the same name in another case.
    pub fn answer_to(&mut self, nick: &[u8]) -> Result<(), ProposalFault> {
        if is_same_name(&self.nick, nick) {
            return Ok(());
        }
        self.be(nick)
    }

    /// Adds a request of the client at a moment.
    pub fn ask_at(&mut self, at: Moment, action: Action) -> Result<(), ProposalFault> {
        self.asked = self.asked.saturating_add(1);
        let (client, place) = (self.client, number(self.asked)?);
        self.add(Body::Asked(client, place, at, action))
    }

    pub fn ask(&mut self, action: Action) -> Result<(), ProposalFault> {
        self.ask_at(no_moment(), action)
    }

    /// Claims the line that the client sent, so that no later session sends it.
    pub fn claim(&mut self) -> Result<(), ProposalFault> {
        self.sent = self.sent.saturating_add(1);
        let (session, place) = (self.session()?, number(self.sent)?);
        self.add(Body::Inner(ClaimsCommand::Claim(session, place)))
    }

    pub fn is_attached(&self) -> bool {
        self.attached
    }

    /// Attaches the client without a name.
    pub fn attach(&mut self) -> Result<(), ProposalFault> {
        self.attached = true;
        self.ask(Action::Attach(None))
    }

    pub fn leave(&mut self) -> Result<(), ProposalFault> {
        self.attached = false;
        self.ask(Action::Leave)
    }

    /// Attaches the client by a name, and lets it leave: the name has then seen all that is shown.
    pub fn look_in(&mut self, id: &Name) -> Result<(), ProposalFault> {
        self.ask(Action::Attach(Some(id.copy(self.alloc)?)))?;
        self.ask(Action::Leave)
    }

    /// Says that the runs of a node below this one are gone.
    pub fn gone(&mut self, node: u8, floor: Number) -> Result<(), ProposalFault> {
        self.add_of_session(FenceCommand::Inner(Command::NodeGone(node, floor)))
    }
}
