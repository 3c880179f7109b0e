//! The tower, as a node hosts it.
ghost use Rattle.std.specs.Prelude.{◌≡◌, ◌≤◌, length};
ghost use Rattle.machine_laws.specs.Classes.{class_map};
ghost use Rattle.bouncer_tower.specs.Bodies.{within_limit};
ghost use Rattle.bouncer_tower.specs.Hosting.{buffer_class, claim_class, mark_class, session_class};
ghost use Rattle.bouncer_tower.specs.Hosting.{claim_source, command_source, session_source};

use crate::fits::body_fits;
use crate::tower::{Tower, TowerBody, TowerEffect};
use buffer_commands::{Action, Command, Effect, WireLine};
use buffer_lines::Shown;
use irc_line::{Line, Name};
use machine_laws::{Class, Hosted, Machine, Source};
use request_once::{Answer, Body};
use session_fence::{FenceCommand, FenceEffect};
use std::alloc::AllocError;
use upstream_claim::{ClaimsCommand, ClaimsEffect};
use wire_bytes::{LAST_NUMBER, MOST_NODES, Mark, Moment, Number, Origin, SessionId};

impl Hosted for Tower {
    ghost use Rattle.buffer_commands.specs.declared.command.Command.TheVariants.{NodeGone};
    ghost use Rattle.session_fence.specs.declared.command.FenceCommand.TheVariants.{Opened, Shut, Heard};
    ghost use Rattle.upstream_claim.specs.declared.command.ClaimsCommand.TheVariants.{Claim};
    ghost use Rattle.request_once.specs.declared.body.Body.TheVariants.{Asked, Blank, Mark};
    ghost use Rattle.bouncer_tower.specs.Bodies.{next_claim};
    ghost use Rattle.bouncer_tower.specs.Hosting.{class_of, of_buffers, of_claims, of_sessions, playback, source_of};

    type Action = Action;

    type Line = WireLine;

    type Target = Name;

    type Played = Shown;

    ghost asked = { Asked };

    ghost node_gone = { λ node floor. of_buffers (NodeGone node floor) };

    ghost blank = { Blank };

    ghost mark = { Mark };

    ghost opened = { λ id. of_sessions (Opened id) };

    ghost shut = { λ id. of_sessions (Shut id) };

    ghost heard = { λ id number at line. of_sessions (Heard id number at line) };

    ghost claim = { λ id number. of_claims (Claim id number) };

    ghost source = { source_of };

    ghost next_claim = { next_claim };

    ghost playback = { playback };

    ghost class = { class_of };

    fn asked(origin: Origin, number: Number, at: Moment, action: Action) -> TowerBody {
        Body::Asked(origin, number, at, action)
    }

    fn node_gone(node: u8, floor: Number) -> TowerBody {
        let command = Command::NodeGone(node, floor);
        Body::Inner(ClaimsCommand::Inner(FenceCommand::Inner(command)))
    }

    fn blank() -> TowerBody {
        Body::Blank
    }

    fn mark(made: Mark) -> TowerBody {
        Body::Mark(made)
    }

    fn opened(id: SessionId) -> TowerBody {
        Body::Inner(ClaimsCommand::Inner(FenceCommand::Opened(id)))
    }

    fn shut(id: SessionId) -> TowerBody {
        Body::Inner(ClaimsCommand::Inner(FenceCommand::Shut(id)))
    }

    fn heard(id: SessionId, number: Number, at: Moment, line: WireLine) -> TowerBody {
        let command = FenceCommand::Heard(id, number, at, line);
        Body::Inner(ClaimsCommand::Inner(command))
    }

    fn claim(id: SessionId, number: Number) -> TowerBody {
        Body::Inner(ClaimsCommand::Claim(id, number))
    }

    #[tactic(auto, using(crate::proofs::Lengths::body_fits_a_log))]
    fn fits(body: &TowerBody) {
        body_fits(body);
    }

    fn source(body: &TowerBody) -> Source {
        match body {
            Body::Inner(command) => claim_source(command),
            Body::Asked(origin, _, _, _) => Source::Client(*origin),
            Body::Blank => Source::Leader,
            Body::Mark(mark) => Source::Run(mark.node, mark.boot.value()),
        }
    }

    #[tactic(auto, unfolding(crate::specs::Bodies::next_claim, crate::specs::Bodies::accepted))]
    fn next_claim(&self) -> Option<Number> {
        within_limit(self.layers().machine().next_claim())
    }

    #[tactic(auto, unfolding(crate::specs::Hosting::playback, crate::specs::Bodies::plain, crate::specs::Bodies::unclaimed, crate::specs::Bodies::accepted))]
    fn playback(&self, target: &Name) -> Result<Vec<Shown>, AllocError> {
        let claims = self.layers().machine();
        let fence = claims.machine();
        let buffers = fence.machine();
        buffers.playback(target)
    }

    fn class(effect: &TowerEffect) -> Class<&Line> {
        match effect {
            Answer::Effect(effect) => claim_class(effect),
            Answer::Done(origin, _) => Class::To(*origin),
            Answer::Repeat(origin, _) => Class::To(*origin),
            Answer::Gap(origin, _) => Class::To(*origin),
            Answer::Marked(mark) => mark_class(mark),
        }
    }
}

/// A number, if a claim may have it.
fn within_limit(number: Option<u64>) -> Option<Number>
    ensures { result ≡ within_limit number }
{
    match number {
        Some(number) if number <= LAST_NUMBER => Some(Number::new(number)),
        _ => None,
    }
}

/// A mark is answered to the run of its node, as the client 0 of that run.
fn mark_class(mark: &Mark) -> Class<&Line>
    ensures { class_map (λ l. l.now) result ≡ mark_class mark.now }
{
    // the node of a mark may be any byte, that of an origin only 1 to 7
    if 1 <= mark.node && mark.node <= MOST_NODES {
        Class::To(Origin::new(mark.node, mark.boot.value(), 0))
    } else {
        Class::Nowhere
    }
}

fn claim_source(command: &ClaimsCommand<FenceCommand<Command, WireLine>>) -> Source
    ensures { result ≡ claim_source command.now }
{
    match command {
        ClaimsCommand::Inner(command) => session_source(command),
        ClaimsCommand::Claim(_, _) => Source::Leader,
    }
}

fn session_source(command: &FenceCommand<Command, WireLine>) -> Source
    ensures { result ≡ session_source command.now }
{
    match command {
        FenceCommand::Inner(command) => command_source(command),
        FenceCommand::Opened(_) | FenceCommand::Shut(_) | FenceCommand::Heard(_, _, _, _) => {
            Source::Leader
        }
    }
}

fn command_source(command: &Command) -> Source
    ensures { result ≡ command_source command.now }
{
    match command {
        Command::NodeGone(_, _) => Source::Node,
        Command::Client(_, _, _) | Command::Upstream(_, _) | Command::Up | Command::Down => {
            Source::Leader
        }
    }
}

fn claim_class(effect: &ClaimsEffect<FenceEffect<Effect>>) -> Class<&Line>
    ensures { class_map (λ l. l.now) result ≡ claim_class effect.now }
{
    match effect {
        ClaimsEffect::Inner(effect) => session_class(effect),
        ClaimsEffect::Busy(origin) => Class::To(*origin),
        ClaimsEffect::Hand(id, number, line) => Class::Hand(*id, *number, line),
    }
}

fn session_class(effect: &FenceEffect<Effect>) -> Class<&Line>
    ensures { class_map (λ l. l.now) result ≡ session_class effect.now }
{
    match effect {
        FenceEffect::Inner(effect) => buffer_class(effect),
        FenceEffect::Rejoin(id, line) => Class::Rejoin(*id, line),
    }
}

/// A line that no session or no numbering took goes nowhere.
fn buffer_class(effect: &Effect) -> Class<&Line>
    ensures { class_map (λ l. l.now) result ≡ buffer_class effect.now }
{
    match effect {
        Effect::Close(origin) | Effect::Show(origin, _) => Class::To(*origin),
        Effect::Send(_, _) | Effect::Rejoin(_) => Class::Nowhere,
    }
}
