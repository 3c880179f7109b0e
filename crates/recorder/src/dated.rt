//! Bodies that contain a client's name; the first versions had none.
ghost use Rattle.std.specs.Prelude.{◌≡◌};
ghost use Rattle.recorder.specs.Dates.{event_brings_name, input_brings_name};

use buffer_commands::{Action, Command};
use request_once::Body;
use session_fence::FenceCommand;
use upstream_claim::ClaimsCommand;
use wire_bytes::Wire;
use world_events::{Event, Input};

/// A value that says whether it contains a client's name. A file written before clients had names contains none.
pub trait Dated: Wire {
    ghost use Rattle.std.specs.Prelude.{Bool};

    /// Whether it contains a client's name.
    ghost brings_name: { Self → Bool };

    fn brings_name(&self) -> bool
        ensures { result ≡ brings_name self.now };
}

impl Dated for Action {
    ghost use Rattle.recorder.specs.Dates.{action_brings_name};

    ghost brings_name = { action_brings_name };

    fn brings_name(&self) -> bool {
        matches!(self, Action::Attach(Some(_)))
    }
}

impl Dated for Command {
    ghost use Rattle.recorder.specs.Dates.{command_brings_name};

    ghost brings_name = { command_brings_name };

    fn brings_name(&self) -> bool {
        match self {
            Command::Client(_, _, action) => action.brings_name(),
            _ => false,
        }
    }
}

impl<C: Dated, L: Wire> Dated for FenceCommand<C, L> {
    ghost use Rattle.recorder.specs.Dates.{fence_brings_name};

    ghost brings_name = { fence_brings_name C.brings_name };

    fn brings_name(&self) -> bool {
        match self {
            FenceCommand::Inner(command) => command.brings_name(),
            _ => false,
        }
    }
}

impl<C: Dated> Dated for ClaimsCommand<C> {
    ghost use Rattle.recorder.specs.Dates.{claims_brings_name};

    ghost brings_name = { claims_brings_name C.brings_name };

    fn brings_name(&self) -> bool {
        match self {
            ClaimsCommand::Inner(command) => command.brings_name(),
            ClaimsCommand::Claim(_, _) => false,
        }
    }
}

/// A request contains a name if its action does.
impl<C: Dated, A: Dated> Dated for Body<C, A> {
    ghost use Rattle.recorder.specs.Dates.{body_brings_name};

    ghost brings_name = { body_brings_name C.brings_name A.brings_name };

    fn brings_name(&self) -> bool {
        match self {
            Body::Inner(command) => command.brings_name(),
            Body::Asked(_, _, _, action) => action.brings_name(),
            _ => false,
        }
    }
}

/// A body of one byte contains no name.
impl Dated for u8 {
    ghost use Rattle.std.specs.Prelude.{false};

    ghost brings_name = { λ _. false };

    fn brings_name(&self) -> bool {
        false
    }
}

/// Whether the body of an event contains a client's name, also if its node stops meanwhile.
pub fn event_brings_name<B: Dated, L, T>(event: &Event<B, L, T>) -> bool
    ensures { result ≡ event_brings_name B.brings_name event.now }
{
    match event {
        Event::Does(input) | Event::StopIn(input, _) => input_brings_name(input),
        Event::Restart(_) => false,
    }
}

fn input_brings_name<B: Dated, L, T>(input: &Input<B, L, T>) -> bool
    ensures { result ≡ input_brings_name B.brings_name input.now }
{
    match input {
        Input::Ask(_, body) => body.brings_name(),
        _ => false,
    }
}
