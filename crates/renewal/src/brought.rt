//! Which bodies nodes bring.
ghost use Rattle.std.specs.Prelude.{◌≡◌};
ghost use Rattle.std.specs.List.{list_all};
ghost use Rattle.renewal.specs.Lists.{is_brought, is_claim_brought, is_of, is_session_brought};

use crate::draft::Start;
use bouncer_tower::TowerBody;
use buffer_commands::{Command, WireLine};
use request_once::Body;
use session_fence::FenceCommand;
use upstream_claim::ClaimsCommand;
use wire_bytes::{Number, SessionId};

/// Whether all bodies are of kinds that nodes bring: from a leader of one term, from one client, or that a node is
/// gone.
pub fn are_brought(bodies: &[TowerBody], start: &Start) -> bool
    ensures { result ≡ list_all (is_brought start.now.term start.now.client) bodies.now }
{
    bodies.iter().all(|body| is_brought(body, start))
}

fn is_brought(body: &TowerBody, start: &Start) -> bool
    ensures { result ≡ is_brought start.now.term start.now.client body.now }
{
    match body {
        Body::Blank => true,
        Body::Asked(origin, _, _, _) => start.client == *origin,
        Body::Inner(command) => is_claim_brought(command, start.term),
        Body::Mark(_) => false,
    }
}

fn is_claim_brought(command: &ClaimsCommand<FenceCommand<Command, WireLine>>, term: Number) -> bool
    ensures { result ≡ is_claim_brought term command.now }
{
    match command {
        ClaimsCommand::Claim(session, _) => is_of(*session, term),
        ClaimsCommand::Inner(command) => is_session_brought(command, term),
    }
}

fn is_session_brought(command: &FenceCommand<Command, WireLine>, term: Number) -> bool
    ensures { result ≡ is_session_brought term command.now }
{
    match command {
        FenceCommand::Opened(session)
        | FenceCommand::Shut(session)
        | FenceCommand::Heard(session, _, _, _) => is_of(*session, term),
        FenceCommand::Inner(Command::NodeGone(_, _)) => true,
        FenceCommand::Inner(_) => false,
    }
}

fn is_of(session: SessionId, term: Number) -> bool
    ensures { result ≡ is_of term session }
{
    session.term() == term.value()
}
