//! Every body has a spelling, since the types of its values keep their limits.
ghost use Rattle.bouncer_tower.specs.Spellings.{FitsBody, FitsClaimed, FitsSessioned};
ghost use Rattle.wire_bytes.specs.Values.{FitsSession};

use crate::tower::TowerBody;
use buffer_commands::{Command, WireLine};
use request_once::Body;
use session_fence::FenceCommand;
use upstream_claim::ClaimsCommand;
use wire_bytes::SessionId;

/// Does nothing.
pub fn body_fits(body: &TowerBody)
    ensures { FitsBody body.now }
{
    match body {
        Body::Inner(command) => claim_fits(command),
        Body::Asked(origin, number, at, action) => {
            origin.node();
            origin.boot();
            origin.client();
            number.value();
            at.seconds();
            action.fits();
        }
        Body::Blank => {}
        Body::Mark(mark) => mark.fits(),
    }
}

fn claim_fits(command: &ClaimsCommand<FenceCommand<Command, WireLine>>)
    ensures { FitsClaimed command.now }
{
    match command {
        ClaimsCommand::Inner(command) => session_fits(command),
        ClaimsCommand::Claim(id, number) => {
            id_fits(*id);
            number.value();
        }
    }
}

fn session_fits(command: &FenceCommand<Command, WireLine>)
    ensures { FitsSessioned command.now }
{
    match command {
        FenceCommand::Inner(command) => command.fits(),
        FenceCommand::Opened(id) | FenceCommand::Shut(id) => id_fits(*id),
        FenceCommand::Heard(id, number, at, line) => {
            id_fits(*id);
            number.value();
            at.seconds();
            line.fits();
        }
    }
}

fn id_fits(id: SessionId)
    ensures { FitsSession id }
{
    id.term();
    id.attempt();
}
