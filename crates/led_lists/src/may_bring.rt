//! What a leader may bring next, and what it keeps after it.
ghost use Rattle.std.specs.Prelude.{◌≡◌, ◌&&◌, suc, nat_lt, if◌then◌else◌, Some, None};
ghost use Rattle.session_fence.specs.declared.command.FenceCommand.TheVariants.{Opened};
ghost use Rattle.led_lists.specs.Led.{behind_claim, behind_session, brought, is_blank, is_live};
ghost use Rattle.led_lists.specs.Led.{is_next_line, may_bring_claim, may_bring_session};
ghost use Rattle.wire_bytes.specs.Limits.{number_limit};

use crate::leading::Leading;
use bouncer_tower::TowerBody;
use buffer_commands::{Command, WireLine};
use raft_log::Live;
use request_once::Body;
use session_fence::FenceCommand;
use upstream_claim::ClaimsCommand;
use wire_bytes::{LAST_NUMBER, Number, Origin, SessionId};

/// Whose list it is: the term of the leader, and the client whose requests it brings.
#[derive(Clone, Copy)]
pub struct Whose {
    pub term: Number,
    pub client: Origin,
}

/// What the leader keeps after a body, where this is the next line to be claimed; nothing if it may not bring the body.
pub fn brought(
    whose: &Whose,
    leading: Leading,
    next: Option<u64>,
    body: &TowerBody,
) -> Option<Leading>
    ensures { result ≡ brought whose.now.term whose.now.client leading next body.now }
{
    match body {
        Body::Inner(command) => brought_claim(whose.term, leading, next, command),
        Body::Asked(origin, _, _, _) if whose.client == *origin => Some(leading),
        Body::Asked(_, _, _, _) | Body::Blank | Body::Mark(_) => None,
    }
}

/// Whether a body is what a new leader appends first.
pub fn is_blank(body: &TowerBody) -> bool
    ensures { result ≡ is_blank body.now }
{
    match body {
        Body::Blank => true,
        Body::Inner(_) | Body::Asked(_, _, _, _) | Body::Mark(_) => false,
    }
}

fn brought_claim(
    term: Number,
    leading: Leading,
    next: Option<u64>,
    command: &ClaimsCommand<FenceCommand<Command, WireLine>>,
) -> Option<Leading>
    ensures { result ≡ if may_bring_claim term leading next command.now
        then Some (behind_claim leading command.now) else None }
{
    match command {
        ClaimsCommand::Claim(id, number) => {
            // any other claim would have no effect, so no leader brings one
            if is_live(leading.live, *id) && next == Some(number.value()) {
                Some(leading)
            } else {
                None
            }
        }
        ClaimsCommand::Inner(command) => brought_session(term, leading, command),
    }
}

fn brought_session(
    term: Number,
    leading: Leading,
    command: &FenceCommand<Command, WireLine>,
) -> Option<Leading>
    ensures { result ≡ if may_bring_session term leading command.now
        then Some (behind_session leading command.now) else None }
{
    match command {
        FenceCommand::Opened(id) => opened(term, leading, *id),
        FenceCommand::Shut(id) => shut(leading, *id),
        FenceCommand::Heard(id, number, _, _) => heard(leading, *id, *number),
        FenceCommand::Inner(Command::NodeGone(_, _)) => Some(leading),
        FenceCommand::Inner(_) => None,
    }
}

/// What the leader keeps after it opens the next session of the term; nothing where one is live.
fn opened(term: Number, leading: Leading, id: SessionId) -> Option<Leading>
    ensures { result ≡ if may_bring_session term leading (Opened id)
        then Some (behind_session leading (Opened id)) else None }
{
    let made = leading.attempts.value();
    if leading.live.is_some() || made >= LAST_NUMBER {
        return None;
    }
    if id.term() != term.value() || id.attempt() != made + 1 {
        return None;
    }
    let next = Number::new(1);
    Some(Leading {
        live: Some(Live { id, next }),
        attempts: Number::new(made + 1),
    })
}

/// What the leader keeps after it shuts this session; nothing where it is not live.
fn shut(leading: Leading, id: SessionId) -> Option<Leading>
    ensures { result ≡ if is_live leading.live id
        then Some (record { live = None; attempts = leading.attempts }) else None }
{
    if is_live(leading.live, id) {
        Some(Leading {
            live: None,
            attempts: leading.attempts,
        })
    } else {
        None
    }
}

/// What the leader keeps after one more line of the live session; nothing where it is not the next.
fn heard(leading: Leading, id: SessionId, number: Number) -> Option<Leading>
    ensures { result ≡ if is_next_line leading.live id number && nat_lt number number_limit
        then Some (record {
          live = Some (record { id = id; next = suc number });
          attempts = leading.attempts;
        }) else None }
{
    if !is_next_line(leading.live, id, number) || number.value() >= LAST_NUMBER {
        return None;
    }
    let next = Number::new(number.value() + 1);
    Some(Leading {
        live: Some(Live { id, next }),
        attempts: leading.attempts,
    })
}

fn is_live(live: Option<Live>, id: SessionId) -> bool
    ensures { result ≡ is_live live id }
{
    match live {
        Some(live) => live.id == id,
        None => false,
    }
}

fn is_next_line(live: Option<Live>, id: SessionId, number: Number) -> bool
    ensures { result ≡ is_next_line live id number }
{
    match live {
        Some(live) => live.id == id && live.next == number,
        None => false,
    }
}
