//! What a leader is about to append by an input that only appends.
ghost use Rattle.std.specs.Prelude.{◌≡◌, ℕ, Ok, true};
ghost use Rattle.raft_log.specs.Logs.{entry_limit};
ghost use Rattle.raft_log.specs.Node.{is_leader};
ghost use Rattle.raft_log.specs.Positions.{live_of, role_of};
ghost use Rattle.node_steps.specs.Plans.{CountsLines, ask_plan, claim_plan, close_plan};
ghost use Rattle.node_steps.specs.Plans.{hear_plan, open_plan};
ghost use Rattle.raft_node.specs.Inputs.{bodies, input_plan};
ghost use Rattle.raft_node.specs.Together.{IsPlannedBy, OnlyAppends};

use crate::input::Input;
use machine_laws::Hosted;
use node_steps::{Refusal, may_ask};
use raft_log::{Live, Message, NodeId, Standing};
use wire_bytes::{LAST_NUMBER, Moment, Number, SessionId};

/// A body that a leader is about to append, with its session and the attempts made after that.
#[derive(Drop)]
pub struct Addition<B> {
    pub live: Option<Live>,
    pub attempts: Number,
    pub body: B,
}

/// What a leader appends for an input that only appends, if anything, or why it is refused. The
/// caller checks whether the log takes more entries.
pub fn to_append<M: Hosted>(
    id: NodeId,
    standing: &Standing,
    next: &Option<Number>,
    input: Input<Message<M::Command>, M::Command, M::Line>,
) -> Result<Option<Addition<M::Command>>, Refusal>
    requires leads { is_leader (role_of standing.now.position) ≡ true }
    requires counts { CountsLines (live_of standing.now.position) entry_limit }
    requires appends { OnlyAppends input }
    ensures { (size : ℕ) → IsPlannedBy
        (input_plan (bodies M.blank M.opened M.shut M.heard M.claim M.source) next.now size id input)
        standing.now result }
{
    match input {
        Input::Ask(body) => asked::<M>(id, standing, body),
        Input::Opened => opened::<M>(standing),
        Input::Closed => Ok(closed::<M>(standing)),
        Input::Heard(at, line) => Ok(heard::<M>(standing, at, line)),
        Input::Claim => Ok(claimed::<M>(standing, next)),
        Input::Timeout | Input::Beat | Input::Deliver(_) | Input::Apply => Ok(None),
    }
}

/// The body that is asked for, if it may be asked for here.
fn asked<M: Hosted>(
    id: NodeId,
    standing: &Standing,
    body: M::Command,
) -> Result<Option<Addition<M::Command>>, Refusal>
    requires leads { is_leader (role_of standing.now.position) ≡ true }
    ensures { IsPlannedBy (ask_plan id (M.source body) body) standing.now result }
{
    if !may_ask(standing, id, M::source(&body)) {
        return Err(Refusal::BadOrigin);
    }
    Ok(Some(Addition {
        live: standing.position.live(),
        attempts: standing.attempts,
        body,
    }))
}

/// The next session, if none is live.
fn opened<M: Hosted>(standing: &Standing) -> Result<Option<Addition<M::Command>>, Refusal>
    requires leads { is_leader (role_of standing.now.position) ≡ true }
    ensures { IsPlannedBy (open_plan M.opened) standing.now result }
{
    if standing.position.live().is_some() {
        return Ok(None);
    }
    let made = standing.attempts.value();
    if made >= LAST_NUMBER {
        return Err(Refusal::TermsSpent);
    }
    let attempts = Number::new(made + 1);
    let id = SessionId::new(standing.term.value(), attempts.value());
    let next = Number::new(1);
    Ok(Some(Addition {
        live: Some(Live { id, next }),
        attempts,
        body: M::opened(id),
    }))
}

/// The end of the live session, if there is one.
fn closed<M: Hosted>(standing: &Standing) -> Option<Addition<M::Command>>
    requires leads { is_leader (role_of standing.now.position) ≡ true }
    ensures { IsPlannedBy (close_plan M.shut) standing.now (Ok result) }
{
    let live = standing.position.live()?;
    Some(Addition {
        live: None,
        attempts: standing.attempts,
        body: M::shut(live.id),
    })
}

/// A line of the live session, if there is one, with the session's next number.
fn heard<M: Hosted>(standing: &Standing, at: Moment, line: M::Line) -> Option<Addition<M::Command>>
    requires leads { is_leader (role_of standing.now.position) ≡ true }
    requires counts { CountsLines (live_of standing.now.position) entry_limit }
    ensures { IsPlannedBy (hear_plan (λ id number. M.heard id number at line)) standing.now
        (Ok result) }
{
    let live = standing.position.live()?;
    Some(Addition {
        live: Some(Live {
            id: live.id,
            next: Number::new(live.next.value() + 1),
        }),
        attempts: standing.attempts,
        body: M::heard(live.id, live.next, at, line),
    })
}

/// The claim of the line of this number by the live session, if there are both.
fn claimed<M: Hosted>(standing: &Standing, number: &Option<Number>) -> Option<Addition<M::Command>>
    requires leads { is_leader (role_of standing.now.position) ≡ true }
    ensures { IsPlannedBy (claim_plan M.claim number.now) standing.now (Ok result) }
{
    let live = standing.position.live()?;
    match number {
        Some(number) => {
            let body = M::claim(live.id, *number);
            Some(Addition {
                live: Some(live),
                attempts: standing.attempts,
                body,
            })
        }
        None => None,
    }
}
