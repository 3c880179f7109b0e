//! What a leader is about to append of its session with the server, by bodies of the machine that it hosts.
ghost use Rattle.std.specs.Prelude.{length};
ghost use Rattle.raft_log.specs.Positions.{live_of};
ghost use Rattle.node_steps.specs.Plans.{CountsLines, IsPrepared};
ghost use Rattle.node_steps.specs.Plans.{claim_plan, close_plan, hear_plan, open_plan};

use crate::own::{append_own, leads};
use crate::refusal::Refusal;
use crate::unprepared::Unprepared;
use machine_laws::Hosted;
use raft_log::{Live, Log, Standing, Step};
use std::alloc::Global;
use wire_bytes::{LAST_NUMBER, Moment, Number, SessionId};

/// A leader without a session opens its next one, by the body of its id: the term, and the next attempt of this run. A
/// leader that has a session does nothing, and neither does a node that does not lead.
///
/// Refused with `TermsSpent` if 2^60 attempts were made, else with `LogFull`.
pub fn on_opened<M: Hosted>(
    alloc: Global,
    standing: Standing,
    log: &Log<M::Command>,
) -> Result<Step<M::Command>, Unprepared>
    ensures { IsPrepared (open_plan M.opened) standing log.now result }
{
    if !leads(&standing) {
        return Ok(Step::still(alloc, standing, log));
    }
    if standing.position.live().is_some() {
        return Ok(Step::still(alloc, standing, log));
    }
    let made = standing.attempts.value();
    if made >= LAST_NUMBER {
        return Err(Unprepared::Refused(Refusal::TermsSpent));
    }
    let attempts = Number::new(made + 1);
    let id = SessionId::new(standing.term.value(), attempts.value());
    let next = Number::new(1);
    let body = M::opened(id);
    M::fits(&body);
    append_own(
        alloc,
        standing,
        log,
        Some(Live { id, next }),
        attempts,
        body,
    )
}

/// A leader shuts its session, if it has one.
///
/// Refused with `LogFull`, and the session is still live then.
pub fn on_closed<M: Hosted>(
    alloc: Global,
    standing: Standing,
    log: &Log<M::Command>,
) -> Result<Step<M::Command>, Unprepared>
    ensures { IsPrepared (close_plan M.shut) standing log.now result }
{
    match standing.position.live() {
        Some(live) => {
            let body = M::shut(live.id);
            M::fits(&body);
            let attempts = standing.attempts;
            append_own(alloc, standing, log, None, attempts, body)
        }
        None => Ok(Step::still(alloc, standing, log)),
    }
}

/// A line came in the session of a leader, at a moment. It has the session's next number.
///
/// Refused with `LogFull`. The line is lost then, and the session's next line has its number.
pub fn on_heard<M: Hosted>(
    alloc: Global,
    standing: Standing,
    log: &Log<M::Command>,
    at: Moment,
    line: M::Line,
) -> Result<Step<M::Command>, Unprepared>
    requires { CountsLines (live_of standing.position) (length log.now) }
    ensures { IsPrepared (hear_plan (λ id number. M.heard id number at line))
        standing log.now result }
{
    match standing.position.live() {
        Some(live) => {
            // no log has more than 1,000,000 entries
            log.len();
            let counted = Live {
                id: live.id,
                next: Number::new(live.next.value() + 1),
            };
            let body = M::heard(live.id, live.next, at, line);
            M::fits(&body);
            let attempts = standing.attempts;
            append_own(alloc, standing, log, Some(counted), attempts, body)
        }
        None => Ok(Step::still(alloc, standing, log)),
    }
}

/// The session of a leader claims the line of this number, if any. The number is the machine's next claim.
///
/// Refused with `LogFull`.
pub fn on_claim<M: Hosted>(
    alloc: Global,
    standing: Standing,
    log: &Log<M::Command>,
    number: Option<Number>,
) -> Result<Step<M::Command>, Unprepared>
    ensures { IsPrepared (claim_plan M.claim number) standing log.now result }
{
    match standing.position.live() {
        Some(live) => match number {
            Some(number) => {
                let body = M::claim(live.id, number);
                M::fits(&body);
                let attempts = standing.attempts;
                append_own(alloc, standing, log, Some(live), attempts, body)
            }
            None => Ok(Step::still(alloc, standing, log)),
        },
        None => Ok(Step::still(alloc, standing, log)),
    }
}
