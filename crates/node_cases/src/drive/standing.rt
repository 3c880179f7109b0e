//! How a node stands, as words of a story say it.
use crate::stories::fault::Fault;
use crate::stories::words::{cut, number};
use irc_line::is_same;
use node_notes::{Progress, Status};
use raft_log::Role;
use raft_node::Cause;
use recorder::split;
use wire_bytes::{Number, SessionId};

/// How a node stands, how far its worker is, and whether a turn of it was refused.
#[derive(Clone, Copy)]
pub struct Standing {
    pub status: Status,
    pub progress: Progress,
    pub is_refused: bool,
}

impl Standing {
    /// Of a node that leads, follows or is down, as its word says, in term 1 and its first run, with an empty log, whose
    /// worker did nothing yet.
    fn of_word(word: &[u8]) -> Result<Standing, Fault> {
        if is_same(word, b"leads") {
            Ok(first(Role::Leader, None))
        } else if is_same(word, b"follows") {
            Ok(first(Role::Follower, None))
        } else if is_same(word, b"fails") {
            Ok(first(Role::Follower, Some(Cause::Store)))
        } else {
            Err(Fault::NoStep)
        }
    }

    /// The same, but for what one more word says, as `term=2`.
    fn but_for(self, word: &[u8]) -> Result<Standing, Fault> {
        let mut standing = self;
        if is_same(word, b"refused") {
            standing.is_refused = true;
            return Ok(standing);
        }
        let (key, digits) = split(word, b'=').ok_or(Fault::NoStep)?;
        let value = number(digits)?;
        if is_same(key, b"done") {
            standing.progress.done = value;
        } else if is_same(key, b"waiting") {
            standing.progress.waiting = value;
        } else if is_same(key, b"lost") {
            standing.progress.lost = value;
        } else {
            standing.status = changed(self.status, key, Number::new(value))?;
        }
        Ok(standing)
    }
}

/// How a node stands in term 1 and its first run, with an empty log.
fn first(role: Role, down: Option<Cause>) -> Standing {
    let status = Status {
        role,
        boot: Number::new(1),
        term: Number::new(1),
        last: Number::new(0),
        commit: Number::new(0),
        applied: Number::new(0),
        session: None,
        next_claim: None,
        down,
    };
    let progress = Progress {
        done: 0,
        waiting: 0,
        lost: 0,
        contacts: 0,
    };
    Standing {
        status,
        progress,
        is_refused: false,
    }
}

/// This status, but for the value of this key.
fn changed(status: Status, key: &[u8], value: Number) -> Result<Status, Fault> {
    let mut status = status;
    if is_same(key, b"run") {
        status.boot = value;
    } else if is_same(key, b"term") {
        status.term = value;
    } else if is_same(key, b"log") {
        status.last = value;
    } else if is_same(key, b"commit") {
        status.commit = value;
    } else if is_same(key, b"applied") {
        status.applied = value;
    } else if is_same(key, b"claim") {
        status.session = Some(SessionId::new(1, 1));
        status.next_claim = Some(value);
    } else {
        return Err(Fault::NoStep);
    }
    Ok(status)
}

/// How a node stands that this word and those behind it tell of.
pub fn standing_of(word: &[u8], words: &[u8]) -> Result<Standing, Fault> {
    let mut standing = Standing::of_word(word)?;
    for word in words.split(|byte| *byte == b' ') {
        if !word.is_empty() {
            standing = standing.but_for(word)?;
        }
    }
    Ok(standing)
}
