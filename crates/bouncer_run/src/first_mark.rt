//! How fast a log grew before the program began, by the times in its entries.
ghost use Rattle.std.specs.Prelude.{◌≡◌, ◌⊎◌, ◌≤◌, ◌∷◌, IfOk, length, map, option_map};
ghost use Rattle.journal_folder.specs.Runs.{those_there};
ghost use Rattle.bouncer_run.specs.Days.{IsDayBefore, IsFirst, IsLastBefore, IsLongest, IsOneOf, IsRateOf, is_before, moment_in};

use crate::log_rate::{DAY, LogRate, Mark};
use bouncer_tower::TowerBody;
use file_disk::FileJournal;
use raft_log::Log;
use request_once::Body;
use session_fence::FenceCommand;
use std::alloc::{AllocError, Global};
use upstream_claim::ClaimsCommand;
use wire_bytes::{Moment, Number};

/// How fast the longest log of these journals that are open grew in the day before this time, as
/// its entries show.
pub fn rate_of(
    alloc: Global,
    journals: &[Option<FileJournal<TowerBody>>],
    now: Moment,
) -> Result<LogRate, AllocError>
    ensures { IfOk result (IsRateOf now
        (those_there (map (option_map (λ j. j.saved.log)) journals.now))) }
{
    match journals {
        [] => Ok(LogRate::new(alloc)),
        [None, others @ ..] => rate_of(alloc, others, now),
        [Some(first), others @ ..] => {
            let mark = day_before(longest(first.log(), others), now);
            LogRate::of(alloc, mark)
        }
    }
}

/// The longest of one log and those of the journals that are open.
#[tactic(auto, using(crate::proofs::Longest::longest_of_two, crate::proofs::Longest::one_of_two, crate::proofs::Longest::as_itself))]
fn longest<'a>(
    first: &'a Log<TowerBody>,
    others: &'a [Option<FileJournal<TowerBody>>],
) -> &'a Log<TowerBody>
    ensures longest { IsLongest result.now
        (first.now ∷ those_there (map (option_map (λ j. j.saved.log)) others.now)) }
    ensures one { IsOneOf result.now
        (first.now ∷ those_there (map (option_map (λ j. j.saved.log)) others.now)) }
{
    match others {
        [] => first,
        [None, others @ ..] => longest(first, others),
        [Some(next), others @ ..] => longest(longer(first, next.log()), others),
    }
}

/// The longer one of two logs.
fn longer<'a>(first: &'a Log<TowerBody>, second: &'a Log<TowerBody>) -> &'a Log<TowerBody>
    ensures first { length first.now ≤ length result.now }
    ensures second { length second.now ≤ length result.now }
    ensures one { (result.now ≡ first.now) ⊎ (result.now ≡ second.now) }
{
    if first.len() < second.len() {
        second
    } else {
        first
    }
}

/// How long a log was a day before this time, as its entries show; if none is that old, how long it
/// was at the first time in them.
fn day_before(log: &Log<TowerBody>, now: Moment) -> Option<Mark>
    ensures { IsDayBefore now log.now result }
{
    let at = Moment::new(now.seconds().saturating_sub(DAY));
    match last_before(log, at) {
        0 => first(log),
        entries => Some(Mark { at, entries }),
    }
}

/// The place of the last entry that is known to be from before this time, or 0 if none is. The
/// search begins at the end, since a log may be long.
fn last_before(log: &Log<TowerBody>, at: Moment) -> u64
    ensures { IsLastBefore at log.now result }
{
    let len = log.len().value();
    for behind in 0..len {
        let place = Number::new(len - behind);
        if is_before(log.body(place).get(), at) {
            return place.value();
        }
    }
    0
}

/// The place and the time of the first entry that has a time.
fn first(log: &Log<TowerBody>) -> Option<Mark>
    ensures { IsFirst log.now result }
{
    for before in 0..log.len().value() {
        let place = Number::new(before + 1);
        if let Some(at) = moment_in(log.body(place).get()) {
            return Some(Mark {
                at,
                entries: place.value(),
            });
        }
    }
    None
}

/// Whether a body is known to be from before this time.
fn is_before(body: &TowerBody, at: Moment) -> bool
    ensures { result ≡ is_before at body.now }
{
    match moment_in(body) {
        Some(moment) => moment < at,
        None => false,
    }
}

/// The time in a body, if it is a client's request or a line from the server.
fn moment_in(body: &TowerBody) -> Option<Moment>
    ensures { result ≡ moment_in body.now }
{
    match body {
        Body::Asked(_, _, at, _) => Some(*at),
        Body::Inner(ClaimsCommand::Inner(FenceCommand::Heard(_, _, at, _))) => Some(*at),
        _ => None,
    }
}
