//! Renewing a log.
ghost use Rattle.std.specs.Prelude.{◌≡◌, ◌≢◌, ◌≤◌, ◌<◌, ◌⊎◌, ◌+◌, ◌++◌, ◌∷◌, [], length, map, false, IfErr, IfOk, OnOk};
ghost use Rattle.machine_laws.specs.Runs.{History};
ghost use Rattle.buffer_commands.specs.Settings.{Settings};
ghost use Rattle.bouncer_tower.specs.Bodies.{TowerBody};
ghost use Rattle.raft_log.specs.declared.entry.Entry.{Entry};
ghost use Rattle.wire_bytes.specs.Limits.{node_limit, number_limit};
ghost use Rattle.renewal.specs.Lists.{AreCounted, AreSpent, IsRenewal, IsSpent, are_known, client_of, entry_of, floors_from, floors_of, settled_log};

use crate::anew::{begun_anew, buffers_of};
use crate::bound::{kept_in_channels, kept_in_queries};
use crate::change::Change;
use crate::draft::Start;
use crate::fault::RenewalFault;
use crate::noting::folded_log;
use bouncer_tower::{Layers, Tower, TowerBody};
use buffer_commands::Setup;
use irc_line::Name;
use machine_laws::{Hosted, Machine};
use raft_log::{Entry, Log, LoggedBody};
use std::alloc::{AllocError, Global};
use wire_bytes::{Copied, LAST_NUMBER, MOST_NODES, Number, Origin, Wire};

/// A renewed log, and how much the old one kept.
#[derive(Drop)]
pub struct Renewal {
    /// All its entries are of the term after the greatest one so far.
    pub log: Log<TowerBody>,
    pub targets: u64,
    pub lines: u64,
}

/// A log under the setup `to` that leads to the same as this one under `from`, once all clients of the runs so far are
/// gone and no session is in force. `forgotten` are names of clients that are dropped with what they have seen. `boots`
/// are the greatest run of each node, node 1's first, for as many nodes as the larger of the two groups has, and `term`
/// is the greatest term. The new log belongs to the next run of each node, and to the next term: the next start of each
/// node must have a run after that.
pub fn renewed(
    alloc: Global,
    from: &Setup,
    to: &Setup,
    forgotten: &[Name],
    log: &Log<TowerBody>,
    boots: &[Number],
    term: Number,
) -> Result<Renewal, RenewalFault>
    ensures begun { IfOk result (λ r. IsRenewal from.now to.now forgotten.now boots.now term
        log.now r.log) }
    ensures counted { IfOk result (λ r. AreCounted from.now
        (settled_log boots.now log.now) r.targets r.lines) }
    ensures unknown { IfErr result (λ e. e ≡ RenewalFault.UnknownName
        → are_known from.now (settled_log boots.now log.now) forgotten.now ≡ false) }
{
    let start = start_of(boots, term)?;
    let floors = floors_of(alloc, boots)?;
    let (mut layers, joined) = folded_log(alloc, from, log)?;
    let change = Change {
        from,
        to,
        forgotten,
        joined: &joined,
    };
    let bodies = begun_anew(alloc, &change, &mut layers, &start, &floors)?;
    let (targets, lines) = counted(&layers);
    let anew = logged::<Tower>(alloc, &bodies, start.term)?;
    Ok(Renewal {
        log: anew,
        targets,
        lines,
    })
}

/// How many targets there are, and how many lines they keep.
fn counted(layers: &Layers) -> (u64, u64)
    ensures { (s : Settings) (h : History TowerBody)
        → ⟦<Layers as Machine>⟧.stands layers.now s h → AreCounted s h result.0 result.1 }
{
    let buffers = buffers_of(layers);
    let (channels, queries) = (buffers.channels(), buffers.queries());
    let targets = channels.len().saturating_add(queries.len());
    let lines = kept_in_channels(channels).saturating_add(kept_in_queries(queries));
    (targets as u64, lines as u64)
}

/// This number plus `by`.
fn behind(number: Number, by: u64) -> Result<Number, RenewalFault>
    requires { by ≤ 2 }
    ensures next { IfOk result (λ n. n ≡ number + by) }
    ensures fault { IfErr result (λ e. e ≡ RenewalFault.Spent) }
    ensures spent { IfErr result (λ _. number_limit < number + by) }
{
    if number.value() + by > LAST_NUMBER {
        return Err(RenewalFault::Spent);
    }
    Ok(Number::new(number.value() + by))
}

/// The term after the greatest one, and a client of the run of node 1 after the greatest one.
fn start_of(boots: &[Number], term: Number) -> Result<Start, RenewalFault>
    ensures term { IfOk result (λ s. s.term ≡ term + 1) }
    ensures client { IfOk result (λ s. s.client ≡ client_of boots.now) }
    ensures fault { IfErr result (λ e. e ≡ RenewalFault.Spent) }
    ensures spent { IfErr result (λ _. IsSpent boots.now term) }
{
    let [boot, ..] = boots else {
        return Err(RenewalFault::Spent);
    };
    let run = behind(*boot, 1)?;
    Ok(Start {
        term: behind(term, 1)?,
        client: Origin::new(1, run.value(), 1),
    })
}

/// The floor of each node, after the run of the renewal.
fn floors_of(alloc: Global, boots: &[Number]) -> Result<Vec<(u8, Number)>, RenewalFault>
    ensures floors { IfOk result (λ v. v.items ≡ floors_of boots.now) }
    ensures fault { IfErr result (λ e. e ≢ RenewalFault.UnknownName) }
    ensures spent { IfErr result (λ e. e ≡ RenewalFault.Spent
        → (node_limit < length boots.now) ⊎ AreSpent boots.now) }
{
    if boots.len() > MOST_NODES as usize {
        return Err(RenewalFault::Spent);
    }
    let mut floors = Vec::new(alloc);
    push_floors(&mut floors, 1, boots)?;
    Ok(floors)
}

/// The floors of the nodes from this one on.
fn push_floors(
    floors: &mut Vec<(u8, Number)>,
    node: u8,
    boots: &[Number],
) -> Result<(), RenewalFault>
    requires { node + length boots.now ≤ 8 }
    ensures floors { OnOk result
        (floors.new.items ≡ floors.old.items ++ floors_from node boots.now) }
    ensures fault { IfErr result (λ e. e ≢ RenewalFault.UnknownName) }
    ensures spent { IfErr result (λ e. e ≡ RenewalFault.Spent → AreSpent boots.now) }
{
    match boots {
        [] => Ok(()),
        [boot, boots @ ..] => {
            push_floor(floors, node, behind(*boot, 2)?)?;
            push_floors(floors, node + 1, boots)
        }
    }
}

fn push_floor(floors: &mut Vec<(u8, Number)>, node: u8, floor: Number) -> Result<(), AllocError>
    ensures { OnOk result (floors.new.items ≡ floors.old.items ++ (node, floor) ∷ []) }
{
    floors.push((node, floor))?;
    Ok(())
}

/// A log of these bodies, all of one term.
fn logged<M: Hosted>(
    alloc: Global,
    bodies: &[M::Command],
    term: Number,
) -> Result<Log<M::Command>, RenewalFault>
    ensures log { IfOk result (λ l. l ≡ map (entry_of term) bodies.now) }
    ensures fault { IfErr result (λ e. e ≢ RenewalFault.UnknownName) }
{
    let mut log = Log::new(alloc);
    for body in bodies {
        push_copy::<M>(alloc, &mut log, body, term)?;
    }
    Ok(log)
}

/// One more entry, if there is room for it.
fn push_copy<M: Hosted>(
    alloc: Global,
    log: &mut Log<M::Command>,
    body: &M::Command,
    term: Number,
) -> Result<(), RenewalFault>
    ensures log { OnOk result (log.new ≡ log.old ++ entry_of term body.now ∷ []) }
    ensures fault { IfErr result (λ e. e ≢ RenewalFault.UnknownName) }
{
    if log.is_full() {
        return Err(RenewalFault::TooLong);
    }
    let body = body.copy(alloc)?;
    M::fits(&body);
    let body = LoggedBody::new(alloc, body)?;
    log.push(Entry { term, body })?;
    Ok(())
}
