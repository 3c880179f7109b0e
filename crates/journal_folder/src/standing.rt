//! The states of the journals of a group, some of which may be lost.
ghost use Rattle.std.specs.Prelude.{◌≡◌, ◌⊎◌, ◌<◌, ◌≤◌, ◌++◌, ◌+◌, [], None, IfErr, IfOk, OnOk, length};
ghost use Rattle.journal_folder.specs.Counting.{boot_told};
ghost use Rattle.journal_folder.specs.Runs.{greatest_boot, last_run, run_told};
ghost use Rattle.journal_folder.specs.Faults.{IsOfStanding};
ghost use Rattle.journal_folder.specs.Losses.{IsPastLast, Stands, all_held, has_entries, held, holds_entries, is_new, loss_in, losses_among, may_be_new, runs_apart, saved_for, stand_in, standing_among};
ghost use Rattle.wire_bytes.specs.Limits.{node_limit, number_limit};

use crate::earlier_runs::{greatest_boot, last_run};
use crate::fault::RenewFault;
use crate::loss::{Loss, LostJournal, LostJournals, TooFew};
use crate::saving::is_nothing;
use bouncer_tower::TowerBody;
use raft_log::{Log, NodeId};
use stable_store::Saved;
use std::alloc::{AllocError, Global};
use wire_bytes::{Copied, LAST_NUMBER, Number};

/// A node whose journal is lost begins this far after the greatest run of it that the other logs mention.
// no other node knows of runs in which nothing was agreed, and no run may come again. Without a majority a node begins
// at most one in 2 s, so that it takes 23 days to use up this many
const RUNS_APART: u64 = 1_000_000;

/// What the file of a journal shows.
#[derive(Drop)]
pub enum Journal {
    /// This is saved in it.
    Whole(Saved<TowerBody>),
    Lost(Loss),
}

/// The state of the journal of a node.
#[derive(Drop)]
pub struct NodeJournal {
    pub node: NodeId,
    pub journal: Journal,
}

/// The states of the journals of a group.
#[derive(Drop)]
pub struct Standing {
    /// What is saved in each journal, node 1's first. For one that is lost, a store that holds nothing but a run.
    pub saved: Vec<Saved<TowerBody>>,
    pub lost: LostJournals,
}

/// The states of the journals of a group in these folders, more than half of which are whole.
pub fn stand_for(
    alloc: Global,
    folders: &[String],
    journals: &[NodeJournal],
) -> Result<Standing, RenewFault>
    requires few { length journals.now ≤ node_limit }
    ensures stands { IfOk result (Stands journals.now) }
    ensures count { IfOk result (λ s. length s.saved.items ≡ length journals.now) }
    ensures fault { IfErr result (IsOfStanding journals.now) }
{
    let mut lost = Vec::new(alloc);
    push_losses(&mut lost, journals, journals)?;
    if lost.len() * 2 >= journals.len() {
        let lost = LostJournals { journals: lost };
        return Err(RenewFault::TooFew(TooFew::new(alloc, folders, lost)?));
    }
    let mut saved = Vec::new(alloc);
    push_standing(alloc, &mut saved, journals, journals)?;
    Ok(Standing {
        saved,
        lost: LostJournals { journals: lost },
    })
}

/// Appends the ones among these journals, of this group, that are lost.
fn push_losses(
    lost: &mut Vec<LostJournal>,
    journals: &[NodeJournal],
    group: &[NodeJournal],
) -> Result<(), AllocError>
    ensures lost { OnOk result
        (lost.new.items ≡ lost.old.items ++ losses_among group.now journals.now) }
    ensures few { OnOk result
        (length lost.new.items ≤ length lost.old.items + length journals.now) }
{
    match journals {
        [] => Ok(()),
        [first, journals @ ..] => {
            if let Some(loss) = loss_in(first, group) {
                lost.push(LostJournal {
                    node: first.node,
                    loss,
                })?;
            }
            push_losses(lost, journals, group)
        }
    }
}

/// Why a journal of a group is lost, if it is.
fn loss_in(first: &NodeJournal, group: &[NodeJournal]) -> Option<Loss>
    ensures { result ≡ loss_in group.now first.now }
{
    match &first.journal {
        Journal::Whole(saved) => {
            if has_entries(group) && is_nothing(saved) {
                Some(Loss::Empty)
            } else if saved.boot.value() < run_told(first.node, group).value() {
                Some(Loss::Older)
            } else {
                None
            }
        }
        Journal::Lost(Loss::Missing) => {
            if is_new(group) {
                None
            } else {
                Some(Loss::Missing)
            }
        }
        Journal::Lost(loss) => Some(*loss),
    }
}

/// Whether nothing is saved in any of these journals that exists.
fn is_new(group: &[NodeJournal]) -> bool
    ensures { result ≡ is_new group.now }
{
    match group {
        [] => true,
        [first, group @ ..] => may_be_new(&first.journal) && is_new(group),
    }
}

/// Whether a journal is missing, or nothing is saved in it.
fn may_be_new(journal: &Journal) -> bool
    ensures { result ≡ may_be_new journal.now }
{
    match journal {
        Journal::Whole(saved) => is_nothing(saved),
        Journal::Lost(loss) => *loss == Loss::Missing,
    }
}

/// Whether entries are saved in one of these journals.
fn has_entries(group: &[NodeJournal]) -> bool
    ensures { result ≡ has_entries group.now }
{
    match group {
        [] => false,
        [first, group @ ..] => holds_entries(&first.journal) || has_entries(group),
    }
}

/// Whether entries are saved in a journal.
fn holds_entries(journal: &Journal) -> bool
    ensures { result ≡ holds_entries journal.now }
{
    match journal {
        Journal::Whole(saved) => saved.log.len().value() > 0,
        Journal::Lost(_) => false,
    }
}

/// Appends the states of these journals, of this group.
fn push_standing(
    alloc: Global,
    saved: &mut Vec<Saved<TowerBody>>,
    journals: &[NodeJournal],
    group: &[NodeJournal],
) -> Result<(), RenewFault>
    ensures saved { OnOk result
        (saved.new.items ≡ saved.old.items ++ standing_among group.now journals.now) }
    ensures count { OnOk result
        (length saved.new.items ≡ length saved.old.items + length journals.now) }
    ensures fault { IfErr result (λ e. (e ≡ RenewFault.Memory)
        ⊎ ((e ≡ RenewFault.Spent) × IsPastLast group.now journals.now)) }
{
    match journals {
        [] => Ok(()),
        [first, journals @ ..] => {
            saved
                .push(saved_for(alloc, first, group)?)
                .map_err(|_| RenewFault::Memory)?;
            push_standing(alloc, saved, journals, group)
        }
    }
}

/// The state of a journal of a group.
fn saved_for(
    alloc: Global,
    journal: &NodeJournal,
    group: &[NodeJournal],
) -> Result<Saved<TowerBody>, RenewFault>
    ensures saved { IfOk result (λ saved. saved ≡ saved_for group.now journal.now
        (loss_in group.now journal.now)) }
    ensures fault { IfErr result (λ e. (e ≡ RenewFault.Memory) ⊎ ((e ≡ RenewFault.Spent)
        × (number_limit < boot_told journal.now.node (all_held group.now) + runs_apart))) }
{
    if loss_in(journal, group).is_some() {
        return stand_in(alloc, journal.node, group);
    }
    match &journal.journal {
        Journal::Whole(saved) => Ok(saved.copy(alloc)?),
        Journal::Lost(_) => Ok(with_run(alloc, Number::new(0))),
    }
}

/// What stands in for the lost journal of a node: nothing but a run after all that the others' logs mention.
fn stand_in(
    alloc: Global,
    node: NodeId,
    group: &[NodeJournal],
) -> Result<Saved<TowerBody>, RenewFault>
    ensures saved { IfOk result (λ saved. saved ≡ stand_in node group.now) }
    ensures spent { IfErr result (λ e. (e ≡ RenewFault.Spent)
        × (number_limit < boot_told node (all_held group.now) + runs_apart)) }
{
    let boot = boot_told(node, group).value() + RUNS_APART;
    if boot > LAST_NUMBER {
        return Err(RenewFault::Spent);
    }
    Ok(with_run(alloc, Number::new(boot)))
}

/// A store that holds nothing but a run.
fn with_run(alloc: Global, boot: Number) -> Saved<TowerBody>
    ensures { result ≡ record { boot = boot; term = 0; vote = None; log = [] } }
{
    Saved {
        boot,
        term: Number::new(0),
        vote: None,
        log: Log::new(alloc),
    }
}

/// The last run of a node that has begun according to the logs in these journals.
fn run_told(node: NodeId, group: &[NodeJournal]) -> Number
    ensures { result ≡ run_told node (all_held group.now) }
{
    match group {
        [] => Number::new(0),
        [first, group @ ..] => {
            let told = run_held(node, &first.journal);
            Number::new(told.max(run_told(node, group).value()))
        }
    }
}

/// The last run of a node that has begun according to the log in a journal.
fn run_held(node: NodeId, journal: &Journal) -> u64
    ensures run { result ≡ last_run node (held journal.now).log }
    ensures limit { result ≤ number_limit }
{
    match journal {
        Journal::Whole(saved) => last_run(node, &saved.log),
        Journal::Lost(_) => 0,
    }
}

/// The greatest run of a node that the logs in these journals mention.
fn boot_told(node: NodeId, group: &[NodeJournal]) -> Number
    ensures { result ≡ boot_told node (all_held group.now) }
{
    match group {
        [] => Number::new(0),
        [first, group @ ..] => {
            let told = boot_held(node, &first.journal);
            Number::new(told.max(boot_told(node, group).value()))
        }
    }
}

/// The greatest run of a node that the log in a journal mentions.
fn boot_held(node: NodeId, journal: &Journal) -> u64
    ensures boot { result ≡ greatest_boot node (held journal.now).log }
    ensures limit { result ≤ number_limit }
{
    match journal {
        Journal::Whole(saved) => greatest_boot(node, &saved.log),
        Journal::Lost(_) => 0,
    }
}
