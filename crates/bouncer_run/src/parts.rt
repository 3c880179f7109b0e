//! What the nodes of a bouncer run with.
ghost use Rattle.std.specs.Prelude.{◌≡◌, ◌+◌, ◌≤◌, EachIndex, IfOk, length, map, option_map, slice_index};
ghost use Rattle.bouncer_run.specs.Opened.{AreOver, IsOver, run_of_group};
ghost use Rattle.wire_bytes.specs.Limits.{node_limit};

use crate::inlet::Inlet;
use crate::inlets::Inlets;
use crate::journal_errors::JournalErrors;
use crate::late_journal::LateJournal;
use crate::outlet::LoopOutlet;
use crate::system::System;
use bouncer_config::Config;
use bouncer_tower::TowerBody;
use file_disk::{FileJournal, LastError};
use journal_folder::run_told;
use node_cells::Upstream;
use node_threads::{Part, PartStore};
use raft_log::NodeId;
use std::alloc::{AllocError, Global};
use wire_bytes::Number;

/// What a node of a bouncer starts over.
pub type NodeStore<R> = PartStore<FileJournal<TowerBody>, LateJournal<R>>;

/// What a node of a bouncer runs with.
pub type BouncerPart<R, U> = Part<NodeStore<R>, U, LoopOutlet>;

/// What each node starts over, node 1's first: its journal, or what opens it late if the store says
/// this about itself. Why that one failed is noted in these errors.
pub fn stores<R: System>(
    rt: &R,
    config: &Config,
    opened: Vec<Option<FileJournal<TowerBody>>>,
    setup: &[u8],
    errors: &JournalErrors,
) -> Result<Vec<NodeStore<R>>, AllocError>
    requires { length opened.items ≤ node_limit }
    ensures count { IfOk result (λ stores. length stores.items ≡ length opened.items) }
    ensures few { IfOk result (λ stores. length stores.items ≤ node_limit) }
    ensures over { IfOk result (λ stores. AreOver (λ late. late.run)
        (run_of_group (map (option_map (λ j. j.saved)) opened.items)) 1 opened.items
        stores.items) }
{
    let runs = runs_told(rt.alloc(), &opened)?;
    let mut stores = Vec::new(rt.alloc());
    for journal in opened {
        let node = NodeId::new(stores.len() as u8 + 1);
        let run = runs[stores.len()];
        let store = store_of(rt, config.folder(node), node, journal, setup, run, errors)?;
        stores.push(store)?;
    }
    Ok(stores)
}

/// The last run of each node that the logs of these journals show.
fn runs_told(
    alloc: Global,
    opened: &[Option<FileJournal<TowerBody>>],
) -> Result<Vec<Number>, AllocError>
    requires { length opened.now ≤ node_limit }
    ensures count { IfOk result (λ runs. length runs.items ≡ length opened.now) }
    ensures runs { IfOk result (λ runs. EachIndex runs.items (λ k. slice_index runs.items k
        ≡ run_of_group (map (option_map (λ j. j.saved)) opened.now) (k + 1))) }
{
    let mut runs = Vec::new(alloc);
    for index in 0..opened.len() {
        runs.push(run_told(NodeId::new(index as u8 + 1), opened))?;
    }
    Ok(runs)
}

/// What a node starts over, if this run was its last that the logs show: this journal, or what
/// opens it late in this folder.
fn store_of<R: System>(
    rt: &R,
    folder: &str,
    node: NodeId,
    journal: Option<FileJournal<TowerBody>>,
    setup: &[u8],
    run: Number,
    errors: &JournalErrors,
) -> Result<NodeStore<R>, AllocError>
    ensures { IfOk result (IsOver (λ late. late.run) run journal) }
{
    if let Some(journal) = journal {
        return Ok(PartStore::Ready(journal));
    }
    let last_error = match errors.of_node(node) {
        Some(error) => error.share()?,
        None => LastError::none(rt.alloc())?,
    };
    let late = LateJournal::of(rt, folder, node, setup, run, last_error)?;
    Ok(PartStore::Late(late))
}

/// What each node runs with, node 1's first: what it starts over, and ways to send to the loop.
/// `hands` makes what its lines go to.
pub fn parts<R: System, U: Upstream, F: Fn(R, Global, NodeId, Inlet) -> U>(
    rt: &R,
    inlets: &Inlets,
    stores: Vec<NodeStore<R>>,
    hands: &F,
) -> Result<Vec<BouncerPart<R, U>>, AllocError>
    requires stores { length stores.items ≤ node_limit }
    requires hands { F.IsAlwaysCallable hands.now }
    ensures { IfOk result (λ parts. map (λ p. p.store) parts.items ≡ stores.items) }
{
    let mut parts = Vec::new(rt.alloc());
    for store in stores {
        let node = NodeId::new(parts.len() as u8 + 1);
        let upstream = hands(*rt, rt.alloc(), node, inlets.one()?);
        let outlet = LoopOutlet {
            inlet: inlets.one()?,
        };
        let part = Part {
            store,
            upstream,
            outlet,
        };
        parts.push(part)?;
    }
    Ok(parts)
}
