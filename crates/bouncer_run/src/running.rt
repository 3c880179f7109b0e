//! The nodes of a bouncer, as the program starts them and as the loop speaks to them.
ghost use Rattle.std.specs.Prelude.{◌≡◌, IfErr, IfOk, length};
ghost use Rattle.bouncer_run.specs.Faults.{IsOrMemory};
ghost use Rattle.bouncer_run.specs.Groups.{recording_by};
ghost use Rattle.bouncer_run.specs.declared.run_fault.RunFault.TheVariants.{Store};

use crate::event_loop::Nodes;
use crate::fault::fault_of_cluster;
use crate::folders::Folders;
use crate::group::recording_of;
use crate::journal_errors::JournalErrors;
use crate::late_journal::LateJournal;
use crate::parts::BouncerPart;
use crate::record_file::TowerRecord;
use crate::run_fault::RunFault;
use crate::system::System;
use bouncer_config::Config;
use bouncer_tower::{Tower, TowerBody};
use driver::TowerNote;
use file_disk::FileJournal;
use node_cells::Upstream;
use node_threads::{Beats, Cluster, ClusterFault, OpenGate};
use raft_log::{GroupSize, NodeId};
use run_plan::journal_path;
use std::alloc::AllocError;
use std::sync::Wait;

/// The nodes of a bouncer, each in a thread of its own.
#[derive(Drop)]
pub struct Running<R: System, U: Upstream> {
    nodes: Cluster<Tower, FileJournal<TowerBody>, U, LateJournal<R>>,
}

impl<R: System, U: Upstream + Send + 'static> Running<R, U> {
    /// Starts the nodes of a configuration, which keep their turns if it names a file for the
    /// record. A node whose journal is opened late is down until then. If one does not start, a
    /// line was written to standard error that names its journal and says why: what the system
    /// reported as the journal failed, if it did.
    pub fn start(
        rt: &R,
        config: &Config,
        size: GroupSize,
        parts: Vec<BouncerPart<R, U>>,
        errors: &JournalErrors,
    ) -> Result<Running<R, U>, RunFault>
    where
        R::Dir: 'static,
        requires { length parts.items ≡ size }
        ensures nodes { IfOk result (λ r. (r.nodes.ether.size ≡ size)
            × (r.nodes.ether.setup ≡ config.now.setup)) }
        ensures recording { IfOk result (λ r.
            r.nodes.recording ≡ recording_by config.now.record) }
        ensures fault { IfErr result (IsOrMemory Store) }
    {
        let alloc = rt.alloc();
        let recording = recording_of(config);
        let setup = &config.setup;
        match Cluster::start_late(
            rt,
            alloc,
            size,
            setup,
            parts,
            OpenGate,
            recording,
            Beats::OnNews,
        ) {
            Ok(nodes) => Ok(Running { nodes }),
            Err(fault) => {
                let _ = tell_why(rt, config, &fault, errors);
                Err(fault_of_cluster(fault))
            }
        }
    }

    /// Ends the nodes. Returns what each of them did, node 1's first.
    pub fn stop(self, rt: &R) -> Vec<TowerRecord> {
        let Running { nodes } = self;
        nodes.stop(rt)
    }
}

impl<R: System, U: Upstream> Nodes for Running<R, U> {
    ghost use Rattle.std.specs.Prelude.{◌≡◌, ◌≤◌};

    // no clause says what is in a channel
    ghost has_told = { λ old node _ new. (new ≡ old) × (node ≤ old.nodes.ether.size) };

    fn tell<W: Wait>(&mut self, rt: &W, node: NodeId, note: TowerNote) -> bool {
        match self.nodes.node(node) {
            Ok(told) => told.submit(rt, note).is_ok(),
            Err(_) => false,
        }
    }
}

/// Says on standard error why the nodes do not start, with the journal that failed, if one did.
fn tell_why<R: System>(
    rt: &R,
    config: &Config,
    fault: &ClusterFault,
    errors: &JournalErrors,
) -> Result<(), AllocError> {
    let Some((node, error)) = errors.first() else {
        let folders = Folders(config.store.as_slice());
        let _ = eprintln!(rt; "{folders}: {fault}");
        return Ok(());
    };
    let path = journal_path(rt.alloc(), config.folder(node), node)?;
    let _ = match error {
        Some(error) => eprintln!(rt; "{path}: {error}"),
        None => eprintln!(rt; "{path}: {fault}"),
    };
    Ok(())
}
