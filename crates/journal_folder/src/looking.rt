//! A look at the files of a group's journals, none of which is read.
ghost use Rattle.std.specs.Prelude.{◌≡◌, ◌≤◌, IfErr, length};
ghost use Rattle.journal_folder.specs.Faults.{IsOfFiles};
ghost use Rattle.journal_folder.specs.Looking.{seen};

use crate::fault::RenewFault;
use crate::folders::folder_of;
use crate::journal_bytes::EMPTY_LEN;
use crate::nodes::nodes_of;
use raft_log::{GroupSize, NodeId};
use run_plan::journal_path;
use std::fs;
use std::fs::Files;
use std::io::ErrorKind;

/// What a look at the files of a group's journals shows.
#[derive(Clone, Copy, Debug, PartialEq, Eq)]
pub enum Look {
    /// Nothing is saved in any of them.
    New,
    /// Something may be saved in each of them.
    Full,
    /// Something may be saved in some of them, and nothing is in others.
    Partly,
}

/// Looks at the journals in the folders of a group of this size.
pub fn look_at<R: Files + AllocGlobal>(
    rt: &R,
    folders: &[String],
    size: GroupSize,
) -> Result<Look, RenewFault>
    requires { 1 ≤ length folders.now }
    ensures { IfErr result IsOfFiles }
{
    let mut full = 0u8;
    let nodes = nodes_of(rt.alloc(), size)?;
    for node in &nodes {
        if is_longer(rt, folder_of(folders, *node), *node)? {
            full += 1;
        }
    }
    Ok(seen(full, size.value()))
}

/// What is seen if this many of this many files are longer than an empty journal.
fn seen(full: u8, size: u8) -> Look
    ensures { result ≡ seen full size }
{
    if full == 0 {
        Look::New
    } else if full < size {
        Look::Partly
    } else {
        Look::Full
    }
}

/// Whether a folder has a node's journal, which is longer than an empty one.
pub fn is_longer<R: Files + AllocGlobal>(
    rt: &R,
    folder: &str,
    node: NodeId,
) -> Result<bool, RenewFault>
    ensures { IfErr result IsOfFiles }
{
    let path = journal_path(rt.alloc(), folder, node)?;
    match fs::metadata(rt, path.as_str()) {
        Ok(metadata) => Ok(metadata.len() > EMPTY_LEN as u64),
        Err(error) if error.kind() == ErrorKind::NotFound => Ok(false),
        Err(error) => Err(RenewFault::Unread(path, error)),
    }
}
