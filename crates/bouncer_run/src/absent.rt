//! Nodes whose journals the system does not open.
ghost use Rattle.std.specs.Prelude.{◌≡◌, IfErr};
ghost use Rattle.bouncer_run.specs.Faults.{IsOrMemory};

use crate::made::Made;
use crate::run_fault::RunFault;
use crate::system::System;
use bouncer_config::folder_of;
use journal_folder::make_folder;
use raft_log::{GroupSize, NodeId};
use run_plan::journal_path;
use std::alloc::AllocError;
use std::fs::{File, Files};
use std::io::ErrorKind;
use std::path::Path;
use std::rt::Runtime;
use std::{fs, io};

/// A node whose journal the system does not open.
#[derive(Drop)]
pub struct Absent {
    pub node: NodeId,
    /// The path of what is not opened: its journal, or its folder.
    pub path: String,
    pub error: io::Error,
}

/// The nodes of a group of this size whose folders or journals the system does not open, in rising
/// order. A folder is made if it is not there, which is noted. Nothing is read yet: a journal that
/// opens may still fail.
pub fn absent_in<R: System>(
    rt: &R,
    folders: &[String],
    size: GroupSize,
    made: &mut Made,
) -> Result<Vec<Absent>, RunFault>
    ensures { IfErr result (IsOrMemory RunFault.Store) }
{
    let alloc = rt.alloc();
    let mut absent = Vec::new(alloc);
    for index in 0..size.value() {
        let node = NodeId::new(index + 1);
        if let Some(one) = absent_at(rt, folder_of(folders, node), node, made)? {
            absent.push(one).map_err(|_| RunFault::Memory)?;
        }
    }
    Ok(absent)
}

/// A node whose folder or journal the system does not open, if it is one.
fn absent_at<R: System>(
    rt: &R,
    folder: &str,
    node: NodeId,
    made: &mut Made,
) -> Result<Option<Absent>, RunFault>
    ensures { IfErr result (IsOrMemory RunFault.Store) }
{
    let alloc = rt.alloc();
    if let Err(error) = make(rt, folder, made) {
        let one = Absent::of(node, String::from_str(alloc, folder)?, error)?;
        return Ok(Some(one));
    }
    let path = journal_path(alloc, folder, node)?;
    match is_openable(rt, path.as_str()) {
        Ok(()) => Ok(None),
        Err(error) => Ok(Some(Absent::of(node, path, error)?)),
    }
}

impl Absent {
    /// A node of which this is not opened, unless that is for lack of memory.
    fn of(node: NodeId, path: String, error: io::Error) -> Result<Absent, RunFault>
        ensures { IfErr result (λ f. f ≡ RunFault.Memory) }
    {
        if error.kind() == ErrorKind::OutOfMemory {
            return Err(RunFault::Memory);
        }
        Ok(Absent { node, path, error })
    }
}

/// The folder of a path is there, made if need be, and may be opened.
fn make<R: System>(rt: &R, folder: &str, made: &mut Made) -> io::Result<()> {
    if make_folder(rt, folder)? && made.add_folder(rt.alloc(), folder).is_err() {
        return Err(io::Error::from(ErrorKind::OutOfMemory));
    }
    fs::open(rt, folder)?;
    Ok(())
}

/// The file of a path may be opened, or is not there.
fn is_openable<R: Files<File = File>>(rt: &R, path: &str) -> io::Result<()> {
    match fs::open(rt, path) {
        Ok(_) => Ok(()),
        Err(error) if error.kind() == ErrorKind::NotFound => Ok(()),
        Err(error) => Err(error),
    }
}

/// The nodes of a group of this size that a start would find absent, in rising order. Nothing is
/// made, and what the user who checks may not open counts as open.
pub fn absent_to_be<R: Files<File = File> + AllocGlobal>(
    rt: &R,
    folders: &[String],
    size: GroupSize,
) -> Result<Vec<Absent>, AllocError> {
    let alloc = rt.alloc();
    let mut absent = Vec::new(alloc);
    for index in 0..size.value() {
        let node = NodeId::new(index + 1);
        let folder = folder_of(folders, node);
        if let Err(error) = glance(rt, folder) {
            let path = String::from_str(alloc, folder)?;
            absent
                .push(Absent { node, path, error })
                .map_err(|_| AllocError)?;
        }
    }
    Ok(absent)
}

/// The folder of a path may be opened or made.
fn glance<R: Files<File = File>>(rt: &R, folder: &str) -> io::Result<()> {
    for place in [folder, around(folder)] {
        match fs::open(rt, place) {
            Ok(_) => return Ok(()),
            Err(error) if error.kind() == ErrorKind::PermissionDenied => return Ok(()),
            Err(error) if place == folder && error.kind() == ErrorKind::NotFound => {}
            Err(error) => return Err(error),
        }
    }
    Ok(())
}

/// The path of the folder that a path is in.
fn around(path: &str) -> &str {
    match Path::new(path).parent() {
        Some(folder) if !folder.as_str().is_empty() => folder.as_str(),
        _ => ".",
    }
}

/// Whether a node is among those that are absent.
pub fn is_absent(absent: &[Absent], node: NodeId) -> bool {
    absent.iter().any(|one| one.node == node)
}

/// Says on standard error that these nodes start late, and why.
pub fn tell_absent<R: Runtime<File = File>>(rt: &R, absent: &[Absent]) {
    for one in absent {
        let (path, error, node) = (&one.path, &one.error, one.node.value());
        let _ = eprintln!(rt;
            "{path}: {error}: node {node} is down until its journal can be opened"
        );
    }
}

/// Says on standard error why these nodes are absent, and what a start without them needs, if the
/// others are there.
pub fn tell_refused<R: System>(rt: &R, absent: &[Absent], size: GroupSize) {
    let mut before = "";
    for one in absent {
        let (path, error) = (one.path.as_str(), &one.error);
        if path != before {
            let _ = eprintln!(rt; "{path}: {error}");
        }
        before = path;
    }
    if absent.len() < size.value() as usize {
        let _ = eprintln!(rt;
            "without a journal a start wants more than half of the others whole, and an unchanged setup"
        );
    }
}
