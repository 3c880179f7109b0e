//! How far the renewal of some folders has come.
ghost use Rattle.std.specs.Prelude.{◌≡◌, IfOk, length};
ghost use Rattle.journal_folder.specs.Marks.{has_marked, has_old, has_placed, marks_of};

use crate::folder_fault::FolderFault;
use crate::paths::Paths;
use crate::store_file::setup_path;
use std::alloc::AllocError;
use std::fs;
use std::fs::Files;
use std::io::ErrorKind;

/// How far a folder is renewed.
#[derive(Clone, Copy, Debug, PartialEq, Eq)]
pub enum Stage {
    /// It is as it was.
    Old,
    /// There is a renewed folder beside it, which is whole.
    Marked,
    /// A renewed folder has taken its place.
    Placed,
}

/// How far a renewal has come.
#[derive(Clone, Copy, Debug, PartialEq, Eq)]
pub enum Marks {
    /// There is none, or it is done.
    Absent,
    /// It was not decided: the old journals are to be used.
    Open,
    /// It was decided: the new journals are to be used.
    Decided,
}

/// How far the renewal of these folders has come. A folder counts as replaced if the file of its setup is that of the
/// first renewed folder, byte by byte: that file says how often the log was renewed.
pub fn marks_at<R: Files + AllocGlobal>(rt: &R, all: &[Paths]) -> Result<Marks, FolderFault> {
    let mut stages = Vec::new(rt.alloc());
    let setup = renewed_setup(rt, all)?;
    for paths in all {
        let stage = stage_of(rt, paths, &setup)?;
        stages.push(stage).map_err(|_| FolderFault::Memory)?;
    }
    Ok(marks_of(&stages))
}

/// How far a renewal has come, from the stages of its folders.
pub fn marks_of(stages: &[Stage]) -> Marks
    ensures { result ≡ marks_of stages.now }
{
    if !has_marked(stages) {
        Marks::Absent
    } else if has_placed(stages) || !has_old(stages) {
        Marks::Decided
    } else {
        Marks::Open
    }
}

fn has_marked(stages: &[Stage]) -> bool
    ensures { result ≡ has_marked stages.now }
{
    match stages {
        [] => false,
        [first, stages @ ..] => *first == Stage::Marked || has_marked(stages),
    }
}

fn has_placed(stages: &[Stage]) -> bool
    ensures { result ≡ has_placed stages.now }
{
    match stages {
        [] => false,
        [first, stages @ ..] => *first == Stage::Placed || has_placed(stages),
    }
}

fn has_old(stages: &[Stage]) -> bool
    ensures { result ≡ has_old stages.now }
{
    match stages {
        [] => false,
        [first, stages @ ..] => *first == Stage::Old || has_old(stages),
    }
}

/// How far a folder is renewed, if the first renewed folder has this file of its setup.
fn stage_of<R: Files + AllocGlobal>(
    rt: &R,
    paths: &Paths,
    setup: &[u8],
) -> Result<Stage, FolderFault> {
    if is_marked(rt, paths)? {
        Ok(Stage::Marked)
    } else if !setup.is_empty() && *setup_bytes(rt, paths.folder.as_str())? == *setup {
        Ok(Stage::Placed)
    } else {
        Ok(Stage::Old)
    }
}

/// The file of the setup in the first renewed folder. It is empty if there is none.
fn renewed_setup<R: Files + AllocGlobal>(rt: &R, all: &[Paths]) -> Result<Vec<u8>, FolderFault> {
    for paths in all {
        if is_marked(rt, paths)? {
            return setup_bytes(rt, paths.renewed.as_str());
        }
    }
    Ok(Vec::new(rt.alloc()))
}

/// The file of the setup in a folder, empty if there is none.
fn setup_bytes<R: Files + AllocGlobal>(rt: &R, folder: &str) -> Result<Vec<u8>, FolderFault> {
    let alloc = rt.alloc();
    let path = setup_path(alloc, folder)?;
    match fs::read(rt, path.as_str()) {
        Ok(bytes) => Ok(bytes),
        Err(error) if error.kind() == ErrorKind::NotFound => Ok(Vec::new(alloc)),
        Err(error) => Err(FolderFault::System(path, error)),
    }
}

/// Whether there is a renewed folder beside a folder.
pub fn is_marked<R: Files + AllocGlobal>(rt: &R, paths: &Paths) -> Result<bool, FolderFault> {
    let renewed = paths.renewed.as_str();
    match fs::exists(rt, renewed) {
        Ok(is_there) => Ok(is_there),
        Err(error) => Err(FolderFault::of_system(rt.alloc(), renewed, error)),
    }
}
