//! Renewed folders replace the folders of the journals.
ghost use Rattle.std.specs.Prelude.{◌≡◌, ◌++◌, IfOk, IfSome, OnOk, length, map, option_map, string_bytes};
ghost use Rattle.std.specs.List.{All};
ghost use Rattle.journal_folder.specs.Beside.{AreOldFolders, IsOldFolder, IsOldName, beside, old_ending};

use crate::folder::sync_around;
use crate::folder_fault::FolderFault;
use crate::folders::copies_of;
use crate::locking::{FolderLocks, are_missing, lock_folders};
use crate::marks::{Marks, is_marked, marks_at};
use crate::old_folders::{OldFolder, OldFolders};
use crate::paths::{NoPaths, Paths, beside};
use std::alloc::Global;
use std::fs;
use std::fs::{File, Files};
use std::io::ErrorKind;

/// How many old folders may be beside the folder of the journals: more than anybody keeps.
const MOST_OLD: u32 = 1000;

/// Finishes a renewal that was decided, but whose program was ended before each renewed folder was in its place; the
/// next run uses these folders. A renewal that was not decided has no effect. Returns what became of the old folders,
/// if it was finished. An error if a program has a journal of any folder open, also one that finishes the renewal at
/// this moment.
pub fn finish_renewal<R: Files<File = File> + AllocGlobal>(
    rt: &R,
    folders: &[String],
) -> Result<Option<OldFolders>, FolderFault>
    ensures { IfOk result
        (λ old. IfSome old (AreOldFolders (map string_bytes folders.now))) }
{
    let all = match Paths::of_all(rt.alloc(), folders) {
        Ok(all) => all,
        Err(NoPaths::Nameless(_)) => return Ok(None),
        Err(NoPaths::Memory) => return Err(FolderFault::Memory),
    };
    if marks_at(rt, &all)? == Marks::Absent {
        return Ok(None);
    }
    let locks = lock_folders(rt, &all)?;
    // another program may have finished it before these locks were taken
    match marks_at(rt, &all)? {
        Marks::Absent => Ok(None),
        Marks::Open => {
            take_back(rt, &all, &locks)?;
            Ok(None)
        }
        Marks::Decided => {
            sync_marks(rt, &all)?;
            Ok(Some(put_in_place(rt, &all, have_journals(&locks))?))
        }
    }
}

/// Whether each of these folders has journals, so that none was moved away.
fn have_journals(locks: &[FolderLocks]) -> bool {
    locks.iter().all(|folder| !are_missing(&folder.old))
}

/// The folders whose journals the next run uses: if a renewal was decided and is not finished, the renewed ones that
/// are not in their place.
pub fn folders_in_use<R: Files + AllocGlobal>(
    rt: &R,
    folders: &[String],
) -> Result<Vec<String>, FolderFault>
    ensures { IfOk result (λ used. length used.items ≡ length folders.now) }
{
    let alloc = rt.alloc();
    let all = match Paths::of_all(alloc, folders) {
        Ok(all) => all,
        Err(NoPaths::Nameless(_)) => return Ok(copies_of(alloc, folders)?),
        Err(NoPaths::Memory) => return Err(FolderFault::Memory),
    };
    if marks_at(rt, &all)? != Marks::Decided {
        return Ok(copies_of(alloc, folders)?);
    }
    let mut used = Vec::new(alloc);
    for paths in &all {
        let path = if is_marked(rt, paths)? {
            paths.renewed.as_str()
        } else {
            paths.folder.as_str()
        };
        let path = String::from_str(alloc, path)?;
        used.push(path).map_err(|_| FolderFault::Memory)?;
    }
    Ok(used)
}

/// From here on the new journals are to be used in place of those in the folders: all of them are whole and synced. If
/// it fails nobody uses them.
pub fn decide<R: Files<File = File> + AllocGlobal>(
    rt: &R,
    all: &[Paths],
) -> Result<(), FolderFault> {
    for paths in all {
        let marked = mark(rt, paths);
        if marked.is_err() {
            undo(rt, all);
            return marked;
        }
    }
    Ok(())
}

/// Marks the new journals of a folder as whole.
fn mark<R: Files<File = File> + AllocGlobal>(rt: &R, paths: &Paths) -> Result<(), FolderFault> {
    let (renewing, renewed) = (paths.renewing.as_str(), paths.renewed.as_str());
    if let Err(error) = fs::rename(rt, renewing, renewed) {
        return Err(FolderFault::of_system(rt.alloc(), renewing, error));
    }
    sync(rt, renewed)
}

/// Takes the marks of renewed folders back, as far as the system allows, so that nobody uses them.
fn undo<R: Files<File = File>>(rt: &R, all: &[Paths]) {
    for paths in all {
        let (renewing, renewed) = (paths.renewing.as_str(), paths.renewed.as_str());
        if fs::rename(rt, renewed, renewing).is_ok() {
            let _ = sync_around(rt, renewed);
        }
    }
}

/// Takes back renewed folders of which some are missing, so that nobody uses them from here on. Refused if none of the
/// folders, which are locked, has journals: then they were renewed together with others.
fn take_back<R: Files<File = File> + AllocGlobal>(
    rt: &R,
    all: &[Paths],
    locks: &[FolderLocks],
) -> Result<(), FolderFault> {
    let is_empty = locks.iter().all(|folder| are_missing(&folder.old));
    for paths in all {
        let (renewing, renewed) = (paths.renewing.as_str(), paths.renewed.as_str());
        if is_marked(rt, paths)? {
            if is_empty {
                return Err(FolderFault::Unfinished(String::from_str(rt.alloc(), renewed)?));
            }
            // nobody uses what is there
            let _ = fs::remove_dir_all(rt, renewing);
            if let Err(error) = fs::rename(rt, renewed, renewing) {
                return Err(FolderFault::of_system(rt.alloc(), renewed, error));
            }
        }
        sync(rt, renewed)?;
    }
    Ok(())
}

/// Makes sure that a crash leaves the marks of a renewal that was decided.
fn sync_marks<R: Files<File = File> + AllocGlobal>(
    rt: &R,
    all: &[Paths],
) -> Result<(), FolderFault> {
    for paths in all {
        sync(rt, paths.renewed.as_str())?;
    }
    Ok(())
}

/// Puts the renewed folders in the place of those of the journals, which are locked. If one of those is not empty, it
/// is kept under another name, which is returned. If the first can't be moved, and there is a way back since none was
/// moved before, the renewed folders become ones that nobody uses, and nothing else is changed. If a later one can't be
/// moved, the next start goes on.
pub fn put_in_place<R: Files<File = File> + AllocGlobal>(
    rt: &R,
    all: &[Paths],
    has_way_back: bool,
) -> Result<OldFolders, FolderFault>
    ensures { IfOk result
        (AreOldFolders (map (λ paths. string_bytes paths.folder) all.now)) }
{
    let undone: &[Paths] = if has_way_back { all } else { &[] };
    let mut folders = Vec::new(rt.alloc());
    place_all(rt, &mut folders, all, undone)?;
    Ok(OldFolders { folders })
}

/// Puts each of these renewed folders in its place. The marks of the second ones are taken back if the first can't take
/// its place.
#[tactic(auto, using(crate::proofs::Numbered::one_more))]
fn place_all<R: Files<File = File> + AllocGlobal>(
    rt: &R,
    placed: &mut Vec<OldFolder>,
    all: &[Paths],
    undone: &[Paths],
) -> Result<(), FolderFault>
    requires { All IsOldFolder placed.old.items }
    ensures folders { OnOk result (map (λ one. string_bytes one.folder) placed.new.items
        ≡ map (λ one. string_bytes one.folder) placed.old.items
        ++ map (λ paths. string_bytes paths.folder) all.now) }
    ensures named { OnOk result (All IsOldFolder placed.new.items) }
{
    match all {
        [] => Ok(()),
        [paths, all @ ..] => {
            let folder = String::from_str(rt.alloc(), paths.folder.as_str())?;
            let old = place(rt, paths, undone)?;
            placed
                .push(OldFolder { folder, old })
                .map_err(|_| FolderFault::Memory)?;
            place_all(rt, placed, all, &[])
        }
    }
}

/// Puts a renewed folder in its place, unless it is already there. The marks of these are taken back if it can't be.
fn place<R: Files<File = File> + AllocGlobal>(
    rt: &R,
    paths: &Paths,
    undone: &[Paths],
) -> Result<Option<String>, FolderFault>
    ensures { IfOk result (λ old. IfSome old
        (λ name. IsOldName (string_bytes paths.now.folder) (string_bytes name))) }
{
    if !is_marked(rt, paths)? {
        return Ok(None);
    }
    let (folder, renewed) = (paths.folder.as_str(), paths.renewed.as_str());
    // if the folder is empty, or does not exist, this is all
    if fs::rename(rt, renewed, folder).is_ok() {
        sync(rt, folder)?;
        return Ok(None);
    }
    let old = match move_away(rt, folder) {
        Ok(old) => old,
        Err(fault) => {
            undo(rt, undone);
            return Err(fault);
        }
    };
    sync(rt, folder)?;
    match fs::rename(rt, renewed, folder) {
        Ok(()) => sync(rt, folder)?,
        Err(error) => return Err(FolderFault::of_system(rt.alloc(), renewed, error)),
    }
    Ok(Some(old))
}

/// Gives a folder another name, which is returned.
fn move_away<R: Files + AllocGlobal>(rt: &R, folder: &str) -> Result<String, FolderFault>
    ensures { IfOk result (λ name. IsOldName folder.now (string_bytes name)) }
{
    let old = free_name(rt, folder)?;
    match fs::rename(rt, folder, old.as_str()) {
        Ok(()) => Ok(old),
        Err(error) => Err(FolderFault::of_system(rt.alloc(), folder, error)),
    }
}

/// Syncs the folder around a path.
fn sync<R: Files<File = File> + AllocGlobal>(rt: &R, path: &str) -> Result<(), FolderFault> {
    match sync_around(rt, path) {
        Ok(()) => Ok(()),
        Err(error) => Err(FolderFault::of_system(rt.alloc(), path, error)),
    }
}

/// The first name for an old folder that is not in use.
fn free_name<R: Files + AllocGlobal>(rt: &R, folder: &str) -> Result<String, FolderFault>
    ensures { IfOk result (λ name. IsOldName folder.now (string_bytes name)) }
{
    let alloc = rt.alloc();
    for number in 1..MOST_OLD {
        let Some(name) = old_name(alloc, folder, number)? else {
            break;
        };
        match fs::symlink_metadata(rt, name.as_str()) {
            Ok(_) => {}
            Err(error) if error.kind() == ErrorKind::NotFound => return Ok(name),
            Err(error) => return Err(FolderFault::System(name, error)),
        }
    }
    Err(FolderFault::NoFreeName(String::from_str(alloc, folder)?))
}

/// The name of an old folder of this number, from 1 on.
fn old_name(alloc: Global, folder: &str, number: u32) -> Result<Option<String>, FolderFault>
    ensures { IfOk result
        (λ name. option_map string_bytes name ≡ beside folder.now (old_ending number)) }
{
    if number == 1 {
        return Ok(beside(alloc, folder, "old")?);
    }
    let ending = format!(in alloc; "old-{number}")?;
    Ok(beside(alloc, folder, ending.as_str())?)
}
