//! The file in which a store records what it is.
ghost use Rattle.std.specs.Prelude.{◌≡◌, IfErr, IfOk, length, string_bytes};
ghost use Rattle.journal_folder.specs.Faults.{IsOfFiles};
ghost use Rattle.journal_folder.specs.Stores.{setup_path};

use crate::fault::RenewFault;
use crate::folder::sync_around;
use file_disk::{FileId, MadeFile};
use std::alloc::{AllocError, Global};
use std::fs;
use std::fs::{File, Files, OpenOptions, TryLockError};
use std::io::{self, ErrorKind, Write};
use std::os::fd::AsRawFd;
use std::os::unix::fs::OpenOptionsExt;
use store_setup::{StoreSetup, read, spell};

/// Only its owner can read it: it contains the nick and the channels.
const OWNERS: u32 = 0o600;

/// What a store records about itself in the file of a path.
#[derive(Drop)]
pub struct Described {
    pub path: String,
    pub store: StoreSetup,
}

/// The path of the file in a folder.
pub fn setup_path(alloc: Global, folder: &str) -> Result<String, AllocError>
    ensures { IfOk result (λ path. string_bytes path ≡ setup_path folder.now) }
{
    format!(in alloc; "{folder}/setup")
}

/// What the store in a folder records about itself, if it does.
pub fn read_setup<R: Files + AllocGlobal>(
    rt: &R,
    folder: &str,
) -> Result<Option<StoreSetup>, RenewFault>
    ensures { IfErr result IsOfFiles }
{
    let alloc = rt.alloc();
    let path = setup_path(alloc, folder)?;
    match fs::read(rt, path.as_str()) {
        Ok(bytes) => match read(alloc, &bytes) {
            Ok(store) => Ok(Some(store)),
            Err(fault) => Err(RenewFault::of_setup(path, fault)),
        },
        Err(error) if error.kind() == ErrorKind::NotFound => Ok(None),
        Err(error) => Err(RenewFault::Unread(path, error)),
    }
}

/// What the store records about itself in the first of these folders in which it does.
pub fn first_described<R: Files + AllocGlobal>(
    rt: &R,
    folders: &[String],
) -> Result<Option<Described>, RenewFault>
    ensures { IfErr result IsOfFiles }
{
    for folder in folders {
        if let Some(store) = read_setup(rt, folder.as_str())? {
            let path = setup_path(rt.alloc(), folder.as_str())?;
            return Ok(Some(Described { path, store }));
        }
    }
    Ok(None)
}

/// Records this about the store in each of these folders. Returns the files, open and locked. If it fails they are
/// removed again.
pub fn describe_all<R: Files<File = File> + AllocGlobal>(
    rt: &R,
    folders: &[String],
    store: &StoreSetup,
) -> Result<Vec<MadeFile>, RenewFault>
    ensures count { IfOk result (λ made. length made.items ≡ length folders.now) }
    ensures fault { IfErr result IsOfFiles }
{
    let mut made = Vec::with_capacity(rt.alloc(), folders.len())?;
    for folder in folders {
        let described = describe(rt, folder.as_str(), store);
        match described {
            Ok(file) => made.push(file).map_err(|_| RenewFault::Memory)?,
            Err(fault) => {
                remove_all(rt, &made);
                return Err(fault);
            }
        }
    }
    Ok(made)
}

/// Removes files that were made, as far as the system allows.
fn remove_all<R: Files>(rt: &R, made: &[MadeFile]) {
    for file in made {
        let _ = file.remove(rt);
    }
}

/// Records this about the store in a folder. A crash leaves what was recorded before, or this. Returns the file, open
/// and locked.
pub fn describe<R: Files<File = File> + AllocGlobal>(
    rt: &R,
    folder: &str,
    store: &StoreSetup,
) -> Result<MadeFile, RenewFault>
    ensures { IfErr result IsOfFiles }
{
    let alloc = rt.alloc();
    let path = setup_path(alloc, folder)?;
    let new = format!(in alloc; "{folder}/setup.new")?;
    let bytes = spell(alloc, store)?;
    match put_in_place(rt, new.as_str(), path.as_str(), &bytes) {
        Ok(Some(file)) => match MadeFile::new(alloc, &file, path.as_str()) {
            Ok(made) => Ok(made),
            Err(error) => Err(RenewFault::System(path, error)),
        },
        Ok(None) => Err(RenewFault::Busy(path)),
        Err(error) => {
            // nobody uses what is there
            let _ = fs::remove_file(rt, new.as_str());
            Err(RenewFault::System(path, error))
        }
    }
}

/// Replaces what is at a path by a new file with these bytes, synced. None if another program does so at this moment.
fn put_in_place<R: Files<File = File>>(
    rt: &R,
    new: &str,
    path: &str,
    bytes: &[u8],
) -> io::Result<Option<File>> {
    let Some(mut file) = open_locked(rt, new)? else {
        return Ok(None);
    };
    // a program that is making a store holds the lock until its start is done
    if is_locked(rt, path)? {
        return Ok(None);
    }
    file.set_len(0)?;
    file.write_all(bytes)?;
    file.sync_all()?;
    fs::rename(rt, new, path)?;
    if let Err(error) = sync_around(rt, path) {
        // a crash may undo it, so nobody uses it
        let _ = fs::remove_file(rt, path);
        return Err(error);
    }
    Ok(Some(file))
}

/// The file of a path, which is made if it does not exist, locked. None if another program has it, or has moved it
/// away.
fn open_locked<R: Files<File = File>>(rt: &R, path: &str) -> io::Result<Option<File>> {
    let mut file = OpenOptions::new()
        .write(true)
        .create(true)
        .mode(OWNERS)
        .open(rt, path)?;
    // what is printed to a standard stream that was closed must not end up in the file
    if file.as_raw_fd() <= 2 {
        file = file.try_clone()?;
    }
    if try_lock(&file)? && FileId::at(rt, path)? == FileId::of(&file)? {
        Ok(Some(file))
    } else {
        Ok(None)
    }
}

/// Whether another program has the file of a path locked.
fn is_locked<R: Files<File = File>>(rt: &R, path: &str) -> io::Result<bool> {
    match fs::open(rt, path) {
        Ok(file) => Ok(!try_lock(&file)?),
        Err(error) if error.kind() == ErrorKind::NotFound => Ok(false),
        Err(error) => Err(error),
    }
}

/// Locks a file, unless another program has it locked; returns whether it is locked now.
fn try_lock(file: &File) -> io::Result<bool> {
    match file.try_lock() {
        Ok(()) => Ok(true),
        Err(TryLockError::WouldBlock) => Ok(false),
        Err(TryLockError::Error(error)) => Err(error),
    }
}
