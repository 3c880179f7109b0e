//! A file of the system.
ghost use Rattle.std.specs.Prelude.{◌≡◌, ◌&&◌, ◌==◌, not, IfOk};

use crate::copied_file::copied;
use crate::disk_file::DiskFile;
use crate::file_disk::FileDisk;
use crate::file_id::FileId;
use crate::last_error::LastError;
use crate::locked_file::locked;
use crate::made_file::{MadeFile, remove_file};
use crate::open_fault::OpenFault;
use stable_store::StoreFault;
use std::alloc::{AllocError, Global};
use std::fs::{self, File, Files, OpenOptions};
use std::io::{self, ErrorKind};
use std::os::unix::fs::{FileExt, OpenOptionsExt};
use std::path::Path;

/// Only its owner can read a journal.
const OWNERS: u32 = 0o600;

/// The length of an empty journal: nothing can be saved in a file that is no longer.
const EMPTY_LEN: u64 = 9;

/// A file of the system, and its last error.
#[derive(Drop)]
pub struct SystemFile {
    file: File,
    last_error: LastError,
    /// Whether it was made when it was opened, and was empty when it was locked.
    is_made: bool,
    /// The file that was at its path before. Its lock is held too, so that a program that opened it just before this
    /// one replaced it finds it in use.
    before: Option<File>,
}

impl SystemFile {
    /// How many bytes it has.
    pub fn len(&self) -> io::Result<u64> {
        Ok(self.file.metadata()?.len())
    }
}

/// Each call is one of the system's, of which nothing is known.
impl DiskFile for SystemFile {
    ghost use Rattle.std.specs.Prelude.{false, []};
    ghost use Rattle.journal_store.specs.DiskLaws.{own_image};

    ghost honest = { λ _. false };

    ghost states = { λ _. [] };

    fn size(&mut self) -> io::Result<u64> {
        self.last_error.note(self.len())
    }

    fn fill(&mut self, place: u64, buffer: &mut [u8]) -> io::Result<()> {
        self.last_error.note(self.file.read_exact_at(buffer, place))
    }

    fn write(&mut self, place: u64, bytes: &[u8]) -> io::Result<()> {
        self.last_error.note(self.file.write_all_at(bytes, place))
    }

    fn sync(&mut self) -> io::Result<()> {
        self.last_error.note(self.file.sync_data())
    }

    ghost reads_as = { λ f h. own_image [] };
}

impl FileDisk<SystemFile> {
    /// The file of a path, which is made if it does not exist, and locked until the disk is dropped. Its folder is
    /// synced, so that a crash leaves the file there. `InUse` if it is already open as a disk, in this program or
    /// another; `NotAFile` if the path names something else. If it fails, a file that it made is removed.
    ///
    /// A file that existed, and in which something may be saved, is copied, and the copy replaces it: it may have bytes
    /// that an earlier run did not bring to the device, and that the system still shows. If that fails the file stays
    /// as it is.
    pub fn open<R: Files<File = File>>(rt: &R, alloc: Global, path: &str) -> Result<Self, OpenFault>
        ensures { IfOk result (λ d. d.failures ≡ 0) }
    {
        let was_there = is_there(rt, path);
        let file = OpenOptions::new()
            .read(true)
            .write(true)
            .create(true)
            .mode(OWNERS)
            .open(rt, path)?;
        let file = locked(file)?;
        let len = file.metadata()?.len();
        if len > EMPTY_LEN {
            return over_copy(rt, alloc, path, file, none(alloc)?);
        }
        let opened = Opened {
            file,
            before: None,
            is_made: is_made(was_there, len),
        };
        over(rt, path, opened, none(alloc)?)
    }

    /// The file of a path if it exists, as for `open`. None is made: if there is none, the system's error says so. Why
    /// a call of the file fails is noted in `last_error`.
    pub fn open_late<R: Files<File = File>>(
        rt: &R,
        alloc: Global,
        path: &str,
        last_error: LastError,
    ) -> Result<Self, OpenFault>
        ensures { IfOk result (λ d. d.failures ≡ 0) }
    {
        let file = OpenOptions::new().read(true).write(true).open(rt, path)?;
        over_copy(rt, alloc, path, locked(file)?, last_error)
    }

    /// The file of a path if it exists, locked until the disk is dropped, as for `open`. None is made: if there is
    /// none, the system's error says so.
    pub fn open_existing<R: Files<File = File>>(
        rt: &R,
        alloc: Global,
        path: &str,
    ) -> Result<Self, OpenFault>
        ensures { IfOk result (λ d. d.failures ≡ 0) }
    {
        let file = OpenOptions::new().read(true).write(true).open(rt, path)?;
        let opened = Opened {
            file: locked(file)?,
            before: None,
            is_made: false,
        };
        over(rt, path, opened, none(alloc)?)
    }

    /// The last error of its file's calls, now and later on.
    pub fn last_error(&self) -> Result<LastError, AllocError> {
        self.file.last_error.share()
    }

    /// The identity of its file.
    pub fn file_id(&self) -> io::Result<FileId> {
        FileId::of(&self.file.file)
    }

    /// Removes the file from this path, if it was made when the disk was opened there.
    pub fn remove_made<R: Files>(&self, rt: &R, path: &str) {
        if self.file.is_made {
            let _ = remove_file(rt, path, &self.file.file);
        }
    }

    /// The file, if it was made when the disk was opened at this path, so that it can be removed again.
    pub fn made(&self, alloc: Global, path: &str) -> io::Result<Option<MadeFile>> {
        if !self.file.is_made {
            return Ok(None);
        }
        Ok(Some(MadeFile::new(alloc, &self.file.file, path)?))
    }
}

/// Whether there is anything at a path, also a link that leads nowhere. Unless the system says that there is nothing,
/// it counts as there.
fn is_there<R: Files>(rt: &R, path: &str) -> bool {
    match fs::symlink_metadata(rt, path) {
        Ok(_) => true,
        Err(error) => error.kind() != ErrorKind::NotFound,
    }
}

/// Whether a file was made when it was opened. One that another program made at the same moment, and in which it saved
/// something, was not.
fn is_made(was_there: bool, len: u64) -> bool
    ensures { result ≡ (not was_there && len == 0) }
{
    !was_there && len == 0
}

/// A disk over a copy of a file that was opened at a path, and locked.
fn over_copy<R: Files<File = File>>(
    rt: &R,
    alloc: Global,
    path: &str,
    file: File,
    last_error: LastError,
) -> Result<FileDisk<SystemFile>, OpenFault>
    ensures { IfOk result (λ d. d.failures ≡ 0) }
{
    // a link stays, and the file to which it leads is copied
    let place = rt.canonicalize(alloc, path)?;
    // another program may have put a copy there, and ended, before this one locked the file
    if FileId::at(rt, place.as_str())? != FileId::of(&file)? {
        return Err(OpenFault::InUse);
    }
    let copy = copied(rt, alloc, place.as_str(), &file)?;
    let opened = Opened {
        file: copy,
        before: Some(file),
        is_made: false,
    };
    over(rt, place.as_str(), opened, last_error)
}

/// A file that was opened at a path, and locked.
#[derive(Drop)]
struct Opened {
    file: File,
    /// The file that was there before, of which it is a copy.
    before: Option<File>,
    is_made: bool,
}

/// A disk over a file that was opened at a path. If it fails, the file is removed if it was made.
fn over<R: Files<File = File>>(
    rt: &R,
    path: &str,
    opened: Opened,
    last_error: LastError,
) -> Result<FileDisk<SystemFile>, OpenFault>
    ensures { IfOk result (λ d. d.failures ≡ 0) }
{
    let Opened {
        file,
        before,
        is_made,
    } = opened;
    match settle(rt, path, &file) {
        Ok(()) => Ok(FileDisk::new(SystemFile {
            file,
            last_error,
            is_made,
            before,
        })),
        Err(error) => {
            if is_made {
                let _ = remove_file(rt, path, &file);
            }
            Err(OpenFault::System(error))
        }
    }
}

/// Makes sure that a crash leaves a file at its path.
fn settle<R: Files<File = File>>(rt: &R, path: &str, file: &File) -> io::Result<()> {
    file.sync_all()?;
    sync_folder(rt, path)
}

/// No call has failed.
fn none(alloc: Global) -> Result<LastError, OpenFault> {
    LastError::none(alloc).map_err(|_| OpenFault::Store(StoreFault::Memory))
}

/// Syncs the folder of a path.
fn sync_folder<R: Files<File = File>>(rt: &R, path: &str) -> io::Result<()> {
    let folder = match Path::new(path).parent() {
        Some(folder) if !folder.as_str().is_empty() => folder.as_str(),
        _ => ".",
    };
    fs::open(rt, folder)?.sync_all()
}
