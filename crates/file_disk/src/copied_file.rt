//! A file of the system that replaces another, with the same bytes.
use crate::locked_file::locked;
use crate::open_fault::OpenFault;
use std::alloc::Global;
use std::fs::{self, File, Files, OpenOptions};
use std::io;
use std::os::unix::fs::{FileExt, MetadataExt, OpenOptionsExt, fchown};

/// Only its owner can read a copy before it has the mode of the original.
const OWNERS: u32 = 0o600;

/// Replaces the file at a path by a new one with its bytes and its mode, synced and locked. If it fails, the file stays
/// as it is. A leftover of an earlier try is overwritten.
///
/// A system may show what it could not write until it is read from the device again, and only the sync that failed says
/// so. So nobody knows whether the bytes of a file that an earlier run left are on the device. Those of the copy are,
/// since each was written and synced in this run. They are read and written, not shared between the two files, as some
/// systems would do it.
pub fn copied<R: Files<File = File>>(
    rt: &R,
    alloc: Global,
    path: &str,
    file: &File,
) -> Result<File, OpenFault> {
    let beside = beside(alloc, path)?;
    // a file that is there is not opened: it may have another owner, mode or name
    let _ = fs::remove_file(rt, beside.as_str());
    let copy = OpenOptions::new()
        .read(true)
        .write(true)
        .create_new(true)
        .mode(OWNERS)
        .open(rt, beside.as_str())?;
    match fill(rt, alloc, path, file, copy, beside.as_str()) {
        Ok(copy) => Ok(copy),
        Err(fault) => {
            let _ = fs::remove_file(rt, beside.as_str());
            Err(fault)
        }
    }
}

/// The path of the copy of a file until it takes its place.
fn beside(alloc: Global, path: &str) -> io::Result<String> {
    let mut beside = String::from_str(alloc, path)?;
    beside.push_str(".copy")?;
    Ok(beside)
}

/// Gives a new file the bytes and the mode of another, and then its place.
fn fill<R: Files<File = File>>(
    rt: &R,
    alloc: Global,
    path: &str,
    file: &File,
    copy: File,
    beside: &str,
) -> Result<File, OpenFault> {
    let copy = locked(copy)?;
    copy_bytes(alloc, file, &copy)?;
    let metadata = file.metadata()?;
    // if the program is once started as root or in the owner's group, the journal stays its owner's, if that is allowed
    let _ = fchown(&copy, Some(metadata.uid()), Some(metadata.gid()));
    copy.set_permissions(metadata.permissions())?;
    copy.sync_all()?;
    fs::rename(rt, beside, path)?;
    Ok(copy)
}

/// Writes all bytes of a file to another. They are read at once, as they are when the journal is read.
fn copy_bytes(alloc: Global, from: &File, to: &File) -> io::Result<()> {
    let len = from.metadata()?.len();
    let mut bytes = vec![in alloc; 0u8; len as usize]?;
    from.read_exact_at(&mut bytes, 0)?;
    to.write_all_at(&bytes, 0)
}
