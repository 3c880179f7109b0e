//! Files that only one disk has open.
use crate::open_fault::OpenFault;
use std::fs::{File, TryLockError};
use std::os::fd::AsRawFd;

/// An opened file, locked until its last handle is dropped, or the program ends.
pub fn locked(file: File) -> Result<File, OpenFault> {
    let mut file = file;
    // what is printed to a standard stream that was closed must not end up in the file
    if file.as_raw_fd() <= 2 {
        file = file.try_clone()?;
    }
    if !file.metadata()?.is_file() {
        return Err(OpenFault::NotAFile);
    }
    lock(&file)?;
    Ok(file)
}

/// The lock ends with the file's last handle, or with the program.
fn lock(file: &File) -> Result<(), OpenFault> {
    match file.try_lock() {
        Ok(()) => Ok(()),
        Err(TryLockError::WouldBlock) => Err(OpenFault::InUse),
        Err(TryLockError::Error(error)) => Err(OpenFault::System(error)),
    }
}
