//! A folder, and the one that contains it.
use std::fs::{DirBuilder, File, Files};
use std::io::ErrorKind;
use std::os::unix::fs::DirBuilderExt;
use std::path::Path;
use std::{fs, io};

/// Only its owner can look into the folder of the journals.
const OWNERS: u32 = 0o700;

/// Makes the folder of a path if it does not exist. The folder around it is synced, so that a crash
/// leaves it there. Returns whether it was made; if it fails, none was.
pub fn make_folder<R: Files<File = File>>(rt: &R, path: &str) -> io::Result<bool> {
    match DirBuilder::new().mode(OWNERS).create(rt, path) {
        Ok(()) => {
            if let Err(error) = sync_around(rt, path) {
                // it is still empty
                let _ = fs::remove_dir(rt, path);
                return Err(error);
            }
            Ok(true)
        }
        Err(error) if error.kind() == ErrorKind::AlreadyExists => {
            sync_around(rt, path)?;
            Ok(false)
        }
        Err(error) => Err(error),
    }
}

/// Syncs the folder around a path, so that a crash leaves the names in it.
pub fn sync_around<R: Files<File = File>>(rt: &R, path: &str) -> io::Result<()> {
    let around = match Path::new(path).parent() {
        Some(folder) if !folder.as_str().is_empty() => folder.as_str(),
        _ => ".",
    };
    fs::open(rt, around)?.sync_all()
}
