//! Files that were made, and can be removed again.
use crate::file_id::FileId;
use std::alloc::Global;
use std::fs::{self, File, Files};
use std::io;

/// A file that was made, held open until this is dropped: its lock is held too, so that until then nobody else saves
/// anything in it.
#[derive(Drop)]
pub struct MadeFile {
    file: File,
    path: String,
}

impl MadeFile {
    /// A file that was made at a path.
    pub fn new(alloc: Global, file: &File, path: &str) -> io::Result<MadeFile> {
        Ok(MadeFile {
            file: file.try_clone()?,
            path: String::from_str(alloc, path)?,
        })
    }

    /// Removes the file from its path. If another file is there by now, that one stays.
    pub fn remove<R: Files>(&self, rt: &R) -> io::Result<()> {
        remove_file(rt, self.path.as_str(), &self.file)
    }
}

/// Removes an open file from its path. If another file is there by now, that one stays.
pub fn remove_file<R: Files>(rt: &R, path: &str, file: &File) -> io::Result<()> {
    if FileId::at(rt, path)? == FileId::of(file)? {
        fs::remove_file(rt, path)?;
    }
    Ok(())
}
