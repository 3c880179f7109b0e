//! The identity of a file of the system.
use std::fs::{self, File, Files, Metadata};
use std::io;
use std::os::unix::fs::MetadataExt;

/// The identity of a file of the system, whatever its path: no two files that exist at one time have the same.
#[derive(Clone, Copy, Debug, PartialEq, Eq)]
pub struct FileId {
    device: u64,
    inode: u64,
}

impl FileId {
    /// That of an open file.
    pub fn of(file: &File) -> io::Result<FileId> {
        Ok(FileId::of_metadata(&file.metadata()?))
    }

    /// That of the file to which a path now leads.
    pub fn at<R: Files>(rt: &R, path: &str) -> io::Result<FileId> {
        Ok(FileId::of_metadata(&fs::metadata(rt, path)?))
    }

    fn of_metadata(metadata: &Metadata) -> FileId {
        FileId {
            device: metadata.dev(),
            inode: metadata.ino(),
        }
    }
}
