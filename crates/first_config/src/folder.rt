//! The folder of a first configuration.
use crate::fault::InitFault;
use std::fmt;
use std::fs::{self, DirBuilder, File, Files, OpenOptions};
use std::io::{self, ErrorKind, Write};
use std::os::unix::fs::{DirBuilderExt, OpenOptionsExt};

/// Only its owner can read the configuration, which contains passwords, or look into its folder.
const OWNERS_FILE: u32 = 0o600;

const OWNERS_FOLDER: u32 = 0o700;

/// Where a configuration was written.
#[derive(Drop)]
pub struct Written {
    pub path: String,
}

/// Says in one line where it is, and what to do next.
impl fmt::Display for Written {
    fn fmt<W: fmt::Write>(&self, f: &mut fmt::Formatter<W>) -> fmt::Result {
        let path = &self.path;
        write!(
            f,
            "{path} is written, with a password of its own: bouncer run {path}"
        )
    }
}

/// Writes the text of a configuration to `hukbarg.toml` in a folder, which is made if it does not exist. `IsThere` if
/// the folder has such a file, which is not changed. On failure no file is left.
pub fn write_first<R: Files<File = File> + AllocGlobal>(
    rt: &R,
    folder: &str,
    text: &[u8],
) -> Result<Written, InitFault> {
    let alloc = rt.alloc();
    let path = format!(in alloc; "{folder}/hukbarg.toml")?;
    if let Err(error) = make_folder(rt, folder) {
        return Err(InitFault::System(String::from_str(alloc, folder)?, error));
    }
    match write(rt, path.as_str(), text) {
        Ok(()) => Ok(Written { path }),
        Err(error) if error.kind() == ErrorKind::AlreadyExists => Err(InitFault::IsThere(path)),
        Err(error) => Err(InitFault::System(path, error)),
    }
}

/// Makes a folder, if it does not exist.
fn make_folder<R: Files<File = File>>(rt: &R, folder: &str) -> io::Result<()> {
    match DirBuilder::new().mode(OWNERS_FOLDER).create(rt, folder) {
        Err(error) if error.kind() == ErrorKind::AlreadyExists => Ok(()),
        made => made,
    }
}

/// Writes these bytes to a new file, synced. On failure the file is removed again.
fn write<R: Files<File = File>>(rt: &R, path: &str, text: &[u8]) -> io::Result<()> {
    let mut file = OpenOptions::new()
        .write(true)
        .create_new(true)
        .mode(OWNERS_FILE)
        .open(rt, path)?;
    let written = filled(&mut file, text);
    if written.is_err() {
        let _ = fs::remove_file(rt, path);
    }
    written
}

/// Writes the bytes to a file and syncs it.
fn filled(file: &mut File, text: &[u8]) -> io::Result<()> {
    file.write_all(text)?;
    file.sync_all()
}
