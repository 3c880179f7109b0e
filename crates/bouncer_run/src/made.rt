//! What a start makes, which is removed again if the start is refused.
ghost use Rattle.std.specs.Prelude.{◌≡◌, ◌++◌, ◌∷◌, [], OnOk};

use crate::system::System;
use file_disk::MadeFile;
use std::alloc::{AllocError, Global};
use std::fs;

/// The folders and files that a start made. The files are held open and locked, so that nobody else
/// saves anything in them.
#[derive(Drop)]
pub struct Made {
    folders: Vec<String>,
    files: Vec<MadeFile>,
}

impl Made {
    /// Nothing was made.
    pub fn nothing(alloc: Global) -> Made
        ensures { result.files.items ≡ [] }
    {
        Made {
            folders: Vec::new(alloc),
            files: Vec::new(alloc),
        }
    }

    /// The folder of this path was made.
    pub fn add_folder(&mut self, alloc: Global, path: &str) -> Result<(), AllocError>
        ensures { self.new.files ≡ self.old.files }
    {
        self.folders.push(String::from_str(alloc, path)?)?;
        Ok(())
    }

    /// This file was made too.
    pub fn add(&mut self, file: MadeFile) -> Result<(), AllocError>
        ensures { OnOk result (self.new.files.items ≡ self.old.files.items ++ file ∷ []) }
    {
        self.files.push(file)?;
        Ok(())
    }

    /// These files were made too.
    pub fn add_all(&mut self, files: Vec<MadeFile>) -> Result<(), AllocError>
        ensures { OnOk result (self.new.files.items ≡ self.old.files.items ++ files.items) }
    {
        let mut files = files;
        self.files.append(&mut files)
    }

    /// The start is refused: what it made is removed. What somebody else put in a folder stays, and
    /// so does the folder.
    pub fn take_back<R: System>(&self, rt: &R) {
        for file in &self.files {
            let _ = file.remove(rt);
        }
        for folder in &self.folders {
            let _ = fs::remove_dir(rt, folder.as_str());
        }
    }
}
