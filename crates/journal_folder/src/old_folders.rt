//! Where the old folders of a renewal are.
ghost use Rattle.std.specs.Prelude.{◌≡◌, is_none};
ghost use Rattle.std.specs.List.{list_all};

use std::fmt;

/// What became of the old folder at a path.
#[derive(Debug, Drop)]
pub struct OldFolder {
    pub folder: String,
    /// Where it is now. None if it was empty or did not exist, or was moved before.
    pub old: Option<String>,
}

/// What became of the old folders of a renewal, one for each folder, in their order.
#[derive(Debug, Drop)]
pub struct OldFolders {
    pub folders: Vec<OldFolder>,
}

impl OldFolders {
    /// Whether none was moved.
    pub fn is_none(&self) -> bool
        ensures { result ≡ list_all (λ one. is_none one.old) self.now.folders.items }
    {
        self.folders.iter().all(|folder| folder.old.is_none())
    }
}

/// Their names, as `a.old, b.old`, or `none`.
impl fmt::Display for OldFolders {
    fn fmt<W: fmt::Write>(&self, f: &mut fmt::Formatter<W>) -> fmt::Result {
        let mut is_first = true;
        for folder in &self.folders {
            if let Some(old) = &folder.old {
                f.write_str(if is_first { "" } else { ", " })?;
                f.write_str(old.as_str())?;
                is_first = false;
            }
        }
        if is_first {
            f.write_str("none")
        } else {
            Ok(())
        }
    }
}
