//! What a renewal did.
use crate::loss::LostJournals;
use crate::old_folders::OldFolders;
use std::fmt;
use wire_bytes::Number;

/// What a renewal did: how many entries the log had and has, how much is kept in it, which journals were lost, and
/// where the old ones are now.
#[derive(Drop)]
pub struct Renewed {
    pub before: Number,
    pub now: Number,
    pub targets: u64,
    pub lines: u64,
    pub lost: LostJournals,
    pub old: OldFolders,
}

impl fmt::Display for Renewed {
    fn fmt<W: fmt::Write>(&self, f: &mut fmt::Formatter<W>) -> fmt::Result {
        writeln!(f, "entries before: {}", self.before.value())?;
        writeln!(f, "entries now: {}", self.now.value())?;
        writeln!(f, "targets: {}", self.targets)?;
        write!(f, "lines kept: {}", self.lines)?;
        if !self.lost.is_none() {
            write!(f, "\nlost: {}", self.lost)?;
        }
        for folder in &self.old.folders {
            if let Some(old) = &folder.old {
                write!(f, "\nold folder: {old}")?;
            }
        }
        Ok(())
    }
}
