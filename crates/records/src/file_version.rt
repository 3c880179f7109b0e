//! Which record files there are.

/// The version of a record file, named at the beginning of its first line.
#[derive(Clone, Copy, Debug, PartialEq, Eq)]
pub enum FileVersion {
    /// `RBREC01`, from before clients had names: no body has one.
    First,
    /// `RBREC02`, the version of each new file.
    Second,
}
