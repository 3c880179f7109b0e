//! The folders of the journals, as they are logged.
use std::fmt;

/// The folders of the journals: one, or one for each node with a comma between two.
#[derive(Clone, Copy)]
pub struct Folders<'a>(pub &'a [String]);

impl Folders<'_> {
    /// What an old folder is called, or each of several.
    pub fn old(&self) -> &'static str {
        match self.0 {
            [_] => "the old folder is",
            _ => "the old folders are",
        }
    }
}

impl fmt::Display for Folders<'_> {
    fn fmt<W: fmt::Write>(&self, f: &mut fmt::Formatter<W>) -> fmt::Result {
        write_all(f, self.0)
    }
}

fn write_all<W: fmt::Write>(f: &mut fmt::Formatter<W>, folders: &[String]) -> fmt::Result {
    match folders {
        [] => Ok(()),
        [one] => f.write_str(one.as_str()),
        [first, rest @ ..] => {
            write!(f, "{first}, ")?;
            write_all(f, rest)
        }
    }
}
