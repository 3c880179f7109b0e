use crate::detail::Detail;
use crate::key_fault::KeyFault;
use crate::problem::Problem;
use crate::saying::write_fault;
use std::fmt;

/// What is wrong with the text of a configuration: the first fault, and all of them.
#[derive(Debug, Drop)]
pub struct ConfigFault {
    /// From 1, if it is known.
    pub line: Option<usize>,
    pub problem: Problem,
    /// More about it, if there is more and there was memory for it.
    pub detail: Option<Detail>,
    /// All that is wrong with the table of the text. None if the text is no TOML, or if memory ran
    /// out.
    pub all: Option<Vec<KeyFault>>,
}

/// Written as `7: listen: needs three, five or seven addresses`; the caller puts the file's name
/// and a colon before it. If no line is known it begins with a space instead. It shows only the
/// first problem.
impl fmt::Display for ConfigFault {
    fn fmt<W: fmt::Write>(&self, f: &mut fmt::Formatter<W>) -> fmt::Result {
        write_fault(f, self.line, &self.problem, &self.detail)
    }
}
