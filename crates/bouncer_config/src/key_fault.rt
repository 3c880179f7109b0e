use crate::detail::Detail;
use crate::problem::Problem;
use crate::saying::write_fault;
use std::fmt;

/// One thing that is wrong with the keys of a configuration.
#[derive(Debug, Drop)]
pub struct KeyFault {
    /// From 1, if it is known.
    pub line: Option<usize>,
    pub problem: Problem,
    /// More about it, if there is more and there was memory for it.
    pub detail: Option<Detail>,
}

/// Written like a `ConfigFault`.
impl fmt::Display for KeyFault {
    fn fmt<W: fmt::Write>(&self, f: &mut fmt::Formatter<W>) -> fmt::Result {
        write_fault(f, self.line, &self.problem, &self.detail)
    }
}
