//! Why the buffers close a client.
ghost use Rattle.std.specs.Prelude.{◌≡◌};
ghost use Rattle.driver.specs.Evicting.{words_of};

use std::fmt;

/// Why the buffers close a client.
#[derive(Clone, Copy, Debug, PartialEq, Eq)]
pub enum Eviction {
    /// It attaches by a new name, while as many names are in use as may be.
    NamesSpent,
    /// It was attached, and gives way to another client.
    GaveWay,
    /// The buffers no longer take clients of this run of its node.
    RunOver,
}

impl Eviction {
    /// The reason in words, which say what to do.
    pub fn words(self) -> &'static str
        ensures { result.now ≡ words_of self }
    {
        match self {
            Eviction::NamesSpent =>
                "64 names are in use already: attach without a name, or with one that is in use",
            Eviction::GaveWay => "only one client may attach at a time (multi_clients)",
            Eviction::RunOver => "the run of its node is over: connect again",
        }
    }
}

impl fmt::Display for Eviction {
    fn fmt<W: fmt::Write>(&self, f: &mut fmt::Formatter<W>) -> fmt::Result {
        f.write_str(self.words())
    }
}
