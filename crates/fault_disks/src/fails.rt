ghost use Rattle.std.specs.Prelude.{◌≡◌};
ghost use Rattle.fault_disks.specs.Calls.{passes};

/// Which calls of a disk fail, counted from 0.
#[derive(Clone, Copy, Debug, Drop, PartialEq, Eq)]
pub enum Fails {
    Never,
    /// All calls from this one on.
    From(usize),
    /// Only this call.
    Once(usize),
    /// These two calls.
    Both(usize, usize),
}

impl Fails {
    /// Whether the call of this number passes.
    pub fn passes(self, call: usize) -> bool
        ensures { result ≡ passes self call }
    {
        match self {
            Fails::Never => true,
            Fails::From(first) => call < first,
            Fails::Once(one) => call != one,
            Fails::Both(one, other) => call != one && call != other,
        }
    }
}
