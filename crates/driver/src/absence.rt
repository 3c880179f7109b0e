//! Why a node serves nobody.
ghost use Rattle.std.specs.Prelude.{◌≡◌};
ghost use Rattle.driver.specs.Outages.{words_of};

/// Why a node serves nobody.
#[derive(Clone, Copy, Debug, PartialEq, Eq)]
pub enum Absence {
    /// It is down.
    Down,
    /// It has not answered for too long.
    Hanging,
}

impl Absence {
    /// What the node's clients are sent, after its name, up to the end of the line.
    pub fn words(self) -> &'static [u8]
        ensures { result.now ≡ words_of self }
    {
        match self {
            Absence::Down => b" is down\r\n",
            Absence::Hanging => b" does not answer\r\n",
        }
    }
}
