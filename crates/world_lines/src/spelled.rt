//! Lines that are played, as bytes.
use buffer_lines::Shown;

/// A line that is played, which has a spelling.
pub trait Spelled {
    ghost use Rattle.std.specs.Prelude.{◌≡◌, ℕ, List};

    /// Its spelling.
    ghost spelled: { Self → List ℕ };

    /// The bytes of its spelling, of any length and without an end.
    fn spelling(&self) -> &[u8]
        ensures { result.now ≡ spelled self.now };
}

impl Spelled for Shown {
    ghost spelled = { λ s. s };

    fn spelling(&self) -> &[u8] {
        self.spelling()
    }
}
