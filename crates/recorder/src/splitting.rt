//! Texts that are split in two.
ghost use Rattle.std.specs.Prelude.{◌≡◌, ◌==◌, option_map, position};
ghost use Rattle.recorder.specs.Splits.{split_at};

/// What comes before the first occurrence of this byte, and what follows it.
#[tactic(auto, using(crate::proofs::Splits::found, crate::proofs::Splits::missing))]
pub fn split(bytes: &[u8], mark: u8) -> Option<(&[u8], &[u8])>
    ensures { option_map (λ p. (p.0.now, p.1.now)) result ≡ split_at mark bytes.now }
{
    match first_of(bytes, mark) {
        Some(end) => Some((&bytes[..end], &bytes[end + 1..])),
        None => None,
    }
}

/// The place of the first occurrence of this byte.
fn first_of(bytes: &[u8], mark: u8) -> Option<usize>
    ensures { result ≡ position (λ b. b == mark) bytes.now }
{
    bytes.iter().position(|b| *b == mark)
}
