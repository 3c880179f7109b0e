ghost use Rattle.std.specs.Prelude.{◌≡◌, ◌≤◌, ◌-◌, drop, length, map, take, IfOk};
ghost use Rattle.irc_line.specs.Lines.{spelled_parts, spelling};

use irc_line::{Line, SharedBytes, write_parts};
use std::alloc::{AllocError, Global};
use std::marker::Model;
use wire_bytes::Copied;

/// Room for most lines that the bouncer itself writes.
const SHORT_LINE: usize = 128;

/// The canonical spelling of a line that is shown, of any length and without its CR LF. All clients that are shown it
/// share one text, in which there may be other lines too.
#[derive(Drop)]
pub struct Shown {
    text: SharedBytes,
    /// Where the line begins in the text.
    from: usize,
    /// Where it ends.
    to: usize,
}

impl Model for Shown {
    ghost use Rattle.std.specs.Prelude.{◌≤◌, ◌-◌, ℕ, List, drop, length, take};

    ghost Value = { List ℕ };

    ghost view = { λ s. take (s.to - s.from) (drop s.from s.text) };

    ghost invariant = { λ s. (s.from ≤ s.to) × (s.to ≤ length s.text) };
}

impl Shown {
    /// What is shown of a line: the line's own text. Nothing is allocated.
    pub fn of_line(line: &Line) -> Result<Shown, AllocError>
        ensures { IfOk result (λ s. s ≡ spelling line.now) }
    {
        Ok(Shown::whole(line.text().share()?))
    }

    /// What is shown of these parts, which need not be a line's.
    pub fn of_parts(
        alloc: Global,
        prefix: Option<&[u8]>,
        command: &[u8],
        parameters: &[&[u8]],
    ) -> Result<Shown, AllocError>
        ensures { IfOk result (λ s. s ≡
            spelled_parts prefix.entry command.now (map (λ x. x.now) parameters.now)) }
    {
        let mut bytes = Vec::with_capacity(alloc, SHORT_LINE)?;
        write_parts(&mut bytes, prefix, command, parameters)?;
        Ok(Shown::whole(SharedBytes::from_vec(bytes)?))
    }

    /// A whole text, which is the spelling of one line, as shown.
    fn whole(text: SharedBytes) -> Shown
        ensures { result ≡ text }
    {
        let to = text.as_slice().len();
        Shown { text, from: 0, to }
    }

    /// A part of a text, which is the spelling of one line, as shown. Nothing is allocated.
    pub(crate) fn part(text: &SharedBytes, from: usize, to: usize) -> Result<Shown, AllocError>
        requires within { (from ≤ to) × (to ≤ length text.now) }
        ensures part { IfOk result (λ s. s ≡ take (to - from) (drop from text.now)) }
    {
        Ok(Shown {
            text: text.share()?,
            from,
            to,
        })
    }

    /// The bytes that are shown.
    pub fn spelling(&self) -> &[u8]
        ensures { result.now ≡ self.now }
    {
        &self.text.as_slice()[self.from..self.to]
    }
}

/// A copy is the same text once more.
impl Copied for Shown {
    fn copy(&self, _alloc: Global) -> Result<Shown, AllocError>
        ensures { IfOk result (λ s. s ≡ self.now) }
    {
        Shown::part(&self.text, self.from, self.to)
    }
}
