//! Whether one text is another, line by line.
ghost use Rattle.std.specs.Prelude.{◌≡◌};
ghost use Rattle.records.specs.Verdicts.{verdict};

/// Whether recorded lines are those of a run.
#[derive(Clone, Copy, Debug, PartialEq, Eq)]
pub enum Verdict {
    Same,
    /// The line of this number, from 1, is the first that is different, missing or extra.
    Differs(u64),
}

/// Whether these lines are those of a run. A last line without its end differs from one with it.
#[tactic(auto, using(crate::proofs::Comparing::verdict_is))]
pub fn verdict_of(recorded: &[u8], run: &[u8]) -> Verdict
    ensures { result ≡ verdict recorded.now run.now }
{
    let mut line = 1;
    let mut left = recorded;
    let mut other = run;
    while let [a, rest @ ..] = left {
        let [b, others @ ..] = other else {
            return Verdict::Differs(line);
        };
        if a != b {
            return Verdict::Differs(line);
        }
        if *a == b'\n' {
            line += 1;
        }
        left = rest;
        other = others;
    }
    if other.is_empty() {
        Verdict::Same
    } else {
        Verdict::Differs(line)
    }
}
