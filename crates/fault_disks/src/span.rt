ghost use Rattle.std.specs.Prelude.{◌≡◌};
ghost use Rattle.std.specs.Prelude.{◌+◌, ◌<◌, ◌^◌, ◌∷◌, IfOk};
ghost use Rattle.journal_store.specs.Disks.{is_not_covered, not_covered};
ghost use Rattle.fault_disks.specs.Images.{is_outside};

use std::alloc::{AllocError, Global};
use std::marker::Model;

/// This many bytes from a place on.
#[derive(Clone, Copy)]
pub struct Span {
    pub place: usize,
    pub size: usize,
}

impl Model for Span {
    ghost use Rattle.journal_store.specs.Disks.{Range};

    ghost Value = { Range };

    ghost view = { λ s. record { place = s.place; size = s.size } };

    ghost inverse = { λ r. record { place = r.place; size = r.size } };
}

/// Whether a place is in none of these.
pub fn is_outside(place: usize, spans: &[Span]) -> bool
    ensures { result ≡ is_outside place spans.now }
{
    match spans {
        [] => true,
        [span, rest @ ..] => {
            (place < span.place || place - span.place >= span.size) && is_outside(place, rest)
        }
    }
}

/// Whether a write, after which the file has this length, leaves some of a span as it was.
fn is_not_covered(write: Span, len: usize, span: Span) -> bool
    requires { write.place + write.size < 2 ^ 64 }
    ensures { result ≡ is_not_covered write.place write.size len span }
{
    let end = span.place.saturating_add(span.size).min(len);
    !(write.place <= span.place && end <= write.place + write.size)
}

/// The ones among these spans that a write does not cover, after which the file has this length.
pub fn not_covered(
    alloc: Global,
    write: Span,
    len: usize,
    spans: &[Span],
) -> Result<Vec<Span>, AllocError>
    requires { write.place + write.size < 2 ^ 64 }
    ensures { IfOk result (λ v. v.items ≡ not_covered write.place write.size len spans.now) }
{
    match spans {
        [] => Ok(Vec::new(alloc)),
        [first, rest @ ..] => {
            let others = not_covered(alloc, write, len, rest)?;
            if is_not_covered(write, len, *first) {
                with_first(others, *first)
            } else {
                Ok(others)
            }
        }
    }
}

/// The spans with this one before them.
pub fn with_first(spans: Vec<Span>, span: Span) -> Result<Vec<Span>, AllocError>
    ensures { IfOk result (λ v. v.items ≡ span ∷ spans.items) }
{
    let mut spans = spans;
    spans.insert(0, span)?;
    Ok(spans)
}
