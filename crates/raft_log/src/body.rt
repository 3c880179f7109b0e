ghost use Rattle.std.specs.Prelude.{◌≡◌, ◌+◌, ◌≤◌, IfOk, length, true, vec_capacity};
ghost use Rattle.raft_log.specs.Spellings.{written_over};
ghost use Rattle.wire_bytes.specs.Limits.{body_limit};

use std::alloc::{AllocError, Global};
use std::marker::Model;
use std::sync::Arc;
use wire_bytes::{BODY_LIMIT, Copied, Wire, WireFault, take_behind, take_u32};

/// A body that may be in a log: it has a spelling, of at most 65,536 bytes. All copies of it share one value in memory.
#[derive(Drop)]
pub struct LoggedBody<B: Wire> {
    body: Arc<B, Global>,
}

impl<B: Wire> Model for LoggedBody<B> {
    ghost use Rattle.std.specs.Arc.{arc_value};
    ghost use Rattle.raft_log.specs.Spellings.{FitsMeasured};

    ghost Value = { B };

    ghost view = { λ b. arc_value b.body };

    ghost invariant = { λ b. FitsMeasured B.fits B.spelled (arc_value b.body) };
}

impl<B: Wire> LoggedBody<B> {
    pub fn new(alloc: Global, body: B) -> Result<Self, AllocError>
        requires fits { B.fits body }
        requires short { length (B.spelled body) ≤ body_limit }
        ensures { IfOk result (λ b. b ≡ body) }
    {
        let body = Arc::new(alloc, body)?;
        Ok(LoggedBody { body })
    }

    pub fn get(&self) -> &B
        ensures value { result.now ≡ self.now }
        ensures fits { B.fits self.now }
        ensures short { length (B.spelled self.now) ≤ body_limit }
    {
        &self.body
    }

    /// Whether another body is the same. Their spellings, which are compared, are written to `texts`.
    pub fn is_same(&self, other: &Self, texts: &mut Vec<u8>) -> Result<bool, AllocError>
        ensures { IfOk result (λ same. same ≡ true → self.now ≡ other.now) }
    {
        texts.clear();
        self.get().put(texts)?;
        let middle = texts.len();
        other.get().put(texts)?;
        let (one, two) = texts.split_at(middle);
        Ok(one == two)
    }
}

/// A copy is one more pointer to the same value.
impl<B: Wire> Copied for LoggedBody<B> {
    fn copy(&self, _alloc: Global) -> Result<Self, AllocError> {
        let body = Arc::try_clone(&self.body)?;
        Ok(LoggedBody { body })
    }
}

/// A length in four bytes, and the body. The length must be that of the body's spelling, else it is refused as Bad at
/// its own place, once the body was read.
impl<B: Wire> Wire for LoggedBody<B> {
    ghost use Rattle.raft_log.specs.Spellings.{spelled_measured, FitsMeasured, measured};
    ghost use Rattle.raft_log.specs.Spellings.{wants_measured};
    ghost use Rattle.raft_log.specs.BodyCodec.{measured-codec};

    ghost spelled = { spelled_measured B.spelled };

    ghost fits = { FitsMeasured B.fits B.spelled };

    ghost taken = { measured B.taken };

    ghost wants = { wants_measured B.wants B.taken };

    #[tactic(auto, using(crate::proofs::Measures::measured_length))]
    fn put(&self, out: &mut Vec<u8>) -> Result<(), AllocError> {
        let start = out.len();
        // the length is known only after the body is written
        out.extend_from_slice(&[0; 4])?;
        let outcome = self.get().put(out);
        if outcome.is_err() {
            out.truncate(start);
            return outcome;
        }
        let size = (out.len() - start - 4) as u32;
        write_over(out, start, &size.to_be_bytes());
        Ok(())
    }

    fn take(alloc: Global, input: &[u8]) -> Result<(Self, usize), WireFault> {
        let (size, place) = take_u32(input, BODY_LIMIT as u32)?;
        let (body, end) = take_behind::<B>(alloc, input, place)?;
        if end == place + size as usize {
            Ok((LoggedBody::new(alloc, body)?, end))
        } else {
            Err(WireFault::Bad(0))
        }
    }

    ghost is_codec = { measured-codec B.spelled B.fits B.taken B.is_codec };
}

/// Overwrites the bytes at a place.
fn write_over(out: &mut Vec<u8>, place: usize, bytes: &[u8])
    requires { place + length bytes.now ≤ length out.old.items }
    ensures items { out.new.items ≡ written_over out.old.items place bytes.now }
    ensures capacity { vec_capacity out.new ≡ vec_capacity out.old }
{
    out[place..place + bytes.len()].copy_from_slice(bytes);
}
