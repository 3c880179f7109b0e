ghost use Rattle.std.specs.Prelude.{◌≡◌, Ok, ◌≤◌};
ghost use Rattle.buffer_commands.specs.Spellings.{buffer_size};

use std::alloc::{AllocError, Global};
use std::marker::Model;
use wire_bytes::{Copied, Wire, WireFault, take_u16};

/// How many lines a client asks a target to keep.
///
/// A clause sees it as the number.
#[derive(Clone, Copy, Debug, PartialEq, Eq)]
pub struct BufferSize {
    lines: u16,
}

impl Model for BufferSize {
    ghost use Rattle.std.specs.Prelude.{ℕ, ◌≤◌};

    ghost Value = { ℕ };

    ghost view = { λ s. s.lines };

    ghost invariant = { λ s. s.lines ≤ 65535 };

    ghost inverse = { λ v. record { lines = v } };
}

impl BufferSize {
    pub fn new(lines: u16) -> BufferSize
        ensures { result ≡ lines }
    {
        BufferSize { lines }
    }

    pub fn lines(self) -> usize
        ensures value { result ≡ self }
        ensures limit { self ≤ 65535 }
    {
        self.lines as usize
    }
}

impl Copied for BufferSize {
    fn copy(&self, _alloc: Global) -> Result<Self, AllocError>
        ensures { result ≡ Ok self.now }
    {
        Ok(*self)
    }
}

/// Two bytes, the highest first.
impl Wire for BufferSize {
    ghost use Rattle.buffer_commands.specs.Spellings.{spelled_size, FitsSize, buffer_size};
    ghost use Rattle.wire_bytes.specs.Wants.{never};
    ghost use Rattle.buffer_commands.specs.ActionCodec.{size_is_codec};

    ghost spelled = { spelled_size };

    ghost fits = { FitsSize };

    ghost taken = { buffer_size };

    ghost wants = { never };

    #[tactic(auto, unfolding(crate::specs::Spellings::spelled_size))]
    fn put(&self, out: &mut Vec<u8>) -> Result<(), AllocError> {
        out.extend_from_slice(&self.lines.to_be_bytes())
    }

    #[tactic(auto, unfolding(crate::specs::Spellings::buffer_size))]
    fn take(_alloc: Global, input: &[u8]) -> Result<(Self, usize), WireFault> {
        let (lines, len) = take_u16(input, u16::MAX)?;
        Ok((BufferSize { lines }, len))
    }

    ghost is_codec = { size_is_codec };
}
