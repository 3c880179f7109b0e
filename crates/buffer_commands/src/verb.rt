ghost use Rattle.std.specs.Prelude.{◌≡◌, Ok};
ghost use Rattle.buffer_commands.specs.Spellings.{verb_of};

use crate::command::Verb;
use std::alloc::{AllocError, Global};
use wire_bytes::{Copied, Wire, WireFault, take_byte};

impl Copied for Verb {
    fn copy(&self, _alloc: Global) -> Result<Self, AllocError>
        ensures { result ≡ Ok self.now }
    {
        Ok(*self)
    }
}

/// One byte, 0 for `PRIVMSG` and 1 for `NOTICE`.
impl Wire for Verb {
    ghost use Rattle.buffer_commands.specs.Spellings.{spelled_verb, verb};
    ghost use Rattle.wire_bytes.specs.Wants.{never};
    ghost use Rattle.buffer_commands.specs.ActionCodec.{verb_is_codec};

    ghost spelled = { spelled_verb };

    ghost fits = { λ _. Unit {0} };

    ghost taken = { verb };

    ghost wants = { never };

    fn put(&self, out: &mut Vec<u8>) -> Result<(), AllocError> {
        let byte = match self {
            Verb::Privmsg => 0,
            Verb::Notice => 1,
        };
        Ok(out.push(byte)?)
    }

    fn take(_alloc: Global, input: &[u8]) -> Result<(Self, usize), WireFault> {
        let (byte, len) = take_byte(input, 0, 1)?;
        Ok((verb_named(byte), len))
    }

    ghost is_codec = { verb_is_codec };
}

fn verb_named(byte: u8) -> Verb
    ensures { result ≡ verb_of byte }
{
    if byte == 0 {
        Verb::Privmsg
    } else {
        Verb::Notice
    }
}
