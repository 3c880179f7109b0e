ghost use Rattle.std.specs.Prelude.{◌≡◌, IfOk, IfErr, Ok, Err};
ghost use Rattle.wire_bytes.specs.Fields.{byte_within, truth};

use crate::fields::take_byte;
use crate::wire::Wire;
use crate::wire_fault::WireFault;
use std::alloc::{AllocError, Global};

/// One byte, 0 or 1.
impl Wire for bool {
    ghost use Rattle.std.specs.Prelude.{◌∷◌, []};
    ghost use Rattle.wire_bytes.specs.Fields.{truth, truth_byte};
    ghost use Rattle.wire_bytes.specs.Wants.{never};
    ghost use Rattle.wire_bytes.specs.FieldCodecs.{truth_is_codec};

    ghost spelled = { λ b. truth_byte b ∷ [] };

    ghost fits = { λ _. Unit {0} };

    ghost taken = { truth };

    ghost wants = { never };

    fn put(&self, out: &mut Vec<u8>) -> Result<(), AllocError> {
        out.push(if *self { 1 } else { 0 })?;
        Ok(())
    }

    fn take(_alloc: Global, input: &[u8]) -> Result<(Self, usize), WireFault> {
        match input {
            [] => Err(WireFault::Short),
            [0, ..] => Ok((false, 1)),
            [1, ..] => Ok((true, 1)),
            [_, ..] => Err(WireFault::Bad(0)),
        }
    }

    ghost is_codec = { truth_is_codec };
}

/// The byte itself.
impl Wire for u8 {
    ghost use Rattle.std.specs.Prelude.{◌∷◌, [], ◌≤◌};
    ghost use Rattle.wire_bytes.specs.Fields.{byte_within};
    ghost use Rattle.wire_bytes.specs.Wants.{never};
    ghost use Rattle.wire_bytes.specs.FieldCodecs.{byte-codec};

    ghost spelled = { λ b. b ∷ [] };

    ghost fits = { λ b. (0 ≤ b) × (b ≤ 255) };

    ghost taken = { byte_within 0 255 };

    ghost wants = { never };

    fn put(&self, out: &mut Vec<u8>) -> Result<(), AllocError> {
        out.push(*self)?;
        Ok(())
    }

    fn take(_alloc: Global, input: &[u8]) -> Result<(Self, usize), WireFault> {
        take_byte(input, 0, 255)
    }

    ghost is_codec = { byte-codec 0 255 };
}
