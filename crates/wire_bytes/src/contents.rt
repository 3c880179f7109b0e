ghost use Rattle.std.specs.Prelude.{◌≡◌, ◌≢◌, IfOk, IfErr, IsOk, Ok, Err};
ghost use Rattle.wire_bytes.specs.Contents.{FitsLine, sized_bytes, name, text, line};
ghost use Rattle.wire_bytes.specs.Reads.{Reads, Refuses};

use crate::fields::{put_sized, take_byte, take_sized, undo};
use crate::wire::Wire;
use crate::wire_fault::WireFault;
use irc_line::{Line, Name, Text, is_a_name, is_a_text};
use std::alloc::{AllocError, Global};

/// Two bytes of length and the bytes, which are one field.
impl Wire for Name {
    ghost use Rattle.std.specs.Prelude.{IsTrue};
    ghost use Rattle.irc_line.specs.Names.{is_name};
    ghost use Rattle.wire_bytes.specs.Contents.{sized, name};
    ghost use Rattle.wire_bytes.specs.Wants.{once_whole};
    ghost use Rattle.wire_bytes.specs.ContentCodecs.{name_is_codec};

    ghost spelled = { sized };

    ghost fits = { λ v. IsTrue (is_name v) };

    ghost taken = { name };

    ghost wants = { once_whole name };

    fn put(&self, out: &mut Vec<u8>) -> Result<(), AllocError> {
        put_sized(out, self.as_bytes())
    }

    #[tactic(auto, unfolding(crate::specs::Contents::name))]
    fn take(alloc: Global, input: &[u8]) -> Result<(Self, usize), WireFault> {
        let bytes = take_sized(input)?;
        if !is_a_name(bytes) {
            return Err(WireFault::Bad(0));
        }
        match Name::from_bytes(Vec::from_slice(alloc, bytes)?) {
            None => Err(WireFault::Bad(0)),
            Some(name) => Ok((name, 2 + bytes.len())),
        }
    }

    ghost is_codec = { name_is_codec };
}

/// Two bytes of length and the bytes, which are one field.
impl Wire for Text {
    ghost use Rattle.std.specs.Prelude.{IsTrue};
    ghost use Rattle.irc_line.specs.Names.{is_text};
    ghost use Rattle.wire_bytes.specs.Contents.{sized, text};
    ghost use Rattle.wire_bytes.specs.Wants.{once_whole};
    ghost use Rattle.wire_bytes.specs.ContentCodecs.{text_is_codec};

    ghost spelled = { sized };

    ghost fits = { λ v. IsTrue (is_text v) };

    ghost taken = { text };

    ghost wants = { once_whole text };

    fn put(&self, out: &mut Vec<u8>) -> Result<(), AllocError> {
        put_sized(out, self.as_bytes())
    }

    #[tactic(auto, unfolding(crate::specs::Contents::text))]
    fn take(alloc: Global, input: &[u8]) -> Result<(Self, usize), WireFault> {
        let bytes = take_sized(input)?;
        if !is_a_text(bytes) {
            return Err(WireFault::Bad(0));
        }
        match Text::from_bytes(Vec::from_slice(alloc, bytes)?) {
            None => Err(WireFault::Bad(0)),
            Some(text) => Ok((text, 2 + bytes.len())),
        }
    }

    ghost is_codec = { text_is_codec };
}

/// Two bytes of length, 1 to 511, and the canonical spelling; any other spelling of a line is refused.
impl Wire for Line {
    ghost use Rattle.wire_bytes.specs.Contents.{spelled_line, FitsLine, line};
    ghost use Rattle.wire_bytes.specs.Wants.{once_whole};
    ghost use Rattle.wire_bytes.specs.LineCodec.{line_is_codec};

    ghost spelled = { spelled_line };

    ghost fits = { FitsLine };

    ghost taken = { line };

    ghost wants = { once_whole line };

    #[tactic(auto, unfolding(crate::specs::Contents::sized, crate::specs::Contents::spelled_line))]
    fn put(&self, out: &mut Vec<u8>) -> Result<(), AllocError> {
        let len = out.len();
        out.extend_from_slice(&(self.spelled_len() as u16).to_be_bytes())?;
        let outcome = self.write_to(out);
        undo(out, len, outcome)
    }

    #[tactic(auto, using(crate::specs::LineCodec::line_fits), unfolding(crate::specs::Contents::line))]
    fn take(alloc: Global, input: &[u8]) -> Result<(Self, usize), WireFault>
        ensures ok { Reads result line input.now }
        ensures err { Refuses result line input.now }
        ensures memory { IfErr result (λ e. e ≡ WireFault.Memory → IsOk (line input.now)) }
        ensures fits { IfOk result (λ r. FitsLine r.0) }
    {
        let bytes = take_sized(input)?;
        match Line::from_spelling(alloc, bytes)? {
            None => Err(WireFault::Bad(0)),
            Some(line) => Ok((line, 2 + bytes.len())),
        }
    }

    ghost is_codec = { line_is_codec };
}
