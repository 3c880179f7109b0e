//! What an uplink gives, as notes to the node of its session.
ghost use Rattle.std.specs.Prelude.{◌≡◌, IfOk};
ghost use Rattle.std.specs.Option.{option_to_list};
ghost use Rattle.driver.specs.Links.{note_of, notes_of};

use crate::order::{Now, TowerNote};
use buffer_commands::WireLine;
use irc_line::is_same;
use node_notes::Note;
use std::alloc::{AllocError, Global};
use uplink::UplinkInput;

/// The answer to the driver's PING (RFC 2812, 3.7.3).
// no client asked for it
const PONG: &[u8] = b"PONG";

/// What an uplink gave, as notes to its node.
#[tactic(auto, unfolding(crate::specs::Links::notes_of))]
pub fn notes_of(
    alloc: Global,
    now: &Now,
    inputs: Vec<UplinkInput>,
) -> Result<Vec<TowerNote>, AllocError>
    ensures { IfOk result (λ notes. notes.items ≡ notes_of now.now.at inputs.items) }
{
    let mut notes = Vec::new(alloc);
    for input in inputs {
        if let Some(note) = note_of(now, input) {
            notes.push(note)?;
        }
    }
    Ok(notes)
}

/// What an uplink gave, as a note to its node; the answer to the driver's own PING is none, nor is a line that cannot
/// be encoded.
fn note_of(now: &Now, input: UplinkInput) -> Option<TowerNote>
    ensures { option_to_list result ≡ note_of now.now.at input }
{
    match input {
        UplinkInput::Opened => Some(Note::Opened),
        UplinkInput::Heard(line) => {
            if is_same(line.command(), PONG) {
                return None;
            }
            let line = WireLine::from_line(line)?;
            Some(Note::Heard(now.at, line))
        }
        UplinkInput::Closed => Some(Note::Closed),
    }
}
