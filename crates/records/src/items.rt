//! The lines of a record file.
ghost use Rattle.std.specs.Prelude.{◌≡◌, ◌++◌, ◌∷◌, [], decimal, IfErr, IfOk, MatchOption, OnOk, option_map};
ghost use Rattle.raft_log.specs.Peers.{IsGroupSize};
ghost use Rattle.recorder.specs.InputReadings.{FitsEvent, text_of_event};
ghost use Rattle.recorder.specs.Readings.{ReadsAs};
ghost use Rattle.records.specs.RecordReading.{AreItems, FitsFirst, FitsIn, IsItemFault, IsVersioned, item_text, may_hold};
ghost use Rattle.records.specs.RecordText.{SetupFits, SizeFits, setup_text, size_text, version_mark};

use crate::file_version::FileVersion;
use crate::replay_fault::ReplayFault;
use buffer_commands::WireLine;
use irc_line::{Name, is_same};
use raft_log::GroupSize;
use recorder::{Dated, event_brings_name, read_body, read_event, read_number, split};
use std::alloc::{AllocError, Global};
use wire_bytes::Wire;
use world_events::Event;

/// How many lines come before the first event, and one more.
const FIRST_EVENT: u64 = 3;

/// The version that the first line begins with, and what follows this.
pub fn versioned(input: &[u8]) -> Option<(FileVersion, &[u8])>
    ensures { MatchOption result (IsVersioned input.now → ⊥)
        (λ p. version_mark p.0 ++ p.1.now ≡ input.now) }
{
    if let Some(rest) = input.strip_prefix(b"RBREC02 ") {
        return Some((FileVersion::Second, rest));
    }
    match input.strip_prefix(b"RBREC01 ") {
        Some(rest) => Some((FileVersion::First, rest)),
        None => None,
    }
}

/// The size of the first line, and what follows the line.
pub fn first_size(text: &[u8]) -> Option<(GroupSize, &[u8])>
    ensures { ReadsAs size_text SizeFits text.now (option_map (λ p. (p.0, p.1.now)) result) }
{
    match split(text, b'\n') {
        Some((word, behind)) => match group_size(word) {
            Some(size) => Some((size, behind)),
            None => None,
        },
        None => None,
    }
}

/// The size of a group that a word gives.
fn group_size(word: &[u8]) -> Option<GroupSize>
    ensures { ReadsAs decimal IsGroupSize word.now result }
{
    match read_number(word) {
        Some(number) => if number <= 7 {
            GroupSize::new(number as u8)
        } else {
            None
        },
        None => None,
    }
}

/// The setup of the next line, and what follows the line.
pub fn first_setup<S: Wire>(alloc: Global, text: &[u8]) -> Result<Option<(S, &[u8])>, AllocError>
    ensures { IfOk result (λ r. ReadsAs (setup_text S.spelled S.fits) (SetupFits S.spelled S.fits)
        text.now (option_map (λ p. (p.0, p.1.now)) r)) }
{
    match split(text, b'\n') {
        Some((digits, behind)) => match read_body(alloc, digits)? {
            Some(setup) => Ok(Some((setup, behind))),
            None => Ok(None),
        },
        None => Ok(None),
    }
}

/// The events of a text up to its line `outputs`, and what follows this.
pub fn read_items<B: Dated>(
    alloc: Global,
    version: FileVersion,
    text: &[u8],
) -> Result<(Vec<Event<B, WireLine, Name>>, &[u8]), ReplayFault>
    ensures items { IfOk result (λ r. AreItems B.spelled (FitsIn B.fits B.brings_name version)
        text.now r.0.items r.1.now) }
    ensures bad { IfErr result
        (IsItemFault B.spelled (FitsIn B.fits B.brings_name version) text.now) }
{
    let mut events = Vec::new(alloc);
    let mut rest = text;
    while !rest.is_empty() {
        match first_item(alloc, version, rest)? {
            Some((item, behind)) => match item {
                Some(event) => {
                    keep(&mut events, event)?;
                    rest = behind;
                }
                None => return Ok((events, behind)),
            },
            None => return Err(ReplayFault::BadLine(events.len() as u64 + FIRST_EVENT)),
        }
    }
    Err(ReplayFault::BadLine(events.len() as u64 + FIRST_EVENT))
}

/// Appends an event.
fn keep<E: Drop>(events: &mut Vec<E>, event: E) -> Result<(), AllocError>
    ensures { OnOk result (events.new.items ≡ events.old.items ++ event ∷ []) }
{
    Ok(events.push(event)?)
}

/// The event of the next line, or none if the line is `outputs`, and what follows the line.
fn first_item<B: Dated>(
    alloc: Global,
    version: FileVersion,
    text: &[u8],
) -> Result<Option<(Option<Event<B, WireLine, Name>>, &[u8])>, AllocError>
    ensures { IfOk result (λ r. ReadsAs (item_text B.spelled B.fits)
        (FitsFirst B.spelled (FitsIn B.fits B.brings_name version))
        text.now (option_map (λ p. (p.0, p.1.now)) r)) }
{
    match split(text, b'\n') {
        Some((line, behind)) => {
            if is_same(line, b"outputs") {
                return Ok(Some((None, behind)));
            }
            match read_held(alloc, version, line)? {
                Some(event) => Ok(Some((Some(event), behind))),
                None => Ok(None),
            }
        }
        None => Ok(None),
    }
}

/// The event of a line without its end, if a file of this version may hold it.
fn read_held<B: Dated>(
    alloc: Global,
    version: FileVersion,
    line: &[u8],
) -> Result<Option<Event<B, WireLine, Name>>, AllocError>
    ensures { IfOk result (ReadsAs (text_of_event B.spelled B.fits)
        (FitsEvent B.spelled (FitsIn B.fits B.brings_name version)) line.now) }
{
    match read_event(alloc, line)? {
        Some(event) => if may_hold(version, &event) {
            Ok(Some(event))
        } else {
            Ok(None)
        },
        None => Ok(None),
    }
}

/// Whether a file of this version may hold an event.
fn may_hold<B: Dated>(version: FileVersion, event: &Event<B, WireLine, Name>) -> bool
    ensures { result ≡ may_hold B.brings_name version event.now }
{
    match version {
        FileVersion::First => !event_brings_name(event),
        FileVersion::Second => true,
    }
}
