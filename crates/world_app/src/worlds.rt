//! Running a list of events over the nodes of a group.
ghost use Rattle.std.specs.Prelude.{◌≡◌, ◌≢◌, ◌↔◌, ℕ, List, Err, IfErr, IfOk, IfSome, IsSome, OnOk};
ghost use Rattle.std.specs.Io.KnownBytes.{Appends};
ghost use Rattle.raft_log.specs.Peers.{IsGroupSize};
ghost use Rattle.world_app.specs.declared.run_fault.RunFault.TheVariants.{Refused};
ghost use Rattle.whole_input.specs.Reads.{IsTooLong, IsWithin};
ghost use Rattle.world_app.specs.Worlds.{IsBadOf, IsOfRunning, IsRunOf};

use crate::run_fault::RunFault;
use crate::running::events_text;
use bouncer_tower::TowerBody;
use buffer_commands::Setup;
use raft_log::GroupSize;
use recorder::parse_events;
use std::alloc::Global;
use std::io::{Read, Write};
use whole_input::read_whole;

/// Reads an input whole, runs its events over this many nodes of a bouncer with the plain setup, and writes what came
/// out of each event and then the states of the nodes.
///
/// Nothing is read if no group has that size, and nothing is written before the last event has
/// happened. No contract says when `Read`, `Write` and `Memory` come.
pub fn world<R: Read, W: Write>(
    alloc: Global,
    size: u32,
    input: &mut R,
    output: &mut W,
) -> Result<(), RunFault>
    ensures written { OnOk result (IfSome (R.remaining input.old) (λ bytes. (text : List ℕ)
        × IsRunOf size bytes text × Appends (W.contents output.old) (W.contents output.new) text)) }
    ensures refused { (result ≡ Err (Refused size)) ↔ (IsGroupSize size → ⊥) }
    ensures bad { IfErr result (λ e. IfSome (R.remaining input.old) (λ bytes. IsBadOf bytes e)) }
    ensures bounded { OnOk result (IsWithin (R.remaining input.old)) }
    ensures too_long { IfErr result (λ e. e ≡ RunFault.InputTooLong →
        IsTooLong (R.remaining input.old)) }
    ensures unread { IfErr result (λ e. e ≡ RunFault.Refused size → input.new ≡ input.old) }
    ensures unwritten { IfErr result (λ e. e ≢ RunFault.Write → output.new ≡ output.old) }
{
    let Some(group) = group_size(size) else {
        return Err(RunFault::Refused(size));
    };
    let bytes = read_whole(alloc, input)?;
    let text = run_text(alloc, group, &bytes)?;
    output.write_all(&text).map_err(|_| RunFault::Write)?;
    output.flush().map_err(|_| RunFault::Write)
}

/// The size of a group of this many nodes, if there is one.
fn group_size(size: u32) -> Option<GroupSize>
    ensures value { IfSome result (λ group. group ≡ size) }
    ensures allowed { IsSome result ↔ IsGroupSize size }
{
    if size > 7 {
        return None;
    }
    GroupSize::new(size as u8)
}

/// The text of what comes out of the events of an input, and of the nodes' states afterwards.
fn run_text(alloc: Global, size: GroupSize, input: &[u8]) -> Result<Vec<u8>, RunFault>
    ensures ok { IfOk result (λ text. IsRunOf size input.now text.items) }
    ensures bad { IfErr result (IsBadOf input.now) }
    ensures fault { IfErr result IsOfRunning }
{
    let events = parse_events::<TowerBody>(alloc, input)?;
    let setup = Setup::plain(alloc)?;
    let text = events_text(alloc, size, &setup, &events)?;
    Ok(text)
}
