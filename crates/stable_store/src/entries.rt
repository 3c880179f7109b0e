ghost use Rattle.std.specs.Prelude.{◌≡◌, ◌+◌, ◌<◌, ◌≤◌, length, vec_capacity, vec_len};
ghost use Rattle.std.specs.Prelude.{IfOk, IfErr, OnErr, Ok};
ghost use Rattle.wire_bytes.specs.Fields.{appended};
ghost use Rattle.raft_log.specs.Batches.{batch_limit};
ghost use Rattle.raft_log.specs.Entries.{FitsEntry};
ghost use Rattle.stable_store.specs.Lists.{AllFit};
ghost use Rattle.stable_store.specs.EntryLists.{entries_at, spelled_entries, IsRefusal};

use raft_log::{BATCH_LIMIT, Entry};
use std::alloc::{AllocError, Global};
use std::marker::Model;
use wire_bytes::{Copied, Wire, WireFault, copied_all, take_behind, take_u16, undo};

/// At most [`BATCH_LIMIT`] entries.
#[derive(Drop)]
pub struct Entries<B: Wire> {
    entries: Vec<Entry<B>>,
}

impl<B: Wire> Model for Entries<B> {
    ghost use Rattle.std.specs.Prelude.{◌≤◌, List, length};
    ghost use Rattle.raft_log.specs.Batches.{batch_limit};
    ghost use Rattle.raft_log.specs.declared.entry.Entry.{Entry};

    ghost Value = { List (Entry B) };

    ghost view = { λ e. e.entries.items };

    ghost invariant = { λ e. length e.entries.items ≤ batch_limit };
}

impl<B: Wire> Entries<B> {
    pub fn new(entries: Vec<Entry<B>>) -> Self
        requires { length entries.items ≤ batch_limit }
        ensures { result ≡ entries.items }
    {
        Entries { entries }
    }

    pub fn as_slice(&self) -> &[Entry<B>]
        ensures value { result.now ≡ self.now }
        ensures few { length self.now ≤ batch_limit }
    {
        self.entries.as_slice()
    }

    pub fn into_vec(self) -> Vec<Entry<B>>
        ensures { result.items ≡ self }
    {
        self.entries
    }
}

impl<B: Wire> Copied for Entries<B> {
    fn copy(&self, alloc: Global) -> Result<Self, AllocError> {
        let entries = copied_all(alloc, &self.entries)?;
        Ok(Entries { entries })
    }
}

/// Their number in two bytes, and each in turn.
impl<B: Wire> Wire for Entries<B> {
    ghost use Rattle.raft_log.specs.Entries.{FitsEntry, spelled_entry, entry_taken, wants_entry};
    ghost use Rattle.stable_store.specs.Lists.{spelled_counted, FitsCounted, counted};
    ghost use Rattle.stable_store.specs.Lists.{wants_counted};
    ghost use Rattle.stable_store.specs.EntryListCodec.{entries-codec};

    ghost spelled = { spelled_counted (spelled_entry B.spelled) };

    ghost fits = { FitsCounted (FitsEntry B.fits B.spelled) };

    ghost taken = { counted (entry_taken B.taken) };

    ghost wants = { wants_counted (wants_entry B.wants B.taken) (entry_taken B.taken) };

    #[tactic(auto, unfolding(crate::specs::Lists::spelled_counted))]
    fn put(&self, out: &mut Vec<u8>) -> Result<(), AllocError> {
        let len = out.len();
        out.extend_from_slice(&(self.entries.len() as u16).to_be_bytes())?;
        let outcome = put_all(out, &self.entries);
        undo(out, len, outcome)
    }

    fn take(alloc: Global, input: &[u8]) -> Result<(Self, usize), WireFault> {
        let (count, place) = take_u16(input, BATCH_LIMIT as u16)?;
        let (entries, end) = take_many(alloc, input, place, count)?;
        Ok((Entries { entries }, end))
    }

    ghost is_codec = { entries-codec B.spelled B.fits B.taken B.is_codec };
}

/// Does nothing. Entries always have a spelling, since their types keep their limits.
pub fn all_fit<B: Wire>(entries: &[Entry<B>])
    ensures { AllFit (FitsEntry B.fits B.spelled) entries.now }
{
    match entries {
        [] => {}
        [first, rest @ ..] => {
            first.fits();
            all_fit(rest);
        }
    }
}

/// Appends the spelling of each in turn, or leaves the items as they were.
fn put_all<B: Wire>(out: &mut Vec<u8>, entries: &[Entry<B>]) -> Result<(), AllocError>
    requires { AllFit (FitsEntry B.fits B.spelled) entries.now }
    ensures items { let more = spelled_entries B.spelled entries.now in
        out.new.items ≡ appended result out.old.items more }
    ensures full { let more = spelled_entries B.spelled entries.now in
        OnErr result (vec_capacity out.old < vec_len out.old + length more) }
    ensures capacity { vec_capacity out.old ≤ vec_capacity out.new }
{
    let len = out.len();
    for entry in entries {
        let outcome = entry.put(out);
        if outcome.is_err() {
            out.truncate(len);
            return outcome;
        }
    }
    Ok(())
}

/// Reads this many entries from a place of the input on. Places and the end are counted from the
/// input's front.
fn take_many<B: Wire>(
    alloc: Global,
    input: &[u8],
    place: usize,
    count: u16,
) -> Result<(Vec<Entry<B>>, usize), WireFault>
    requires { place ≤ length input.now }
    ensures ok { IfOk result (λ r. entries_at B.taken count place input.now ≡ Ok (r.0.items, r.1)) }
    ensures err { IfErr result (IsRefusal B.wants B.taken count place input.now) }
    ensures number { IfOk result (λ r. length r.0.items ≡ count) }
{
    let mut entries = Vec::new(alloc);
    let mut end = place;
    let mut left = count;
    while left > 0 {
        let (entry, next) = take_behind::<Entry<B>>(alloc, input, end)?;
        entries.push(entry)?;
        end = next;
        left -= 1;
    }
    Ok((entries, end))
}
