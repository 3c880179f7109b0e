//! What a file stands for.
ghost use Rattle.std.specs.Prelude.{◌≡◌, ◌≢◌, ◌<◌, ◌+◌, true, None, Err, IfOk, IfErr, OnOk, OnErr};
ghost use Rattle.std.specs.Prelude.{drop, length};
ghost use Rattle.stable_store.specs.Stores.{changed, nothing_saved};
ghost use Rattle.journal_store.specs.Journals.{begins, found, has_version, record_read, AtRest, IsPayload};
ghost use Rattle.journal_store.specs.Payloads.{goes_up, keeps_within, may_follow, names_node};
ghost use Rattle.journal_store.specs.Payloads.{payloads};

use raft_log::{ENTRY_LIMIT, Log, NodeId};
use stable_store::{Change, Saved, StoreFault};
use std::alloc::{AllocError, Global};
use wire_bytes::{Number, Wire, WireFault, take_u32};

const NAME: [u8; 6] = *b"RBSTOR";

/// What follows the name of a new journal.
const VERSION: [u8; 2] = *b"02";

/// What follows it in a journal from before clients had names, which is read like any other.
const OLDER_VERSION: [u8; 2] = *b"01";

/// The greatest length of a payload.
const PAYLOAD_LIMIT: u32 = 33_554_432;

/// What a new store holds.
pub fn nothing<B: Wire>(alloc: Global) -> Saved<B>
    ensures { result ≡ nothing_saved }
{
    Saved {
        boot: Number::new(0),
        term: Number::new(0),
        vote: None,
        log: Log::new(alloc),
    }
}

/// What a file stands for, and the place of its closed gate. Full blocks of entries that another log has at the same
/// places are shared with it.
pub fn find<B: Wire>(
    alloc: Global,
    file: &[u8],
    beside: &Log<B>,
) -> Result<(Saved<B>, usize), StoreFault>
    ensures ok { IfOk result (λ r. AtRest (payloads B.taken) nothing_saved file.now r.0 r.1) }
    ensures fault { IfErr result (λ e. e ≢ StoreFault.Memory
        → found (payloads B.taken) nothing_saved file.now ≡ Err e) }
    ensures device { IfErr result (λ e. e ≢ StoreFault.Device) }
{
    if file.len() < 9 || !begins(&NAME, file) {
        return Err(StoreFault::NotAStore);
    }
    let (_, behind) = file.split_at(6);
    if !has_version(behind) {
        return Err(StoreFault::Version);
    }
    let mut saved = nothing(alloc);
    let mut shared = 0;
    let mut place = 8;
    while file[place] != 0 {
        let (change, size) = change_at::<B>(alloc, file, place)?;
        if !may_follow(&saved, &change) {
            return Err(StoreFault::Damaged(place as u64));
        }
        follow(&mut saved, &change)?;
        shared = saved.log.share(shared, beside)?;
        place += 5 + size;
    }
    Ok((saved, place))
}

/// Whether these bytes begin with a version that can be read.
fn has_version(behind: &[u8]) -> bool
    ensures { result ≡ has_version behind.now }
{
    begins(&VERSION, behind) || begins(&OLDER_VERSION, behind)
}

/// Whether a file begins with these bytes.
fn begins(front: &[u8], file: &[u8]) -> bool
    ensures { result ≡ begins front.now file.now }
{
    match front {
        [] => true,
        [x, xs @ ..] => match file {
            [] => false,
            [y, ys @ ..] => *x == *y && begins(xs, ys),
        },
    }
}

/// The change behind the open gate at a place, and the length of its payload.
fn change_at<B: Wire>(
    alloc: Global,
    file: &[u8],
    place: usize,
) -> Result<(Change<B>, usize), StoreFault>
    requires { place < length file.now }
    ensures ok { IfOk result
        (λ r. IsPayload (payloads B.taken) (drop (place + 1) file.now) r.0 r.1) }
    ensures fault { IfErr result (λ e. e ≢ StoreFault.Memory → e ≡ StoreFault.Damaged place) }
    ensures none { IfErr result (λ e. e ≢ StoreFault.Memory
        → (s : Saved B) → record_read (payloads B.taken) s (drop (place + 1) file.now) ≡ None) }
{
    let (_, rest) = file.split_at(place + 1);
    let size = match take_u32(rest, PAYLOAD_LIMIT) {
        Ok((size, _)) => size as usize,
        Err(_) => return Err(StoreFault::Damaged(place as u64)),
    };
    let (_, body) = rest.split_at(4);
    if body.len() <= size {
        return Err(StoreFault::Damaged(place as u64));
    }
    let (payload, _) = body.split_at(size);
    match Change::<B>::take(alloc, payload) {
        Ok((change, len)) => {
            if len == size {
                Ok((change, size))
            } else {
                Err(StoreFault::Damaged(place as u64))
            }
        }
        Err(WireFault::Memory) => Err(StoreFault::Memory),
        Err(WireFault::Short) => Err(StoreFault::Damaged(place as u64)),
        Err(WireFault::Bad(_)) => Err(StoreFault::Damaged(place as u64)),
    }
}

/// Whether a change may follow what is saved, as `save` requires.
pub fn may_follow<B: Wire>(saved: &Saved<B>, change: &Change<B>) -> bool
    ensures { result ≡ may_follow saved.now change.now }
{
    keeps_within(saved, change) && goes_up(saved, change)
}

/// Whether no more entries are kept than there are, and the log stays within its limit.
fn keeps_within<B: Wire>(saved: &Saved<B>, change: &Change<B>) -> bool
    ensures { result ≡ keeps_within saved.now change.now }
{
    let keep = change.keep();
    keep <= saved.log.len() && keep.value() as usize + change.entries().len() <= ENTRY_LIMIT
}

/// Whether boot and term do not decrease, and a vote is for a node.
fn goes_up<B: Wire>(saved: &Saved<B>, change: &Change<B>) -> bool
    ensures { result ≡ goes_up saved.now change.now }
{
    saved.boot <= change.boot() && saved.term <= change.term() && names_node(change.vote())
}

fn names_node(vote: Option<u8>) -> bool
    ensures { result ≡ names_node vote }
{
    match vote {
        None => true,
        Some(node) => 1 <= node && node <= 7,
    }
}

/// Makes a change that may follow, or no part of it.
pub fn follow<B: Wire>(saved: &mut Saved<B>, change: &Change<B>) -> Result<(), AllocError>
    requires { may_follow saved.old change.now ≡ true }
    ensures ok { OnOk result (saved.new ≡ changed saved.old change.now) }
    ensures err { OnErr result (saved.new ≡ saved.old) }
{
    // the one step that can fail goes first
    saved.log.replace_from(change.keep(), change.entries())?;
    saved.boot = change.boot();
    saved.term = change.term();
    saved.vote = node_of(change.vote());
    Ok(())
}

fn node_of(vote: Option<u8>) -> Option<NodeId>
    requires { names_node vote ≡ true }
    ensures { result ≡ vote }
{
    match vote {
        None => None,
        Some(node) => Some(NodeId::new(node)),
    }
}
