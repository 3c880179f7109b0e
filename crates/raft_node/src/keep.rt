//! How a step is saved, and takes effect.
ghost use Rattle.std.specs.Prelude.{◌≡◌, ◌≤◌, ◌↔◌, length, IfOk, IsTrue};
ghost use Rattle.raft_log.specs.Batches.{batch_limit};
ghost use Rattle.raft_log.specs.Lists.{IsNode};
ghost use Rattle.raft_log.specs.Steps.{IsSavable, after};
ghost use Rattle.stable_store.specs.Changes.{change};
ghost use Rattle.stable_store.specs.Stores.{NamesNode};
ghost use Rattle.raft_node.specs.Parts.{Holds, keeper};
ghost use Rattle.raft_node.specs.Kept.{IsKept, IsStill, IsTaken, MayTake};

use crate::node_fault::Cause;
use raft_log::{Entry, Message, NodeId, NodeState, Standing, Step};
use stable_store::{Change, Stable};
use wire_bytes::{Number, Wire};

/// Saves a step of a state, and then lets it take effect. Returns what is sent.
///
/// Nothing is saved if neither term, vote nor log change.
pub fn keep<B: Wire, S: Stable<B>>(
    store: &mut S,
    state: &mut NodeState<B>,
    step: Step<B>,
) -> Result<Vec<Message<B>>, Cause>
    requires savable { IsSavable state.old.standing state.old.log step }
    requires holds { Holds (keeper S.saved S.may_stand S.condition) store.old state.old }
    ensures kept { IsKept (keeper S.saved S.may_stand S.condition) store.old state.old
        (after state.old step) store.new state.new result }
    ensures sent { IfOk result (λ messages. messages.items ≡ step.messages.items) }
    ensures still { IsStill state.old step.standing step.keep (length step.entries.items)
        → store.new ≡ store.old }
{
    let Step {
        standing,
        keep,
        entries,
        messages,
    } = step;
    let still = is_still(state, &standing, keep, entries.len());
    let entries = if still {
        entries
    } else {
        save(store, &standing, keep, entries)?
    };
    // the save succeeded, so a start from the store mends the lack of memory
    if state.log.put_behind(keep, entries).is_err() {
        return Err(Cause::Memory);
    }
    state.standing = standing;
    Ok(messages)
}

/// Whether neither term, vote nor log change.
fn is_still<B: Wire>(state: &NodeState<B>, standing: &Standing, keep: Number, added: usize) -> bool
    ensures { IsTrue result ↔ IsStill state.now standing.now keep added }
{
    standing.term == state.standing.term
        && standing.vote == state.standing.vote
        && keep == state.log.len()
        && added == 0
}

/// Saves the boot, term and vote of a standing, with these entries after the first `keep`, and
/// returns the entries.
pub fn save<B: Wire, S: Stable<B>>(
    store: &mut S,
    standing: &Standing,
    keep: Number,
    entries: Vec<Entry<B>>,
) -> Result<Vec<Entry<B>>, Cause>
    requires few { length entries.items ≤ batch_limit }
    requires may { NamesNode standing.now.vote
        → MayTake (keeper S.saved S.may_stand S.condition) store.old
        (change standing.now.boot standing.now.term standing.now.vote keep entries.items) }
    ensures taken { IsTaken (keeper S.saved S.may_stand S.condition) store.old
        (change standing.now.boot standing.now.term standing.now.vote keep entries.items)
        store.new result }
    ensures back { IfOk result (λ v. v.items ≡ entries.items) }
{
    let vote = value_of(standing.vote);
    let change = Change::new(standing.boot, standing.term, vote, keep, entries);
    match store.save(&change) {
        Ok(()) => Ok(change.into_entries()),
        Err(fault) => Err(Cause::of(fault)),
    }
}

/// The number of a node that was voted for.
fn value_of(vote: Option<NodeId>) -> Option<u8>
    ensures value { result ≡ vote }
    ensures node { NamesNode vote }
{
    match vote {
        None => None,
        Some(node) => Some(node.value()),
    }
}
