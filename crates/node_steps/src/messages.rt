//! What a node is about to do when a message comes.
ghost use Rattle.std.specs.Prelude.{◌≡◌, ◌==◌, ◌≤◌, ◌&&◌, length, nat_le, not, IfOk};
ghost use Rattle.raft_log.specs.Node.{message as sent_by, raised};
ghost use Rattle.raft_log.specs.Seen.{Becomes};
ghost use Rattle.raft_log.specs.Steps.{IsStep, IsWithinLog};
ghost use Rattle.node_steps.specs.Messages.{handled, on_message};
ghost use Rattle.wire_bytes.specs.Limits.{body_limit};

use raft_log::{Kind, Log, Message, NodeId, NodeState, Standing, Step};
use std::alloc::{AllocError, Global};
use wire_bytes::{Number, Wire};

/// A message comes. If its term is larger, the term is set first: section 5.1 of the Raft paper, and "All Servers" in
/// its Figure 2. Then the message is handled by its kind. One that is not to this node, or not from another node of its
/// group, changes nothing.
///
/// A node that becomes leader by it appends the blank body first (section 8).
pub fn on_message<B: Wire>(
    alloc: Global,
    state: &NodeState<B>,
    id: NodeId,
    message: Message<B>,
    blank: B,
) -> Result<Step<B>, AllocError>
    requires within { IsWithinLog state.now.standing state.now.log }
    requires fits { B.fits blank }
    requires short { length (B.spelled blank) ≤ body_limit }
    ensures { IfOk result (IsStep
        (λ s. on_message blank state.now.standing.peers.size id s message)
        state.now.standing state.now.log) }
{
    let Message {
        term,
        from,
        to,
        kind,
    } = message;
    let size = state.standing.peers.size().value();
    if !is_heard(size, id, from, to) {
        return Ok(Step::still(alloc, state.standing, &state.log));
    }
    let standing = raised(state, term);
    handled(
        alloc,
        standing,
        &state.log,
        id,
        NodeId::new(from),
        term,
        kind,
        blank,
    )
}

/// The standing that a message of this term is handled in, of the same group.
fn raised<B: Wire>(state: &NodeState<B>, term: Number) -> Standing
    ensures step { Becomes (λ s. raised s term) state.now.standing state.now.log result }
    ensures group { result.peers ≡ state.now.standing.peers }
{
    let raised = state.raised(term);
    // what is known of the others stays; so does the size, which `raised` does not mention
    Standing {
        peers: state.standing.peers,
        ..raised
    }
}

/// Whether a message is to this node, from another one of the group.
fn is_heard(size: u8, id: NodeId, from: u8, to: u8) -> bool
    ensures { result ≡ (to == id && (not (from == id) && (nat_le 1 from && nat_le from size))) }
{
    to == id.value() && from != id.value() && 1 <= from && from <= size
}

/// A message whose term is not larger is handled, by its kind.
fn handled<B: Wire>(
    alloc: Global,
    standing: Standing,
    log: &Log<B>,
    id: NodeId,
    from: NodeId,
    term: Number,
    kind: Kind<B>,
    blank: B,
) -> Result<Step<B>, AllocError>
    requires within { IsWithinLog standing log.now }
    requires fits { B.fits blank }
    requires short { length (B.spelled blank) ≤ body_limit }
    ensures { IfOk result (IsStep
        (λ s. handled blank standing.peers.size id s (sent_by term from id kind) kind)
        standing log.now) }
{
    match kind {
        Kind::RequestVote {
            last_index,
            last_term,
        } => election::on_request_vote(alloc, standing, log, id, from, term, last_index, last_term),
        Kind::Vote { granted } => {
            replication::on_vote(alloc, standing, log, from, term, granted, blank)
        }
        Kind::Append(batch) => replication::on_append(alloc, standing, log, id, from, term, batch),
        Kind::AppendReply { ok, place } => Ok(replication::on_append_reply(
            alloc, standing, log, id, from, term, ok, place,
        )),
        Kind::Forward(body) => replication::on_forward(alloc, standing, log, body),
    }
}
