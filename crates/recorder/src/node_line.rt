//! The state of a node, as a line of text.
ghost use Rattle.std.specs.Prelude.{◌≡◌, ◌++◌, [], decimal, OnOk};
ghost use Rattle.raft_log.specs.Seen.{seen};
ghost use Rattle.recorder.specs.NodeLines.{fields_line, node_line, place_words, role_word};
ghost use Rattle.recorder.specs.NodeLines.{term_words, vote_number};

use crate::writing::push_number;
use raft_log::{NodeId, NodeState, Role};
use std::alloc::AllocError;
use wire_bytes::{Number, Wire};

/// What the line of a node says.
#[derive(Clone, Copy, Debug, PartialEq, Eq)]
pub struct NodeFields {
    pub role: Role,
    pub term: Number,
    pub vote: Option<NodeId>,
    /// How many entries its log has.
    pub log: Number,
    /// The term of the last entry, 0 if there is none.
    pub last: Number,
    /// The place up to which it committed.
    pub commit: Number,
    /// The place up to which it applied.
    pub applied: Number,
}

impl NodeFields {
    ghost use Rattle.recorder.specs.NodeLines.{fields_of};

    /// What the line of a node in this state says.
    pub fn of<B: Wire>(state: &NodeState<B>) -> NodeFields
        ensures { result ≡ fields_of (seen state.now []) }
    {
        let standing = &state.standing;
        let (log, last) = state.log.last();
        NodeFields {
            role: standing.position.role(),
            term: standing.term,
            vote: standing.vote,
            log,
            last,
            commit: standing.commit,
            applied: standing.applied,
        }
    }
}

/// Appends the line of a node with its end. After an error a part of it may have been appended.
pub fn push_node<B: Wire>(
    out: &mut Vec<u8>,
    node: NodeId,
    state: &NodeState<B>,
) -> Result<(), AllocError>
    ensures { OnOk result (out.new.items ≡ out.old.items ++ node_line node (seen state.now [])) }
{
    push_fields(out, node, &NodeFields::of(state))
}

/// Appends the line that says this of a node, with its end. After an error a part of it may have
/// been appended.
pub fn push_fields(out: &mut Vec<u8>, node: NodeId, fields: &NodeFields) -> Result<(), AllocError>
    ensures { OnOk result (out.new.items ≡ out.old.items ++ fields_line node fields.now) }
{
    push_named(out, b"node ", node.value() as u64)?;
    push_term(out, fields)?;
    push_named(out, b" log ", fields.log.value())?;
    push_named(out, b" last ", fields.last.value())?;
    push_places(out, fields.commit, fields.applied)
}

/// Appends the places up to which a node committed and applied, and the end of its line.
fn push_places(out: &mut Vec<u8>, commit: Number, applied: Number) -> Result<(), AllocError>
    ensures { OnOk result (out.new.items ≡ out.old.items ++ place_words commit applied) }
{
    push_named(out, b" commit ", commit.value())?;
    push_named(out, b" applied ", applied.value())?;
    Ok(out.push(b'\n')?)
}

/// Appends a node's role, its term, and for whom it voted.
fn push_term(out: &mut Vec<u8>, fields: &NodeFields) -> Result<(), AllocError>
    ensures { OnOk result (out.new.items ≡ out.old.items ++
        term_words fields.now.role fields.now.term fields.now.vote) }
{
    out.push(b' ')?;
    out.extend_from_slice(role_text(fields.role))?;
    push_named(out, b" term ", fields.term.value())?;
    push_named(out, b" vote ", vote_value(fields.vote))
}

/// Appends words and a number.
fn push_named(out: &mut Vec<u8>, words: &[u8], number: u64) -> Result<(), AllocError>
    ensures { OnOk result (out.new.items ≡ out.old.items ++ words.now ++ decimal number) }
{
    out.extend_from_slice(words)?;
    push_number(out, number)
}

fn role_text(role: Role) -> &'static [u8]
    ensures { result.now ≡ role_word role }
{
    match role {
        Role::Follower => b"follower",
        Role::Candidate => b"candidate",
        Role::Leader => b"leader",
    }
}

/// The node that was voted for, 0 if none was.
fn vote_value(vote: Option<NodeId>) -> u64
    ensures { result ≡ vote_number vote }
{
    match vote {
        Some(node) => node.value() as u64,
        None => 0,
    }
}
