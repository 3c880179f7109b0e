ghost use Rattle.std.specs.Prelude.{◌≡◌, true, false, length, map, nat_le, replicate, take, IfOk};
ghost use Rattle.raft_log.specs.Lists.{item_or, with_item, others};
ghost use Rattle.raft_log.specs.Votes.{majority, tally};
ghost use Rattle.raft_log.specs.Peers.{no_peers, majority_has, IsPadded};

use crate::group_size::GroupSize;
use crate::node_id::NodeId;
use std::alloc::{AllocError, Global};
use std::marker::Model;
use wire_bytes::Number;

/// What a node keeps about each node of its group: whether its vote came, the next index to send to it, and the index
/// up to which its log is known to match.
///
/// A clause sees a list of each, of the group's size; that of node 1 is the first.
#[derive(Clone, Copy)]
pub struct Peers {
    size: GroupSize,
    // what is past the size is false or 0
    voters: [bool; 7],
    next: [Number; 7],
    matched: [Number; 7],
}

impl Model for Peers {
    ghost use Rattle.std.specs.Prelude.{false, take};
    ghost use Rattle.raft_log.specs.Peers.{PeerLists, IsPadded, padded};
    ghost use Rattle.raft_log.specs.Padding.{padded-take};

    ghost Value = { PeerLists };

    ghost view = { λ p. record {
      size = p.size;
      voters = take p.size p.voters;
      next = take p.size p.next;
      matched = take p.size p.matched;
    } };

    ghost invariant = { λ p. IsPadded false p.size p.voters × IsPadded 0 p.size p.next
        × IsPadded 0 p.size p.matched };

    ghost inverse = { λ v. record {
      size = v.size;
      voters = padded false v.voters;
      next = padded 0 v.next;
      matched = padded 0 v.matched;
    } };

    ghost inverse_ok = { λ p h i. record {
      size = p.size;
      voters = padded-take false p.size p.voters h.0 i;
      next = padded-take 0 p.size p.next h.1 i;
      matched = padded-take 0 p.size p.matched h.2 i;
    } };
}

impl Peers {
    /// At the start: no vote came, and nothing is known of any log.
    pub fn new(size: GroupSize) -> Peers
        ensures { result ≡ no_peers size }
    {
        Peers {
            size,
            voters: [false; 7],
            next: [Number::new(0); 7],
            matched: [Number::new(0); 7],
        }
    }

    pub fn size(self) -> GroupSize
        ensures { result ≡ self.size }
    {
        self.size
    }

    /// Does nothing. Each list has an item for each node of the group.
    pub fn has_size(self)
        ensures voters { length self.voters ≡ self.size }
        ensures next { length self.next ≡ self.size }
        ensures matched { length self.matched ≡ self.size }
    {
        let _ = self.size.value();
    }

    /// The next index to send from to a node, 0 past the group.
    pub fn next_of(self, node: NodeId) -> Number
        ensures { result ≡ item_or self.next node 0 }
    {
        self.next[node.value() as usize - 1]
    }

    /// The index up to which a node's log is known to match, 0 past the group.
    pub fn match_of(self, node: NodeId) -> Number
        ensures { result ≡ item_or self.matched node 0 }
    {
        self.matched[node.value() as usize - 1]
    }

    /// With the vote of a node of the group.
    pub fn with_vote(self, node: NodeId) -> Peers
        ensures { result ≡ record self { voters = with_item self.voters node true } }
    {
        let mut peers = self;
        if node.value() <= peers.size.value() {
            peers.voters[node.value() as usize - 1] = true;
        }
        peers
    }

    /// With the vote of this node only.
    pub fn only(self, node: NodeId) -> Peers
        ensures { result
            ≡ record self { voters = with_item (replicate self.size false) node true } }
    {
        let mut peers = self;
        peers.voters = [false; 7];
        peers.with_vote(node)
    }

    /// With another next index for a node of the group.
    pub fn with_next(self, node: NodeId, next: Number) -> Peers
        ensures { result ≡ record self { next = with_item self.next node next } }
    {
        let mut peers = self;
        if node.value() <= peers.size.value() {
            peers.next[node.value() as usize - 1] = next;
        }
        peers
    }

    /// With another match of a node of the group.
    pub fn with_match(self, node: NodeId, index: Number) -> Peers
        ensures { result ≡ record self { matched = with_item self.matched node index } }
    {
        let mut peers = self;
        if node.value() <= peers.size.value() {
            peers.matched[node.value() as usize - 1] = index;
        }
        peers
    }

    /// As a new leader begins: it sends to each from this index on, and knows of no log that it matches.
    pub fn leading(self, next: Number) -> Peers
        ensures { result ≡ record self {
          next = replicate self.size next;
          matched = replicate self.size 0;
        } }
    {
        let mut peers = self;
        let size = peers.size;
        peers.next = filled(size, next);
        peers.matched = filled(size, Number::new(0));
        peers
    }

    /// The other nodes of the group, by rising number.
    pub fn others(self, alloc: Global, node: NodeId) -> Result<Vec<NodeId>, AllocError>
        ensures { IfOk result (λ v. v.items ≡ others self.size node) }
    {
        let size = self.size.value();
        let mut all = Vec::with_capacity(alloc, size as usize)?;
        let mut last = 0;
        while last < size {
            last += 1;
            if last != node.value() {
                all.push(NodeId::new(last))?;
            }
        }
        Ok(all)
    }

    /// Whether more than half of the nodes voted for this one.
    pub fn is_elected(self) -> bool
        ensures { result ≡ majority self.size self.voters }
    {
        let size = self.size.value();
        majority(size, &self.voters[..size as usize])
    }

    /// Whether more than half of the logs are known to match up to an index.
    pub fn majority_has(self, index: Number) -> bool
        ensures { result ≡ majority_has self index }
    {
        let size = self.size.value();
        reached(&self.matched[..size as usize], index) > (size / 2) as usize
    }
}

/// This index for each node of the group, and 0 past it.
fn filled(size: GroupSize, index: Number) -> [Number; 7]
    ensures items { take size result ≡ replicate size index }
    ensures padded { IsPadded 0 size result }
{
    let zero = Number::new(0);
    match size.value() {
        3 => [index, index, index, zero, zero, zero, zero],
        5 => [index, index, index, index, index, zero, zero],
        _ => [index; 7],
    }
}

/// Whether more than half of the nodes are in a set, which says for each node whether it is in it.
fn majority(size: u8, set: &[bool]) -> bool
    ensures { result ≡ majority size set.now }
{
    let mut count = 0;
    for is_in in set {
        if *is_in {
            count += 1;
        }
    }
    count > (size / 2) as usize
}

/// How many of the indexes are at least this one.
fn reached(indexes: &[Number], index: Number) -> usize
    ensures { result ≡ tally (map (λ m. nat_le index m) indexes.now) }
{
    let mut count = 0;
    for other in indexes {
        if index <= *other {
            count += 1;
        }
    }
    count
}
