//! What the journals of a group show: which log counts, and the greatest numbers so far.
ghost use Rattle.std.specs.Prelude.{◌≡◌, ◌⊎◌, ◌∷◌, ◌++◌, ◌≤◌, ◌+◌, IfOk, OnOk, drop, length, max};
ghost use Rattle.journal_folder.specs.Counting.{IsAsUpToDate, IsMostUpToDate, IsOneOf};
ghost use Rattle.journal_folder.specs.Counting.{all_boots, boot_told, greatest_boots, greatest_term, most_entries, own_boot};
ghost use Rattle.wire_bytes.specs.Limits.{node_limit};

use crate::earlier_runs::greatest_boot;
use bouncer_tower::TowerBody;
use raft_log::NodeId;
use stable_store::Saved;
use std::alloc::{AllocError, Global};
use wire_bytes::{MOST_NODES, Number, Wire};

/// The greatest numbers that the journals of a group mention.
#[derive(Drop)]
pub struct Numbers {
    /// The greatest run of each node, node 1's first.
    pub boots: Vec<Number>,
    pub term: Number,
}

/// The greatest numbers that the journals of a group mention, for each node that a group may have: also for one outside
/// of this group, which may have belonged to an earlier one.
pub fn greatest_of(alloc: Global, group: &[Saved<TowerBody>]) -> Result<Numbers, AllocError>
    ensures boots { IfOk result (λ n. n.boots.items ≡ all_boots group.now) }
    ensures count { IfOk result (λ n. length n.boots.items ≡ node_limit) }
    ensures term { IfOk result (λ n. n.term ≡ greatest_term group.now) }
{
    let mut boots = Vec::new(alloc);
    push_boots(&mut boots, 1, MOST_NODES, group, group)?;
    Ok(Numbers {
        boots,
        term: greatest_term(group),
    })
}

/// Among the stores of a group, the one whose log counts: a longest one of those that end in the greatest term. All
/// other nodes could vote for its node with their present logs, so it holds whatever was committed.
#[tactic(auto, using(crate::proofs::UpToDate::most_of_two, crate::proofs::UpToDate::one_of_two, crate::proofs::UpToDate::as_itself))]
pub fn most_up_to_date<'a, B: Wire>(first: &'a Saved<B>, others: &'a [Saved<B>]) -> &'a Saved<B>
    ensures most { IsMostUpToDate result.now (first.now ∷ others.now) }
    ensures one { IsOneOf result.now (first.now ∷ others.now) }
{
    match others {
        [] => first,
        [next, others @ ..] => most_up_to_date(better(first, next), others),
    }
}

/// The one of a group whose log counts.
pub fn most_up_to_date_of<B: Wire>(group: &[Saved<B>]) -> &Saved<B>
    requires { 1 ≤ length group.now }
    ensures most { IsMostUpToDate result.now group.now }
    ensures one { IsOneOf result.now group.now }
{
    let [first, others @ ..] = group else {
        unreachable!();
    };
    most_up_to_date(first, others)
}

/// The one of two whose log is more up to date.
fn better<'a, B: Wire>(first: &'a Saved<B>, second: &'a Saved<B>) -> &'a Saved<B>
    ensures first { IsAsUpToDate result.now first.now }
    ensures second { IsAsUpToDate result.now second.now }
    ensures one { (result.now ≡ first.now) ⊎ (result.now ≡ second.now) }
{
    let (index, term) = second.log.last();
    if first.log.up_to_date(index, term) {
        second
    } else {
        first
    }
}

/// The greatest run of each of this many nodes, the first of which is this one and has the first of these stores.
#[tactic(auto, using(crate::proofs::Boots::one_more))]
fn push_boots(
    boots: &mut Vec<Number>,
    node: u8,
    nodes: u8,
    owns: &[Saved<TowerBody>],
    group: &[Saved<TowerBody>],
) -> Result<(), AllocError>
    requires first { 1 ≤ node }
    requires last { node + nodes ≤ 8 }
    ensures boots { OnOk result (boots.new.items ≡ boots.old.items
        ++ greatest_boots node nodes owns.now group.now) }
    ensures count { OnOk result (length boots.new.items ≡ length boots.old.items + nodes) }
{
    if nodes == 0 {
        return Ok(());
    }
    let told = boot_told(NodeId::new(node), group);
    boots.push(greater(own_boot(owns), told))?;
    push_boots(boots, node + 1, nodes - 1, others_of(owns), group)
}

/// The runs so far according to the first of these stores, 0 if there is none.
fn own_boot(owns: &[Saved<TowerBody>]) -> Number
    ensures { result ≡ own_boot owns.now }
{
    match owns {
        [] => Number::new(0),
        [own, ..] => own.boot,
    }
}

/// The stores after the first one.
fn others_of(owns: &[Saved<TowerBody>]) -> &[Saved<TowerBody>]
    ensures { result.now ≡ drop 1 owns.now }
{
    match owns {
        [] => owns,
        [_, others @ ..] => others,
    }
}

/// How many entries the longest log of a group has.
pub fn most_entries<B: Wire>(group: &[Saved<B>]) -> Number
    ensures { result ≡ most_entries group.now }
{
    match group {
        [] => Number::new(0),
        [saved, group @ ..] => greater(saved.log.len(), most_entries(group)),
    }
}

/// The greatest run of a node that logs of a group mention.
fn boot_told(node: NodeId, group: &[Saved<TowerBody>]) -> Number
    ensures { result ≡ boot_told node group.now }
{
    match group {
        [] => Number::new(0),
        [saved, group @ ..] => {
            let told = Number::new(greatest_boot(node, &saved.log));
            greater(told, boot_told(node, group))
        }
    }
}

/// The greatest term of a group.
fn greatest_term<B: Wire>(group: &[Saved<B>]) -> Number
    ensures { result ≡ greatest_term group.now }
{
    match group {
        [] => Number::new(0),
        [saved, group @ ..] => greater(saved.term, greatest_term(group)),
    }
}

/// The greater one of two numbers.
fn greater(first: Number, second: Number) -> Number
    ensures { result ≡ max first second }
{
    Number::new(first.value().max(second.value()))
}
