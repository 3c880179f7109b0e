//! The plan for renewing a group.
ghost use Rattle.std.specs.Prelude.{◌≡◌, ◌⊎◌, ◌≤◌, ◌+◌, ◌++◌, IfErr, IfOk, OnOk, length, take};
ghost use Rattle.journal_folder.specs.Faults.{IsOfLists};
ghost use Rattle.journal_folder.specs.Planning.{AreBehind, IsAnySpent, IsPlan, IsSpent, are_next};
ghost use Rattle.journal_folder.specs.Saving.{all_begun_anew};
ghost use Rattle.wire_bytes.specs.Limits.{node_limit, number_limit};

use crate::counting::{greatest_of, most_up_to_date_of};
use crate::fault::RenewFault;
use bouncer_tower::TowerBody;
use buffer_commands::Setup;
use irc_line::Name;
use raft_log::GroupSize;
use renewal::{Renewal, renewed};
use stable_store::Saved;
use std::alloc::Global;
use wire_bytes::{LAST_NUMBER, Number};

/// What the new journals of a group are to hold, and how much the old ones held.
#[derive(Drop)]
pub struct Plan {
    /// How many entries the log has that is renewed.
    pub before: Number,
    pub renewal: Renewal,
    /// For each node of the new group a run after all of its runs, node 1's first.
    pub boots: Vec<Number>,
    /// The term after all terms.
    pub term: Number,
}

impl Plan {
    /// This plan, if its log has no more than this many entries.
    pub fn within(self, entries: u64) -> Result<Plan, RenewFault>
        ensures same { IfOk result (λ plan. plan ≡ self) }
        ensures short { IfOk result (λ plan. length plan.renewal.log ≤ entries) }
        ensures fault { IfErr result IsOfLists }
    {
        let now = self.renewal.log.len();
        if now.value() > entries {
            return Err(RenewFault::StillLong(now));
        }
        Ok(self)
    }
}

/// The plan for renewing a group, from one setup to another, as a group of this many nodes: the log that counts among
/// all of its stores, node 1's first, renewed, in the term after the greatest one, and with a run of each node that
/// never was, also not in an earlier group.
#[tactic(auto, using(crate::proofs::Behind::of_a_plan))]
pub fn planned(
    alloc: Global,
    from: &Setup,
    to: &Setup,
    nodes: GroupSize,
    forgotten: &[Name],
    group: &[Saved<TowerBody>],
) -> Result<Plan, RenewFault>
    requires some { 1 ≤ length group.now }
    requires few { length group.now ≤ node_limit }
    ensures plan { IfOk result (IsPlan from.now to.now nodes forgotten.now group.now) }
    ensures count { IfOk result (λ plan. length plan.boots.items ≡ nodes) }
    ensures behind { IfOk result (λ plan. AreBehind 1 group.now group.now
        (all_begun_anew plan.boots.items plan.term plan.renewal.log)) }
    ensures fault { IfErr result IsOfLists }
    ensures spent { IfErr result (λ e. e ≡ RenewFault.Spent → IsSpent nodes group.now) }
{
    let log = &most_up_to_date_of(group).log;
    let greatest = greatest_of(alloc, group)?;
    let term = behind(greatest.term)?;
    let boots = next_boots(alloc, &greatest.boots, nodes)?;
    Ok(Plan {
        before: log.len(),
        renewal: renewed(
            alloc,
            from,
            to,
            forgotten,
            log,
            &greatest.boots,
            greatest.term,
        )?,
        boots,
        term,
    })
}

/// The runs after these, which are the greatest ones of this many nodes.
fn next_boots(
    alloc: Global,
    greatest: &[Number],
    nodes: GroupSize,
) -> Result<Vec<Number>, RenewFault>
    requires { node_limit ≤ length greatest.now }
    ensures next { IfOk result (λ v. v.items ≡ are_next (take nodes greatest.now)) }
    ensures count { IfOk result (λ v. length v.items ≡ nodes) }
    ensures fault { IfErr result (λ e. (e ≡ RenewFault.Memory)
        ⊎ ((e ≡ RenewFault.Spent) × IsAnySpent (take nodes greatest.now))) }
{
    let (numbers, _) = greatest.split_at(nodes.value() as usize);
    let mut boots = Vec::new(alloc);
    push_next(&mut boots, numbers)?;
    Ok(boots)
}

/// The number after each of these.
fn push_next(next: &mut Vec<Number>, numbers: &[Number]) -> Result<(), RenewFault>
    ensures next { OnOk result (next.new.items ≡ next.old.items ++ are_next numbers.now) }
    ensures count { OnOk result
        (length next.new.items ≡ length next.old.items + length numbers.now) }
    ensures fault { IfErr result (λ e. (e ≡ RenewFault.Memory)
        ⊎ ((e ≡ RenewFault.Spent) × IsAnySpent numbers.now)) }
{
    match numbers {
        [] => Ok(()),
        [number, numbers @ ..] => {
            if next.push(behind(*number)?).is_err() {
                return Err(RenewFault::Memory);
            }
            push_next(next, numbers)
        }
    }
}

/// The number after this one, if there is one.
pub fn behind(number: Number) -> Result<Number, RenewFault>
    ensures next { IfOk result (λ n. n ≡ number + 1) }
    ensures spent { IfErr result (λ e. (e ≡ RenewFault.Spent) × (number ≡ number_limit)) }
{
    if number.value() >= LAST_NUMBER {
        return Err(RenewFault::Spent);
    }
    Ok(Number::new(number.value() + 1))
}
