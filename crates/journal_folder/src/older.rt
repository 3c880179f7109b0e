//! Journals that are older copies, as their group shows.
ghost use Rattle.std.specs.Prelude.{◌≡◌, ◌≤◌, ◌+◌, length, map, option_map};
ghost use Rattle.journal_folder.specs.Runs.{first_of_group, first_older, run_told, those_there};
ghost use Rattle.wire_bytes.specs.Limits.{node_limit};

use crate::earlier_runs::last_run;
use bouncer_tower::TowerBody;
use file_disk::FileJournal;
use raft_log::NodeId;
use wire_bytes::Number;

/// The first node whose journal, among these of a group, is older than their logs show, if there is one. They are in
/// the order of their nodes, node 1's first; those that are not open are missing here.
pub fn first_older(journals: &[Option<FileJournal<TowerBody>>]) -> Option<NodeId>
    requires { length journals.now ≤ node_limit }
    ensures { result ≡ first_of_group (map (option_map (λ j. j.saved)) journals.now) }
{
    first_older_of(1, journals, journals)
}

/// The same for those of a group, the first of which is this node's.
fn first_older_of(
    node: u8,
    journals: &[Option<FileJournal<TowerBody>>],
    group: &[Option<FileJournal<TowerBody>>],
) -> Option<NodeId>
    requires first { 1 ≤ node }
    requires last { node + length journals.now ≤ 8 }
    ensures { result ≡ first_older node (map (option_map (λ j. j.saved)) journals.now)
        (those_there (map (option_map (λ j. j.saved)) group.now)) }
{
    match journals {
        [] => None,
        [None, journals @ ..] => first_older_of(node + 1, journals, group),
        [Some(own), journals @ ..] => {
            let of = NodeId::new(node);
            if own.boot() < run_told(of, group) {
                Some(of)
            } else {
                first_older_of(node + 1, journals, group)
            }
        }
    }
}

/// The last run of a node that has begun according to the logs of these journals.
pub fn run_told(node: NodeId, group: &[Option<FileJournal<TowerBody>>]) -> Number
    ensures { result ≡ run_told node (those_there (map (option_map (λ j. j.saved)) group.now)) }
{
    match group {
        [] => Number::new(0),
        [None, group @ ..] => run_told(node, group),
        [Some(first), group @ ..] => {
            let told = last_run(node, first.log());
            Number::new(told.max(run_told(node, group).value()))
        }
    }
}
