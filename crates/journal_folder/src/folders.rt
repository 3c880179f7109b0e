//! The folders of the journals: one for all nodes, or one for each.
ghost use Rattle.std.specs.Prelude.{◌≡◌, ◌≤◌, ◌+◌, ◌++◌, IfOk, OnOk, length, map, string_bytes};
ghost use Rattle.journal_folder.specs.Folders.{folder_of, of_number};

use raft_log::NodeId;
use std::alloc::{AllocError, Global};

/// The one of these folders, node 1's first, with a node's journal: its own, or the last if there are fewer.
pub fn folder_of(folders: &[String], node: NodeId) -> &str
    requires { 1 ≤ length folders.now }
    ensures { result.now ≡ folder_of (map string_bytes folders.now) node }
{
    let [first, others @ ..] = folders else {
        unreachable!();
    };
    of_number(first, others, node.value())
}

/// The folder of this number, from 1, or the last.
fn of_number<'a>(first: &'a String, others: &'a [String], number: u8) -> &'a str
    ensures { result.now ≡ of_number (string_bytes first.now)
        (map string_bytes others.now) number }
{
    match others {
        [] => first.as_str(),
        [next, others @ ..] => {
            if number <= 1 {
                first.as_str()
            } else {
                of_number(next, others, number - 1)
            }
        }
    }
}

/// Copies of these folders.
pub fn copies_of(alloc: Global, folders: &[String]) -> Result<Vec<String>, AllocError>
    ensures folders { IfOk result (λ copies.
        map string_bytes copies.items ≡ map string_bytes folders.now) }
    ensures count { IfOk result (λ copies. length copies.items ≡ length folders.now) }
{
    let mut copies = Vec::new(alloc);
    push_copies(alloc, &mut copies, folders)?;
    Ok(copies)
}

/// Appends copies of these folders.
#[tactic(auto, using(crate::proofs::Numbered::one_more))]
fn push_copies(
    alloc: Global,
    copies: &mut Vec<String>,
    folders: &[String],
) -> Result<(), AllocError>
    ensures folders { OnOk result (map string_bytes copies.new.items
        ≡ map string_bytes copies.old.items ++ map string_bytes folders.now) }
    ensures count { OnOk result
        (length copies.new.items ≡ length copies.old.items + length folders.now) }
{
    match folders {
        [] => Ok(()),
        [folder, folders @ ..] => {
            copies.push(String::from_str(alloc, folder.as_str())?)?;
            push_copies(alloc, copies, folders)
        }
    }
}
