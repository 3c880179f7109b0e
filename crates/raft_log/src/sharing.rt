//! Lists of bodies in blocks share what they have in common.
ghost use Rattle.std.specs.Prelude.{◌≡◌, IfOk, true};

use crate::block::Block;
use crate::blocks::Blocks;
use crate::body::LoggedBody;
use std::alloc::AllocError;
use wire_bytes::{Copied, Wire};

/// Shares the blocks from this one on that have the same items as the others at their places.
#[tactic(auto, using(crate::proofs::Same::put_again))]
pub fn share_each<B: Wire>(
    blocks: &mut Vec<Block<LoggedBody<B>>>,
    from: usize,
    others: &[Block<LoggedBody<B>>],
) -> Result<(), AllocError>
    ensures { blocks.new.items ≡ blocks.old.items }
{
    let mut texts = Vec::new(*blocks.allocator());
    let end = blocks.len().min(others.len());
    for place in from..end {
        share_one(&mut blocks[place], &others[place], &mut texts)?;
    }
    Ok(())
}

/// Shares the other block, if both have the same items.
fn share_one<B: Wire>(
    block: &mut Block<LoggedBody<B>>,
    other: &Block<LoggedBody<B>>,
    texts: &mut Vec<u8>,
) -> Result<(), AllocError>
    ensures { block.new ≡ block.old }
{
    if are_same(block.items(), other.items(), texts)? {
        *block = other.copy(*texts.allocator())?;
    }
    Ok(())
}

/// Whether these bodies are the same, one by one.
#[tactic(auto, using(std::proofs::lemmas::List::take_more_same, std::proofs::lemmas::List::take_all))]
fn are_same<B: Wire>(
    some: &[LoggedBody<B>],
    others: &[LoggedBody<B>],
    texts: &mut Vec<u8>,
) -> Result<bool, AllocError>
    ensures { IfOk result (λ same. same ≡ true → some.now ≡ others.now) }
{
    if some.len() != others.len() {
        return Ok(false);
    }
    for place in 0..some.len() {
        if !some[place].is_same(&others[place], texts)? {
            return Ok(false);
        }
    }
    Ok(true)
}
