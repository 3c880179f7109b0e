//! The picture of a diagram.
ghost use Rattle.std.specs.Prelude.{◌≡◌, ◌++◌, IfOk, OnOk, flat_map};
ghost use Rattle.raft_log.specs.Lists.{range_from};
ghost use Rattle.world_app.specs.Picture.{head, lane, opening, picture, sized, style};

use crate::arrows::push_arrows;
use crate::diagram::{Diagram, Row};
use crate::lanes::push_lane;
use crate::marks::{lane_x, push_named, row_y};
use crate::rows::push_rows;
use crate::style::{OPENING, STYLE};
use std::alloc::{AllocError, Global};

/// How far the picture extends beside the last lane.
const BESIDE: u64 = 180;

/// How far the picture extends below the last row.
const BELOW: u64 = 40;

/// The picture of a diagram in SVG: its lanes, arrows over them, and rows over both.
pub fn picture(alloc: Global, diagram: &Diagram) -> Result<Vec<u8>, AllocError>
    ensures { IfOk result (λ text. text.items ≡ picture diagram.now) }
{
    let mut out = Vec::new(alloc);
    let width = lane_x(diagram.size) + BESIDE;
    push_head(&mut out, width, row_y(diagram.last) + BELOW)?;
    push_lanes(&mut out, diagram.size, diagram.last, &diagram.rows)?;
    push_arrows(&mut out, &diagram.arrows)?;
    push_rows(&mut out, &diagram.rows)?;
    out.extend_from_slice(b"</svg>\n")?;
    Ok(out)
}

/// Appends the head of a picture of this width and height.
#[tactic(auto, unfolding(crate::specs::Picture::head))]
fn push_head(out: &mut Vec<u8>, width: u64, height: u64) -> Result<(), AllocError>
    ensures { OnOk result (out.new.items ≡ out.old.items ++ head width height) }
{
    push_opening(out)?;
    push_named(out, b"", width)?;
    push_named(out, b" ", height)?;
    out.extend_from_slice(b"'")?;
    push_size(out, width, height)?;
    push_style(out)
}

/// Appends the first words of a picture.
#[tactic(auto, unfolding(crate::specs::Picture::opening))]
fn push_opening(out: &mut Vec<u8>) -> Result<(), AllocError>
    ensures { OnOk result (out.new.items ≡ out.old.items ++ opening) }
{
    out.extend_from_slice(OPENING)
}

/// Appends how large a picture is.
#[tactic(auto, unfolding(crate::specs::Picture::sized))]
fn push_size(out: &mut Vec<u8>, width: u64, height: u64) -> Result<(), AllocError>
    ensures { OnOk result (out.new.items ≡ out.old.items ++ sized width height) }
{
    push_named(out, b" width='", width)?;
    push_named(out, b"' height='", height)?;
    out.extend_from_slice(b"'>\n")
}

/// Appends how the picture's parts look.
#[tactic(auto, unfolding(crate::specs::Picture::style))]
fn push_style(out: &mut Vec<u8>) -> Result<(), AllocError>
    ensures { OnOk result (out.new.items ≡ out.old.items ++ style) }
{
    out.extend_from_slice(STYLE)
}

/// Appends the lanes of this many nodes.
fn push_lanes(out: &mut Vec<u8>, size: u8, last: u32, rows: &[Row]) -> Result<(), AllocError>
    ensures { OnOk result (out.new.items ≡ out.old.items
        ++ flat_map (lane last rows.now) (range_from 1 size)) }
{
    let mut node = 0;
    while node < size {
        node += 1;
        push_lane(out, node, last, rows)?;
    }
    Ok(())
}
