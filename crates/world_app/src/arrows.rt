//! The messages' arrows.
ghost use Rattle.std.specs.Prelude.{◌≡◌, ◌++◌, OnOk, flat_map};
ghost use Rattle.world_app.specs.Picture.{arrow_end, arrow_text, arrow_title};

use crate::diagram::Arrow;
use crate::marks::{lane_x, push_named, push_path_from, row_y};
use crate::words::kind_class;
use std::alloc::AllocError;

/// Appends arrows.
pub fn push_arrows(out: &mut Vec<u8>, arrows: &[Arrow]) -> Result<(), AllocError>
    ensures { OnOk result (out.new.items ≡ out.old.items ++ flat_map arrow_text arrows.now) }
{
    for arrow in arrows {
        push_arrow(out, arrow)?;
    }
    Ok(())
}

/// Appends a message's arrow.
#[tactic(auto, unfolding(crate::specs::Picture::arrow_text))]
fn push_arrow(out: &mut Vec<u8>, arrow: &Arrow) -> Result<(), AllocError>
    ensures { OnOk result (out.new.items ≡ out.old.items ++ arrow_text arrow.now) }
{
    push_path_from(
        out,
        kind_class(arrow.kind),
        lane_x(arrow.sender),
        row_y(arrow.sent),
    )?;
    push_end(out, arrow.addressee, arrow.delivered)?;
    push_title(out, arrow.sender, arrow.number)?;
    out.extend_from_slice(b"</path>\n")
}

/// Appends where a message was delivered.
#[tactic(auto, unfolding(crate::specs::Picture::arrow_end))]
fn push_end(out: &mut Vec<u8>, addressee: u8, delivered: u32) -> Result<(), AllocError>
    ensures { OnOk result (out.new.items ≡ out.old.items ++ arrow_end addressee delivered) }
{
    push_named(out, b"L", lane_x(addressee))?;
    push_named(out, b" ", row_y(delivered))?;
    out.extend_from_slice(b"'>")
}

/// Appends the event that delivered a message, which is shown when the pointer is on the arrow.
#[tactic(auto, unfolding(crate::specs::Picture::arrow_title))]
fn push_title(out: &mut Vec<u8>, sender: u8, number: u64) -> Result<(), AllocError>
    ensures { OnOk result (out.new.items ≡ out.old.items ++ arrow_title sender number) }
{
    push_named(out, b"<title>deliver ", sender as u64)?;
    push_named(out, b" ", number)?;
    out.extend_from_slice(b"</title>")
}
