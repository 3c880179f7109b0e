//! Pieces of the picture's text.
ghost use Rattle.std.specs.Prelude.{◌≡◌, ◌++◌, ◌+◌, ◌*◌, decimal, OnOk};
ghost use Rattle.world_app.specs.Picture.{named, part, part_opening, path_from, placed};

use itoa::Buffer;
use std::alloc::AllocError;

/// Where a node's lane is, from the left.
pub fn lane_x(node: u8) -> u64
    ensures { result ≡ 200 * node }
{
    200 * node as u64
}

/// Where a row is, from the top.
pub fn row_y(row: u32) -> u64
    ensures { result ≡ 72 + 24 * row }
{
    72 + 24 * row as u64
}

/// Appends a number in decimal digits.
pub fn push_number(out: &mut Vec<u8>, number: u64) -> Result<(), AllocError>
    ensures { OnOk result (out.new.items ≡ out.old.items ++ decimal number) }
{
    let mut buffer = Buffer::new();
    out.extend_from_slice(buffer.format(number).as_bytes())
}

/// Appends words, and a number after them.
pub fn push_named(out: &mut Vec<u8>, words: &[u8], number: u64) -> Result<(), AllocError>
    ensures { OnOk result (out.new.items ≡ out.old.items ++ named words.now number) }
{
    out.extend_from_slice(words)?;
    push_number(out, number)
}

/// Appends the beginning of a text of a class at a place.
#[tactic(auto, unfolding(crate::specs::Picture::placed))]
pub fn push_placed(out: &mut Vec<u8>, class: &[u8], x: u64, y: u64) -> Result<(), AllocError>
    ensures { OnOk result (out.new.items ≡ out.old.items ++ placed class.now x y) }
{
    out.extend_from_slice(b"<text class='")?;
    out.extend_from_slice(class)?;
    out.extend_from_slice(b"' x='")?;
    push_number(out, x)?;
    out.extend_from_slice(b"' y='")?;
    push_number(out, y)?;
    out.extend_from_slice(b"'>")
}

/// Appends the beginning of a path of a class from a place on.
#[tactic(auto, unfolding(crate::specs::Picture::path_from))]
pub fn push_path_from(out: &mut Vec<u8>, class: &[u8], x: u64, y: u64) -> Result<(), AllocError>
    ensures { OnOk result (out.new.items ≡ out.old.items ++ path_from class.now x y) }
{
    out.extend_from_slice(b"<path class='")?;
    out.extend_from_slice(class)?;
    out.extend_from_slice(b"' d='M")?;
    push_number(out, x)?;
    out.extend_from_slice(b" ")?;
    push_number(out, y)
}

/// Appends words with a number, as part of a text.
#[tactic(auto, unfolding(crate::specs::Picture::part))]
pub fn push_part(
    out: &mut Vec<u8>,
    class: &[u8],
    words: &[u8],
    number: u64,
) -> Result<(), AllocError>
    ensures { OnOk result (out.new.items ≡ out.old.items ++ part class.now words.now number) }
{
    push_part_opening(out)?;
    out.extend_from_slice(class)?;
    out.extend_from_slice(b"'>")?;
    push_named(out, words, number)?;
    out.extend_from_slice(b"</tspan>")
}

/// Appends the first words of a part of a text.
#[tactic(auto, unfolding(crate::specs::Picture::part_opening))]
fn push_part_opening(out: &mut Vec<u8>) -> Result<(), AllocError>
    ensures { OnOk result (out.new.items ≡ out.old.items ++ part_opening) }
{
    out.extend_from_slice(b"<tspan dx='6' class='")
}
