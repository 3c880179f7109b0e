//! The floor of each node: its runs below it are gone.
ghost use Rattle.std.specs.Prelude.{◌≡◌, slice_index};
ghost use Rattle.buffer_machine.specs.FloorSteps.{raised};

use wire_bytes::Number;

/// The floors of the nodes below 8.
pub type Floors = [u64; 8];

/// The floor of a node; 0 where none is kept.
pub fn floor_of(floors: &[u64], node: u8) -> u64
    ensures { result ≡ slice_index floors.now node }
{
    match floors.get(node as usize) {
        Some(floor) => *floor,
        None => 0,
    }
}

/// Raises a node's floor to at least this one.
pub fn raise(floors: &mut [u64], node: u8, floor: Number)
    ensures { floors.new ≡ raised node floor floors.old }
{
    let node = node as usize;
    if node < floors.len() {
        floors[node] = floors[node].max(floor.value());
    }
}
