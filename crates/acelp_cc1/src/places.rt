// The places of a frame's inputs (TIA/EIA-136-410 4.3).
// Ported from 136-bts, acelp_cc1.rs, and changed (see NOTICE).
ghost use Rattle.std.specs.Prelude.{◌≡◌, ◌<◌};
ghost use Rattle.acelp_cc1.specs.Frames.{information_place, information_places};

use std::array;

// The places of the checksum's bits in the inputs, the highest first.
pub const CRC_POSITIONS: [u8; 7] = [24, 25, 26, 27, 78, 77, 76];

// The place in the inputs of a class-one bit. In bytes, so that the compiler makes the list of all of them a constant.
#[tactic(auto, unfolding(crate::specs::Frames::information_place))]
fn information_position(index: u8) -> u8
    requires { index < 96 }
    ensures { (result ≡ information_place index) × (result < 108) }
{
    let pair = index / 2;
    match (index % 2 == 0, index < 48) {
        (true, true) => pair,
        (true, false) => pair + 4,
        (false, true) => 102 - pair,
        (false, false) => 99 - pair,
    }
}

// The cast loses nothing, since an index is below 96; a loop that counts in bytes is longer.
pub fn information_positions() -> [u8; 96]
    ensures { result ≡ information_places }
{
    array::from_fn(|i| information_position(i as u8))
}
