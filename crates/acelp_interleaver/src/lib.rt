// The slot order of ACELP CC1 (TIA/EIA-136-410 4.4). The contracts cite specs/.
// Ported from 136-bts, acelp_cc1.rs, and changed (see NOTICE).
#![tactic(auto)]

ghost use Rattle.std.specs.Prelude.{◌≡◌, ◌<◌, length};
ghost use Rattle.acelp_interleaver.specs.Laws.{order_laws};
ghost use Rattle.acelp_interleaver.specs.Wire.{DeinterleavingCall, InterleavingCall, deinterleaved, interleaved, place_of, slots_of, wire_of};

use bits::Refusal;
use bits::arguments::bits_and_room;
use interleaving::{CARRY, COLLECT, SlotOrder, copy_rows};

// Over how many slots a frame is spread.
#[derive(Clone, Copy, Debug, PartialEq, Eq)]
pub enum Interleaving {
    One,
    Two,
    Three,
}

impl Interleaving {
    fn slots(self) -> usize
        ensures { result ≡ slots_of self }
    {
        match self {
            Interleaving::One => 1,
            Interleaving::Two => 2,
            Interleaving::Three => 3,
        }
    }
}

const CHANNEL_BITS: usize = 260;

// TIA/EIA-136-410 Table 4.3, row-major wire order to the frame's places.
static INTERLEAVER: [[u16; 10]; 26] = [
    [220, 219, 218, 233, 232, 231, 211, 210, 209, 208],
    [0, 25, 50, 75, 100, 125, 150, 175, 200, 237],
    [1, 26, 51, 76, 101, 126, 151, 176, 201, 224],
    [2, 27, 52, 77, 102, 127, 152, 177, 202, 236],
    [3, 28, 53, 78, 103, 128, 153, 178, 203, 223],
    [4, 29, 54, 79, 104, 129, 154, 179, 204, 235],
    [5, 30, 55, 80, 105, 130, 155, 180, 205, 222],
    [6, 31, 56, 81, 106, 131, 156, 181, 206, 234],
    [7, 32, 57, 82, 107, 132, 157, 182, 207, 221],
    [8, 33, 58, 83, 108, 133, 158, 183, 250, 249],
    [9, 34, 59, 84, 109, 134, 159, 184, 217, 216],
    [10, 35, 60, 85, 110, 135, 160, 185, 248, 247],
    [11, 36, 61, 86, 111, 136, 161, 186, 215, 230],
    [12, 37, 62, 87, 112, 137, 162, 187, 246, 245],
    [13, 38, 63, 88, 113, 138, 163, 188, 229, 228],
    [14, 39, 64, 89, 114, 139, 164, 189, 244, 259],
    [15, 40, 65, 90, 115, 140, 165, 190, 214, 213],
    [16, 41, 66, 91, 116, 141, 166, 191, 258, 257],
    [17, 42, 67, 92, 117, 142, 167, 192, 212, 227],
    [18, 43, 68, 93, 118, 143, 168, 193, 243, 242],
    [19, 44, 69, 94, 119, 144, 169, 194, 226, 225],
    [20, 45, 70, 95, 120, 145, 170, 195, 241, 256],
    [21, 46, 71, 96, 121, 146, 171, 196, 240, 239],
    [22, 47, 72, 97, 122, 147, 172, 197, 255, 254],
    [23, 48, 73, 98, 123, 148, 173, 198, 238, 253],
    [24, 49, 74, 99, 124, 149, 174, 199, 252, 251],
];

// A type alone: no value of it is made, so that nothing is derived.
struct AcelpOrder;

impl SlotOrder for AcelpOrder {
    ghost place_of = { place_of };

    ghost wire_of = { wire_of };

    ghost laws = { order_laws };

    fn place(row: usize, column: usize) -> usize {
        usize::from(INTERLEAVER[row][column])
    }
}

// Writes the slot of a history of three frames.
fn carry(history: &[u8], mode: Interleaving, slot: &mut [u8])
    requires { (length history.now ≡ 780) × (length slot.old ≡ 260) }
    ensures { slot.new ≡ interleaved 0 history.now mode }
{
    let slots = mode.slots();
    let (frames, _) = history.as_chunks::<CHANNEL_BITS>();
    for (first, frame) in frames[3 - slots..].iter().enumerate() {
        copy_rows::<AcelpOrder, CARRY>(first, slots, frame, slot);
    }
}

// Writes the frame whose first rows the oldest of three slots carries.
fn collect(slots: &[u8], mode: Interleaving, frame: &mut [u8])
    requires { (length slots.now ≡ 780) × (length frame.old ≡ 260) }
    ensures { frame.new ≡ deinterleaved 0 slots.now mode }
{
    let spread = mode.slots();
    let (slots, _) = slots.as_chunks::<CHANNEL_BITS>();
    for (age, slot) in slots[..spread].iter().enumerate() {
        copy_rows::<AcelpOrder, COLLECT>(spread - 1 - age, spread, slot, frame);
    }
}

// Writes the slot of a history of three frames, oldest first.
pub fn interleave(history: &[u8], mode: Interleaving, slot: &mut [u8]) -> Result<(), Refusal>
    ensures { InterleavingCall history.now mode slot.old slot.new result }
{
    bits_and_room(780, history, 260, slot.len())?;
    carry(history, mode, slot);
    Ok(())
}

// Writes the frame of three slots, oldest first.
pub fn deinterleave(slots: &[u8], mode: Interleaving, frame: &mut [u8]) -> Result<(), Refusal>
    ensures { DeinterleavingCall slots.now mode frame.old frame.new result }
{
    bits_and_room(780, slots, 260, frame.len())?;
    collect(slots, mode, frame);
    Ok(())
}
