// The slot order of VSELP (IS-54-B 2.1.3.3.4). The contracts cite specs/.
// Ported from 136-bts, speech.rs, and changed (see NOTICE).
#![tactic(auto)]

ghost use Rattle.std.specs.Prelude.{◌≡◌};
ghost use Rattle.speech_interleaver.specs.Laws.{order_laws};
ghost use Rattle.speech_interleaver.specs.Wire.{Deinterleaving, Interleaving, place_of, wire_of};

use bits::Refusal;
use interleaving::{ROWS, SlotOrder};

// A frame is written by columns and sent by rows. (A type alone: no value of it is made, so that nothing is derived.)
struct VselpOrder;

impl SlotOrder for VselpOrder {
    ghost place_of = { place_of };

    ghost wire_of = { wire_of };

    ghost laws = { order_laws };

    fn place(row: usize, column: usize) -> usize {
        column * ROWS + row
    }
}

// Writes the slot that finishes the previous frame and starts the current one. (The generic call with this crate's order, so that the order stays private.)
#[tactic(auto, unfolding(crate::specs::Wire::interleaved))]
pub fn interleave(previous: &[u8], current: &[u8], slot: &mut [u8]) -> Result<(), Refusal>
    ensures { Interleaving previous.now current.now slot.old slot.new result }
{
    interleaving::interleave::<VselpOrder>(previous, current, slot)
}

// Writes the frame that starts in the first slot and is finished in the second.
#[tactic(auto, unfolding(crate::specs::Wire::deinterleaved))]
pub fn deinterleave(first: &[u8], second: &[u8], frame: &mut [u8]) -> Result<(), Refusal>
    ensures { Deinterleaving first.now second.now frame.old frame.new result }
{
    interleaving::deinterleave::<VselpOrder>(first, second, frame)
}
