// The slot order (IS-54-B Table 2.7.3.1.1.2-1): a slot carries half of the word before and half of its own.
// Ported from 136-bts, facch.rs, and changed (see NOTICE).
#![tactic(auto)]

ghost use Rattle.std.specs.Prelude.{◌≡◌, ◌<◌};
ghost use Rattle.facch_interleaver.specs.Laws.{order_laws};
ghost use Rattle.facch_interleaver.specs.Wire.{Deinterleaving, Interleaving, Observing, parity_of, place_of, wire_of};

use bits::Refusal;
use bits::arguments::bits_and_room;
use bits::observed::UNOBSERVED;
use interleaving::{COLLECT, SlotOrder, copy_rows};

// The half of a word that a slot carries: its odd rows start a word, its even rows end one.
#[derive(Clone, Copy, Debug, PartialEq, Eq)]
pub enum WordHalf {
    Start,
    End,
}

static FIRST_ROW: [usize; 10] = [215, 256, 223, 258, 230, 219, 257, 227, 259, 189];

static COLUMN_THREE_END: [usize; 11] = [216, 217, 218, 220, 221, 222, 224, 225, 226, 228, 229];

const COLUMN_THREE_CHANGE_ROW: usize = 15;

const COLUMN_THREE_START_BASE: usize = 74;

const EARLY_COLUMN_STEP: usize = 25;

// What the rows of the columns from four on count from.
static LATE_COLUMN_BASES: [usize; 6] = [230, 88, 113, 138, 163, 189];

// A type alone: no value of it is made, so that nothing is derived.
struct FacchOrder;

impl SlotOrder for FacchOrder {
    ghost place_of = { place_of };

    ghost wire_of = { wire_of };

    ghost laws = { order_laws };

    // Column three runs on from the columns before it, and from row 15 fills the places that the others leave.
    fn place(row: usize, column: usize) -> usize {
        if row == 0 {
            return FIRST_ROW[column];
        }
        match column {
            0..=2 => row - 1 + column * EARLY_COLUMN_STEP,
            3 if row < COLUMN_THREE_CHANGE_ROW => row + COLUMN_THREE_START_BASE,
            3 => COLUMN_THREE_END[row - COLUMN_THREE_CHANGE_ROW],
            _ => row + LATE_COLUMN_BASES[column - 4],
        }
    }
}

impl WordHalf {
    // Whether a half is carried by the even rows or by the odd rows.
    fn parity(self) -> usize
        ensures { (result ≡ parity_of self) × (result < 2) }
    {
        match self {
            WordHalf::Start => 1,
            WordHalf::End => 0,
        }
    }
}

// Writes the slot that finishes the previous word and starts the current one. (The generic call with this crate's order, so that the order stays private.)
#[tactic(auto, unfolding(crate::specs::Wire::interleaved))]
pub fn interleave(previous: &[u8], current: &[u8], slot: &mut [u8]) -> Result<(), Refusal>
    ensures { Interleaving previous.now current.now slot.old slot.new result }
{
    interleaving::interleave::<FacchOrder>(previous, current, slot)
}

// Writes the half of a word that a slot carries, and 2 at the places of the other half.
pub fn observe_half(slot: &[u8], half: WordHalf, coded: &mut [u8]) -> Result<(), Refusal>
    ensures { Observing slot.now half coded.old coded.new result }
{
    bits_and_room(260, slot, 260, coded.len())?;
    coded.fill(UNOBSERVED);
    copy_rows::<FacchOrder, COLLECT>(half.parity(), 2, slot, coded);
    Ok(())
}

// Writes the word that starts in the first slot and is finished in the second.
#[tactic(auto, unfolding(crate::specs::Wire::deinterleaved))]
pub fn deinterleave(first: &[u8], second: &[u8], coded: &mut [u8]) -> Result<(), Refusal>
    ensures { Deinterleaving first.now second.now coded.old coded.new result }
{
    interleaving::deinterleave::<FacchOrder>(first, second, coded)
}
