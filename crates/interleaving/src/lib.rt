// Slots of 26 rows of ten bits, which carry parts of successive frames: what the slot orders of FACCH, VSELP and ACELP share. The contracts cite specs/.
#![tactic(auto)]

ghost use Rattle.std.specs.Prelude.{◌≡◌, ℕ, ◌%◌, ◌<◌, ◌≤◌, length};
ghost use Rattle.bits.specs.Calls.{WriteCall};
ghost use Rattle.interleaving.specs.Calls.{two_arguments};
ghost use Rattle.interleaving.specs.Orders.{OrderLaws, at_wire};
ghost use Rattle.interleaving.specs.Parts.{Copied};
ghost use Rattle.interleaving.specs.Slots.{by_row, carried, collected};

use bits::Refusal;
use bits::arguments::two_and_room;

pub const ROWS: usize = 26;

pub const COLUMNS: usize = 10;

// Which place of a frame each bit of a slot carries.
pub trait SlotOrder {
    // the place that a row and column carry
    ghost place_of: { ℕ → ℕ → ℕ };

    // the bit of a slot that carries a place
    ghost wire_of: { ℕ → ℕ };

    fn place(row: usize, column: usize) -> usize
        requires { (row < 26) × (column < 10) }
        ensures { result ≡ place_of row column };

    // A slot carries each place once.
    ghost laws: { OrderLaws place_of wire_of };
}

// The two ways to copy between a frame and a slot. (An enum is no const parameter.)
pub const CARRY: bool = true;

pub const COLLECT: bool = false;

// Writes a row of a slot, from the places of a frame, or the places of a frame that the row carries.
// Rows and columns are counted, since `place` takes their numbers.
fn copy_row<O: SlotOrder, const CARRIES: bool>(row: usize, from: &[u8], to: &mut [u8])
    requires { (row < 26) × (length from.now ≡ 260) × (length to.old ≡ 260) }
    ensures { Copied CARRIES O.place_of O.wire_of (λ r. r ≡ row) from.now to.old to.new }
{
    for column in 0..COLUMNS {
        let wire = row * COLUMNS + column;
        let place = O::place(row, column);
        if CARRIES {
            to[wire] = from[place];
        } else {
            to[place] = from[wire];
        }
    }
}

// The same of each `step`-th row, from the row `first` on.
pub fn copy_rows<O: SlotOrder, const CARRIES: bool>(
    first: usize,
    step: usize,
    from: &[u8],
    to: &mut [u8],
)
    requires { (first < step) × (step ≤ 26) × (length from.now ≡ 260) × (length to.old ≡ 260) }
    ensures { Copied CARRIES O.place_of O.wire_of (λ r. r % step ≡ first) from.now to.old to.new }
{
    for row in (first..ROWS).step_by(step) {
        copy_row::<O, CARRIES>(row, from, to);
    }
}

// Writes the slot that finishes the previous frame and starts the current one.
pub fn interleave<O: SlotOrder>(
    previous: &[u8],
    current: &[u8],
    slot: &mut [u8],
) -> Result<(), Refusal>
    ensures { WriteCall (two_arguments previous.now current.now (length slot.old)) (carried 0 (at_wire O.place_of) (by_row previous.now current.now)) slot.old slot.new result }
{
    two_and_room(260, previous, 260, current, 260, slot.len())?;
    copy_rows::<O, CARRY>(0, 2, previous, slot);
    copy_rows::<O, CARRY>(1, 2, current, slot);
    Ok(())
}

// Writes the frame that starts in the first slot and is finished in the second.
pub fn deinterleave<O: SlotOrder>(
    first: &[u8],
    second: &[u8],
    frame: &mut [u8],
) -> Result<(), Refusal>
    ensures { WriteCall (two_arguments first.now second.now (length frame.old)) (collected 0 O.wire_of (by_row second.now first.now)) frame.old frame.new result }
{
    two_and_room(260, first, 260, second, 260, frame.len())?;
    copy_rows::<O, COLLECT>(1, 2, first, frame);
    copy_rows::<O, COLLECT>(0, 2, second, frame);
    Ok(())
}
