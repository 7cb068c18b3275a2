// The diagonal interleaver of SACCH (IS-54-B 2.7.3.1.2.1) over packed rows and fields, and its deinterleaver. The contracts cite specs/.
// Ported from 136-bts, sacch.rs, and changed (see NOTICE).
#![tactic(auto)]

mod deinterleaver;

ghost use Rattle.std.specs.Prelude.{◌≡◌, ◌+◌, ◌%◌, ◌^◌, ◌<◌, ◌≤◌, length};
ghost use Rattle.sacch_interleaver.specs.Deinterleaver.{state_unless};
ghost use Rattle.sacch_interleaver.specs.Diagonal.{field_of, laid_out, row_of};

use bits::Refusal;

// The last twelve fields. C holds it, so the count stands beside them. It gives any cursor, so that one is below 12 is tested once a call, and a
// clause below.
#[repr(C)]
#[derive(Clone, Copy, Debug, PartialEq, Eq)]
pub struct SacchDeinterleaver {
    pub fields: [u16; 12],
    // The place of the oldest field.
    pub cursor: usize,
    // How many fields were received, up to 12.
    pub received: usize,
}

// The weight of a bit that is `shift` places above `place`, round in twelve.
fn bit_value(place: usize, shift: usize) -> u16
    requires { (place < 12) × (shift ≤ 12) }
    ensures { result ≡ 2 ^ ((place + shift) % 12) }
{
    let first: u16 = 1 << place;
    ((first << shift) % 4096) | (first >> (12 - shift))
}

// A ring laid out from its oldest on, with room for the numbers of eleven slots more.
pub fn aged(ring: &[u16], next: usize) -> [u16; 23]
    requires { (length ring.now ≡ 12) × (next < 12) }
    ensures { result ≡ laid_out ring.now next }
{
    let (newer, older) = ring.split_at(next);
    let mut run = [0u16; 23];
    run[..12 - next].copy_from_slice(older);
    run[12 - next..12].copy_from_slice(newer);
    run
}

// The field of the newest row's slot, from the last twelve rows; `next` is the place of the oldest. The weights shift, and the rows stay.
pub fn field_of(rows: &[u16], next: usize) -> u16
    requires { (length rows.now ≡ 12) × (next ≤ 12) }
    ensures { result ≡ field_of rows.now next }
{
    let mut field: u16 = 0;
    for (i, row) in rows.iter().enumerate() {
        field |= *row & bit_value(i, 12 - next);
    }
    field
}

// The row that the last twelve fields complete; `next` is the place of the oldest. The diagonal runs back: it is the field of the ring turned round.
pub fn row_of(fields: &[u16; 12], next: usize) -> u16
    requires { next < 12 }
    ensures { result ≡ row_of fields.now next }
{
    let mut turned = *fields;
    turned.reverse();
    field_of(&turned, 12 - next)
}

// Refused with State where a test of a record is not passed. (As `symbol_unless` of `bits`: with the refusal as an argument the calls would be longer.)
pub fn state_unless(passed: bool) -> Result<(), Refusal>
    ensures { result ≡ state_unless passed }
{
    if passed { Ok(()) } else { Err(Refusal::State) }
}
