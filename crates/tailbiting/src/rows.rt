// Ported from 136-bts, facch.rs, and changed (see NOTICE).
// The branch metrics of the FACCH code against received bits, some of them unobserved.
ghost use Rattle.std.specs.Prelude.{◌≡◌, length};
ghost use Rattle.tailbiting.specs.Rows.{NumbersTo, RowsTo};

use coding::codes::FACCH_LOW_GENERATORS;
use search::row::{distances, outputs};

// The row of each step: that of its four received bytes. (Each four by place: after a `zip` of chunks with `iter_mut` a proof knows nothing of
// the rows.)
pub fn fill_rows(received: &[u8], rows: &mut [[u16; 64]; 65])
    requires { length received.now ≡ 260 }
    ensures { RowsTo received.now rows.new 65 }
{
    let outputs = outputs(FACCH_LOW_GENERATORS);
    for (step, row) in rows.iter_mut().enumerate() {
        let four = [
            received[step * 4],
            received[step * 4 + 1],
            received[step * 4 + 2],
            received[step * 4 + 3],
        ];
        *row = distances(&outputs, &four);
    }
}

// Each step has a row of its own. (Over the numbers as bytes: those of `enumerate` would be cast.)
pub fn step_numbers() -> [u8; 65]
    ensures { (length result ≡ 65) × NumbersTo result 65 }
{
    let mut symbols = [0u8; 65];
    for step in 0..65u8 {
        symbols[usize::from(step)] = step;
    }
    symbols
}
