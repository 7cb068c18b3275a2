// Ported from 136-bts, facch.rs, and changed (see NOTICE).
// The tail-biting search of the FACCH code, with unobserved bits: specs/TailBiting.antt says what it finds.
#![tactic(auto)]

mod rows;
mod starts;

ghost use Rattle.std.specs.Prelude.{◌≡◌, length};
ghost use Rattle.trellis.specs.Search.{Found};
ghost use Rattle.trellis.specs.Words.{OfLength};
ghost use Rattle.tailbiting.specs.TailBiting.{tail_weight};

use search::Received;
use trellis::Outcome;

// Writes a nearest run of 65 inputs that ends in the memory where it starts, over the observed bits; a byte 2 is unobserved.
pub fn tail_biting(received: &[u8], inputs: &mut [u8]) -> Outcome
    requires { (length received.now ≡ 260) × (length inputs.old ≡ 65) }
    ensures { Found (OfLength 65) (tail_weight received.now) inputs.new result }
{
    let mut rows = [[0u16; 64]; 65];
    rows::fill_rows(received, &mut rows);
    let symbols = rows::step_numbers();
    let received = Received {
        rows: &rows,
        symbols: &symbols,
    };
    let mut found = [0u8; 65];
    let outcome = starts::search(received, &mut found);
    inputs.copy_from_slice(&found);
    outcome
}
