// The eleven stored rows as the bits of a word.
// Ported from 136-bts, sacch.rs, and changed (see NOTICE).
ghost use Rattle.std.specs.Prelude.{◌≡◌, ◌<◌};
ghost use Rattle.bits.specs.Bits.{bytes};
ghost use Rattle.sacch_receiver.specs.Stored.{decode_rows, row_bits, window_of};

use bits::{Refusal, unpack};
use sacch_decoder::{SacchWord, decode};

// The bits of the rows, oldest first; `next` is the place of the oldest. (By index: std says nothing of what is written
// through chunks of the bits beside the ring's two parts.)
fn window_bits(rows: &[u16; 11], next: usize) -> [u8; 132]
    requires { next < 11 }
    ensures { result ≡ bytes (row_bits (window_of rows.now next)) }
{
    let mut coded = [0u8; 132];
    for i in 0..11 {
        let row = rows[(next + i) % 11];
        unpack(u64::from(row), &mut coded[i * 12..i * 12 + 12]);
    }
    coded
}

// What the rows decode to.
pub fn decode_window(rows: &[u16; 11], next: usize, dvcc: u8) -> Result<SacchWord, Refusal>
    requires { next < 11 }
    ensures { result ≡ decode_rows (window_of rows.now next) dvcc }
{
    decode(&window_bits(rows, next), dvcc)
}
