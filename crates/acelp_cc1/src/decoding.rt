// Decoding of a frame (TIA/EIA-136-410 4.3).
// Ported from 136-bts, acelp_cc1.rs, and changed (see NOTICE).
ghost use Rattle.std.specs.Prelude.{◌++◌, ◌≡◌, drop, length};
ghost use Rattle.bits.specs.Places.{taken};
ghost use Rattle.acelp_cc1.specs.Calls.{decode_call, exit_of};
ghost use Rattle.acelp_cc1.specs.Frames.{information_places};

use crate::DecodedFrame;
use crate::places::{CRC_POSITIONS, information_positions};
use crate::table::SPEECH_ORDER;
use bits::Refusal;
use bits::arguments::bits_and_room;
use bits::places::{gather, pack_at, scatter};
use checksums::checksum7_of_bits;
use puncturing::punctured;

// Writes the ordered bits: the class-one bits of the inputs, and class two as received.
fn restore(inputs: &[u8; 108], frame: &[u8], sorted: &mut [u8; 148])
    requires { length frame.now ≡ 260 }
    ensures { sorted.new ≡ taken 0 information_places inputs.now ++ drop 208 frame.now }
{
    gather(&information_positions(), inputs, &mut sorted[..96]);
    sorted[96..].copy_from_slice(&frame[208..]);
}

// Writes the codec bits of the frame nearest to the protected bits. Nothing is written before the word is known to be the only nearest one.
pub fn decode(frame: &[u8], speech: &mut [u8]) -> Result<DecodedFrame, Refusal>
    ensures { exit_of result speech.new ≡ decode_call frame.now speech.old }
{
    bits_and_room(260, frame, 148, speech.len())?;
    let mut inputs = [0u8; 108];
    let found = punctured(&frame[..208], &mut inputs);
    if found.tie {
        return Err(Refusal::Ambiguous);
    }
    let mut sorted = [0u8; 148];
    restore(&inputs, frame, &mut sorted);
    scatter(&SPEECH_ORDER, &sorted, speech);
    let checksum = checksum7_of_bits(&sorted[..48]);
    Ok(DecodedFrame {
        crc_valid: pack_at(&CRC_POSITIONS, &inputs) == u64::from(checksum),
        corrected: found.metric,
    })
}
