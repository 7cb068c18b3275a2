// Encoding of a frame (TIA/EIA-136-410 4.3).
// Ported from 136-bts, acelp_cc1.rs, and changed (see NOTICE).
ghost use Rattle.std.specs.Prelude.{Bool, true, List, ◌++◌, ◌≡◌, ◌*◌, drop, length};
ghost use Rattle.bits.specs.Bits.{all_binary, bits, bytes};
ghost use Rattle.coding.specs.Codes.{acelp, coded};
ghost use Rattle.coding.specs.Registers.{memory_low};
ghost use Rattle.puncturing.specs.Punctured.{sent_of};
ghost use Rattle.acelp_cc1.specs.Calls.{Encoding};
ghost use Rattle.acelp_cc1.specs.Frames.{inputs_with, parity_of};
ghost use Rattle.acelp_cc1.specs.Turns.{by_turns};

use crate::places::{CRC_POSITIONS, information_positions};
use crate::table::SPEECH_ORDER;
use bits::Refusal;
use bits::arguments::bits_and_room;
use bits::places::{gather, scatter, unpack_at};
use checksums::checksum7_of_bits;
use coding::acelp::line_outputs;

// The inputs: the class-one bits, and the checksum of the first 48.
fn inputs_of(sorted: &[u8; 148]) -> [u8; 108]
    ensures { result ≡ inputs_with 0 sorted.now (bytes (parity_of (bits sorted.now))) }
{
    let mut inputs = [0u8; 108];
    scatter(&information_positions(), sorted, &mut inputs);
    let checksum = checksum7_of_bits(&sorted[..48]);
    unpack_at(u64::from(checksum), &CRC_POSITIONS, &mut inputs);
    inputs
}

// Writes the elements of two lists by turns. By index: once a pair that `chunks_exact_mut` lends is back, a proof knows nothing of it.
fn send_pairs(first: &[u8], second: &[u8], pairs: &mut [u8])
    requires { (length second.now ≡ length first.now) × (length pairs.old ≡ length first.now * 2) }
    ensures { pairs.new ≡ by_turns first.now second.now }
{
    for i in 0..first.len() {
        pairs[i * 2] = first[i];
        pairs[i * 2 + 1] = second[i];
    }
}

// Writes the pairs of 108 steps, but for the last of each 27, which sends nothing. By index for the same reason.
fn send_runs(first: &[u8; 108], second: &[u8; 108], frame: &mut [u8])
    requires { length frame.old ≡ 260 }
    ensures { (c : List Bool) → by_turns first.now second.now ≡ bytes c → frame.new ≡ bytes (sent_of c) ++ drop 208 frame.old }
{
    for run in 0..4usize {
        let from = run * 27;
        let at = run * 52;
        send_pairs(
            &first[from..from + 26],
            &second[from..from + 26],
            &mut frame[at..at + 52],
        );
    }
}

// Writes the protected bits of the inputs, before which five zeros stand for the register. (Bits, as `line_outputs` asks.)
fn send(inputs: &[u8; 108], frame: &mut [u8])
    requires { (all_binary inputs.now ≡ true) × (length frame.old ≡ 260) }
    ensures { frame.new ≡ bytes (sent_of (coded acelp (memory_low 0) (bits inputs.now))) ++ drop 208 frame.old }
{
    let mut line = [0u8; 113];
    line[5..].copy_from_slice(inputs);
    let mut first = [0u8; 108];
    let mut second = [0u8; 108];
    line_outputs(&line, &mut first, &mut second);
    send_runs(&first, &second, frame);
}

// Writes the channel bits of a codec frame: the protected bits, and class two as it is.
pub fn encode(speech: &[u8], frame: &mut [u8]) -> Result<(), Refusal>
    ensures { Encoding speech.now frame.old frame.new result }
{
    bits_and_room(148, speech, 260, frame.len())?;
    let mut sorted = [0u8; 148];
    gather(&SPEECH_ORDER, speech, &mut sorted);
    send(&inputs_of(&sorted), frame);
    frame[208..].copy_from_slice(&sorted[96..]);
    Ok(())
}
