// Decoding of a frame.
// Ported from 136-bts, speech.rs, and changed (see NOTICE).
ghost use Rattle.std.specs.Prelude.{◌≡◌, length};
ghost use Rattle.trellis.specs.Search.{Found};
ghost use Rattle.trellis.specs.Words.{Terminated};
ghost use Rattle.speech.specs.Calls.{decode_arguments, decode_call, exit_of, frame_weight};

use crate::SpeechCandidate;
use crate::classes::{take_class_two, take_protected};
use crate::inputs::crc_status;
use bits::Refusal;
use bits::arguments::{binary, exact};
use trellis::Outcome;

fn decode_arguments(frame: &[u8], room_one: usize, room_two: usize) -> Result<(), Refusal>
    ensures { result ≡ decode_arguments frame.now room_one room_two }
{
    exact(260, frame.len())?;
    exact(77, room_one)?;
    exact(82, room_two)?;
    binary(frame)
}

// Writes the nearest inputs.
fn nearest_inputs(frame: &[u8], inputs: &mut [u8; 89]) -> Outcome
    requires { length frame.now ≡ 260 }
    ensures { Found (Terminated 89) (frame_weight frame.now) inputs.new result }
{
    let mut protected = [0u8; 178];
    take_protected(frame, &mut protected);
    viterbi::terminated(&protected, inputs)
}

// Writes the speech bits of the word nearest to a frame, where it is the only one, and gives its status and its number of corrected bits.
// Nothing is written before the word is known to be the only one.
pub fn decode_candidate(
    frame: &[u8],
    class_one: &mut [u8],
    class_two: &mut [u8],
) -> Result<SpeechCandidate, Refusal>
    ensures { exit_of result class_one.new class_two.new ≡ decode_call frame.now class_one.old class_two.old }
{
    decode_arguments(frame, class_one.len(), class_two.len())?;
    let mut inputs = [0u8; 89];
    let found = nearest_inputs(frame, &mut inputs);
    if found.tie {
        return Err(Refusal::Ambiguous);
    }
    class_one.copy_from_slice(&inputs[4..81]);
    take_class_two(frame, class_two);
    Ok(SpeechCandidate {
        crc: crc_status(&inputs),
        corrected: found.metric,
    })
}
