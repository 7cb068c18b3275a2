// The frames of VSELP (`speech`) and of ACELP CC1.
use acelp_cc1::DecodedFrame;
use acelp_interleaver::Interleaving;
use calls::answers::Answer;
use calls::arguments::Arguments;
use calls::errors::LineError;
use speech::{CrcStatus, SpeechCandidate};

// (No `From`: neither type is of this crate.)
fn candidate(candidate: SpeechCandidate) -> Answer {
    Answer::Frame {
        valid: candidate.crc == CrcStatus::Valid,
        corrected: candidate.corrected,
    }
}

// `encode CLASS_ONE CLASS_TWO FRAME`, `decode_candidate FRAME CLASS_ONE CLASS_TWO`, and the slots.
pub fn vselp(call: &str, arguments: &mut Arguments) -> Result<Answer, LineError> {
    let (numbers, inputs, rooms) = arguments.parts();
    let answer = match (call, numbers, inputs, rooms) {
        ("encode", [], [class_one, class_two], [frame]) => {
            speech::encode(class_one.as_slice(), class_two.as_slice(), frame.lend()).into()
        }
        ("decode_candidate", [], [frame], [class_one, class_two]) => {
            speech::decode_candidate(frame.as_slice(), class_one.lend(), class_two.lend())
                .map(candidate)
                .into()
        }
        ("interleave", [], [previous, current], [slot]) => {
            speech_interleaver::interleave(
                previous.as_slice(),
                current.as_slice(),
                slot.lend(),
            ).into()
        }
        ("deinterleave", [], [first, second], [frame]) => {
            speech_interleaver::deinterleave(
                first.as_slice(),
                second.as_slice(),
                frame.lend(),
            ).into()
        }
        _ => return Err(LineError::NoCall),
    };
    Ok(answer)
}

// (No `From`: neither type is of this crate.)
fn frame(frame: DecodedFrame) -> Answer {
    Answer::Frame {
        valid: frame.crc_valid,
        corrected: frame.corrected,
    }
}

// (No `From`: neither type is of this crate.)
fn mode_of(number: u64) -> Interleaving {
    match number {
        1 => Interleaving::One,
        2 => Interleaving::Two,
        _ => Interleaving::Three,
    }
}

// `encode SPEECH FRAME`, `decode FRAME SPEECH`, `interleave MODE HISTORY SLOT`, `deinterleave MODE SLOTS FRAME`.
pub fn acelp(call: &str, arguments: &mut Arguments) -> Result<Answer, LineError> {
    let (numbers, inputs, rooms) = arguments.parts();
    let answer = match (call, numbers, inputs, rooms) {
        ("encode", [], [speech], [room]) => acelp_cc1::encode(
            speech.as_slice(),
            room.lend(),
        ).into(),
        ("decode", [], [coded], [room]) => {
            acelp_cc1::decode(coded.as_slice(), room.lend())
                .map(frame)
                .into()
        }
        ("interleave", [mode], [history], [slot]) => {
            acelp_interleaver::interleave(history.as_slice(), mode_of(*mode), slot.lend()).into()
        }
        ("deinterleave", [mode], [slots], [room]) => {
            acelp_interleaver::deinterleave(slots.as_slice(), mode_of(*mode), room.lend()).into()
        }
        _ => return Err(LineError::NoCall),
    };
    Ok(answer)
}
