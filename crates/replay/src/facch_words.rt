// FACCH.
use calls::answers::Answer;
use calls::arguments::Arguments;
use calls::errors::LineError;
use calls::numerals::low_byte;
use facch::{FacchWord, decode, decode_erased, encode};
use facch_interleaver::{WordHalf, deinterleave, interleave, observe_half};

// (No `From`: neither type is of this crate.)
fn word(word: FacchWord) -> Answer {
    Answer::Word {
        continuation: word.continuation,
        message: word.message,
        corrected: word.corrected,
        last: word.observed,
    }
}

// (No `From`: neither type is of this crate.)
fn half_of(number: u64) -> WordHalf {
    if number == 0 {
        WordHalf::Start
    } else {
        WordHalf::End
    }
}

// `encode CONTINUATION MESSAGE DVCC CODED`, `decode DVCC CODED`, `decode_erased DVCC CODED`, `observe_half HALF SLOT CODED`,
// `interleave PREVIOUS CURRENT SLOT`, `deinterleave FIRST SECOND CODED`.
pub fn run(call: &str, arguments: &mut Arguments) -> Result<Answer, LineError> {
    let (numbers, inputs, rooms) = arguments.parts();
    let answer = match (call, numbers, inputs, rooms) {
        ("encode", [continuation, message, dvcc], [], [room]) => {
            let dvcc = low_byte(*dvcc);
            encode(*continuation != 0, *message, dvcc, room.lend()).into()
        }
        ("decode", [dvcc], [input], []) => decode(input.as_slice(), low_byte(*dvcc))
            .map(word)
            .into(),
        ("decode_erased", [dvcc], [input], []) => {
            decode_erased(input.as_slice(), low_byte(*dvcc))
                .map(word)
                .into()
        }
        ("observe_half", [half], [input], [room]) => {
            observe_half(input.as_slice(), half_of(*half), room.lend()).into()
        }
        ("interleave", [], [previous, current], [room]) => {
            interleave(previous.as_slice(), current.as_slice(), room.lend()).into()
        }
        ("deinterleave", [], [first, second], [room]) => {
            deinterleave(first.as_slice(), second.as_slice(), room.lend()).into()
        }
        _ => return Err(LineError::NoCall),
    };
    Ok(answer)
}
