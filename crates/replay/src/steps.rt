// Register steps, checksums and the bare search of DCCH's code. The steps and the search ask for something, so they are called by their flat functions.
use calls::answers::Answer;
use calls::arguments::Arguments;
use calls::errors::LineError;
use calls::numerals::{low_byte, low_u16};
use coding::codes::{Acelp, Dcch, Facch};
use flat_coding::bare_search::{Search, terminated};
use flat_coding::{Checksum, Step, transition};

// A flat function's refusal is a number, 0 where there is none.
fn unless_refused(number: u8, expected: usize, actual: usize, answer: Answer) -> Answer {
    if number == 0 {
        return answer;
    }
    Answer::Refused {
        number,
        expected,
        actual,
    }
}

// (No `From`, here and below: neither type is of this crate.)
fn stepped(step: Step) -> Answer {
    let output = step.output;
    let next = step.next;
    unless_refused(step.refusal, 0, 0, Answer::Next { next, output })
}

fn checked(sum: Checksum) -> Answer {
    unless_refused(sum.refusal, 0, 0, Answer::Value(sum.value))
}

fn found(search: Search) -> Answer {
    unless_refused(
        search.refusal,
        search.expected,
        search.actual,
        Answer::Found(search.metric),
    )
}

// `dcch STATE INPUT`, and so for FACCH and ACELP.
pub fn step(call: &str, arguments: &mut Arguments) -> Result<Answer, LineError> {
    let (numbers, inputs, rooms) = arguments.parts();
    let ([state, input], [], []) = (numbers, inputs, rooms) else {
        return Err(LineError::NoCall);
    };
    let state = low_byte(*state);
    let input = low_byte(*input);
    let step = match call {
        "dcch" => transition::<Dcch, 2>(state, input),
        "facch" => transition::<Facch, 4>(state, input),
        "acelp" => transition::<Acelp, 2>(state, input),
        _ => return Err(LineError::NoCall),
    };
    Ok(stepped(step))
}

// `checksum DVCC BROADCAST BITS`, `checksum_from REGISTER BITS`, `checksum7 BITS`, `search CODED WORD`.
pub fn run(call: &str, arguments: &mut Arguments) -> Result<Answer, LineError> {
    let (numbers, inputs, rooms) = arguments.parts();
    let answer = match (call, numbers, inputs, rooms) {
        ("checksum", [dvcc, broadcast], [bits], []) => {
            let dvcc = low_byte(*dvcc);
            checked(flat_dcch::checksum(bits.as_slice(), dvcc, *broadcast != 0))
        }
        ("checksum_from", [register], [bits], []) => {
            checked(flat_coding::checksum_from(low_u16(*register), bits.as_slice()))
        }
        ("checksum7", [], [bits], []) => checked(flat_coding::checksum7(bits.as_slice())),
        ("search", [], [coded], [word]) => found(terminated(coded.as_slice(), word.lend())),
        _ => return Err(LineError::NoCall),
    };
    Ok(answer)
}
