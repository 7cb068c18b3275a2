// SACCH: words, and the records of encoder, deinterleaver and receiver, which are numbers of a line.
use crate::lent::lent;
use crate::records::{Became, Numbers, Record};
use crate::told::Told;
use calls::answers::Answer;
use calls::arguments::Arguments;
use calls::errors::LineError;
use calls::numerals::{low_byte, low_u16};
use sacch_decoder::SacchWord;
use sacch_encoder::SacchEncoder;
use sacch_interleaver::SacchDeinterleaver;
use sacch_receiver::{ReceiveOutcome, SacchReceiver};

// (No `From`: neither type is of this crate.)
fn word(word: SacchWord) -> Answer {
    Answer::Word {
        continuation: word.continuation,
        message: word.message,
        corrected: word.corrected,
        last: u16::from(word.ending),
    }
}

// `decode DVCC CODED`.
pub fn run(call: &str, arguments: &mut Arguments) -> Result<Answer, LineError> {
    let (numbers, inputs, rooms) = arguments.parts();
    match (call, numbers, inputs, rooms) {
        ("decode", [dvcc], [coded], []) => {
            Ok(
                sacch_decoder::decode(coded.as_slice(), low_byte(*dvcc))
                    .map(word)
                    .into(),
            )
        }
        _ => Err(LineError::NoCall),
    }
}

// An answer, and what became of the record. (No room is lent.)
fn told<R: Record>(answer: Answer, before: &[u64], record: &R) -> Told<'static> {
    Told {
        answer,
        sent: None,
        became: Some(Became::of(before, record)),
        rooms: &[],
    }
}

// What an encoder answered, the fields that it sent, and what became of it.
fn told_sent(
    answer: Answer,
    fields: &[u16],
    before: &[u64],
    encoder: &SacchEncoder,
) -> Told<'static> {
    let mut sent = Numbers::new();
    sent.push_list(fields);
    Told {
        sent: Some(sent),
        ..told(answer, before, encoder)
    }
}

// A refused call sends nothing, which is told as zeros.
fn encode_bits(six: u8, before: &[u64]) -> Result<Told<'static>, LineError> {
    let mut encoder = SacchEncoder::of(before)?;
    let sent = encoder.encode_bits(six);
    let answer = sent.map(|_| Answer::Done).into();
    Ok(told_sent(answer, &[sent.unwrap_or(0)], before, &encoder))
}

fn encode_word(
    continuation: bool,
    message: u64,
    dvcc: u8,
    before: &[u64],
) -> Result<Told<'static>, LineError> {
    let mut encoder = SacchEncoder::of(before)?;
    let sent = encoder.encode_word(continuation, message, dvcc);
    let answer = sent.map(|_| Answer::Done).into();
    let fields = sent.unwrap_or([0; 11]);
    Ok(told_sent(answer, &fields, before, &encoder))
}

// `encode_bits SIX`, `encode_word CONTINUATION MESSAGE DVCC` and `reset`, each before an encoder.
fn encoder_call(call: &str, numbers: &[u64]) -> Result<Told<'static>, LineError> {
    match (call, numbers) {
        ("encode_bits", [six, before @ ..]) => encode_bits(low_byte(*six), before),
        ("encode_word", [continuation, message, dvcc, before @ ..]) => {
            let dvcc = low_byte(*dvcc);
            encode_word(*continuation != 0, *message, dvcc, before)
        }
        ("reset", before) => {
            let mut encoder = SacchEncoder::of(before)?;
            encoder.reset();
            Ok(told(Answer::Done, before, &encoder))
        }
        _ => Err(LineError::NoCall),
    }
}

// `deinterleave FIELD` and `reset_deinterleaver`, each before a deinterleaver.
fn deinterleaver_call(call: &str, numbers: &[u64]) -> Result<Told<'static>, LineError> {
    match (call, numbers) {
        ("deinterleave", [field, before @ ..]) => {
            let mut deinterleaver = SacchDeinterleaver::of(before)?;
            let row = deinterleaver.push(low_u16(*field));
            let answer = row.map(|row| row.map_or(Answer::Pending, Answer::Value));
            Ok(told(answer.into(), before, &deinterleaver))
        }
        ("reset_deinterleaver", before) => {
            let mut deinterleaver = SacchDeinterleaver::of(before)?;
            deinterleaver.reset();
            Ok(told(Answer::Done, before, &deinterleaver))
        }
        _ => Err(LineError::NoCall),
    }
}

// (No `From`: neither type is of this crate.)
fn outcome(outcome: ReceiveOutcome) -> Answer {
    match outcome {
        ReceiveOutcome::Pending => Answer::Pending,
        ReceiveOutcome::Word(heard) => word(heard),
        ReceiveOutcome::Rejected(why) => Answer::Rejected(why),
    }
}

// `pushed`, `push_outcome` and `push`.
fn push(call: &str, field: u16, dvcc: u8, before: &[u64]) -> Result<Told<'static>, LineError> {
    let mut receiver = SacchReceiver::of(before)?;
    let (answer, after) = match call {
        "pushed" => {
            let pushed = receiver.pushed(field, dvcc);
            (pushed.outcome.map(outcome), pushed.receiver)
        }
        "push_outcome" => {
            let pushed = lent(receiver, field, dvcc);
            (pushed.outcome.map(outcome), pushed.receiver)
        }
        "push" => {
            let heard = receiver.push(field, dvcc);
            (
                heard.map(|heard| heard.map_or(Answer::Pending, word)),
                receiver,
            )
        }
        _ => return Err(LineError::NoCall),
    };
    Ok(told(answer.into(), before, &after))
}

// `pushed FIELD DVCC`, so for `push_outcome` and `push`, and `discontinuity`, each before a receiver.
fn receiver_call(call: &str, numbers: &[u64]) -> Result<Told<'static>, LineError> {
    match (call, numbers) {
        ("discontinuity", before) => {
            let mut receiver = SacchReceiver::of(before)?;
            receiver.discontinuity();
            Ok(told(Answer::Done, before, &receiver))
        }
        (_, [field, dvcc, before @ ..]) => { push(call, low_u16(*field), low_byte(*dvcc), before) }
        _ => Err(LineError::NoCall),
    }
}

// The calls over records have numbers alone.
pub fn over_record(call: &str, arguments: &mut Arguments) -> Result<Told<'static>, LineError> {
    let (numbers, inputs, rooms) = arguments.parts();
    let ([], []) = (inputs, rooms) else {
        return Err(LineError::NoCall);
    };
    // Matched here by the record, and below by the arguments.
    match call {
        "encode_bits" | "encode_word" | "reset" => encoder_call(call, numbers),
        "deinterleave" | "reset_deinterleaver" => deinterleaver_call(call, numbers),
        _ => receiver_call(call, numbers),
    }
}
