// Flat functions over `sacch`. Each answers a number of document 01, or 0 with its result.
#![tactic(auto)]

mod deinterleaver;
mod receiver;

ghost use Rattle.std.specs.Prelude.{◌≡◌};
ghost use Rattle.sacch_decoder.specs.Decoding.{decoding, decode_arguments};
ghost use Rattle.sacch_encoder.specs.Encoder.{encode_bits_of, encode_word_of, fresh_encoder};
ghost use Rattle.flat_sacch.specs.Flat.{flat_field, flat_fields, flat_word, no_word};

use bits::Refusal;
pub use deinterleaver::{Row, deinterleave, new_deinterleaver, reset_deinterleaver};
use flat_coding::calls::Written;
pub use receiver::{Pushed, Receiver, discontinuity, new_receiver, push, push_by_value};
use sacch::{SacchEncoder, SacchWord};

// One field, 0 where the call is refused; then the encoder is the one that was given. C reads it, which has no Result: so with all records here.
#[repr(C)]
#[derive(Clone, Copy, Debug, PartialEq, Eq)]
pub struct Field {
    pub refusal: u8,
    pub encoder: SacchEncoder,
    pub field: u16,
}

// The fields of a word, zeros where the call is refused.
#[repr(C)]
#[derive(Clone, Copy, Debug, PartialEq, Eq)]
pub struct Fields {
    pub refusal: u8,
    pub encoder: SacchEncoder,
    pub fields: [u16; 11],
}

// What is beside the refusal is that of an accepted word; expected and actual are those of a refusal for length.
#[repr(C)]
#[derive(Clone, Copy, Debug, Default, PartialEq, Eq)]
pub struct Word {
    pub refusal: u8,
    pub expected: usize,
    pub actual: usize,
    pub continuation: bool,
    pub message: u64,
    pub corrected: u16,
    pub ending: u8,
}

impl From<Refusal> for Word {
    ghost from_gives = { λ why r. r ≡ no_word why };

    fn from(why: Refusal) -> Word {
        let numbers = Written::from(why);
        Word {
            refusal: numbers.refusal,
            expected: numbers.expected,
            actual: numbers.actual,
            ..Word::default()
        }
    }
}

impl From<Result<SacchWord, Refusal>> for Word {
    ghost from_gives = { λ answer r. r ≡ flat_word answer };

    fn from(answer: Result<SacchWord, Refusal>) -> Word {
        match answer {
            Ok(word) => Word {
                continuation: word.continuation,
                message: word.message,
                corrected: word.corrected,
                ending: word.ending,
                ..Word::default()
            },
            Err(why) => Word::from(why),
        }
    }
}

pub fn new_encoder() -> SacchEncoder
    ensures { result ≡ fresh_encoder }
{
    SacchEncoder::new()
}

pub fn reset(mut encoder: SacchEncoder) -> SacchEncoder
    ensures { result ≡ fresh_encoder }
{
    encoder.reset();
    encoder
}

// The record is made first and its encoder lent, since an encoder copied after the call waits for what the call stored. (Not so below, where it gains nothing.)
pub fn encode_bits(encoder: SacchEncoder, six: u8) -> Field
    ensures { result ≡ flat_field (encode_bits_of encoder six) }
{
    let mut sent = Field {
        refusal: 0,
        encoder,
        field: 0,
    };
    match sent.encoder.encode_bits(six) {
        Ok(field) => sent.field = field,
        Err(why) => sent.refusal = u8::from(why),
    }
    sent
}

pub fn encode_word(mut encoder: SacchEncoder, continuation: bool, message: u64, dvcc: u8) -> Fields
    ensures { result ≡ flat_fields (encode_word_of encoder continuation message dvcc) }
{
    match encoder.encode_word(continuation, message, dvcc) {
        Ok(fields) => Fields {
            refusal: 0,
            encoder,
            fields,
        },
        Err(why) => Fields {
            refusal: u8::from(why),
            encoder,
            fields: [0; 11],
        },
    }
}

pub fn decode(coded: &[u8], dvcc: u8) -> Word
    ensures { result ≡ flat_word (decoding (decode_arguments coded.now) coded.now dvcc) }
{
    Word::from(sacch::decode(coded, dvcc))
}
