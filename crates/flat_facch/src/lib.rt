// Flat functions over `facch`: words and the slots that carry them. Each answers a number of document 01, or 0 with its result.
#![tactic(auto)]

ghost use Rattle.std.specs.Prelude.{◌≡◌};
ghost use Rattle.facch.specs.Decoding.{decode_arguments, decoding, erased_arguments};
ghost use Rattle.facch_interleaver.specs.Wire.{Deinterleaving, Interleaving, Observing};
ghost use Rattle.facch.specs.Words.{Encoding};
ghost use Rattle.flat_coding.specs.Calls.{FlatWrote};
ghost use Rattle.flat_facch.specs.Words.{flat_content, no_word};

use bits::Refusal;
use facch::{FacchWord, WordHalf};
use flat_coding::calls::Written;

pub fn encode(continuation: bool, message: u64, dvcc: u8, coded: &mut [u8]) -> Written
    ensures { FlatWrote (Encoding continuation message dvcc coded.old coded.new) result }
{
    Written::from(facch::encode(continuation, message, dvcc, coded))
}

pub fn interleave(previous: &[u8], current: &[u8], slot: &mut [u8]) -> Written
    ensures { FlatWrote (Interleaving previous.now current.now slot.old slot.new) result }
{
    Written::from(facch::interleave(previous, current, slot))
}

pub fn deinterleave(first: &[u8], second: &[u8], coded: &mut [u8]) -> Written
    ensures { FlatWrote (Deinterleaving first.now second.now coded.old coded.new) result }
{
    Written::from(facch::deinterleave(first, second, coded))
}

pub fn observe_half(slot: &[u8], half: WordHalf, coded: &mut [u8]) -> Written
    ensures { FlatWrote (Observing slot.now half coded.old coded.new) result }
{
    Written::from(facch::observe_half(slot, half, coded))
}

// C reads it, which has no Result: what is beside the refusal is that of an accepted word, else 0; expected and actual are those of a refusal for length.
#[repr(C)]
#[derive(Clone, Copy, Debug, Default, PartialEq, Eq)]
pub struct Word {
    pub refusal: u8,
    pub expected: usize,
    pub actual: usize,
    pub continuation: bool,
    pub message: u64,
    pub corrected: u16,
    pub observed: u16,
}

impl From<Refusal> for Word {
    ghost from_gives = { λ why r. r ≡ no_word why };

    fn from(why: Refusal) -> Word {
        let numbers = Written::from(why);
        Word {
            refusal: numbers.refusal,
            expected: numbers.expected,
            actual: numbers.actual,
            ..Word::default()
        }
    }
}

impl From<Result<FacchWord, Refusal>> for Word {
    ghost from_gives = { λ answer r. r ≡ flat_content answer };

    fn from(answer: Result<FacchWord, Refusal>) -> Word {
        match answer {
            Ok(word) => Word {
                continuation: word.continuation,
                message: word.message,
                corrected: word.corrected,
                observed: word.observed,
                ..Word::default()
            },
            Err(why) => Word::from(why),
        }
    }
}

pub fn decode(coded: &[u8], dvcc: u8) -> Word
    ensures { result ≡ flat_content (decoding (decode_arguments coded.now) coded.now dvcc) }
{
    Word::from(facch::decode(coded, dvcc))
}

pub fn decode_erased(coded: &[u8], dvcc: u8) -> Word
    ensures { result ≡ flat_content (decoding (erased_arguments coded.now) coded.now dvcc) }
{
    Word::from(facch::decode_erased(coded, dvcc))
}
