// Decoding of SACCH words (IS-54-B 2.7.3.1.2). The contracts cite specs/.
// Ported from 136-bts, sacch.rs, and changed (see NOTICE).
#![tactic(auto)]

ghost use Rattle.std.specs.Prelude.{Err, cond, reverse, ◌≡◌, take};
ghost use Rattle.bits.specs.Bits.{bits};
ghost use Rattle.bits.specs.Numbers.{packed};
ghost use Rattle.bits.specs.declared.Refusal.TheVariants.{Ambiguous};
ghost use Rattle.sacch_decoder.specs.Decoding.{content_of, decode_arguments, decoding, finished};

use bits::arguments::exact_bits;
use bits::{Refusal, pack};
use trellis::Outcome;

// A decoded word.
#[derive(Clone, Copy, Debug, PartialEq, Eq)]
pub struct SacchWord {
    pub continuation: bool,
    // 48 bits, the first highest.
    pub message: u64,
    // The disagreements of the word with the received bits.
    pub corrected: u16,
    // The encoder's memory after the word.
    pub ending: u8,
}

// The memory that a word leaves: its last five bits, the newest highest. (A cast: the proof of a fold over a byte did not close.)
fn ending(word: &[u8; 66]) -> u8
    ensures { result ≡ packed (take 5 (reverse (bits word.now))) }
{
    let newest = [word[65], word[64], word[63], word[62], word[61]];
    pack(&newest) as u8
}

// The content of a word that has so many disagreements.
#[tactic(auto, using(bits::proofs::Binary::bit_read), unfolding(crate::specs::Decoding::content_of))]
fn content(word: &[u8; 66], corrected: u16) -> SacchWord
    ensures { result ≡ content_of (bits word.now) corrected }
{
    SacchWord {
        continuation: word[0] % 2 == 1,
        message: words::message(2, word),
        corrected,
        ending: ending(word),
    }
}

// What the word that a search found gives: Ambiguous before Reserved before Crc.
#[tactic(auto, using(bits::proofs::Binary::bit_read), unfolding(crate::specs::Decoding::finished))]
fn finish(word: &[u8; 66], found: Outcome, dvcc: u8) -> Result<SacchWord, Refusal>
    ensures { result ≡ cond found.tie (Err Ambiguous) (finished (bits word.now) found.metric dvcc) }
{
    if found.tie {
        return Err(Refusal::Ambiguous);
    }
    if word[1] % 2 == 1 {
        return Err(Refusal::Reserved);
    }
    if !words::valid(2, word, dvcc) {
        return Err(Refusal::Crc);
    }
    Ok(content(word, found.metric))
}

// The content of the word nearest to the coded bits, where one alone is. All words of 66 inputs are searched, from whatever memory.
#[tactic(auto, using(crate::proofs::Settling::word_decides))]
pub fn decode(coded: &[u8], dvcc: u8) -> Result<SacchWord, Refusal>
    ensures { result ≡ decoding (decode_arguments coded.now) coded.now dvcc }
{
    exact_bits(132, coded)?;
    let mut word = [0u8; 66];
    let found = viterbi::free(coded, &mut word);
    finish(&word, found, dvcc)
}
