// Decoding of a word, some of its bits unobserved (IS-54-B 2.7.3.1.1).
// Ported from 136-bts, facch.rs, and changed (see NOTICE).
ghost use Rattle.std.specs.Prelude.{◌≡◌, length};
ghost use Rattle.bits.specs.Bits.{bits};
ghost use Rattle.facch.specs.Decoding.{decode_arguments, decode_of, decoding, erased_arguments, finished};

use crate::FacchWord;
use crate::nearest::nearest_word;
use bits::Refusal;
use bits::arguments::exact_bits;
use bits::observed::{count_observed, exact_erasable};

// The content of a word, where its checksum is right.
#[tactic(auto, using(bits::proofs::Binary::bit_read), unfolding(crate::specs::Decoding::content_of, crate::specs::Decoding::finished))]
fn finish(word: &[u8; 65], corrected: u16, observed: u16, dvcc: u8) -> Result<FacchWord, Refusal>
    ensures { result ≡ finished (bits word.now) corrected observed dvcc }
{
    if !words::valid(1, word, dvcc) {
        return Err(Refusal::Crc);
    }
    Ok(FacchWord {
        continuation: word[0] % 2 == 1,
        message: words::message(1, word),
        corrected,
        observed,
    })
}

// Searches bytes 0, 1 and 2, where enough was observed.
fn answer(coded: &[u8], dvcc: u8) -> Result<FacchWord, Refusal>
    requires { length coded.now ≡ 260 }
    ensures { result ≡ decode_of coded.now dvcc }
{
    let observed = count_observed(coded);
    if observed < 65 {
        return Err(Refusal::InsufficientObservations);
    }
    let mut word = [0u8; 65];
    let found = nearest_word(coded, &mut word);
    if found.tie {
        return Err(Refusal::Ambiguous);
    }
    finish(&word, found.metric, observed, dvcc)
}

// The content of the word nearest to the coded bits over those that are observed; a byte 2 is not.
pub fn decode_erased(coded: &[u8], dvcc: u8) -> Result<FacchWord, Refusal>
    ensures { result ≡ decoding (erased_arguments coded.now) coded.now dvcc }
{
    exact_erasable(260, coded)?;
    answer(coded, dvcc)
}

// The same of bits that are all observed.
pub fn decode(coded: &[u8], dvcc: u8) -> Result<FacchWord, Refusal>
    ensures { result ≡ decoding (decode_arguments coded.now) coded.now dvcc }
{
    exact_bits(260, coded)?;
    answer(coded, dvcc)
}
