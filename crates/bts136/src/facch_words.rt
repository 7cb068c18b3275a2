// FACCH words and the slots that carry them.
ghost use Rattle.std.specs.Prelude.{◌≡◌};
ghost use Rattle.facch.specs.Decoding.{decode_arguments, decoding, erased_arguments};
ghost use Rattle.facch_interleaver.specs.Wire.{Deinterleaving, Interleaving, Observing};
ghost use Rattle.facch_interleaver.specs.declared.WordHalf.TheVariants.{End, Start};
ghost use Rattle.facch.specs.Words.{Encoding};
ghost use Rattle.flat_coding.specs.Calls.{FlatWrote};
ghost use Rattle.flat_facch.specs.Words.{flat_content};

use facch_interleaver::WordHalf;
use flat_coding::calls::Written;
use flat_facch::Word;

// Codes a word into 260 bits. message has 48 bits, the first highest. Refused: 1; 2 for a message of 2^48 or more.
#[unsafe(no_mangle)]
pub extern "C" fn bts136_facch_encode(
    continuation: bool,
    message: u64,
    dvcc: u8,
    coded: &mut [u8],
) -> Written
    ensures { FlatWrote (Encoding continuation message dvcc coded.old coded.new) result }
{
    flat_facch::encode(continuation, message, dvcc, coded)
}

// The slot that finishes the previous word (even rows) and starts the current one (odd rows), 260 bits each. Refused: 1, 2.
#[unsafe(no_mangle)]
pub extern "C" fn bts136_facch_interleave(
    previous: &[u8],
    current: &[u8],
    slot: &mut [u8],
) -> Written
    ensures { FlatWrote (Interleaving previous.now current.now slot.old slot.new) result }
{
    flat_facch::interleave(previous, current, slot)
}

// The word that starts in the first slot and is finished in the second, 260 bits each. Refused: 1, 2.
#[unsafe(no_mangle)]
pub extern "C" fn bts136_facch_deinterleave(
    first: &[u8],
    second: &[u8],
    coded: &mut [u8],
) -> Written
    ensures { FlatWrote (Deinterleaving first.now second.now coded.old coded.new) result }
{
    flat_facch::deinterleave(first, second, coded)
}

// The 130 bits of the word that starts in a slot of 260, at their places of 260; the others are 2. Refused: 1, 2.
#[unsafe(no_mangle)]
pub extern "C" fn bts136_facch_observe_start(slot: &[u8], coded: &mut [u8]) -> Written
    ensures { FlatWrote (Observing slot.now Start coded.old coded.new) result }
{
    flat_facch::observe_half(slot, WordHalf::Start, coded)
}

// The same of the word that ends in the slot.
#[unsafe(no_mangle)]
pub extern "C" fn bts136_facch_observe_end(slot: &[u8], coded: &mut [u8]) -> Written
    ensures { FlatWrote (Observing slot.now End coded.old coded.new) result }
{
    flat_facch::observe_half(slot, WordHalf::End, coded)
}

// Decodes the 260 bits of a word to the one nearest word. Refused: 1, 2, 5, 3.
#[unsafe(no_mangle)]
pub extern "C" fn bts136_facch_decode(coded: &[u8], dvcc: u8) -> Word
    ensures { result ≡ flat_content (decoding (decode_arguments coded.now) coded.now dvcc) }
{
    flat_facch::decode(coded, dvcc)
}

// The same, where the byte 2 is a bit that was not observed; disagreements are counted over observed bits. Refused: 1, 2, 4, 5, 3.
#[unsafe(no_mangle)]
pub extern "C" fn bts136_facch_decode_erased(coded: &[u8], dvcc: u8) -> Word
    ensures { result ≡ flat_content (decoding (erased_arguments coded.now) coded.now dvcc) }
{
    flat_facch::decode_erased(coded, dvcc)
}
