// SACCH: encoder, decoder, deinterleaver and receiver. States go in by value and come back.
ghost use Rattle.std.specs.Prelude.{◌≡◌};
ghost use Rattle.sacch_decoder.specs.Decoding.{decoding, decode_arguments};
ghost use Rattle.sacch_encoder.specs.Encoder.{encode_bits_of, encode_word_of, fresh_encoder};
ghost use Rattle.sacch_interleaver.specs.Deinterleaver.{fresh_deinterleaver, push_row_of};
ghost use Rattle.sacch_receiver.specs.Receiver.{fresh_receiver, push_of, push_word_of};
ghost use Rattle.flat_sacch.specs.Flat.{flat_field, flat_fields, flat_moved, flat_moved_word, flat_pushed_row, flat_receiver, flat_word, receiver_of};

use flat_sacch::{Field, Fields, Pushed, Receiver, Row, Word};
use sacch::{SacchDeinterleaver, SacchEncoder};

// The fresh encoder.
#[unsafe(no_mangle)]
pub extern "C" fn bts136_sacch_new_encoder() -> SacchEncoder
    ensures { result ≡ fresh_encoder }
{
    flat_sacch::new_encoder()
}

// The fresh encoder, whatever was given.
#[unsafe(no_mangle)]
pub extern "C" fn bts136_sacch_reset(encoder: SacchEncoder) -> SacchEncoder
    ensures { result ≡ fresh_encoder }
{
    flat_sacch::reset(encoder)
}

// Codes six bits, the first highest, into the next field. Refused: 8; 2 for six bits above 63.
#[unsafe(no_mangle)]
pub extern "C" fn bts136_sacch_encode_bits(encoder: SacchEncoder, six: u8) -> Field
    ensures { result ≡ flat_field (encode_bits_of encoder six) }
{
    flat_sacch::encode_bits(encoder, six)
}

// Codes a word into the next eleven fields. message has 48 bits, the first highest. Refused: 8; 2 for a message of 2^48 or more.
#[unsafe(no_mangle)]
pub extern "C" fn bts136_sacch_encode_word(
    encoder: SacchEncoder,
    continuation: bool,
    message: u64,
    dvcc: u8,
) -> Fields
    ensures { result ≡ flat_fields (encode_word_of encoder continuation message dvcc) }
{
    flat_sacch::encode_word(encoder, continuation, message, dvcc)
}

// Decodes the 132 coded bits of a word to the one nearest word, whatever memory the encoder began with. Refused: 1, 2, 5, 6, 3.
#[unsafe(no_mangle)]
pub extern "C" fn bts136_sacch_decode(coded: &[u8], dvcc: u8) -> Word
    ensures { result ≡ flat_word (decoding (decode_arguments coded.now) coded.now dvcc) }
{
    flat_sacch::decode(coded, dvcc)
}

// The fresh deinterleaver.
#[unsafe(no_mangle)]
pub extern "C" fn bts136_sacch_new_deinterleaver() -> SacchDeinterleaver
    ensures { result ≡ fresh_deinterleaver }
{
    flat_sacch::new_deinterleaver()
}

// The fresh deinterleaver, whatever was given.
#[unsafe(no_mangle)]
pub extern "C" fn bts136_sacch_reset_deinterleaver(
    deinterleaver: SacchDeinterleaver,
) -> SacchDeinterleaver
    ensures { result ≡ fresh_deinterleaver }
{
    flat_sacch::reset_deinterleaver(deinterleaver)
}

// Takes the next field of a channel, twelve bits, the first highest. Give the deinterleaver of the last answer. From the twelfth field on each completes
// a row. Refused: 8; 2 for a field above 4095.
#[unsafe(no_mangle)]
pub extern "C" fn bts136_sacch_deinterleave(deinterleaver: SacchDeinterleaver, field: u16) -> Row
    ensures { result ≡ flat_pushed_row (push_row_of deinterleaver field) }
{
    flat_sacch::deinterleave(deinterleaver, field)
}

// The fresh receiver.
#[unsafe(no_mangle)]
pub extern "C" fn bts136_sacch_new_receiver() -> Receiver
    ensures { result ≡ flat_receiver fresh_receiver }
{
    flat_sacch::new_receiver()
}

// The fresh receiver, whatever was given: after a gap or a handoff.
#[unsafe(no_mangle)]
pub extern "C" fn bts136_sacch_discontinuity(receiver: Receiver) -> Receiver
    ensures { result ≡ flat_receiver fresh_receiver }
{
    flat_sacch::discontinuity(receiver)
}

// Pushes the next field of a channel, twelve bits, the first highest. Give the receiver of the last answer. Unlocked, each field from the 22nd is a
// trial; a word locks, and then each eleventh field is one; a rejection (5, 6, 3) unlocks. Refused: 8; 2 for a field above 4095.
#[unsafe(no_mangle)]
pub extern "C" fn bts136_sacch_pushed(receiver: Receiver, field: u16, dvcc: u8) -> Pushed
    ensures { result ≡ flat_moved (push_of (receiver_of receiver) field dvcc) }
{
    flat_sacch::push_by_value(receiver, field, dvcc)
}

// The same with a word or nothing: a rejection is BTS136_PENDING. Refused as above.
#[unsafe(no_mangle)]
pub extern "C" fn bts136_sacch_push(receiver: Receiver, field: u16, dvcc: u8) -> Pushed
    ensures { result ≡ flat_moved_word (push_word_of (receiver_of receiver) field dvcc) }
{
    flat_sacch::push(receiver, field, dvcc)
}
