// The encoder's calls.
// Ported from 136-bts, sacch.rs, and changed (see NOTICE).
ghost use Rattle.std.specs.Prelude.{◌≡◌, ◌<◌};
ghost use Rattle.bits.specs.Arguments.{below_of, first_refusal};
ghost use Rattle.bits.specs.Bits.{bits};
ghost use Rattle.bits.specs.Numbers.{packed};
ghost use Rattle.sacch_encoder.specs.Encoder.{encode_bits_of, encode_word_of, encoded, encoded_all, encoder_state, fields_from, fresh_encoder};
ghost use Rattle.sacch_encoder.specs.Words.{coded_row, sixes_of};

use crate::SacchEncoder;
use crate::word::{code_six, fields_of};
use bits::arguments::below;
use bits::{Refusal, all_below, unpack};
use sacch_interleaver::{aged, field_of, state_unless};
use words::{MESSAGES, complete};

// (By hand, so that its contract names the fresh record.)
impl Default for SacchEncoder {
    ghost is_default = { λ e. e ≡ fresh_encoder };

    fn default() -> SacchEncoder {
        SacchEncoder::new()
    }
}

impl SacchEncoder {
    #[tactic(auto, unfolding(crate::specs::Encoder::fresh_encoder))]
    pub fn new() -> SacchEncoder
        ensures { result ≡ fresh_encoder }
    {
        SacchEncoder {
            memory: 0,
            rows: [0; 12],
            cursor: 0,
        }
    }

    // Forgets the memory and the rows that are still to send.
    pub fn reset(&mut self)
        ensures { self.new ≡ fresh_encoder }
    {
        *self = SacchEncoder::new();
    }

    // Refused where a number is out of its range.
    #[tactic(auto, using(bits::proofs::Below::below_less), unfolding(crate::specs::Encoder::encoder_fits))]
    fn state(&self) -> Result<(), Refusal>
        ensures { result ≡ encoder_state self.now }
    {
        let numbers = (self.memory < 32) & (self.cursor < 12);
        state_unless(numbers & all_below(4096, &self.rows))
    }

    // Refused where the state is, or what is given is not below its limit.
    fn arguments(&self, limit: u64, given: u64) -> Result<(), Refusal>
        ensures { result ≡ first_refusal (encoder_state self.now) (below_of limit given) }
    {
        self.state()?;
        below(limit, given)
    }

    // Stores the row of six bits over the oldest, and tells it. Inline: a call would unpack the six bits to memory.
    #[inline(always)]
    #[tactic(auto, unfolding(crate::specs::Encoder::encoded))]
    fn store(&mut self, six: &[u8; 6]) -> u16
        requires { (self.old.memory < 32) × (self.old.cursor < 12) }
        ensures moved { self.new ≡ encoded self.old (packed (bits six.now)) }
        ensures row { result ≡ coded_row self.old.memory (packed (bits six.now)) }
    {
        let coded = code_six(self.memory, six);
        self.memory = coded.memory;
        self.rows[self.cursor] = coded.row;
        // (No `% 12`: behind tests that are joined by `&` it is a multiplication.)
        self.cursor = if self.cursor < 11 { self.cursor + 1 } else { 0 };
        coded.row
    }

    // The field that six bits, the first highest, give. A refused call leaves the encoder as it was.
    #[tactic(auto, using(crate::proofs::Sending::bits_sent, crate::proofs::Rows::inputs_packed, crate::proofs::Fits::given_below), unfolding(crate::specs::Encoder::encode_bits_of))]
    pub fn encode_bits(&mut self, six: u8) -> Result<u16, Refusal>
        ensures answer { result ≡ (encode_bits_of self.old six).answer }
        ensures moved { self.new ≡ (encode_bits_of self.old six).encoder }
    {
        let number = u64::from(six);
        self.arguments(64, number)?;
        let mut inputs = [0u8; 6];
        unpack(number, &mut inputs);
        self.store(&inputs);
        Ok(field_of(&self.rows, self.cursor))
    }

    // The fields of a word's eleven slots. All rows are made first, in the order of their slots, and stand beside the ring: a field that read the ring would wait for the row just stored. (Stored by place: after a `zip` with `iter_mut` a proof knows nothing of the rows.)
    fn send(&mut self, word: &[u8; 66]) -> [u16; 11]
        requires { (self.old.memory < 32) × (self.old.cursor < 12) }
        ensures moved { self.new ≡ encoded_all self.old (sixes_of (bits word.now)) }
        ensures sent { result ≡ fields_from self.old (sixes_of (bits word.now)) }
    {
        let mut run = aged(&self.rows, self.cursor);
        for (i, six) in word.as_chunks::<6>().0.iter().enumerate() {
            run[12 + i] = self.store(six);
        }
        fields_of(&run)
    }

    // The fields that a word of 48 bits, the first highest, gives. A refused call leaves the encoder as it was.
    #[tactic(auto, using(crate::proofs::Sending::word_sent, crate::proofs::WordBits::filled_bits), unfolding(crate::specs::Encoder::encode_word_of))]
    pub fn encode_word(
        &mut self,
        continuation: bool,
        message: u64,
        dvcc: u8,
    ) -> Result<[u16; 11], Refusal>
        ensures answer { result ≡ (encode_word_of self.old continuation message dvcc).answer }
        ensures moved { self.new ≡ (encode_word_of self.old continuation message dvcc).encoder }
    {
        self.arguments(MESSAGES, message)?;
        // The second bit is reserved, and zero.
        let mut word = [0u8; 66];
        word[0] = u8::from(continuation);
        complete(2, message, dvcc, &mut word);
        Ok(self.send(&word))
    }
}
