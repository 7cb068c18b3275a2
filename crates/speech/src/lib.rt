// VSELP speech frames (IS-54-B 2.1.3.3). The contracts cite specs/.
// Ported from 136-bts, speech.rs, and changed (see NOTICE).
#![tactic(auto)]

mod classes;
mod decoding;
mod encoding;
mod inputs;
mod ranges;

pub use bits::Refusal;
pub use decoding::decode_candidate;
pub use encoding::encode;

// Whether a frame's checksum is right. A failed one is no refusal. (Types beside `DecodedFrame` of `acelp_cc1`: the original names both, and so does rust/.)
#[derive(Clone, Copy, Debug, PartialEq, Eq)]
pub enum CrcStatus {
    Valid,
    Failed,
}

// What an accepted frame tells beside its speech bits.
#[derive(Clone, Copy, Debug, PartialEq, Eq)]
pub struct SpeechCandidate {
    pub crc: CrcStatus,
    pub corrected: u16,
}
