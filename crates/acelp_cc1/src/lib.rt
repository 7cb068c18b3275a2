// ACELP CC1 speech frames (TIA/EIA-136-410). The contracts cite specs/.
// Ported from 136-bts, acelp_cc1.rs, and changed (see NOTICE).
#![tactic(auto)]

mod decoding;
mod encoding;
mod places;
mod table;

pub use bits::Refusal;
pub use decoding::decode;
pub use encoding::encode;

// What an accepted frame tells beside its speech bits. A bad checksum is no refusal.
#[derive(Clone, Copy, Debug, PartialEq, Eq)]
pub struct DecodedFrame {
    pub crc_valid: bool,
    pub corrected: u16,
}
