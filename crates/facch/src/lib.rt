// FACCH words (IS-54-B 2.7.3.1.1). Ported from 136-bts, facch.rs (see NOTICE). The contracts cite specs/.
#![tactic(auto)]

mod decoding;
mod nearest;
mod word;

pub use crate::word::encode;
pub use bits::Refusal;
pub use decoding::{decode, decode_erased};
pub use facch_interleaver::{WordHalf, deinterleave, interleave, observe_half};

// A decoded word: its content, and its corrected and its observed bits. (No one type with `SacchWord`: the last number of each has a meaning of its own.)
#[derive(Clone, Copy, Debug, PartialEq, Eq)]
pub struct FacchWord {
    pub continuation: bool,
    // 48 bits, the first highest.
    pub message: u64,
    pub corrected: u16,
    pub observed: u16,
}
