// The SACCH encoder (IS-54-B 2.7.3.1.2). The contracts cite specs/.
// Ported from 136-bts, sacch.rs, and changed (see NOTICE).
#![tactic(auto)]

mod encoder;
mod word;

// The coder's memory and the rows of the last twelve slots. Rows are sent over twelve slots, so some of their bits are still to send. C holds it.
#[repr(C)]
#[derive(Clone, Copy, Debug, PartialEq, Eq)]
pub struct SacchEncoder {
    pub memory: u8,
    pub rows: [u16; 12],
    // The place of the oldest row.
    pub cursor: usize,
}
