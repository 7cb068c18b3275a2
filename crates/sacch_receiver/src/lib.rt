// The SACCH receiver (IS-54-B 2.7.3.1.2): fields into rows, rows into words. The contracts cite specs/.
// Ported from 136-bts, sacch.rs, and changed (see NOTICE).
#![tactic(auto)]

mod receiver;
mod window;

use bits::Refusal;
use sacch_decoder::SacchWord;
use sacch_interleaver::SacchDeinterleaver;

// The last twelve fields and the last eleven rows, each packed with the first bit highest.
#[derive(Clone, Copy, Debug, PartialEq, Eq)]
pub struct SacchReceiver {
    pub deinterleaver: SacchDeinterleaver,
    // (A count beside the rows, as in C's record: there is no heap.)
    pub rows: [u16; 11],
    // The place of the oldest row.
    pub row_cursor: usize,
    // How many rows are stored, up to 11.
    pub available: usize,
    // Rows modulo 11.
    pub phase: u8,
    // Where it is known at which phase words begin, only that phase is tried. A byte holds it, so that it has no padding, which costs at every move.
    pub locked_phase: Option<u8>,
}

// What a push answers. A rejection is no refusal: the receiver has moved.
#[derive(Clone, Copy, Debug, PartialEq, Eq)]
pub enum ReceiveOutcome {
    Pending,
    Word(SacchWord),
    Rejected(Refusal),
}

// An answer, with the receiver after it.
#[derive(Clone, Copy, Debug, PartialEq, Eq)]
pub struct Pushed {
    pub outcome: Result<ReceiveOutcome, Refusal>,
    pub receiver: SacchReceiver,
}
