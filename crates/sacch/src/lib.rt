// SACCH (IS-54-B 2.7.3.1.2): the calls of encoder, decoder, deinterleaver and receiver. What holds of them together, the listening rule first, is in specs/.
#![tactic(auto)]

pub use bits::Refusal;
pub use sacch_decoder::{SacchWord, decode};
pub use sacch_encoder::SacchEncoder;
pub use sacch_interleaver::SacchDeinterleaver;
pub use sacch_receiver::{Pushed, ReceiveOutcome, SacchReceiver};
