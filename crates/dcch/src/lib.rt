// DCCH blocks (IS-136.1-A 4.4.3 and 5.2.6). Ported from 136-bts, dcch.rs (see NOTICE). The contracts cite specs/.
#![tactic(auto)]

mod block;
mod crc;
mod soft_block;

pub use crate::block::{decode, encode};
pub use crate::crc::{CrcMode, checksum};
pub use bits::Refusal;
pub use dcch_interleaver::BlockFormat;
pub use soft_block::decode_soft;
