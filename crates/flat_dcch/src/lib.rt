// Flat functions over `dcch`. Each answers a number of document 01, or 0 with its result.
#![tactic(auto)]

ghost use Rattle.std.specs.Prelude.{◌≡◌};
ghost use Rattle.bits.specs.Bits.{bits};
ghost use Rattle.checksums.specs.Checksums.{answer_for_bits};
ghost use Rattle.dcch.specs.Blocks.{Decoding, Encoding};
ghost use Rattle.dcch.specs.Crc.{sent_checksum};
ghost use Rattle.dcch.specs.SoftBlocks.{SoftDecoding};
ghost use Rattle.flat_dcch.specs.Blocks.{FlatDecoded, flat_block, mode_of};
ghost use Rattle.flat_coding.specs.Calls.{FlatWrote};
ghost use Rattle.flat_coding.specs.Flat.{flat_checksum};

use bits::Refusal;
use dcch::{BlockFormat, CrcMode};
use flat_coding::Checksum;
use flat_coding::calls::Written;

// C reads it, which has no Result: corrected is that of an accepted decoding, else 0; expected and actual are those of a refusal for length.
#[repr(C)]
#[derive(Clone, Copy, Debug, PartialEq, Eq)]
pub struct Block {
    pub refusal: u8,
    pub expected: usize,
    pub actual: usize,
    pub corrected: u16,
}

impl From<Result<u16, Refusal>> for Block {
    ghost from_gives = { λ answer r. r ≡ flat_block answer };

    fn from(answer: Result<u16, Refusal>) -> Block {
        let numbers = Written::from(answer.map(|_| ()));
        Block {
            refusal: numbers.refusal,
            expected: numbers.expected,
            actual: numbers.actual,
            corrected: answer.unwrap_or(0),
        }
    }
}

// C has no enum of ours. (No `From<bool>`: a bare `true` would not say which of the two it is.)
pub fn mode_of(broadcast: bool) -> CrcMode
    ensures { result ≡ mode_of broadcast }
{
    if broadcast {
        CrcMode::Broadcast
    } else {
        CrcMode::Addressed
    }
}

// The checksum of information under a colour code, complemented for broadcast.
pub fn checksum(information: &[u8], dvcc: u8, broadcast: bool) -> Checksum
    ensures { result ≡ flat_checksum (answer_for_bits information.now (sent_checksum (bits information.now) dvcc (mode_of broadcast))) }
{
    Checksum::from(dcch::checksum(information, dvcc, mode_of(broadcast)))
}

pub fn encode(
    format: BlockFormat,
    information: &[u8],
    dvcc: u8,
    broadcast: bool,
    block: &mut [u8],
) -> Written
    ensures { FlatWrote (Encoding format information.now dvcc (mode_of broadcast) block.old block.new) result }
{
    let mode = mode_of(broadcast);
    Written::from(dcch::encode(format, information, dvcc, mode, block))
}

pub fn decode(
    format: BlockFormat,
    block: &[u8],
    dvcc: u8,
    broadcast: bool,
    information: &mut [u8],
) -> Block
    ensures { FlatDecoded (Decoding format block.now dvcc (mode_of broadcast) information.old information.new) result }
{
    let mode = mode_of(broadcast);
    Block::from(dcch::decode(format, block, dvcc, mode, information))
}

// (No one function with `decode`: see `dcch`.)
pub fn decode_soft(
    format: BlockFormat,
    block: &[f64],
    dvcc: u8,
    broadcast: bool,
    information: &mut [u8],
) -> Block
    ensures { FlatDecoded (SoftDecoding format block.now dvcc (mode_of broadcast) information.old information.new) result }
{
    let mode = mode_of(broadcast);
    Block::from(dcch::decode_soft(format, block, dvcc, mode, information))
}
