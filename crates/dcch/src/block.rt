// DCCH blocks: encoding, and decoding of received bits (IS-136.1-A 4.4.3 and 5.2.6). Ported from 136-bts, dcch.rs, and changed (see NOTICE). The contracts cite specs/.
// A format is known at run time only, so the buffers have the longest block's size and are lent in part: there is no heap.
ghost use Rattle.std.specs.Prelude.{◌≡◌, ◌+◌, ◌*◌, ◌/◌, ◌≤◌, length};
ghost use Rattle.bits.specs.Bits.{bits, bytes};
ghost use Rattle.dcch_interleaver.specs.Formats.{encoded_bits};
ghost use Rattle.dcch.specs.Blocks.{Decoding, Encoding, FoundWord, cells_of};

use crate::crc::{Crc, CrcMode};
use bits::arguments::bits_and_room;
use bits::{Refusal, unpack};
use coding::Code;
use coding::codes::Dcch;
use dcch_interleaver::{BlockFormat, deinterleave, interleave};

// Writes the coded bits of a block, before they are interleaved: of the information, its checksum, and the tail of zeros.
fn encode_cells(information: &[u8], crc: Crc, cells: &mut [u8])
    requires { (length information.now ≤ 109) × (length cells.old ≡ (length information.now + 21) * 2) }
    ensures { cells.new ≡ bytes (cells_of (bits information.now) crc.dvcc crc.mode) }
{
    let n = information.len();
    let mut inputs = [0u8; 130];
    inputs[..n].copy_from_slice(information);
    let checksum = crc.sent_checksum(information);
    unpack(u64::from(checksum), &mut inputs[n..n + 16]);
    Dcch::convolutional_encode(0, &inputs[..n + 21], cells);
}

// Writes the block that is sent for the information.
pub fn encode(
    format: BlockFormat,
    information: &[u8],
    dvcc: u8,
    mode: CrcMode,
    block: &mut [u8],
) -> Result<(), Refusal>
    ensures { Encoding format information.now dvcc mode block.old block.new result }
{
    let bits = format.encoded_bits();
    bits_and_room(format.information_bits(), information, bits, block.len())?;
    let mut cells = [0u8; 260];
    encode_cells(information, Crc { dvcc, mode }, &mut cells[..bits]);
    interleave(format, &cells[..bits], block);
    Ok(())
}

// Writes the first of the words nearest to a block, and gives its number of disagreements.
fn nearest_word(format: BlockFormat, block: &[u8], word: &mut [u8]) -> u16
    requires { (length block.now ≡ encoded_bits format) × (length word.old ≡ encoded_bits format / 2) }
    ensures { FoundWord format block.now word.new result }
{
    let bits = format.encoded_bits();
    let mut cells = [0u8; 260];
    deinterleave(format, block, &mut cells[..bits]);
    viterbi::terminated(&cells[..bits], word).metric
}

// Writes the information of the word nearest to a block, where its checksum is right, and gives its number of corrected bits.
pub fn decode(
    format: BlockFormat,
    block: &[u8],
    dvcc: u8,
    mode: CrcMode,
    information: &mut [u8],
) -> Result<u16, Refusal>
    ensures { Decoding format block.now dvcc mode information.old information.new result }
{
    let bits = format.encoded_bits();
    bits_and_room(bits, block, format.information_bits(), information.len())?;
    let mut word = [0u8; 130];
    let corrected = nearest_word(format, block, &mut word[..bits / 2]);
    Crc { dvcc, mode }.finish_decode(&word[..bits / 2], corrected, information)
}
