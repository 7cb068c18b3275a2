// Decoding of a block of reliabilities: positive for a zero, negative for a one, the size for how sure.
// Ported from 136-bts, dcch.rs, and changed (see NOTICE).
ghost use Rattle.std.specs.Prelude.{true, ◌≡◌, ◌+◌, ◌*◌, ◌≤◌, length};
ghost use Rattle.bits.specs.Bits.{bits};
ghost use Rattle.soft.specs.Reliability.{all_finite};
ghost use Rattle.dcch.specs.SoftBlocks.{CellsSearched, SoftDecoding, signs_of};

use crate::crc::{Crc, CrcMode};
use bits::Refusal;
use bits::arguments::exact;
use coding::Code;
use coding::codes::Dcch;
use dcch_interleaver::{BlockFormat, deinterleave};
use soft::{all_finite, sign_count, viterbi_soft};

// In how many places the coded bits of a word differ from the signs of the reliabilities.
fn count_signs(word: &[u8], values: &[f64]) -> u16
    requires { (length word.now ≤ 130) × (length values.now ≡ length word.now * 2) }
    ensures { result ≡ signs_of (bits word.now) values.now }
{
    let mut coded = [0u8; 260];
    let n = values.len();
    Dcch::convolutional_encode(0, word, &mut coded[..n]);
    sign_count(&coded[..n], values)
}

// The search of the cells, and the end of the decoding.
fn search_cells(values: &[f64], crc: Crc, information: &mut [u8]) -> Result<u16, Refusal>
    requires { (length information.old ≤ 109) × (length values.now ≡ (length information.old + 21) * 2) × (all_finite values.now ≡ true) }
    ensures { CellsSearched signs_of values.now crc.dvcc crc.mode information.old information.new result }
{
    let mut word = [0u8; 130];
    let steps = information.len() + 21;
    viterbi_soft(values, &mut word[..steps]);
    let corrected = count_signs(&word[..steps], values);
    crc.finish_decode(&word[..steps], corrected, information)
}

// No one function with `decode`: with their tests and searches as parameters it is no plainer than the two.
// Writes the information of the word that the soft search finds, where its checksum is right, and gives its number of corrected bits.
pub fn decode_soft(
    format: BlockFormat,
    block: &[f64],
    dvcc: u8,
    mode: CrcMode,
    information: &mut [u8],
) -> Result<u16, Refusal>
    ensures { SoftDecoding format block.now dvcc mode information.old information.new result }
{
    let bits = format.encoded_bits();
    exact(bits, block.len())?;
    exact(format.information_bits(), information.len())?;
    if !all_finite(block) {
        return Err(Refusal::Crc);
    }
    let mut cells = [0.0f64; 260];
    deinterleave(format, block, &mut cells[..bits]);
    search_cells(&cells[..bits], Crc { dvcc, mode }, information)
}
