// The static library for Rust and C. Each function hands a call on to a flat function of a crate below, whose contract it repeats: a wrong program of one
// codec's flat functions then checks that codec's alone. C has no enum and no type parameter of ours, so each format, mode, half and code has calls of its own.
#![tactic(auto)]

mod blocks;
mod facch_words;
mod frames;
mod streams;

ghost use Rattle.std.specs.Prelude.{◌≡◌, length};
ghost use Rattle.bits.specs.Bits.{bits};
ghost use Rattle.checksums.specs.Checksums.{answer_for_bits, checksum7_of, checksum_from};
ghost use Rattle.coding.specs.Codes.{acelp, dcch, facch};
ghost use Rattle.coding.specs.Registers.{memory_high, memory_low};
ghost use Rattle.trellis.specs.Search.{Found, FoundFirst};
ghost use Rattle.trellis.specs.Words.{OfLength, Terminated};
ghost use Rattle.viterbi.specs.Hard.{free_weight, weight};
ghost use Rattle.dcch.specs.Crc.{sent_checksum};
ghost use Rattle.flat_coding.specs.Flat.{StepAnswer, flat_checksum};
ghost use Rattle.flat_coding.specs.FlatSearch.{SearchAnswer};
ghost use Rattle.flat_dcch.specs.Blocks.{mode_of};

use coding::codes::{Acelp, Dcch, Facch};
use flat_coding::bare_search::Search;
use flat_coding::{Checksum, Step};

// One step of the code of DCCH, SACCH and VSELP, with 2 coded bits. Refused: 8 for a state above 31, then 2 for an input above 1.
#[unsafe(no_mangle)]
pub extern "C" fn bts136_dcch_transition(state: u8, input: u8) -> Step
    ensures { StepAnswer dcch memory_high state input result }
{
    flat_coding::transition::<Dcch, 2>(state, input)
}

// One step of the code of FACCH, with 4 coded bits. Refused as above.
#[unsafe(no_mangle)]
pub extern "C" fn bts136_facch_transition(state: u8, input: u8) -> Step
    ensures { StepAnswer facch memory_high state input result }
{
    flat_coding::transition::<Facch, 4>(state, input)
}

// One step of the code of ACELP CC1, with 2 coded bits. Refused as above.
#[unsafe(no_mangle)]
pub extern "C" fn bts136_acelp_transition(state: u8, input: u8) -> Step
    ensures { StepAnswer acelp memory_low state input result }
{
    flat_coding::transition::<Acelp, 2>(state, input)
}

// The 16-bit checksum of any number of bits under a colour code. Refused: 2.
#[unsafe(no_mangle)]
pub extern "C" fn bts136_checksum(information: &[u8], dvcc: u8, broadcast: bool) -> Checksum
    ensures { result ≡ flat_checksum (answer_for_bits information.now (sent_checksum (bits information.now) dvcc (mode_of broadcast))) }
{
    flat_dcch::checksum(information, dvcc, broadcast)
}

// The register of that checksum after any number of bits, from a given one. From 0 over the eight bits of the colour code, the highest first, and from
// there over the information, it is the checksum, not complemented. Refused: 2.
#[unsafe(no_mangle)]
pub extern "C" fn bts136_checksum_from(register: u16, information: &[u8]) -> Checksum
    ensures { result ≡ flat_checksum (answer_for_bits information.now (checksum_from register (bits information.now))) }
{
    flat_coding::checksum_from(register, information)
}

// The 7-bit checksum of any number of a speech frame's bits. Refused: 2.
#[unsafe(no_mangle)]
pub extern "C" fn bts136_checksum7(information: &[u8]) -> Checksum
    ensures { result ≡ flat_checksum (answer_for_bits information.now (checksum7_of (bits information.now))) }
{
    flat_coding::checksum7(information)
}

// The nearest word from state 0 that ends in five zeros: the search of DCCH. coded has 10 to 260 bits, an even number; word gets half as many. Of words
// equally near, it is the one with a zero at the last place where they differ. Refused: 1 (expected is 260 where coded is wrong), 2.
#[unsafe(no_mangle)]
pub extern "C" fn bts136_viterbi(coded: &[u8], word: &mut [u8]) -> Search
    ensures { SearchAnswer (FoundFirst (Terminated (length word.old)) (weight (bits coded.now))) coded.now word.old word.new result }
{
    flat_coding::bare_search::terminated(coded, word)
}

// A nearest word over all 32 starting memories: the search of SACCH. Which of equally near ones is not said. Lengths and refusals as above.
#[unsafe(no_mangle)]
pub extern "C" fn bts136_viterbi_free(coded: &[u8], word: &mut [u8]) -> Search
    ensures { SearchAnswer (Found (OfLength (length word.old)) (free_weight (bits coded.now))) coded.now word.old word.new result }
{
    flat_coding::bare_search::free(coded, word)
}
