// DCCH blocks.
ghost use Rattle.dcch.specs.Blocks.{Decoding, Encoding};
ghost use Rattle.dcch.specs.SoftBlocks.{SoftDecoding};
ghost use Rattle.dcch_interleaver.specs.declared.BlockFormat.TheVariants.{Forward, ReverseAbbreviated, ReverseNormal};
ghost use Rattle.flat_coding.specs.Calls.{FlatWrote};
ghost use Rattle.flat_dcch.specs.Blocks.{FlatDecoded, mode_of};

use dcch_interleaver::BlockFormat;
use flat_coding::calls::Written;
use flat_dcch::Block;

// Codes 109 bits of information into the 260 of a forward block. Refused: 1 for information, then block; 2.
#[unsafe(no_mangle)]
pub extern "C" fn bts136_dcch_encode_forward(
    information: &[u8],
    dvcc: u8,
    broadcast: bool,
    block: &mut [u8],
) -> Written
    ensures { FlatWrote (Encoding Forward information.now dvcc (mode_of broadcast) block.old block.new) result }
{
    flat_dcch::encode(BlockFormat::Forward, information, dvcc, broadcast, block)
}

// Codes 101 bits of information into the 244 of a normal reverse block. Refused as above.
#[unsafe(no_mangle)]
pub extern "C" fn bts136_dcch_encode_reverse_normal(
    information: &[u8],
    dvcc: u8,
    broadcast: bool,
    block: &mut [u8],
) -> Written
    ensures { FlatWrote (Encoding ReverseNormal information.now dvcc (mode_of broadcast) block.old block.new) result }
{
    flat_dcch::encode(
        BlockFormat::ReverseNormal,
        information,
        dvcc,
        broadcast,
        block,
    )
}

// Codes 79 bits of information into the 200 of an abbreviated reverse block. Refused as above.
#[unsafe(no_mangle)]
pub extern "C" fn bts136_dcch_encode_reverse_abbreviated(
    information: &[u8],
    dvcc: u8,
    broadcast: bool,
    block: &mut [u8],
) -> Written
    ensures { FlatWrote (Encoding ReverseAbbreviated information.now dvcc (mode_of broadcast) block.old block.new) result }
{
    flat_dcch::encode(
        BlockFormat::ReverseAbbreviated,
        information,
        dvcc,
        broadcast,
        block,
    )
}

// Decodes the 260 bits of a forward block to the nearest word and writes its 109 bits of information. corrected is the number of bits in which block and
// word disagree. Of words equally near, it is the one with a zero at the last place where they differ. Refused: 1 for block, then information; 2; 3.
#[unsafe(no_mangle)]
pub extern "C" fn bts136_dcch_decode_forward(
    block: &[u8],
    dvcc: u8,
    broadcast: bool,
    information: &mut [u8],
) -> Block
    ensures { FlatDecoded (Decoding Forward block.now dvcc (mode_of broadcast) information.old information.new) result }
{
    flat_dcch::decode(BlockFormat::Forward, block, dvcc, broadcast, information)
}

// The same of the 244 bits of a normal reverse block, with 101 of information.
#[unsafe(no_mangle)]
pub extern "C" fn bts136_dcch_decode_reverse_normal(
    block: &[u8],
    dvcc: u8,
    broadcast: bool,
    information: &mut [u8],
) -> Block
    ensures { FlatDecoded (Decoding ReverseNormal block.now dvcc (mode_of broadcast) information.old information.new) result }
{
    flat_dcch::decode(
        BlockFormat::ReverseNormal,
        block,
        dvcc,
        broadcast,
        information,
    )
}

// The same of the 200 bits of an abbreviated reverse block, with 79 of information.
#[unsafe(no_mangle)]
pub extern "C" fn bts136_dcch_decode_reverse_abbreviated(
    block: &[u8],
    dvcc: u8,
    broadcast: bool,
    information: &mut [u8],
) -> Block
    ensures { FlatDecoded (Decoding ReverseAbbreviated block.now dvcc (mode_of broadcast) information.old information.new) result }
{
    flat_dcch::decode(
        BlockFormat::ReverseAbbreviated,
        block,
        dvcc,
        broadcast,
        information,
    )
}

// Decodes the 260 reliabilities of a forward block and writes 109 bits of information. A positive reliability favours zero, a negative one favours one,
// and a bit that disagrees costs its size. Costs are summed in doubles, in the original's order; where they are whole numbers of size at most 2^40,
// nothing rounds and the word is one of least cost, ties as above. In corrected a reliability of zero counts as a received zero. Refused: 1 for block,
// then information; 3, at once where a reliability is not finite.
#[unsafe(no_mangle)]
pub extern "C" fn bts136_dcch_decode_soft_forward(
    block: &[f64],
    dvcc: u8,
    broadcast: bool,
    information: &mut [u8],
) -> Block
    ensures { FlatDecoded (SoftDecoding Forward block.now dvcc (mode_of broadcast) information.old information.new) result }
{
    flat_dcch::decode_soft(BlockFormat::Forward, block, dvcc, broadcast, information)
}

// The same of the 244 reliabilities of a normal reverse block, with 101 bits of information.
#[unsafe(no_mangle)]
pub extern "C" fn bts136_dcch_decode_soft_reverse_normal(
    block: &[f64],
    dvcc: u8,
    broadcast: bool,
    information: &mut [u8],
) -> Block
    ensures { FlatDecoded (SoftDecoding ReverseNormal block.now dvcc (mode_of broadcast) information.old information.new) result }
{
    flat_dcch::decode_soft(
        BlockFormat::ReverseNormal,
        block,
        dvcc,
        broadcast,
        information,
    )
}

// The same of the 200 reliabilities of an abbreviated reverse block, with 79 bits of information.
#[unsafe(no_mangle)]
pub extern "C" fn bts136_dcch_decode_soft_reverse_abbreviated(
    block: &[f64],
    dvcc: u8,
    broadcast: bool,
    information: &mut [u8],
) -> Block
    ensures { FlatDecoded (SoftDecoding ReverseAbbreviated block.now dvcc (mode_of broadcast) information.old information.new) result }
{
    flat_dcch::decode_soft(
        BlockFormat::ReverseAbbreviated,
        block,
        dvcc,
        broadcast,
        information,
    )
}
