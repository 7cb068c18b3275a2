// The formats of a DCCH block and the interleaver (IS-136.1-A 4.4.3). Ported from 136-bts, dcch.rs (see NOTICE). The contracts cite specs/.
#![tactic(auto)]

mod wire;

ghost use Rattle.std.specs.Prelude.{◌≡◌};
ghost use Rattle.dcch_interleaver.specs.Formats.{encoded_bits, information_bits, rows_of};

pub use wire::{deinterleave, interleave};

#[derive(Clone, Copy, Debug, PartialEq, Eq)]
pub enum BlockFormat {
    Forward,
    ReverseNormal,
    ReverseAbbreviated,
}

impl BlockFormat {
    pub fn encoded_bits(self) -> usize
        ensures { result ≡ encoded_bits self }
    {
        match self {
            BlockFormat::Forward => 260,
            BlockFormat::ReverseNormal => 244,
            BlockFormat::ReverseAbbreviated => 200,
        }
    }

    pub fn information_bits(self) -> usize
        ensures { result ≡ information_bits self }
    {
        match self {
            BlockFormat::Forward => 109,
            BlockFormat::ReverseNormal => 101,
            BlockFormat::ReverseAbbreviated => 79,
        }
    }

    fn rows(self) -> usize
        ensures { result ≡ rows_of self }
    {
        match self {
            BlockFormat::Forward => 13,
            BlockFormat::ReverseNormal => 12,
            BlockFormat::ReverseAbbreviated => 12,
        }
    }
}
