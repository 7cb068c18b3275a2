// The checksum as DCCH sends it (IS-136.1-A 4.4.3 and 5.2.6). Ported from 136-bts, dcch.rs, and changed (see NOTICE). The contracts cite specs/.
ghost use Rattle.std.specs.Prelude.{true, ◌≡◌, ◌+◌, ◌≤◌, length};
ghost use Rattle.bits.specs.Bits.{all_binary, bits};
ghost use Rattle.checksums.specs.Checksums.{answer_for_bits};
ghost use Rattle.dcch.specs.Blocks.{Finished};
ghost use Rattle.dcch.specs.Crc.{sent_checksum};

use bits::Refusal;
use bits::arguments::binary;
use checksums::{carries, checksum_under};

// Whether the checksum is sent as it is or complemented (F-BCCH).
#[derive(Clone, Copy, Debug, PartialEq, Eq)]
pub enum CrcMode {
    Broadcast,
    Addressed,
}

// How a block is protected: the colour code of its checksum, and how that is sent. (Inside the crate alone: the calls of users take the two apart, as C does.)
#[derive(Clone, Copy, Debug, PartialEq, Eq)]
pub struct Crc {
    pub dvcc: u8,
    pub mode: CrcMode,
}

impl Crc {
    // The checksum of information, as it is sent.
    #[tactic(auto, unfolding(crate::specs::Crc::sent_checksum))]
    pub fn sent_checksum(self, information: &[u8]) -> u16
        ensures { result ≡ sent_checksum (bits information.now) self.dvcc self.mode }
    {
        let register = checksum_under(information, self.dvcc);
        match self.mode {
            CrcMode::Broadcast => !register,
            CrcMode::Addressed => register,
        }
    }

    // The information of a word's inputs, where the checksum after it is right.
    // That the inputs are bits is asked, since they are copied as they are; so is the length, as a format is known at run time only.
    pub fn finish_decode(
        self,
        inputs: &[u8],
        corrected: u16,
        information: &mut [u8],
    ) -> Result<u16, Refusal>
        requires { (all_binary inputs.now ≡ true) × (length inputs.now ≡ length information.old + 21) × (length information.old ≤ 109) }
        ensures { Finished (bits inputs.now) corrected self.dvcc self.mode information.old information.new result }
    {
        let n = information.len();
        let checksum = self.sent_checksum(&inputs[..n]);
        if !carries(n, inputs, checksum) {
            return Err(Refusal::Crc);
        }
        information.copy_from_slice(&inputs[..n]);
        Ok(corrected)
    }
}

// The checksum of information under a colour code, as it is sent; Symbol where a byte is no bit.
pub fn checksum(information: &[u8], dvcc: u8, mode: CrcMode) -> Result<u16, Refusal>
    ensures { result ≡ answer_for_bits information.now (sent_checksum (bits information.now) dvcc mode) }
{
    binary(information)?;
    Ok(Crc { dvcc, mode }.sent_checksum(information))
}
