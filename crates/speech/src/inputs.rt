// The 89 inputs of a frame (IS-54-B 2.1.3.3.3): the class-one bits, their checksum, and five zeros.
// Ported from 136-bts, speech.rs, and changed (see NOTICE).
ghost use Rattle.std.specs.Prelude.{false, ◌≡◌, length};
ghost use Rattle.bits.specs.Bits.{bits};
ghost use Rattle.bits.specs.Places.{taken};
ghost use Rattle.checksums.specs.Checksums.{checksum7_of};
ghost use Rattle.speech.specs.Calls.{status_of};
ghost use Rattle.speech.specs.Inputs.{inputs_of, significant_places};

use crate::CrcStatus;
use bits::places::{gather, pack_at, unpack_at};
use checksums::checksum7_of_bits;

// 2.1.3.3.3.3, the highest coefficient first.
const SIGNIFICANT: [u8; 12] = [80, 4, 79, 5, 78, 6, 77, 7, 76, 8, 75, 9];

const PARITY: [u8; 7] = [0, 83, 1, 82, 2, 81, 3];

// The checksum of inputs, over twelve of them; `acelp_cc1` takes the first 48.
fn checksum(inputs: &[u8; 89]) -> u64
    ensures { result ≡ checksum7_of (taken false significant_places (bits inputs.now)) }
{
    let mut significant = [0u8; 12];
    gather(&SIGNIFICANT, inputs, &mut significant);
    u64::from(checksum7_of_bits(&significant))
}

// Whether the checksum that inputs hold is theirs.
pub fn crc_status(inputs: &[u8; 89]) -> CrcStatus
    ensures { result ≡ status_of (bits inputs.now) }
{
    if pack_at(&PARITY, inputs) == checksum(inputs) {
        CrcStatus::Valid
    } else {
        CrcStatus::Failed
    }
}

// The inputs of class-one bits.
pub fn inputs_of(class_one: &[u8]) -> [u8; 89]
    requires { length class_one.now ≡ 77 }
    ensures { bits result ≡ inputs_of (bits class_one.now) }
{
    let mut inputs = [0u8; 89];
    inputs[4..81].copy_from_slice(class_one);
    unpack_at(checksum(&inputs), &PARITY, &mut inputs);
    inputs
}
