// The words of FACCH and SACCH (IS-54-B 2.7.3.1.1 and 2.7.3.1.2). The contracts cite specs/.
// Ported from 136-bts, facch.rs and sacch.rs, and changed (see NOTICE).
#![tactic(auto)]

ghost use Rattle.std.specs.Prelude.{true, ◌≡◌, ◌+◌, ◌≤◌, length, take};
ghost use Rattle.bits.specs.Bits.{all_binary, bits, bytes};
ghost use Rattle.words.specs.Words.{made_of, message_in, word_valid};

use bits::{pack, unpack};
use checksums::{carries, checksum_under};

// Messages have 48 bits.
pub const MESSAGES: u64 = 0x1000000000000;

// Writes the message and the checksum after a header of so many bits. (The header's bytes are bits, since it is sent as it is. C passes message and
// colour code apart.)
pub fn complete(header: usize, message: u64, dvcc: u8, word: &mut [u8])
    requires { (length word.old ≡ header + 64) × (all_binary (take header word.old) ≡ true) }
    ensures { word.new ≡ bytes (made_of (bits (take header word.old)) message dvcc) }
{
    let end = header + 48;
    unpack(message, &mut word[header..end]);
    let checksum = checksum_under(&word[..end], dvcc);
    unpack(u64::from(checksum), &mut word[end..end + 16]);
}

// The message after a header of so many bits.
pub fn message(header: usize, word: &[u8]) -> u64
    requires { header + 48 ≤ length word.now }
    ensures { result ≡ message_in header (bits word.now) }
{
    pack(&word[header..header + 48])
}

// Whether the checksum in a word with a header of so many bits is right.
pub fn valid(header: usize, word: &[u8], dvcc: u8) -> bool
    requires { header + 64 ≤ length word.now }
    ensures { result ≡ word_valid header (bits word.now) dvcc }
{
    let end = header + 48;
    let wanted = checksum_under(&word[..end], dvcc);
    carries(end, word, wanted)
}
