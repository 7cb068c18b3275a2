// The 16-bit checksum of DCCH, FACCH and SACCH, and the 7-bit one of the speech frames.
// Ported from 136-bts, dcch.rs and acelp_cc1.rs, and changed (see NOTICE).
#![tactic(auto)]

ghost use Rattle.std.specs.Prelude.{◌≡◌, true, ◌+◌, ◌^◌, ◌<◌, ◌≤◌, length};
ghost use Rattle.bits.specs.Bits.{all_binary, bit, bits};
ghost use Rattle.bits.specs.Numbers.{packed, unpacked};
ghost use Rattle.checksums.specs.Checksums.{answer_for_bits, checksum7_of, checksum_from, checksum_of, carries};
ghost use Rattle.checksums.specs.Feedback.{register_after, stepped};

use bits::arguments::binary;
use bits::{Refusal, pack};

// x^16 + x^12 + x^5 + 1, the coefficients below the highest.
const CCITT: u16 = 0x1021;

// x^7 + x^5 + x^4 + x^2 + x + 1, the coefficients below the highest.
const SPEECH: u16 = 0x37;

// One bit into a register of N bits. The feedback is the bit that falls out against the one that comes in.
fn shifted_in<const N: u32>(register: u16, input: u8, polynomial: u16) -> u16
    requires { (0 < N) × (N ≤ 16) × (register < 2 ^ N) × (polynomial < 2 ^ N) }
    ensures { result ≡ packed (stepped (unpacked N polynomial) (unpacked N register) (bit input)) }
{
    let top = 1u16 << (N - 1);
    let shifted = register % top * 2;
    if register / top == u16::from(input % 2) {
        shifted
    } else {
        shifted ^ polynomial
    }
}

// Bits into a register of N bits, one after the other: the remainder of a division that the register's value starts.
fn run<const N: u32>(register: u16, s: &[u8], polynomial: u16) -> u16
    requires { (0 < N) × (N ≤ 16) × (register < 2 ^ N) × (polynomial < 2 ^ N) }
    ensures { result ≡ register_after N polynomial register (bits s.now) }
{
    let mut x = register;
    for b in s {
        x = shifted_in::<N>(x, *b, polynomial);
    }
    x
}

// Four bits into a register of the 16-bit checksum. The register's highest four against them are the next four of the quotient, and the
// polynomial's terms are five places or more apart, so that no sum in its product with them carries.
fn four_in(register: u16, four: u16) -> u16
    requires { four < 16 }
    ensures { result ≡ register_after 16 4129 register (unpacked 4 four) }
{
    let quotient = (register / 4096) ^ four;
    (register % 4096 * 16) ^ (quotient * CCITT)
}

// The register of the 16-bit checksum after some bits, from a given one: by fours, and those that are left one after the other.
pub fn checksum_from_bits(register: u16, information: &[u8]) -> u16
    ensures { result ≡ checksum_from register (bits information.now) }
{
    let (fours, rest) = information.as_chunks::<4>();
    let mut last = register;
    for four in fours {
        // `as`: below 16, where `u16::try_from` would have an error that never comes.
        last = four_in(last, pack(four) as u16);
    }
    run::<16>(last, rest, CCITT)
}

// The same of bytes of any content; Symbol where one is no bit. (Two lines, as in `checksum7` and in `dcch`: one function over closures would
// be longer.)
pub fn checksum_from(register: u16, information: &[u8]) -> Result<u16, Refusal>
    ensures { result ≡ answer_for_bits information.now (checksum_from register (bits information.now)) }
{
    binary(information)?;
    Ok(checksum_from_bits(register, information))
}

// The checksum of information under a colour code, whose eight bits go first.
pub fn checksum_under(information: &[u8], dvcc: u8) -> u16
    ensures { result ≡ checksum_of (bits information.now) dvcc }
{
    let colour = u16::from(dvcc);
    let half = four_in(0, colour / 16);
    let start = four_in(half, colour % 16);
    checksum_from_bits(start, information)
}

// Whether the 16 bits after so many bits of a word are this checksum.
pub fn carries(n: usize, word: &[u8], checksum: u16) -> bool
    requires { n + 16 ≤ length word.now }
    ensures { result ≡ carries n (bits word.now) checksum }
{
    pack(&word[n..n + 16]) == u64::from(checksum)
}

// The checksum of a speech frame's information.
pub fn checksum7_of_bits(information: &[u8]) -> u16
    ensures { result ≡ checksum7_of (bits information.now) }
{
    run::<7>(0, information, SPEECH)
}

// The same of bytes of any content; Symbol where one is no bit.
pub fn checksum7(information: &[u8]) -> Result<u16, Refusal>
    ensures { result ≡ answer_for_bits information.now (checksum7_of (bits information.now)) }
{
    binary(information)?;
    Ok(checksum7_of_bits(information))
}
