// The bits of an `F` line. The contracts cite specs/.
ghost use Rattle.std.specs.Prelude.{cond, ◌≡◌, length};
ghost use Rattle.bits.specs.Bits.{bit, byte};
ghost use Rattle.lines.specs.Masked.{observed_bits};

use bits::observed::UNOBSERVED;
use text::digit;

// The lowest bit of b where that of the mask is set, else 2.
fn observed(b: u8, mask: u8) -> u8
    ensures { result ≡ cond (bit mask) (byte (bit b)) 2 }
{
    if mask % 2 == 1 { b % 2 } else { UNOBSERVED }
}

// The 260 bits of an `F` line: 2 where one is not observed. Of a character that is no digit the four bits are zeros.
// Each of the four is stored at its place, so that the loop is vectorised. (By index: std says nothing of what is written through
// `chunks_exact_mut` or `as_chunks_mut`, which are as fast.)
pub fn observed_bits(line: &[u8]) -> [u8; 260]
    requires { length line.now ≡ 136 }
    ensures { result ≡ observed_bits line.now }
{
    let mut bits = [0; 260];
    for i in 0..65 {
        let d = digit(line[5 + i]).unwrap_or(0);
        let mask = digit(line[71 + i]).unwrap_or(0);
        bits[4 * i] = observed(d / 8, mask / 8);
        bits[4 * i + 1] = observed(d / 4, mask / 4);
        bits[4 * i + 2] = observed(d / 2, mask / 2);
        bits[4 * i + 3] = observed(d, mask);
    }
    bits
}
