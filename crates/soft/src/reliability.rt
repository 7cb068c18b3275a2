// Tests on reliabilities.
// Ported from 136-bts, dcch.rs, and changed (see NOTICE).
ghost use Rattle.std.specs.Prelude.{◌≡◌, ◌≤◌, ◌<◌, length};
ghost use Rattle.bits.specs.Bits.{bit, bits, disagreement};
ghost use Rattle.soft.specs.Reliability.{all_finite, negative, sign_count};

// Whether no value is a NaN or an infinity. (No `all`: the loop has no way out before its end, so that it is vectorised.)
pub fn all_finite(values: &[f64]) -> bool
    ensures { result ≡ all_finite values.now }
{
    let mut finite = true;
    for x in values {
        finite &= x.is_finite();
    }
    finite
}

// 1 where a coded bit differs from the sign of its reliability. A zero of either sign reads as a zero.
fn differs_from_sign(sent: u8, value: f64) -> u16
    ensures { (result ≡ disagreement (bit sent) (negative value)) × (result ≤ 1) }
{
    u16::from((sent % 2 == 1) != (value < 0.0))
}

// How many coded bits differ from the signs of their reliabilities.
pub fn sign_count(coded: &[u8], values: &[f64]) -> u16
    requires { (length coded.now < 65536) × (length coded.now ≡ length values.now) }
    ensures { result ≡ sign_count (bits coded.now) values.now }
{
    let mut n = 0;
    for (sent, value) in coded.iter().zip(values) {
        n += differs_from_sign(*sent, *value);
    }
    n
}
