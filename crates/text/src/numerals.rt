// Bytes, texts and numbers as text, written into a lent buffer. Each function answers the place after what it wrote. (Not by `write!`: it answers an error,
// which a buffer with room for the text never has.)
ghost use Rattle.std.specs.Prelude.{◌≡◌, [], ◌∷◌, ◌+◌, ◌≤◌, ◌<◌, length};
ghost use Rattle.text.specs.Numerals.{decimal as decimal_text, digits, glyph as digit_code, hexadecimal, places_in};
ghost use Rattle.text.specs.Writing.{Put};

// A digit's character. (`as`: d is below 16, and `u8::try_from` would answer an error that never comes.)
#[tactic(auto, unfolding(crate::specs::Numerals::glyph))]
fn glyph(d: u64) -> u8
    requires { d < 16 }
    ensures { result ≡ digit_code d }
{
    if d < 10 {
        b'0' + d as u8
    } else {
        b'a' - 10 + d as u8
    }
}

// How many decimal digits n has. (`as`: std has no `From<u32>` for usize.)
#[tactic(auto, using(crate::proofs::Digits::places_zero, crate::proofs::Digits::places_by_power))]
fn decimal_places(n: u64) -> usize
    ensures { (result ≡ places_in 20 n) × (result ≤ 20) }
{
    match n.checked_ilog10() {
        Some(k) => k as usize + 1,
        None => 1,
    }
}

pub fn put(out: &mut [u8], at: usize, b: u8) -> usize
    requires { at < length out.old }
    ensures { Put out.old at (b ∷ []) out.new result }
{
    out[at] = b;
    at + 1
}

// A text as it stands.
pub fn put_text(out: &mut [u8], at: usize, text: &[u8]) -> usize
    requires { at + length text.now ≤ length out.old }
    ensures put { Put out.old at text.now out.new result }
    ensures value { result ≡ at + length text.now }
{
    let end = at + text.len();
    out[at..end].copy_from_slice(text);
    end
}

// A letter and LF, or a letter and a space.
pub fn put_two(out: &mut [u8], at: usize, letter: u8, end: u8) -> usize
    requires { at + 2 ≤ length out.old }
    ensures put { Put out.old at (letter ∷ end ∷ []) out.new result }
    ensures value { result ≡ at + 2 }
{
    put_text(out, at, &[letter, end])
}

// The last k digits of n. The base is a constant, so that no digit costs a division. (By index: after `iter_mut().rev()` nothing is known of what was
// written.)
fn put_digits<const BASE: u64>(out: &mut [u8], at: usize, k: usize, n: u64) -> usize
    requires base { (0 < BASE) × (BASE ≤ 16) }
    requires room { at + k ≤ length out.old }
    ensures put { Put out.old at (digits BASE k n) out.new result }
    ensures value { result ≡ at + k }
{
    let mut rest = n;
    for i in (0..k).rev() {
        out[at + i] = glyph(rest % BASE);
        rest /= BASE;
    }
    at + k
}

// A space and k hexadecimal digits.
pub fn put_hexadecimal(out: &mut [u8], at: usize, k: usize, n: u64) -> usize
    requires { at + k + 1 ≤ length out.old }
    ensures put { Put out.old at (hexadecimal k n) out.new result }
    ensures value { result ≡ at + k + 1 }
{
    let next = put(out, at, b' ');
    put_digits::<16>(out, next, k, n)
}

// n in decimal.
pub fn put_decimal(out: &mut [u8], at: usize, n: u64) -> usize
    requires { at + 20 ≤ length out.old }
    ensures put { Put out.old at (decimal_text n) out.new result }
    ensures upper_bound { result ≤ at + 20 }
{
    let k = decimal_places(n);
    put_digits::<10>(out, at, k, n)
}
