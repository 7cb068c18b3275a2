// Characters of a line: digits, shapes, and where a line ends.
#![tactic(auto)]

pub mod buffer;
pub mod kind;
pub mod numerals;

ghost use Rattle.std.specs.Prelude.{◌≡◌, ◌+◌, ◌*◌, ◌≤◌, ◌<◌, length, IfSome, MatchOption};
ghost use Rattle.std.specs.Option.{unwrap_or};
ghost use Rattle.text.specs.Lines.{LineEnd, digit_of, shaped, stands};

// The value of a lower-case hexadecimal digit.
#[tactic(auto, unfolding(crate::specs::Lines::digit_of))]
pub fn digit(b: u8) -> Option<u8>
    ensures { MatchOption result (digit_of b ≡ 16) (λ d. (d ≡ digit_of b) × (d < 16)) }
{
    match b {
        b'0'..=b'9' => Some(b - b'0'),
        b'a'..=b'f' => Some(b - b'a' + 10),
        _ => None,
    }
}

// Whether b may stand where a shape has p: `#` stands for any digit, and every other byte for itself.
#[tactic(auto, unfolding(crate::specs::Lines::stands))]
fn stands_at(p: u8, b: u8) -> bool
    ensures { result ≡ stands p b }
{
    if p == b'#' {
        digit(b).is_some()
    } else {
        b == p
    }
}

// Whether a text has the shape: as long, and fit at each place.
pub fn has_shape(shape: &[u8], text: &[u8]) -> bool
    ensures { result ≡ shaped shape.now text.now }
{
    shape.len() == text.len() && shape.iter().zip(text).all(|(p, b)| stands_at(*p, *b))
}

// The value of a digit, 16 of any other byte: `two` and `three` promise a number of any bytes.
fn value(b: u8) -> usize
    ensures { (result ≡ digit_of b) × (result ≤ 16) }
{
    digit(b).map_or(16, usize::from)
}

// The number of two digits.
pub fn two(high: u8, low: u8) -> usize
    ensures { (result ≡ digit_of high * 16 + digit_of low) × (result ≤ 272) }
{
    value(high) * 16 + value(low)
}

// The number of three digits.
pub fn three(high: u8, middle: u8, low: u8) -> usize
    ensures { (result ≡ (digit_of high * 16 + digit_of middle) * 16 + digit_of low) × (result ≤ 4368) }
{
    two(high, middle) * 16 + value(low)
}

// Where the line that starts at `from` ends: at its LF, or nowhere in this text.
pub fn line_end(text: &[u8], from: usize) -> Option<usize>
    requires { from ≤ length text.now }
    ensures end { LineEnd text.now from (unwrap_or result (length text.now)) }
    ensures within { IfSome result (λ end. end < length text.now) }
{
    let end = text[from..].iter().position(|b| *b == b'\n')?;
    Some(from + end)
}
