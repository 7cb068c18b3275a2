// Numbers in the words of a line.
ghost use Rattle.std.specs.Prelude.{ℕ, ◌≡◌, ◌<◌, ◌≤◌, ◌*◌, ◌+◌, ◌^◌, ◌%◌, MatchResult};
ghost use Rattle.calls.specs.Numerals.{IsNumeral, Reads, numeral_of};
ghost use Rattle.calls.specs.declared.errors.LineError.TheVariants.{NoCall};

use crate::errors::LineError;
use text::digit;

// Digits in a base. Those that come when the number has come to a bound are dropped.
#[tactic(auto, using(crate::proofs::Words::digits_more, crate::proofs::Words::dropped, crate::proofs::Words::taken))]
fn numeral(word: &str, base: u64, bound: u64) -> Result<u64, LineError>
    requires room { (n : ℕ) → n < bound → n * base + 16 ≤ 2 ^ 64 }
    ensures { Reads base bound word.now result }
{
    if word.is_empty() {
        return Err(LineError::NoCall);
    }
    let mut number = 0u64;
    for byte in word.as_bytes() {
        let digit = digit(*byte).ok_or(LineError::NoCall)?;
        if number < bound {
            number = number * base + u64::from(digit);
        }
    }
    Ok(number)
}

// Hexadecimal digits. There is no room for a seventeenth that counts.
pub fn number(word: &str) -> Result<u64, LineError>
    ensures { Reads 16 (2 ^ 60) word.now result }
{
    numeral(word, 16, 1 << 60)
}

// Hexadecimal digits of a byte.
pub fn byte(word: &str) -> Result<u8, LineError>
    ensures { MatchResult result (λ b. IsNumeral word.now × (b ≡ numeral_of 16 (2 ^ 60) word.now % 256)) (λ error. (¬ (IsNumeral word.now)) × (error ≡ NoCall)) }
{
    Ok(low_byte(number(word)?))
}

// Digits in base ten, where a to f stand for 10 to 15.
pub fn length(word: &str) -> Result<usize, LineError>
    ensures { Reads 10 100000 word.now result }
{
    Ok(usize::try_from(numeral(word, 10, 100_000)?)?)
}

// A number as a byte. (`as`: what is above goes round, where `u8::try_from` would refuse it.)
pub fn low_byte(number: u64) -> u8
    ensures { result ≡ number % 256 }
{
    (number % 256) as u8
}

// A number as a row or a field. (`as`: as above. Two functions: std has no trait for the low part of a number.)
pub fn low_u16(number: u64) -> u16
    ensures { result ≡ number % 65536 }
{
    (number % 65536) as u16
}
