// Slices as patterns with commas between: `0110` is four bytes, `260x01` is 260 bytes with 0 and 1 in turn, `#ff` is the byte 255. Two patterns have another byte
// in each turn of a line: `*` is the byte 0 in the first, 1 in the next, up to 255; `260x0@3` is 260 zeros with a 3 at the place of the turn.
ghost use Rattle.std.specs.Prelude.{◌≡◌, IfErr};
ghost use Rattle.calls.specs.declared.errors.LineError.TheVariants.{NoCall};

use crate::bytes::Bytes;
use crate::errors::LineError;
use crate::numerals::{byte, length};

#[derive(Clone, Copy, Debug, PartialEq, Eq)]
pub struct Slice {
    // Those behind the longest slice are dropped.
    pub bytes: Bytes,
    // In how many turns one of its patterns has another byte.
    pub turns: Option<usize>,
}

// `digits`, or a count, an x and digits, which go round.
#[derive(Clone, Copy, Debug, PartialEq, Eq)]
struct Run<'a> {
    digits: &'a str,
    // How many bytes it has, written or not.
    count: usize,
}

// A hexadecimal digit as a byte.
fn digit(character: u8) -> Result<u8, LineError>
    ensures { IfErr result (λ error. error ≡ NoCall) }
{
    text::digit(character).ok_or(LineError::NoCall)
}

impl<'a> Run<'a> {
    // Each digit is read, also where none is written.
    fn read(run: &'a str) -> Result<Run<'a>, LineError>
        ensures { IfErr result (λ error. error ≡ NoCall) }
    {
        let (count, digits) = match run.split_once('x') {
            Some((count, digits)) => (length(count)?, digits),
            None => (run.len(), run),
        };
        if digits.is_empty() || digits.bytes().any(|character| digit(character).is_err()) {
            return Err(LineError::NoCall);
        }
        Ok(Run { digits, count })
    }
}

impl Slice {
    // The bytes of a slice. Without a pattern it is empty.
    pub fn expand(patterns: &str, turn: usize) -> Result<Slice, LineError>
        ensures { IfErr result (λ error. error ≡ NoCall) }
    {
        let mut slice = Slice {
            bytes: Bytes::repeated(0, 0),
            turns: None,
        };
        for pattern in patterns.split_terminator(',') {
            slice.push(pattern, turn)?;
        }
        Ok(slice)
    }

    fn push(&mut self, pattern: &str, turn: usize) -> Result<(), LineError>
        ensures { IfErr result (λ error. error ≡ NoCall) }
    {
        if pattern.starts_with('*') {
            // `as`: below 256, where `u8::try_from` would have an error that never comes.
            self.bytes.push((turn % 256) as u8);
            self.turns = Some(256);
        } else if let Some(digits) = pattern.strip_prefix('#') {
            self.bytes.push(byte(digits)?);
        } else if let Some((run, digits)) = pattern.split_once('@') {
            let run = Run::read(run)?;
            let byte = byte(digits)?;
            let start = self.bytes.len();
            self.push_run(run)?;
            if turn < run.count {
                self.bytes.set(start.saturating_add(turn), byte);
            }
            // A run of none has no turns.
            self.turns = Some(run.count).filter(|turns| *turns != 0);
        } else {
            self.push_run(Run::read(pattern)?)?;
        }
        Ok(())
    }

    // The digits once, and then what they wrote.
    fn push_run(&mut self, run: Run<'_>) -> Result<(), LineError>
        ensures { IfErr result (λ error. error ≡ NoCall) }
    {
        let start = self.bytes.len();
        for character in run.digits.bytes().take(run.count) {
            self.bytes.push(digit(character)?);
        }
        self.bytes.go_round(start, run.count);
        Ok(())
    }
}
