// The slices that a call is lent to write.
ghost use Rattle.std.specs.Prelude.{◌≡◌, ◌↔◌, IsTrue, min, replicate};
ghost use Rattle.calls.specs.Bytes.{held};
ghost use Rattle.calls.specs.Rooms.{IsUntouched};

use crate::bytes::{Bytes, LONGEST};
use std::fmt;

// What a room holds before a call: no bit, so that a byte that was not written is seen.
pub const UNTOUCHED: u8 = 9;

#[derive(Clone, Copy, Debug, PartialEq, Eq)]
pub struct Room {
    pub bytes: Bytes,
}

impl Room {
    // A room of so many bytes, of at most 800.
    pub fn new(length: usize) -> Room
        ensures { held result.bytes ≡ replicate (min length 800) 9 }
    {
        let bytes = Bytes::repeated(UNTOUCHED, length);
        Room { bytes }
    }

    // Its bytes, for a call to write.
    pub fn lend(&mut self) -> &mut [u8]
        ensures { result.now ≡ held self.old.bytes }
    {
        let length = self.bytes.len();
        &mut self.bytes.list[..length]
    }

    pub fn is_untouched(&self) -> bool
        ensures { IsTrue result ↔ IsUntouched self.now }
    {
        self.bytes.as_slice().iter().all(|byte| *byte == UNTOUCHED)
    }
}

// What became of a byte: its digit.
fn character(byte: u8) -> u8 {
    if byte < 10 { b'0' + byte } else { b'?' }
}

// What became of a room: a digit for each byte. (They are written at once, and are text: `from_utf8` has an error that never comes.)
impl fmt::Display for Room {
    fn fmt<W: fmt::Write>(&self, f: &mut fmt::Formatter<W>) -> fmt::Result {
        if self.is_untouched() {
            return write!(f, "untouched");
        }
        let bytes = self.bytes.as_slice();
        let mut digits = [0; LONGEST];
        for (digit, byte) in digits.iter_mut().zip(bytes) {
            *digit = character(*byte);
        }
        let text = str::from_utf8(&digits[..bytes.len().min(LONGEST)]).map_err(|_| fmt::Error)?;
        f.write_str(text)
    }
}
