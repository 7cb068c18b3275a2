// The records of SACCH as numbers of a line. Encoder: memory, twelve rows, cursor. Deinterleaver: twelve fields, cursor, how many were received. Receiver: its
// deinterleaver, eleven rows, their cursor, how many are available, phase, and the locked phase or 100 (256) for none.
use calls::errors::LineError;
use calls::numerals::{low_byte, low_u16};
use sacch_encoder::SacchEncoder;
use sacch_interleaver::SacchDeinterleaver;
use sacch_receiver::SacchReceiver;
use std::fmt;

const UNLOCKED: u64 = 256;

// No record has more numbers: a receiver has so many.
const MOST: usize = 29;

// Numbers of a record, or fields that were sent, up to as many as a record has.
#[derive(Clone, Copy, Debug, PartialEq, Eq)]
pub struct Numbers {
    list: [u64; MOST],
    length: usize,
}

impl Numbers {
    pub fn new() -> Numbers {
        Numbers {
            list: [0; MOST],
            length: 0,
        }
    }

    fn as_slice(&self) -> &[u64] {
        &self.list[..self.length.min(MOST)]
    }

    pub fn push(&mut self, number: u64) {
        if self.length < MOST {
            self.list[self.length] = number;
            self.length += 1;
        }
    }

    pub fn push_list(&mut self, list: &[u16]) {
        for number in list {
            self.push(u64::from(*number));
        }
    }
}

// Each behind a space.
impl fmt::Display for Numbers {
    fn fmt<W: fmt::Write>(&self, f: &mut fmt::Formatter<W>) -> fmt::Result {
        for number in self.as_slice() {
            write!(f, " {number:x}")?;
        }
        Ok(())
    }
}

// (No `TryFrom` and `From`: none of the types is of this crate.)
pub trait Record {
    // The record of so many numbers.
    fn of(numbers: &[u64]) -> Result<Self, LineError>
    where
        Self: Sized;

    fn write_to(&self, numbers: &mut Numbers);
}

// A place in a record. (`as`: std has no `From<usize>` for u64.)
fn place(at: usize) -> u64 {
    at as u64
}

// Rows or fields.
fn list<const N: usize>(numbers: &[u64]) -> Result<[u16; N], LineError> {
    if numbers.len() != N {
        return Err(LineError::NoCall);
    }
    let mut list = [0; N];
    for (place, number) in list.iter_mut().zip(numbers) {
        *place = low_u16(*number);
    }
    Ok(list)
}

impl Record for SacchEncoder {
    fn of(numbers: &[u64]) -> Result<SacchEncoder, LineError> {
        let [memory, rows @ .., cursor] = numbers else {
            return Err(LineError::NoCall);
        };
        Ok(SacchEncoder {
            memory: low_byte(*memory),
            rows: list(rows)?,
            cursor: usize::try_from(*cursor)?,
        })
    }

    fn write_to(&self, numbers: &mut Numbers) {
        numbers.push(u64::from(self.memory));
        numbers.push_list(&self.rows);
        numbers.push(place(self.cursor));
    }
}

impl Record for SacchDeinterleaver {
    fn of(numbers: &[u64]) -> Result<SacchDeinterleaver, LineError> {
        let [fields @ .., cursor, received] = numbers else {
            return Err(LineError::NoCall);
        };
        Ok(SacchDeinterleaver {
            fields: list(fields)?,
            cursor: usize::try_from(*cursor)?,
            received: usize::try_from(*received)?,
        })
    }

    fn write_to(&self, numbers: &mut Numbers) {
        numbers.push_list(&self.fields);
        numbers.push(place(self.cursor));
        numbers.push(place(self.received));
    }
}

// (No `From`: neither type is of this crate.)
fn locked_phase(number: u64) -> Option<u8> {
    if number == UNLOCKED {
        return None;
    }
    Some(low_byte(number))
}

impl Record for SacchReceiver {
    fn of(numbers: &[u64]) -> Result<SacchReceiver, LineError> {
        let Some((deinterleaver, rest)) = numbers.split_at_checked(14) else {
            return Err(LineError::NoCall);
        };
        let [rows @ .., row_cursor, available, phase, locked] = rest else {
            return Err(LineError::NoCall);
        };
        Ok(SacchReceiver {
            deinterleaver: SacchDeinterleaver::of(deinterleaver)?,
            rows: list(rows)?,
            row_cursor: usize::try_from(*row_cursor)?,
            available: usize::try_from(*available)?,
            phase: low_byte(*phase),
            locked_phase: locked_phase(*locked),
        })
    }

    fn write_to(&self, numbers: &mut Numbers) {
        self.deinterleaver.write_to(numbers);
        numbers.push_list(&self.rows);
        numbers.push(place(self.row_cursor));
        numbers.push(place(self.available));
        numbers.push(u64::from(self.phase));
        numbers.push(self.locked_phase.map_or(UNLOCKED, u64::from));
    }
}

// What became of the record that a line has: it is told where it is not as before.
#[derive(Clone, Copy, Debug, PartialEq, Eq)]
pub enum Became {
    Kept,
    Now(Numbers),
}

impl Became {
    pub fn of<R: Record>(before: &[u64], record: &R) -> Became {
        let mut numbers = Numbers::new();
        record.write_to(&mut numbers);
        if numbers.as_slice() == before {
            return Became::Kept;
        }
        Became::Now(numbers)
    }
}

impl fmt::Display for Became {
    fn fmt<W: fmt::Write>(&self, f: &mut fmt::Formatter<W>) -> fmt::Result {
        match self {
            Became::Kept => write!(f, "kept"),
            Became::Now(numbers) => write!(f, "now{numbers}"),
        }
    }
}
