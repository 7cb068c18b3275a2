// A refusal as numbers: document 01's, and the lengths that a Length carries. specs/Refusals.antt has what the contracts cite.
ghost use Rattle.std.specs.Prelude.{◌≡◌, Some};
ghost use Rattle.bits.specs.Refusals.{actual_of, expected_of, message_of, number_of};

use crate::Refusal;
use std::error::Error;
use std::fmt;

// The number that document 01 gives a refusal.
impl From<Refusal> for u8 {
    ghost from_gives = { λ why n. n ≡ number_of why };

    fn from(why: Refusal) -> u8 {
        match why {
            Refusal::Length { .. } => 1,
            Refusal::Symbol => 2,
            Refusal::Crc => 3,
            Refusal::InsufficientObservations => 4,
            Refusal::Ambiguous => 5,
            Refusal::Reserved => 6,
            Refusal::Line => 7,
            Refusal::State => 8,
        }
    }
}

impl Refusal {
    // The length that a Length expected; 0 of any other refusal. (Two numbers and no Option of a pair: C's records and the stored lines have 0 for
    // none.)
    pub fn expected(self) -> usize
        ensures { result ≡ expected_of self }
    {
        match self {
            Refusal::Length { expected, .. } => expected,
            _ => 0,
        }
    }

    // The length that a Length met; 0 of any other refusal.
    pub fn actual(self) -> usize
        ensures { result ≡ actual_of self }
    {
        match self {
            Refusal::Length { actual, .. } => actual,
            _ => 0,
        }
    }
}

impl fmt::Display for Refusal {
    ghost output = { λ why. Some (message_of why) };

    fn fmt<W: fmt::Write>(&self, f: &mut fmt::Formatter<W>) -> fmt::Result {
        match self {
            Refusal::Length { expected, actual } => {
                write!(f, "a length of {actual} where it must be {expected}")
            }
            Refusal::Symbol => write!(f, "a byte that is no bit, or a number out of its range"),
            Refusal::Crc => write!(f, "a wrong checksum, or a reliability that is not finite"),
            Refusal::InsufficientObservations => write!(f, "too few observed bits"),
            Refusal::Ambiguous => write!(f, "two words equally near"),
            Refusal::Reserved => write!(f, "a reserved bit that is set"),
            Refusal::Line => write!(f, "a line of none of the forms"),
            Refusal::State => write!(f, "a state out of its range"),
        }
    }
}

impl Error for Refusal {}
