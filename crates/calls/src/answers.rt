// What a call answered, and how it is printed.
ghost use Rattle.std.specs.Prelude.{◌≡◌, MatchResult};
ghost use Rattle.calls.specs.declared.answers.Answer.TheVariants.{Done};
ghost use Rattle.calls.specs.Refused.{refused};

use bits::Refusal;
use std::fmt;

#[derive(Clone, Copy, Debug, PartialEq, Eq)]
pub enum Answer {
    // Numbers, beside `Rejected`: the flat functions that `replay` calls answer them.
    Refused {
        number: u8,
        expected: usize,
        actual: usize,
    },
    Done,
    Value(u16),
    Next {
        next: u8,
        output: [u8; 4],
    },
    Found(u16),
    Corrected(u16),
    // The last number is the observed bits of FACCH, the ending memory of SACCH.
    Word {
        continuation: bool,
        message: u64,
        corrected: u16,
        last: u16,
    },
    // Whether the checksum is right, and the corrected bits.
    Frame {
        valid: bool,
        corrected: u16,
    },
    Pending,
    Rejected(Refusal),
}

impl From<Refusal> for Answer {
    ghost from_gives = { λ why answer. answer ≡ refused why };

    fn from(why: Refusal) -> Answer {
        Answer::Refused {
            number: u8::from(why),
            expected: why.expected(),
            actual: why.actual(),
        }
    }
}

// A call that only writes.
impl From<Result<(), Refusal>> for Answer {
    ghost from_gives = { λ outcome answer. MatchResult outcome (λ _. answer ≡ Done) (λ why. answer ≡ refused why) };

    fn from(outcome: Result<(), Refusal>) -> Answer {
        match outcome {
            Ok(()) => Answer::Done,
            Err(why) => Answer::from(why),
        }
    }
}

// A call whose value is told.
impl From<Result<Answer, Refusal>> for Answer {
    ghost from_gives = { λ outcome answer. MatchResult outcome (λ told. answer ≡ told) (λ why. answer ≡ refused why) };

    fn from(outcome: Result<Answer, Refusal>) -> Answer {
        outcome.unwrap_or_else(Answer::from)
    }
}

impl fmt::Display for Answer {
    fn fmt<W: fmt::Write>(&self, f: &mut fmt::Formatter<W>) -> fmt::Result {
        match *self {
            Answer::Refused {
                number,
                expected,
                actual,
            } => write!(f, "refused {number} ({expected}, {actual})"),
            Answer::Done => write!(f, "done"),
            Answer::Value(value) => write!(f, "value {value:x}"),
            Answer::Next { next, output } => {
                let [a, b, c, d] = output;
                write!(f, "next {next:x} {a:x} {b:x} {c:x} {d:x}")
            }
            Answer::Found(metric) => write!(f, "found {metric:x}"),
            Answer::Corrected(corrected) => write!(f, "corrected {corrected:x}"),
            Answer::Word {
                continuation,
                message,
                corrected,
                last,
            } => write!(
                f,
                "word {} {message:x} {corrected:x} {last:x}",
                u8::from(continuation)
            ),
            Answer::Frame { valid, corrected } => {
                write!(f, "frame {} {corrected:x}", u8::from(valid))
            }
            Answer::Pending => write!(f, "pending"),
            Answer::Rejected(why) => write!(f, "rejected {}", u8::from(why)),
        }
    }
}
