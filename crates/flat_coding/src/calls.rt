// What a call that writes bits answers, as a flat record: 0, or a number of document 01.
ghost use Rattle.std.specs.Prelude.{◌≡◌};
ghost use Rattle.flat_coding.specs.Calls.{flat_wrote, not_written};

use bits::Refusal;

// C reads it, which has no Result: a number of document 01, or 0. expected and actual are those of a refusal for length, else 0.
#[repr(C)]
#[derive(Clone, Copy, Debug, Default, PartialEq, Eq)]
pub struct Written {
    pub refusal: u8,
    pub expected: usize,
    pub actual: usize,
}

// A refusal as numbers. The flat records of calls that answer more take theirs from it. (They are flat in C, so each names the
// three.)
impl From<Refusal> for Written {
    ghost from_gives = { λ why r. r ≡ not_written why };

    fn from(why: Refusal) -> Written {
        Written {
            refusal: u8::from(why),
            expected: why.expected(),
            actual: why.actual(),
        }
    }
}

impl From<Result<(), Refusal>> for Written {
    ghost from_gives = { λ answer r. r ≡ flat_wrote answer };

    fn from(answer: Result<(), Refusal>) -> Written {
        match answer {
            Ok(()) => Written::default(),
            Err(why) => Written::from(why),
        }
    }
}
