// Why a line is not answered.
ghost use Rattle.std.specs.Prelude.{◌≡◌};
ghost use Rattle.calls.specs.declared.errors.LineError.TheVariants.{NoCall, OutOfMemory};

use std::alloc::{AllocError, AllocFailed};
use std::num::TryFromIntError;

#[derive(Clone, Copy, Debug, PartialEq, Eq)]
pub enum LineError {
    // It is no call.
    NoCall,
    // For a caller that keeps lines or answers on the heap: nothing here asks for memory.
    OutOfMemory,
}

impl From<AllocError> for LineError {
    ghost from_gives = { λ _ error. error ≡ OutOfMemory };

    fn from(_error: AllocError) -> LineError {
        LineError::OutOfMemory
    }
}

impl<T: Drop> From<AllocFailed<T>> for LineError {
    ghost from_gives = { λ _ error. error ≡ OutOfMemory };

    fn from(error: AllocFailed<T>) -> LineError {
        LineError::from(AllocError::from(error))
    }
}

// A number that is too large for what it stands for.
impl From<TryFromIntError> for LineError {
    ghost from_gives = { λ _ error. error ≡ NoCall };

    fn from(_error: TryFromIntError) -> LineError {
        LineError::NoCall
    }
}

#[cfg(test)]
mod tests {
    use super::*;

    // What `?` makes of memory that ran out, without and with a value that was to be stored.
    #[test]
    fn memory_that_ran_out(rt: HostRuntime) {
        let value = 7u8;
        let without = LineError::from(AllocError);
        let with = LineError::from(AllocFailed { value });
        assert_eq!(rt; without, LineError::OutOfMemory);
        assert_eq!(rt; with, LineError::OutOfMemory);
    }
}
