// What a call tests of its arguments before it goes on: each length in their order, then the symbols. specs/Arguments.antt has the tests.
// A length that was tested stays a clause of what is called next: C lends slices of any length, and to make an array of one that is written
// there is only an Option, whose None cannot come here.
ghost use Rattle.std.specs.Prelude.{◌≡◌};
ghost use Rattle.bits.specs.Arguments.{below_of, binary_of, bits_and_room, exact_bits, exact_of, symbol_unless, two_and_room};

use crate::{Refusal, all_binary};

// Refused where a slice has not the exact length.
pub fn exact(wanted: usize, given: usize) -> Result<(), Refusal>
    ensures { result ≡ exact_of wanted given }
{
    if wanted == given {
        return Ok(());
    }
    Err(Refusal::Length {
        expected: wanted,
        actual: given,
    })
}

// Refused with Symbol where a test is not passed.
pub fn symbol_unless(passed: bool) -> Result<(), Refusal>
    ensures { result ≡ symbol_unless passed }
{
    if passed { Ok(()) } else { Err(Refusal::Symbol) }
}

// Refused where a byte is no bit.
pub fn binary(s: &[u8]) -> Result<(), Refusal>
    ensures { result ≡ binary_of s.now }
{
    symbol_unless(all_binary(s))
}

// Refused where a number is not below its limit.
pub fn below(limit: u64, x: u64) -> Result<(), Refusal>
    ensures { result ≡ below_of limit x }
{
    symbol_unless(x < limit)
}

// So many bits: the length, then the symbols.
pub fn exact_bits(n: usize, s: &[u8]) -> Result<(), Refusal>
    ensures { result ≡ exact_bits n s.now }
{
    exact(n, s.len())?;
    binary(s)
}

// So many bits, and room for so many of the result: both lengths, then the symbols.
pub fn bits_and_room(
    wanted: usize,
    s: &[u8],
    wanted_room: usize,
    room: usize,
) -> Result<(), Refusal>
    ensures { result ≡ bits_and_room wanted s.now wanted_room room }
{
    exact(wanted, s.len())?;
    exact(wanted_room, room)?;
    binary(s)
}

// So many bits, so many more, and room for the result: each length, then the symbols. (No list of slices in place of the two functions: a call
// would be longer.)
pub fn two_and_room(
    wanted: usize,
    a: &[u8],
    wanted_second: usize,
    b: &[u8],
    wanted_room: usize,
    room: usize,
) -> Result<(), Refusal>
    ensures { result ≡ two_and_room wanted a.now wanted_second b.now wanted_room room }
{
    exact(wanted, a.len())?;
    exact(wanted_second, b.len())?;
    exact(wanted_room, room)?;
    binary(a)?;
    binary(b)
}
