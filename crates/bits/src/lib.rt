// Bits as bytes, numbers as bits, and the refusals that every crate answers with. A byte stands for its lowest bit, so that no function on
// bits asks that its bytes are 0 or 1; that they are is what the calls of users test first. The contracts cite specs/.
// What a call tests first is in `arguments`, bits of which some were not observed in `observed`, document 01's numbers in `refusals`.
#![tactic(auto)]

pub mod arguments;
pub mod observed;
pub mod places;
mod refusals;

ghost use Rattle.std.specs.Prelude.{◌≡◌, true, ◌<◌, ◌≤◌, length};
ghost use Rattle.bits.specs.Bits.{all_binary, all_less, bit, bits, bytes, disagreement};
ghost use Rattle.bits.specs.Numbers.{packed, unpacked};

// Why a call is refused. `u8::from` gives document 01's number of each.
#[derive(Clone, Copy, Debug, PartialEq, Eq)]
pub enum Refusal {
    // A lent slice is not of the exact length.
    Length { expected: usize, actual: usize },
    // A byte is no bit, or a number is out of its range.
    Symbol,
    Crc,
    InsufficientObservations,
    Ambiguous,
    Reserved,
    Line,
    State,
}

// Whether everything is less than a limit: over numbers, `all_below` of specs/Bits. The loop has no way out before its end, so that it is vectorised.
#[tactic(auto, unfolding(crate::specs::Bits::all_less))]
pub fn all_below<T: Copy + PartialOrd>(limit: T, s: &[T]) -> bool
    ensures { result ≡ all_less T.partial_cmp limit s.now }
{
    let mut passed = true;
    for x in s {
        passed &= *x < limit;
    }
    passed
}

// Whether every byte is 0 or 1.
#[tactic(auto, using(crate::proofs::Below::below_less))]
pub fn all_binary(s: &[u8]) -> bool
    ensures { result ≡ all_binary s.now }
{
    all_below(2, s)
}

// The number that bits write, the first highest.
pub fn pack(s: &[u8]) -> u64
    requires { length s.now ≤ 64 }
    ensures { result ≡ packed (bits s.now) }
{
    let mut value: u64 = 0;
    for b in s {
        value = value * 2 + u64::from(*b % 2);
    }
    value
}

// Writes the lowest bits of a number, as many as there is room for, the highest first. (By index: after `iter_mut().rev()` nothing is known
// of what was written.)
pub fn unpack(value: u64, s: &mut [u8])
    ensures { s.new ≡ bytes (unpacked (length s.old) value) }
{
    let mut rest = value;
    for i in (0..s.len()).rev() {
        s[i] = u8::from(rest % 2 == 1);
        rest /= 2;
    }
}

// 1 where two bits differ, 0 where they are equal.
pub fn differs(a: u8, b: u8) -> u8
    ensures { (result ≡ disagreement (bit a) (bit b)) × (result ≤ 1) }
{
    u8::from(a % 2 != b % 2)
}
