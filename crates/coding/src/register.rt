// The steps of a shift register, by which of its ends holds the newest input.
// Ported from 136-bts, dcch.rs and acelp_cc1.rs, and changed (see NOTICE).
ghost use Rattle.std.specs.Prelude.{◌≡◌, map, ◌%◌, ◌<◌};
ghost use Rattle.std.specs.Int.Bits.{bit_and};
ghost use Rattle.std.specs.Int.Count.{ones};
ghost use Rattle.bits.specs.Bits.{bit};
ghost use Rattle.coding.specs.Codes.{from_highest, from_lowest};
ghost use Rattle.coding.specs.Registers.{memory_high, memory_low, Stepped};

use crate::Step;

// An output bit: one when an odd number of tapped bits are ones.
pub fn parity(register: u8, taps: u8) -> u8
    ensures { result ≡ ones (bit_and register taps) % 2 }
{
    u8::from(u8::count_ones(register & taps) % 2 == 1)
}

// A step to the state `next`, with an output bit of each generator. (By place: an array's `map` is no loop of vectors, and
// after a `zip` with `iter_mut` a proof knows nothing of what was written.)
fn step_to<const N: usize>(next: u8, register: u8, generators: [u8; N]) -> Step<N>
    ensures { (result.next ≡ next) × (result.output ≡ map (λ taps. ones (bit_and register taps) % 2) generators.entry) }
{
    let mut step = Step {
        next,
        output: [0; N],
    };
    for (i, taps) in generators.iter().enumerate() {
        step.output[i] = parity(register, *taps);
    }
    step
}

// IS-136 and IS-54-B: the register is the state with the input above it, shifted down by one for the next state.
pub(crate) fn newest_highest<const N: usize>(generators: [u8; N], state: u8, input: u8) -> Step<N>
    requires { state < 32 }
    ensures { Stepped (map from_highest generators.entry) memory_high state (bit input) result.next result.output }
{
    let register = state | ((input % 2) << 5);
    step_to(register >> 1, register, generators)
}

// TIA/EIA-136-410: the register is the state with the input below it, and its low five bits are the next state.
pub(crate) fn newest_lowest<const N: usize>(generators: [u8; N], state: u8, input: u8) -> Step<N>
    requires { state < 32 }
    ensures { Stepped (map from_lowest generators.entry) memory_low state (bit input) result.next result.output }
{
    let register = (state << 1) | (input % 2);
    step_to(register & 31, register, generators)
}
