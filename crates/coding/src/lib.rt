// The convolutional codes of IS-54-B, IS-136 and TIA/EIA-136-410. The contracts cite specs/.
// Ported from 136-bts (see NOTICE): the register steps and the encoders of dcch.rs, facch.rs, acelp_cc1.rs and speech.rs, as one.
#![tactic(auto)]

pub mod acelp;
pub mod codes;
pub mod register;

ghost use Rattle.std.specs.Prelude.{◌≡◌, true, Bool, List, ◌++◌, ℕ, ◌+◌, ◌*◌, ◌<◌, ◌≤◌, length, take};
ghost use Rattle.bits.specs.Bits.{all_binary, bit, bits};
ghost use Rattle.coding.specs.Laws.{CodeLaws};
ghost use Rattle.coding.specs.Registers.{Stepped};
ghost use Rattle.coding.specs.Runs.{Ran};

// One step of a code's register: the state after it, and a coded bit of each generator.
#[derive(Clone, Copy, Debug, PartialEq, Eq)]
pub struct Step<const N: usize> {
    pub next: u8,
    pub output: [u8; N],
}

// Writes what a step sends. (Byte by byte: with `copy_from_slice` a run of 130 inputs of DCCH takes 177 ns in place of 147.)
fn write_output<const N: usize>(output: &[u8; N], at: usize, coded: &mut [u8])
    requires { at + N ≤ length coded.old }
    ensures { take (at + N) coded.new ≡ take at coded.old ++ output.now }
{
    for (i, bit) in output.iter().enumerate() {
        coded[at + i] = *bit;
    }
}

// A code of N generators.
pub trait Code<const N: usize> {
    // Its generators, and the five inputs that a state holds.
    ghost code: { List (List Bool) };

    ghost memory: { ℕ → List Bool };

    // One step from a state. (A state is a byte below 32, and no type of its own: C passes it, and the searches count states.)
    fn transition(state: u8, input: u8) -> Step<N>
        requires { state < 32 }
        ensures { Stepped code memory state (bit input) result.next result.output };

    ghost laws: { CodeLaws N code memory };

    // The coded bits of a run of inputs from a state, and the state after it. (Written by place: after a `zip` with chunks of the coded bits a
    // proof knows nothing of them.)
    final fn convolutional_encode(state: u8, input: &[u8], coded: &mut [u8]) -> u8
        requires { (state < 32) × (length coded.old ≡ length input.now * N) }
        ensures { Ran code memory state (bits input.now) result coded.new }
    {
        let mut at = state;
        for (i, bit) in input.iter().enumerate() {
            let step = Self::transition(at, *bit);
            write_output(&step.output, i * N, coded);
            at = step.next;
        }
        at
    }
}
