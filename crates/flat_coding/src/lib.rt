// Flat functions over `coding` and `checksums`: one step of each code, the register of the 16-bit checksum and the 7-bit checksum; `bare_search` has the bare searches, `calls` the record of a call that writes bits. Each answers a number of document 01, or 0 with its result.
#![tactic(auto)]

pub mod bare_search;
pub mod calls;

ghost use Rattle.std.specs.Prelude.{◌≡◌};
ghost use Rattle.bits.specs.Bits.{bits};
ghost use Rattle.checksums.specs.Checksums.{answer_for_bits, checksum7_of, checksum_from};
ghost use Rattle.flat_coding.specs.Flat.{StepAnswer, flat_checksum, no_step, step_arguments};

use bits::Refusal;
use coding::Code;

// C reads it, which has no Result: beside a refusal all is 0.
#[repr(C)]
#[derive(Clone, Copy, Debug, PartialEq, Eq)]
pub struct Step {
    pub refusal: u8,
    pub next: u8,
    pub output: [u8; 4],
}

// The same: beside a refusal value is 0.
#[repr(C)]
#[derive(Clone, Copy, Debug, PartialEq, Eq)]
pub struct Checksum {
    pub refusal: u8,
    pub value: u16,
}

impl From<Refusal> for Step {
    ghost from_gives = { λ why r. r ≡ no_step why };

    fn from(why: Refusal) -> Step {
        Step {
            refusal: u8::from(why),
            next: 0,
            output: [0; 4],
        }
    }
}

impl From<Result<u16, Refusal>> for Checksum {
    ghost from_gives = { λ answer r. r ≡ flat_checksum answer };

    fn from(answer: Result<u16, Refusal>) -> Checksum {
        match answer {
            Ok(value) => Checksum { refusal: 0, value },
            Err(why) => Checksum {
                refusal: u8::from(why),
                value: 0,
            },
        }
    }
}

// Whether there is such a state and such an input.
#[tactic(auto, unfolding(crate::specs::Flat::step_arguments))]
fn step_arguments(state: u8, input: u8) -> Result<(), Refusal>
    ensures { result ≡ step_arguments state input }
{
    if 31 < state {
        return Err(Refusal::State);
    }
    if 1 < input {
        return Err(Refusal::Symbol);
    }
    Ok(())
}

// One step of a code: its outputs, then zeros. C has four places for them, the most that a code of IS-136 has.
#[tactic(auto, using(crate::proofs::Steps::passed_state))]
pub fn transition<C: Code<N>, const N: usize>(state: u8, input: u8) -> Step
    ensures { StepAnswer C.code C.memory state input result }
{
    if let Err(why) = step_arguments(state, input) {
        return Step::from(why);
    }
    let step = C::transition(state, input);
    let kept = N.min(4);
    let mut output = [0u8; 4];
    output[..kept].copy_from_slice(&step.output[..kept]);
    Step {
        refusal: 0,
        next: step.next,
        output,
    }
}

// The register of the 16-bit checksum after the information.
pub fn checksum_from(register: u16, information: &[u8]) -> Checksum
    ensures { result ≡ flat_checksum (answer_for_bits information.now (checksum_from register (bits information.now))) }
{
    Checksum::from(checksums::checksum_from(register, information))
}

// The 7-bit checksum of a speech frame's information.
pub fn checksum7(information: &[u8]) -> Checksum
    ensures { result ≡ flat_checksum (answer_for_bits information.now (checksum7_of (bits information.now))) }
{
    Checksum::from(checksums::checksum7(information))
}
