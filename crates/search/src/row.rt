// A row of branch metrics by its places: specs/Row.antt has the layout.
ghost use Rattle.std.specs.Prelude.{◌≡◌, ℕ, ◌+◌, ◌<◌, ◌≤◌, get_or};
ghost use Rattle.bits.specs.Bits.{bit};
ghost use Rattle.bits.specs.Observed.{erased_differ};
ghost use Rattle.search.specs.Row.{DistancesTo, OutputsOf, OutputsTo, register_at};

use bits::observed::erased_differs;
use coding::register::parity;

// The register of a place.
#[tactic(auto, using(crate::proofs::ByPlace::register_of))]
fn register_at(place: u8) -> u8
    requires { place < 64 }
    ensures { result ≡ register_at place }
{
    (place % 16 + place / 32 * 16) * 2 + place / 16 % 2
}

// The output bits of one generator, by place. (Over the numbers of the places as bytes: the elements have none to read, and their `usize` would be cast.)
fn generator_outputs(taps: u8) -> [u8; 64]
    ensures { OutputsTo taps result 64 }
{
    let mut output = [0u8; 64];
    for place in 0..64u8 {
        output[usize::from(place)] = parity(register_at(place), taps);
    }
    output
}

// The output bits of each generator. (Here and below lists are written by place: after a `zip` with `iter_mut` a proof knows nothing of them.)
pub fn outputs<const N: usize>(generators: [u8; N]) -> [[u8; 64]; N]
    ensures { OutputsOf generators.entry result }
{
    let mut outputs = [[0u8; 64]; N];
    for (i, taps) in generators.iter().enumerate() {
        outputs[i] = generator_outputs(*taps);
    }
    outputs
}

// Adds to the sum of each place where its output bit differs from what was received of it, over the observed ones.
fn add_differences(output: &[u8; 64], received: u8, sums: &mut [u8; 64])
    requires { (place : ℕ) → place < 64 → get_or sums.old place 0 < 255 }
    ensures { (place : ℕ) → place < 64 → get_or sums.new place 0 ≡ get_or sums.old place 0 + erased_differ (bit (get_or output.now place 0)) received }
{
    for (place, sent) in output.iter().enumerate() {
        sums[place] += erased_differs(*sent, received);
    }
}

// In how many bits the outputs of each place differ from what was received, over the observed ones. One generator after the other and in bytes, so that
// 16 places are one vector: 65 rows of FACCH take 525 ns, and 950 where a place is summed over the generators.
fn sums<const N: usize>(outputs: &[[u8; 64]; N], received: &[u8; N]) -> [u8; 64]
    requires few { N ≤ 64 }
    ensures { DistancesTo outputs.now received.now result 64 }
{
    let mut sums = [0u8; 64];
    for (output, bit) in outputs.iter().zip(received) {
        add_differences(output, *bit, &mut sums);
    }
    sums
}

// The branch metrics against what a step received, by place. (With `map` of the array the 65 rows take 16,000 ns.)
pub fn distances<const N: usize>(outputs: &[[u8; 64]; N], received: &[u8; N]) -> [u16; 64]
    requires few { N ≤ 64 }
    ensures { DistancesTo outputs.now received.now result 64 }
{
    let sums = sums(outputs, received);
    let mut row = [0u16; 64];
    for (place, sum) in sums.iter().enumerate() {
        row[place] = u16::from(*sum);
    }
    row
}
