// The lines of ACELP CC1, coded without a register.
// Ported from 136-bts, acelp_cc1.rs, and changed (see NOTICE).
ghost use Rattle.std.specs.Prelude.{true, reverse, ◌≡◌, ◌+◌, ◌*◌, ◌<◌, drop, length, take};
ghost use Rattle.bits.specs.Bits.{all_binary, bits, bytes};
ghost use Rattle.coding.specs.Codes.{acelp, coded};

use crate::Code;
use crate::codes::Acelp;

// The state that five inputs leave, the oldest given first: the newest is lowest.
fn state_after(a: u8, b: u8, c: u8, d: u8, e: u8) -> u8
    requires { (a < 2) × (b < 2) × (c < 2) × (d < 2) × (e < 2) }
    ensures { (result ≡ e + d * 2 + c * 4 + b * 8 + a * 16) × (result < 32) }
{
    e + d * 2 + c * 4 + b * 8 + a * 16
}

// What the two generators send at each input of a line after the first five. No step waits for the state that another leaves, so the loop is vectorised.
// (By number: a turn reads six places of the line and writes two lists. That its bytes are bits is asked: six turns read each, and each would reduce it.)
pub fn line_outputs(line: &[u8], first: &mut [u8], second: &mut [u8])
    requires { (length line.now ≡ length first.old + 5) × (length second.old ≡ length first.old) × (all_binary line.now ≡ true) }
    ensures first_after { first.new ≡ bytes (coded (take 1 acelp) (reverse (take 5 (bits line.now))) (drop 5 (bits line.now))) }
    ensures second_after { second.new ≡ bytes (coded (drop 1 acelp) (reverse (take 5 (bits line.now))) (drop 5 (bits line.now))) }
{
    for i in 0..first.len() {
        let state = state_after(line[i], line[i + 1], line[i + 2], line[i + 3], line[i + 4]);
        let step = Acelp::transition(state, line[i + 5]);
        let output = step.output;
        first[i] = output[0];
        second[i] = output[1];
    }
}
