// One step of the soft-decision search, by butterflies: the states 2 n and 2 n + 1 lead to n and n + 16.
// Ported from 136-bts, dcch.rs, and changed (see NOTICE).
ghost use Rattle.std.specs.Prelude.{◌≡◌, ℕ, ◌<◌, get_or};
ghost use Rattle.std.specs.Float.{nan};
ghost use Rattle.soft.specs.Reliability.{bit_cost};
ghost use Rattle.soft.specs.Step.{Advanced, Branched, OutputsTo, PairCosts, Selected, chosen_of, lesser_of, stored_of};

use coding::Code;
use coding::codes::Dcch;
use search::Column;

// The branch metrics from the states 2 n, with a zero and with a one. (No Eq, as no double has it.) Flipping the oldest input complements both outputs as
// flipping the newest does, so those from 2 n + 1 are the same two, exchanged. (Two lists, as the loops read each in a row.)
#[derive(Clone, Copy, Debug, PartialEq)]
pub struct Branches {
    pub zeros: [f64; 16],
    pub ones: [f64; 16],
}

// What a coded bit costs against a reliability: a negative one reads as a one.
fn bit_cost(bit: bool, reliability: f64) -> f64
    ensures { result ≡ bit_cost bit reliability }
{
    if bit != (reliability < 0.0) {
        reliability.abs()
    } else {
        0.0
    }
}

// The branch metrics of the four output pairs, each summed before it meets a path metric.
fn pair_costs(first: f64, second: f64) -> [f64; 4]
    ensures { PairCosts first second result }
{
    let a = bit_cost(false, first);
    let b = bit_cost(true, first);
    let c = bit_cost(false, second);
    let d = bit_cost(true, second);
    [a + c, a + d, b + c, b + d]
}

// The output pairs of the states 2 n with a zero, the first bit worth two. (Over bytes: a number is made a state.)
pub fn output_pairs() -> [u8; 16]
    ensures { OutputsTo result 16 }
{
    let mut pairs = [0u8; 16];
    for n in 0..16u8 {
        let output = Dcch::transition(n * 2, 0).output;
        pairs[usize::from(n)] = output[0] * 2 + output[1];
    }
    pairs
}

// What the steps from the states 2 n cost. (By place: a turn writes two lists.)
pub fn branch_metrics(pairs: [u8; 16], first: f64, second: f64) -> Branches
    requires { OutputsTo pairs 16 }
    ensures { Branched first second result }
{
    let costs = pair_costs(first, second);
    let mut zeros = [0.0f64; 16];
    let mut ones = [0.0f64; 16];
    for (n, pair) in pairs.iter().enumerate() {
        let pair = usize::from(*pair);
        zeros[n] = costs[pair];
        ones[n] = costs[3 - pair];
    }
    Branches { zeros, ones }
}

// The lesser of the candidates through a state's two predecessors. (Not `min`, which may give either of two zeros.)
#[tactic(auto, unfolding(crate::specs::Step::lesser_of))]
fn lesser(lower: f64, upper: f64) -> f64
    ensures { result ≡ lesser_of lower upper }
{
    if upper < lower { upper } else { lower }
}

// The predecessor of the survivor: the upper one only where its candidate is less.
#[tactic(auto, unfolding(crate::specs::Step::chosen_of))]
fn predecessor(lower: f64, upper: f64, from: u8) -> u8
    requires { from < 32 }
    ensures { result ≡ chosen_of lower upper from }
{
    if upper < lower { from + 1 } else { from }
}

// Add, compare, select. (By number: a turn reads four places of three lists and writes four of two. Its cast loses nothing below 32, where
// `u8::try_from` would have an error that never comes. The crate `search` has its own: its
// states are numbered the other way round, its metrics are whole, and of equal ones it marks the tie.)
fn select(metrics: [f64; 32], branch: Branches) -> Column<[f64; 32]>
    ensures { Selected metrics branch.zeros branch.ones result }
{
    let zeros = branch.zeros;
    let ones = branch.ones;
    let mut next = [0.0f64; 32];
    let mut predecessors = [0u8; 32];
    for n in 0..16 {
        let lower = metrics[n * 2];
        let upper = metrics[n * 2 + 1];
        let a = lower + zeros[n];
        let b = upper + ones[n];
        let c = lower + ones[n];
        let d = upper + zeros[n];
        let from = (n * 2) as u8;
        next[n] = lesser(a, b);
        next[n + 16] = lesser(c, d);
        predecessors[n] = predecessor(a, b, from);
        predecessors[n + 16] = predecessor(c, d, from);
    }
    Column {
        metrics: next,
        predecessors,
    }
}

// The byte that is stored of a state: 0 where no candidate is below infinity.
fn stored(metric: f64, predecessor: u8) -> u8
    ensures { result ≡ stored_of metric predecessor }
{
    if metric == f64::INFINITY {
        0
    } else {
        predecessor
    }
}

// The bytes of all states, in a loop of their own, which is vectorised. (The two lists by place: a zip of three is no shorter.)
fn stored_row(metrics: [f64; 32], predecessors: [u8; 32]) -> [u8; 32]
    ensures { (t : ℕ) → t < 32 → get_or result t 0 ≡ stored_of (get_or metrics t nan) (get_or predecessors t 0) }
{
    let mut row = [0u8; 32];
    for (t, byte) in row.iter_mut().enumerate() {
        *byte = stored(metrics[t], predecessors[t]);
    }
    row
}

// One step: the path metrics after it, and what is stored of each state.
pub fn advance(metrics: [f64; 32], branch: Branches) -> Column<[f64; 32]>
    ensures { Advanced metrics branch.zeros branch.ones result }
{
    let selected = select(metrics, branch);
    let next = selected.metrics;
    let chosen = selected.predecessors;
    let predecessors = stored_row(next, chosen);
    Column {
        metrics: next,
        predecessors,
    }
}
