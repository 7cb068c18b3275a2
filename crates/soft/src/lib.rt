// Ported from 136-bts, dcch.rs (see NOTICE): `viterbi_soft`, and the tests and the count of `decode_soft`.
// The soft-decision search of the DCCH code over doubles: specs/Soft.antt says what it finds.
#![tactic(auto)]

mod reliability;
mod step;

ghost use Rattle.std.specs.Prelude.{false, true, ◌≡◌, [], ◌∷◌, ℕ, ◌*◌, ◌/◌, ◌<◌, ◌≤◌, length, replicate};
ghost use Rattle.std.specs.Float.{inf};
ghost use Rattle.search.specs.Traceback.{traced};
ghost use Rattle.soft.specs.Reliability.{all_finite, zero_f};
ghost use Rattle.soft.specs.RustOrder.{highest};
ghost use Rattle.soft.specs.Soft.{SoftFound};
ghost use Rattle.soft.specs.Step.{StoredTo, rows_at};

pub use crate::reliability::{all_finite, sign_count};
use crate::step::{advance, branch_metrics, output_pairs};

// The path metrics before the first step: state 0 costs nothing, and no other is reached.
fn start_metrics() -> [f64; 32]
    ensures { result ≡ zero_f ∷ replicate 31 (inf false) }
{
    let mut metrics = [f64::INFINITY; 32];
    metrics[0] = 0.0;
    metrics
}

// The forward recursion, two finite reliabilities to a step: the predecessor byte of each state at each step. (That of the crate `search`
// takes the step's row from a table: of the loop only the two stores are the same. By number: a step reads two values
// and stores a row, and after a `zip` of chunks with `iter_mut` a proof knows nothing of what was stored.)
fn forward(values: &[f64]) -> [[u8; 32]; 130]
    requires { (length values.now ≤ 260) × (all_finite values.now ≡ true) }
    ensures { (length result ≡ 130) × StoredTo values.now result (length values.now / 2) }
{
    let pairs = output_pairs();
    let steps = values.len() / 2;
    let mut metrics = start_metrics();
    let mut predecessors = [[0u8; 32]; 130];
    for step in 0..steps {
        let branch = branch_metrics(pairs, values[step * 2], values[step * 2 + 1]);
        let column = advance(metrics, branch);
        metrics = column.metrics;
        let chosen = column.predecessors;
        predecessors[step] = chosen;
    }
    predecessors
}

// Reads the survivor into state 0 back: the input of each step is the highest bit of the state that it enters.
// (The crate `search` has its own: its states are numbered the other way round, and its bytes also mark ties. By number: after a `zip` with
// `iter_mut` a proof knows nothing of the word.)
fn traceback(predecessors: &[[u8; 32]], word: &mut [u8])
    requires word_in_bounds { length word.old ≤ length predecessors.now }
    requires by_index { (k s : ℕ) → k < length word.old → s < 32 → rows_at predecessors.now k s < 32 }
    ensures { word.new ≡ traced highest (rows_at predecessors.now) (length word.old) 0 [] }
{
    let mut state = 0u8;
    for step in (0..word.len()).rev() {
        word[step] = state / 16;
        state = predecessors[step][usize::from(state)];
    }
}

// Writes the word of the survivor into state 0, two finite reliabilities to a bit. (Lengths of what is lent stay clauses: see `bits::arguments`. That
// they are finite is asked, since `decode_soft` tests it once.)
pub fn viterbi_soft(values: &[f64], word: &mut [u8])
    requires { (5 ≤ length word.old) × (length word.old ≤ 130) × (length values.now ≡ length word.old * 2) × (all_finite values.now ≡ true) }
    ensures { SoftFound values.now (length word.old) word.new }
{
    let predecessors = forward(values);
    traceback(&predecessors, word);
}
