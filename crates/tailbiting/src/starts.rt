// Ported from 136-bts, facch.rs, and changed (see NOTICE).
// The search among words that end in the state where they start, over any rows of branch metrics: specs/Starts.antt has its words and its order of starts.
ghost use Rattle.std.specs.Prelude.{◌≡◌, ◌+◌, ◌<◌, length};
ghost use Rattle.search.specs.Forward.{branch_by};
ghost use Rattle.trellis.specs.Search.{Found};
ghost use Rattle.trellis.specs.Words.{OfLength};
ghost use Rattle.tailbiting.specs.Starts.{Bounds, Tried, better_of, kept_of, tail_metric};

use search::Received;
use std::cmp::Ordering;
use trellis::Outcome;

// What 65 steps received, a bound of each state, and the state that is tried first. (Made for one search, and neither compared nor printed.)
#[derive(Drop)]
struct Starts<'a> {
    received: Received<'a>,
    // The least metric of a path into each state from any start: no word that ends there weighs less.
    bounds: [u16; 32],
    first: usize,
    ghost steps: { length received.symbols.now ≡ 65 },
    ghost bounded: { Bounds (branch_by received.rows.now received.symbols.now) bounds },
    ghost low: { first < 32 },
}

// A state of the least bound. (Any state would do: a good one leaves few to try. A loop: `min_by_key` answers an Option, whose None cannot come here.)
fn lowest(bounds: &[u16; 32]) -> usize
    ensures { result < 32 }
{
    let mut at = 0;
    for (state, bound) in bounds.iter().enumerate() {
        if *bound < bounds[at] {
            at = state;
        }
    }
    at
}

// The better of the best word so far, in `inputs`, and the word of one more start. Two of one metric are a tie. (`search` compares its ends alike: see there.)
fn better(best: Outcome, run: Outcome, word: &[u8; 65], inputs: &mut [u8; 65]) -> Outcome
    ensures { (result ≡ better_of best run) × (inputs.new ≡ kept_of best run word.now inputs.old) }
{
    match run.metric.cmp(&best.metric) {
        Ordering::Less => {
            *inputs = *word;
            run
        }
        Ordering::Equal => Outcome {
            metric: best.metric,
            tie: true,
        },
        Ordering::Greater => best,
    }
}

impl<'a> Starts<'a> {
    fn new(received: Received<'a>) -> Starts<'a>
        requires { length received.symbols.now ≡ 65 }
        ensures { (result.received.rows.now ≡ received.entry.rows.now) × (result.received.symbols.now ≡ received.entry.symbols.now) }
    {
        let mut predecessors = [[0u8; 32]; 65];
        let bounds = received.forward([0; 32], &mut predecessors);
        let first = lowest(&bounds);
        Starts {
            received,
            bounds,
            first,
        }
    }

    // Tries one more start. It is passed over where its bound is above the best metric: an equal one could be a tie.
    fn visit(&self, turn: usize, best: Outcome, inputs: &mut [u8; 65]) -> Outcome
        requires turn { turn < 32 }
        requires found { Found (Tried self.now.first turn) (tail_metric (branch_by self.now.received.rows.now self.now.received.symbols.now)) inputs.old best }
        ensures { Found (Tried self.now.first (turn + 1)) (tail_metric (branch_by self.now.received.rows.now self.now.received.symbols.now)) inputs.new result }
    {
        let start = (self.first + turn) % 32;
        if best.metric < self.bounds[start] {
            return best;
        }
        let mut word = [0u8; 65];
        let received = self.received;
        let run = received.nearest_between(start, start, &mut word);
        better(best, run, &word, inputs)
    }
}

// Tries all 32 starts, from a state of the least bound on. (By number: a turn is no place of a list, but how far a start is from the first.)
pub fn search(received: Received, inputs: &mut [u8; 65]) -> Outcome
    requires { length received.symbols.now ≡ 65 }
    ensures { Found (OfLength 65) (tail_metric (branch_by received.entry.rows.now received.entry.symbols.now)) inputs.new result }
{
    let starts = Starts::new(received);
    let first = starts.first;
    let mut best = received.nearest_between(first, first, inputs);
    for turn in 1..32 {
        best = starts.visit(turn, best, inputs);
    }
    best
}
