// The search over all starting and ending states (SACCH).
ghost use Rattle.std.specs.Prelude.{◌≡◌, ◌≤◌, length};
ghost use Rattle.search.specs.Ends.{LowestEnd, lower_of};
ghost use Rattle.search.specs.Forward.{branch_by};
ghost use Rattle.trellis.specs.Numbering.{newest_low};
ghost use Rattle.trellis.specs.Search.{Found};
ghost use Rattle.trellis.specs.Words.{OfLength, free_metric};

use crate::Received;
use crate::traceback::traceback;
use trellis::Outcome;

// The least metric, whether another state has it too, and the state that has it.
#[derive(Clone, Copy, Debug, PartialEq, Eq)]
pub struct End {
    pub outcome: Outcome,
    pub state: usize,
}

// The lower of the lowest end so far and one more. Two ways out, as which is taken depends on what was received: the three arms of a `match` on the order
// take half as long again.
#[tactic(auto, using(crate::proofs::Ends::less, crate::proofs::Ends::kept))]
fn lower(lowest: End, metric: u16, state: usize) -> End
    ensures { result ≡ lower_of lowest metric state }
{
    let least = lowest.outcome.metric;
    if metric < least {
        return End {
            outcome: Outcome { metric, tie: false },
            state,
        };
    }
    End {
        outcome: Outcome {
            metric: least,
            tie: lowest.outcome.tie | (metric == least),
        },
        state: lowest.state,
    }
}

// (By number, from 1 on, as the state 0 is the lowest so far: `enumerate().skip(1)` says no more than the range.)
fn lowest_end(metrics: [u16; 32]) -> End
    ensures { LowestEnd metrics 32 result }
{
    let mut lowest = End {
        outcome: Outcome {
            metric: metrics[0],
            tie: false,
        },
        state: 0,
    };
    for state in 1..32 {
        lowest = lower(lowest, metrics[state], state);
    }
    lowest
}

impl Received<'_> {
    // Writes a nearest word over all starts and ends, a step for each symbol. A tie counts from step 5 on: before it the register still
    // holds every input, so that two paths into a state differ in their starts alone and have one word.
    pub fn nearest_free(self, bits: &mut [u8]) -> Outcome
        requires { (5 ≤ length self.symbols.now) × (length bits.old ≡ length self.symbols.now) }
        ensures { Found (OfLength (length self.entry.symbols.now)) (free_metric newest_low (branch_by self.entry.rows.now self.entry.symbols.now)) bits.new result }
    {
        let mut predecessors = [[0u8; 32]; 130];
        let metrics = self.forward([0; 32], &mut predecessors);
        let end = lowest_end(metrics);
        let tie = traceback(&predecessors, end.state, 5, bits);
        Outcome {
            metric: end.outcome.metric,
            tie: end.outcome.tie | tie,
        }
    }
}
