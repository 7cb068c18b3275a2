// The search from one state to another.
ghost use Rattle.std.specs.Prelude.{◌≡◌, ◌<◌, ◌≤◌, length};
ghost use Rattle.search.specs.Forward.{branch_by};
ghost use Rattle.trellis.specs.Numbering.{newest_low};
ghost use Rattle.trellis.specs.Search.{FoundFirst};
ghost use Rattle.trellis.specs.Words.{Leads, word_metric};

use crate::Received;
use crate::traceback::traceback;
use trellis::Outcome;

// More than any word weighs: 130 steps of at most 4.
const UNREACHABLE: u16 = 1000;

impl Received<'_> {
    // Writes the nearest word from the state `from` to the state `to`, the first such, a step for each symbol.
    pub fn nearest_between(self, from: usize, to: usize, bits: &mut [u8]) -> Outcome
        requires { (from < 32) × (to < 32) × (5 ≤ length self.symbols.now) × (length bits.old ≡ length self.symbols.now) }
        ensures { FoundFirst (Leads newest_low from to (length self.entry.symbols.now)) (word_metric newest_low (branch_by self.entry.rows.now self.entry.symbols.now) from) bits.new result }
    {
        let mut start = [UNREACHABLE; 32];
        start[from] = 0;
        let mut predecessors = [[0u8; 32]; 130];
        let metrics = self.forward(start, &mut predecessors);
        let tie = traceback(&predecessors, to, 0, bits);
        Outcome {
            metric: metrics[to],
            tie,
        }
    }
}
