// The forward recursion.
ghost use Rattle.std.specs.Prelude.{◌≤◌, length};
ghost use Rattle.search.specs.Forward.{Forwarded, Starts, branch_by, engine};

use crate::Received;
use crate::butterfly::advance;

impl Received<'_> {
    // The forward recursion, a step for each symbol. Stores each state's predecessor byte, and gives the metrics after the last. (Stored by
    // place: after a `zip` with `iter_mut` a proof knows nothing of what was written.)
    pub fn forward(self, start: [u16; 32], predecessors: &mut [[u8; 32]]) -> [u16; 32]
        requires { (length self.symbols.now ≤ length predecessors.old) × Starts start }
        ensures { Forwarded (engine (branch_by self.entry.rows.now self.entry.symbols.now) start) predecessors.old predecessors.new (length self.entry.symbols.now) result }
    {
        let mut metrics = start;
        for (step, symbol) in self.symbols.iter().enumerate() {
            let column = advance(metrics, self.rows[usize::from(*symbol)]);
            metrics = column.metrics;
            let chosen = column.predecessors;
            predecessors[step] = chosen;
        }
        metrics
    }
}
