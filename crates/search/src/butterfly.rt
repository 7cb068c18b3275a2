// Add, compare, select over the 32 states of a shift register of five bits. A state has its newest input lowest: 2 n and 2 n + 1
// follow n and n + 16, so that loads are contiguous.
ghost use Rattle.search.specs.Butterfly.{Advanced, Fit};

use crate::select::predecessor_byte;

// The metrics of all states after a step, and a predecessor byte of each. (Two lists: the next step takes the metrics, the traceback the bytes. No Eq:
// soft's metrics are doubles.)
#[derive(Clone, Copy, Debug, PartialEq)]
pub struct Column<M> {
    pub metrics: M,
    pub predecessors: [u8; 32],
}

// One step of the search. A byte is the predecessor, and 96 more where both cost the same. row: the branch metrics from n into 2 n, 16 of them, from n into 2 n + 1, and the same from n + 16.
// (By number: a turn reads six places of two lists and writes four of two. Its cast loses nothing below 16,
// where `u8::try_from` would have an error that never comes.)
pub fn advance(metrics: [u16; 32], row: [u16; 64]) -> Column<[u16; 32]>
    requires { Fit metrics row }
    ensures { Advanced metrics row result }
{
    let mut next = [0u16; 32];
    let mut predecessors = [0u8; 32];
    for n in 0..16 {
        let lower = metrics[n];
        let upper = metrics[n + 16];
        let a = lower + row[n];
        let b = upper + row[n + 32];
        let c = lower + row[n + 16];
        let d = upper + row[n + 48];
        let from = n as u8;
        next[n * 2] = a.min(b);
        next[n * 2 + 1] = c.min(d);
        predecessors[n * 2] = predecessor_byte(a, b, from);
        predecessors[n * 2 + 1] = predecessor_byte(c, d, from);
    }
    Column {
        metrics: next,
        predecessors,
    }
}
