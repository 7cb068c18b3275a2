// The traceback.
ghost use Rattle.std.specs.Prelude.{◌<◌, ◌≤◌, length};
ghost use Rattle.search.specs.Traceback.{Traced};

// Reads the survivor into `end` back through the predecessor bytes: the input of each step is the lowest bit of the state that it enters.
// Gives whether a byte of a step from `since` on has the mark of a tie. (By number: a step is compared with `since`, and what
// `iter_mut().rev()` writes is not known to a proof.)
pub fn traceback(predecessors: &[[u8; 32]], end: usize, since: usize, bits: &mut [u8]) -> bool
    requires { (end < 32) × (length bits.old ≤ length predecessors.now) }
    ensures { Traced predecessors.now since (length bits.old) end bits.new result }
{
    let mut state = end;
    let mut tie = false;
    for step in (0..bits.len()).rev() {
        bits[step] = u8::from(state % 2 == 1);
        let byte = predecessors[step][state];
        tie |= (since <= step) & (32 <= byte);
        state = usize::from(byte % 32);
    }
    tie
}
