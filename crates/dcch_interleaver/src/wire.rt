// The interleaver (IS-136.1-A 4.4.3.2): the cells are sent by rows, the even rows first. specs/Wire.antt says which cell is sent at which place.
// Ported from 136-bts (see NOTICE): `permutation`, `interleave` and `deinterleave` of dcch.rs, with loops over the rows in place of the table.
// A format is known at run time only, so lengths stay clauses.
ghost use Rattle.std.specs.Prelude.{◌≡◌, cond, length};
ghost use Rattle.dcch_interleaver.specs.Formats.{encoded_bits};
ghost use Rattle.dcch_interleaver.specs.Wire.{deinterleaved, interleaved};

use crate::BlockFormat;

// The places that are read and written where a cell is sent. (A bool: an enum is no const parameter.)
fn read_and_written<const SENDS: bool>(wire: usize, cell: usize) -> (usize, usize)
    ensures { result ≡ cond SENDS (cell, wire) (wire, cell) }
{
    if SENDS { (cell, wire) } else { (wire, cell) }
}

// Copies in the order sent: the cells to where they are sent, or what was received to its cells.
// Loops, since an iterator over the cells in this order took 200 ns a block where these take 86.
fn copy_in_order<T: Copy, const SENDS: bool>(format: BlockFormat, from: &[T], to: &mut [T])
    requires { (length from.now ≡ encoded_bits format) × (length to.old ≡ encoded_bits format) }
    ensures { (d : T) → to.new ≡ cond SENDS (interleaved format d from.now) (deinterleaved format d from.now) }
{
    let rows = format.rows();
    let mut wire = 0;
    for first in 0..2 {
        for row in (first..rows).step_by(2) {
            for cell in (row..from.len()).step_by(rows) {
                let (read, written) = read_and_written::<SENDS>(wire, cell);
                to[written] = from[read];
                wire += 1;
            }
        }
    }
}

// Writes what is sent of the cells.
pub fn interleave<T: Copy>(format: BlockFormat, cells: &[T], wires: &mut [T])
    requires { (length cells.now ≡ encoded_bits format) × (length wires.old ≡ encoded_bits format) }
    ensures { (d : T) → wires.new ≡ interleaved format d cells.now }
{
    copy_in_order::<T, true>(format, cells, wires);
}

// Writes the cells of what was received: bits or reliabilities.
pub fn deinterleave<T: Copy>(format: BlockFormat, wires: &[T], cells: &mut [T])
    requires { (length wires.now ≡ encoded_bits format) × (length cells.old ≡ encoded_bits format) }
    ensures { (d : T) → cells.new ≡ deinterleaved format d wires.now }
{
    copy_in_order::<T, false>(format, wires, cells);
}
