// Ranges of places, copied whole: specs/Ranges.antt. Where one goes depends on the lengths of those before it, so that place is counted.
ghost use Rattle.std.specs.Prelude.{◌≡◌, length};
ghost use Rattle.speech.specs.Ranges.{Bounds, put_ranges, ranges_of, total_of};

use std::ops::Range;

// Writes the ranges of a list, one after the other.
pub fn take_ranges(ranges: &[Range<usize>], list: &[u8], out: &mut [u8])
    requires { Bounds ranges.now (length list.now) × (length out.old ≡ total_of ranges.now) }
    ensures { out.new ≡ ranges_of ranges.now list.now }
{
    let mut at = 0;
    for range in ranges {
        let n = range.len();
        out[at..at + n].copy_from_slice(&list[range.start..range.end]);
        at += n;
    }
}

// Writes bits, in order, into the ranges of a list.
pub fn put_ranges(ranges: &[Range<usize>], bits: &[u8], list: &mut [u8])
    requires { Bounds ranges.now (length list.old) × (length bits.now ≡ total_of ranges.now) }
    ensures { list.new ≡ put_ranges ranges.now bits.now list.old }
{
    let mut at = 0;
    for range in ranges {
        let n = range.len();
        list[range.start..range.end].copy_from_slice(&bits[at..at + n]);
        at += n;
    }
}
