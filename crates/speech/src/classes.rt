// The places of a frame (IS-54-B 2.1.3.3.4), on which class two and the protected bits take turns.
// Ported from 136-bts, speech.rs, and changed (see NOTICE).
ghost use Rattle.std.specs.Prelude.{◌≡◌, length};
ghost use Rattle.speech.specs.Classes.{class_two_of, placed, protected_of};

use crate::ranges::{put_ranges, take_ranges};
use std::ops::Range;

const CLASS_TWO: [Range<usize>; 9] = [
    0..1,
    26..27,
    52..53,
    78..79,
    93..131,
    156..157,
    182..183,
    208..209,
    223..260,
];

// What lies between them.
const PROTECTED: [Range<usize>; 8] = [
    1..26,
    27..52,
    53..78,
    79..93,
    131..156,
    157..182,
    183..208,
    209..223,
];

// Writes the class-two bits of a frame.
pub fn take_class_two(frame: &[u8], class_two: &mut [u8])
    requires { (length frame.now ≡ 260) × (length class_two.old ≡ 82) }
    ensures { class_two.new ≡ class_two_of frame.now }
{
    take_ranges(&CLASS_TWO, frame, class_two);
}

// Writes the protected bits of a frame.
pub fn take_protected(frame: &[u8], protected: &mut [u8; 178])
    requires { length frame.now ≡ 260 }
    ensures { protected.new ≡ protected_of frame.now }
{
    take_ranges(&PROTECTED, frame, protected);
}

// Writes a frame of protected and class-two bits.
pub fn merge(protected: &[u8; 178], class_two: &[u8], frame: &mut [u8])
    requires { (length class_two.now ≡ 82) × (length frame.old ≡ 260) }
    ensures { frame.new ≡ placed 0 protected.now class_two.now }
{
    put_ranges(&CLASS_TWO, class_two, frame);
    put_ranges(&PROTECTED, protected, frame);
}
