// Bytes taken from the places of a list, and put at places: specs/Places.antt.
ghost use Rattle.std.specs.Prelude.{false, ◌≡◌, ◌≤◌, length};
ghost use Rattle.bits.specs.Bits.{bits, bytes};
ghost use Rattle.bits.specs.Numbers.{packed, unpacked};
ghost use Rattle.bits.specs.Places.{Apart, Below, put, taken};

use crate::{pack, unpack};

// Takes a byte from each place. (Written by place: after a `zip` with `iter_mut` a proof knows nothing of it.)
pub fn gather(places: &[u8], from: &[u8], to: &mut [u8])
    requires { (length to.old ≡ length places.now) × Below places.now (length from.now) }
    ensures { to.new ≡ taken 0 places.now from.now }
{
    for (i, place) in places.iter().enumerate() {
        to[i] = from[usize::from(*place)];
    }
}

// Puts a byte at each place, and leaves the others.
pub fn scatter(places: &[u8], from: &[u8], to: &mut [u8])
    requires { (length places.now ≤ length from.now) × Apart places.now (length to.old) }
    ensures { to.new ≡ put 0 places.now from.now to.old }
{
    for (place, byte) in places.iter().zip(from) {
        to[usize::from(*place)] = *byte;
    }
}

// The number that the bits at some places write, the first highest.
pub fn pack_at<const N: usize>(places: &[u8; N], from: &[u8]) -> u64
    requires { (length places.now ≤ 64) × Below places.now (length from.now) }
    ensures { result ≡ packed (taken false places.now (bits from.now)) }
{
    let mut found = [0u8; N];
    gather(places, from, &mut found);
    pack(&found)
}

// Puts the lowest bits of a number at some places, the highest first.
pub fn unpack_at<const N: usize>(value: u64, places: &[u8; N], to: &mut [u8])
    requires { Apart places.now (length to.old) }
    ensures { to.new ≡ put 0 places.now (bytes (unpacked (length places.now) value)) to.old }
{
    let mut lowest = [0u8; N];
    unpack(value, &mut lowest);
    scatter(places, &lowest, to);
}
