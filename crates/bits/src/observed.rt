// Received bits, of which some were not observed: bytes 0 and 1, and 2 for one that was not. The contracts cite specs/Observed.antt.
ghost use Rattle.std.specs.Prelude.{◌≡◌, ◌<◌, ◌≤◌, length};
ghost use Rattle.bits.specs.Bits.{bit};
ghost use Rattle.bits.specs.Observed.{erased_differ, exact_erasable, observed_count};

use crate::arguments::{exact, symbol_unless};
use crate::{Refusal, all_below, differs};

// The byte of a bit that was not observed. (A byte and no Option: C lends it.)
pub const UNOBSERVED: u8 = 2;

// So many bytes 0, 1 and 2: the length, then the symbols.
#[tactic(auto, using(crate::proofs::Below::below_less))]
pub fn exact_erasable(wanted: usize, s: &[u8]) -> Result<(), Refusal>
    ensures { result ≡ exact_erasable wanted s.now }
{
    exact(wanted, s.len())?;
    symbol_unless(all_below(3, s))
}

// 1 where an observed bit reads otherwise than the coded bit.
pub fn erased_differs(sent: u8, received: u8) -> u8
    ensures { (result ≡ erased_differ (bit sent) received) × (result ≤ 1) }
{
    if received == UNOBSERVED {
        return 0;
    }
    differs(sent, received)
}

// The number of observed bytes.
pub fn count_observed(s: &[u8]) -> u16
    requires { length s.now ≤ 260 }
    ensures { result ≡ observed_count s.now }
{
    let mut n = 0;
    for x in s {
        n += u16::from(*x != UNOBSERVED);
    }
    n
}
