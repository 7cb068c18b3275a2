// The codes of the standards. A code is a type alone: no value of it is made, so that nothing is derived.
// Ported from 136-bts, dcch.rs, facch.rs and acelp_cc1.rs, and changed (see NOTICE).
ghost use Rattle.coding.specs.Codes.{acelp, dcch, facch};
ghost use Rattle.coding.specs.Laws.{acelp_laws, dcch_laws, facch_laws};
ghost use Rattle.coding.specs.Registers.{memory_high, memory_low};

use crate::register::{newest_highest, newest_lowest};
use crate::{Code, Step};

// TIA/EIA-136-410 4.3, the newest input lowest. DCCH's are the same in this order.
pub const ACELP_GENERATORS: [u8; 2] = [0b101011, 0b111101];

// FACCH's with the newest input lowest, as the search numbers its states.
pub const FACCH_LOW_GENERATORS: [u8; 4] = [0b111011, 0b100111, 0b101111, 0b110101];

// The code of DCCH, SACCH and VSELP: IS-136.2-A 2.1.3.3.3.4.
pub struct Dcch;

impl Code<2> for Dcch {
    ghost code = { dcch };

    ghost memory = { memory_high };

    ghost laws = { dcch_laws };

    fn transition(state: u8, input: u8) -> Step<2> {
        newest_highest([0o65, 0o57], state, input)
    }
}

// The code of FACCH: IS-54-B 2.7.3.1.1.4.
pub struct Facch;

impl Code<4> for Facch {
    ghost code = { facch };

    ghost memory = { memory_high };

    ghost laws = { facch_laws };

    fn transition(state: u8, input: u8) -> Step<4> {
        newest_highest([0o67, 0o71, 0o75, 0o53], state, input)
    }
}

// The code of ACELP CC1.
pub struct Acelp;

impl Code<2> for Acelp {
    ghost code = { acelp };

    ghost memory = { memory_low };

    ghost laws = { acelp_laws };

    fn transition(state: u8, input: u8) -> Step<2> {
        newest_lowest(ACELP_GENERATORS, state, input)
    }
}
