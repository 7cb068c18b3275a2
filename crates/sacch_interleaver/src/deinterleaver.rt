// The deinterleaver's calls.
// Ported from 136-bts, sacch.rs, and changed (see NOTICE).
ghost use Rattle.std.specs.Prelude.{◌≡◌, ◌<◌};
ghost use Rattle.sacch_interleaver.specs.Deinterleaver.{deinterleaver_fits, deinterleaver_state, field_stored, fresh_deinterleaver, push_row_of, row_found};

use crate::{SacchDeinterleaver, row_of, state_unless};
use bits::arguments::below;
use bits::{Refusal, all_below};

// (By hand, so that its contract names the fresh record.)
impl Default for SacchDeinterleaver {
    ghost is_default = { λ d. d ≡ fresh_deinterleaver };

    fn default() -> SacchDeinterleaver {
        SacchDeinterleaver::new()
    }
}

impl SacchDeinterleaver {
    // A deinterleaver that has received nothing.
    #[tactic(auto, unfolding(crate::specs::Deinterleaver::fresh_deinterleaver))]
    pub fn new() -> SacchDeinterleaver
        ensures { result ≡ fresh_deinterleaver }
    {
        SacchDeinterleaver {
            fields: [0; 12],
            cursor: 0,
            received: 0,
        }
    }

    // Forgets all fields, whatever the record held.
    pub fn reset(&mut self)
        ensures { self.new ≡ fresh_deinterleaver }
    {
        *self = SacchDeinterleaver::new();
    }

    // Whether refusal 8 lets a state pass.
    #[tactic(auto, using(bits::proofs::Below::below_less), unfolding(crate::specs::Deinterleaver::deinterleaver_fits))]
    pub fn fits(&self) -> bool
        ensures { result ≡ deinterleaver_fits self.now }
    {
        let counts = (self.cursor < 12) & (self.received < 13);
        counts & all_below(4096, &self.fields)
    }

    // Refused where a number is out of its range.
    fn state(&self) -> Result<(), Refusal>
        ensures { result ≡ deinterleaver_state self.now }
    {
        state_unless(self.fits())
    }

    // The field in the place of the oldest.
    #[tactic(auto, unfolding(crate::specs::Deinterleaver::field_stored))]
    fn store(&mut self, field: u16)
        requires { self.old.cursor < 12 }
        ensures { self.new ≡ field_stored self.old field }
    {
        self.fields[self.cursor] = field;
        self.cursor = (self.cursor + 1) % 12;
        self.received = self.received.min(11) + 1;
    }

    // The row that the newest field completes, once there are twelve.
    #[tactic(auto, unfolding(crate::specs::Deinterleaver::row_found))]
    fn row(&self) -> Option<u16>
        requires { self.now.cursor < 12 }
        ensures { result ≡ row_found self.now }
    {
        (12 <= self.received).then(|| row_of(&self.fields, self.cursor))
    }

    // One field pushed: the row that it completes, or nothing yet. Refused with State, then Symbol: then the deinterleaver is as it was.
    #[tactic(auto, unfolding(crate::specs::Deinterleaver::push_row_of))]
    pub fn push(&mut self, field: u16) -> Result<Option<u16>, Refusal>
        ensures answer { result ≡ (push_row_of self.old field).answer }
        ensures moved { self.new ≡ (push_row_of self.old field).deinterleaver }
    {
        self.state()?;
        below(4096, u64::from(field))?;
        self.store(field);
        Ok(self.row())
    }
}
