// The receiver's calls.
// Ported from 136-bts, sacch.rs, and changed (see NOTICE).
ghost use Rattle.std.specs.Prelude.{Ok, ◌≡◌, ◌<◌};
ghost use Rattle.sacch_receiver.specs.Receiver.{fresh_receiver, push_of, moved, push_word_of, row_stored, rows_state, tried};

use crate::window::decode_window;
use crate::{Pushed, ReceiveOutcome, SacchReceiver};
use bits::{Refusal, all_below};
use sacch_decoder::SacchWord;
use sacch_interleaver::{SacchDeinterleaver, state_unless};

// (By hand, so that its contract names the fresh record.)
impl Default for SacchReceiver {
    ghost is_default = { λ r. r ≡ fresh_receiver };

    fn default() -> SacchReceiver {
        SacchReceiver::new()
    }
}

impl SacchReceiver {
    // A receiver that has heard nothing.
    #[tactic(auto, unfolding(crate::specs::Receiver::fresh_receiver))]
    pub fn new() -> SacchReceiver
        ensures { result ≡ fresh_receiver }
    {
        SacchReceiver {
            deinterleaver: SacchDeinterleaver::new(),
            rows: [0; 11],
            row_cursor: 0,
            available: 0,
            phase: 0,
            locked_phase: None,
        }
    }

    // After a gap or a handoff: all that was heard is forgotten, whatever the record held.
    pub fn discontinuity(&mut self)
        ensures { self.new ≡ fresh_receiver }
    {
        *self = SacchReceiver::new();
    }

    // Refused where a number that the receiver holds beside its deinterleaver is out of its range. All tests are made: none is likely to fail.
    #[tactic(auto, using(bits::proofs::Below::below_less), unfolding(crate::specs::Receiver::rows_fit))]
    fn state(&self) -> Result<(), Refusal>
        ensures { result ≡ rows_state self.now }
    {
        let counts = (self.row_cursor < 11) & (self.available < 12) & (self.phase < 11);
        let lock = self.locked_phase.is_none_or(|phase| phase < 11);
        state_unless(counts & lock & all_below(4096, &self.rows))
    }

    // The row in the place of the oldest, and the phase one on. (No type of ring for this and the two stores below: C holds two of the records flat, with their
    // cursor.)
    #[tactic(auto, unfolding(crate::specs::Receiver::row_stored))]
    fn store(&mut self, row: u16)
        requires { (self.old.row_cursor < 11) × (self.old.phase < 11) }
        ensures { self.new ≡ row_stored self.old row }
    {
        self.rows[self.row_cursor] = row;
        self.row_cursor = (self.row_cursor + 1) % 11;
        self.available = self.available.min(10) + 1;
        self.phase = (self.phase + 1) % 11;
    }

    // Tries the rows where there are eleven and the lock allows this phase. A word locks at this phase, a rejection unlocks.
    #[tactic(auto, unfolding(crate::specs::Receiver::tried, crate::specs::Receiver::locked))]
    fn trial(&mut self, dvcc: u8) -> ReceiveOutcome
        requires { self.old.row_cursor < 11 }
        ensures answer { Ok result ≡ (tried self.old dvcc).answer }
        ensures moved { self.new ≡ (tried self.old dvcc).receiver }
    {
        if self.available < 11 || self.locked_phase.is_some_and(|phase| phase != self.phase) {
            return ReceiveOutcome::Pending;
        }
        match decode_window(&self.rows, self.row_cursor, dvcc) {
            Ok(word) => {
                self.locked_phase = Some(self.phase);
                ReceiveOutcome::Word(word)
            }
            Err(why) => {
                self.locked_phase = None;
                ReceiveOutcome::Rejected(why)
            }
        }
    }

    // One field pushed. Refused with State, then Symbol: then the receiver is as it was.
    #[tactic(auto, using(crate::proofs::Pushing::rows_refused, crate::proofs::Pushing::pushed_told))]
    pub fn push_outcome(&mut self, field: u16, dvcc: u8) -> Result<ReceiveOutcome, Refusal>
        ensures answer { result ≡ (push_of self.old field dvcc).answer }
        ensures moved { self.new ≡ (push_of self.old field dvcc).receiver }
    {
        self.state()?;
        let Some(row) = self.deinterleaver.push(field)? else {
            return Ok(ReceiveOutcome::Pending);
        };
        self.store(row);
        Ok(self.trial(dvcc))
    }

    // The same, with a word or nothing as the answer.
    #[tactic(auto, unfolding(crate::specs::Receiver::push_word_of))]
    pub fn push(&mut self, field: u16, dvcc: u8) -> Result<Option<SacchWord>, Refusal>
        ensures answer { result ≡ (push_word_of self.old field dvcc).answer }
        ensures moved { self.new ≡ (push_word_of self.old field dvcc).receiver }
    {
        match self.push_outcome(field, dvcc)? {
            ReceiveOutcome::Word(word) => Ok(Some(word)),
            ReceiveOutcome::Pending | ReceiveOutcome::Rejected(_) => Ok(None),
        }
    }

    // The same as `push_outcome`, over a receiver that goes in by value and comes back.
    pub fn pushed(mut self, field: u16, dvcc: u8) -> Pushed
        ensures { moved result ≡ push_of self field dvcc }
    {
        let outcome = self.push_outcome(field, dvcc);
        Pushed {
            outcome,
            receiver: self,
        }
    }
}
