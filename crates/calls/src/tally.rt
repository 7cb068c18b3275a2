// Of the turns of a line, how many were answered, refused by each number, and left the rooms as they were.
ghost use Rattle.std.specs.Prelude.{◌≡◌, slice_index, slice_set};
ghost use Rattle.calls.specs.Tally.{one_more, with_turn};

use crate::answers::Answer;
use std::fmt;

#[derive(Clone, Copy, Debug, PartialEq, Eq, Default)]
pub struct Tally {
    pub answered: u32,
    pub refused: [u32; 9],
    pub untouched: u32,
}

impl Tally {
    pub fn count(&mut self, answer: Answer, untouched: bool)
        ensures { self.new ≡ with_turn self.old answer untouched }
    {
        if untouched {
            self.untouched = self.untouched.saturating_add(1);
        }
        if let Answer::Refused { number, .. } = answer {
            self.count_refusal(number);
        } else {
            self.answered = self.answered.saturating_add(1);
        }
    }

    fn count_refusal(&mut self, number: u8)
        ensures { self.new ≡ record self.old { refused = slice_set self.old.refused number (one_more (slice_index self.old.refused number)) } }
    {
        let number = usize::from(number);
        if let Some(count) = self.refused.get(number) {
            self.refused[number] = count.saturating_add(1);
        }
    }
}

impl fmt::Display for Tally {
    fn fmt<W: fmt::Write>(&self, f: &mut fmt::Formatter<W>) -> fmt::Result {
        let answered = self.answered;
        write!(f, "{answered} answered")?;
        for (number, count) in self.refused.iter().enumerate() {
            if *count != 0 {
                write!(f, ", {count} refused {number}")?;
            }
        }
        let untouched = self.untouched;
        if untouched != 0 {
            write!(f, ", {untouched} untouched")?;
        }
        Ok(())
    }
}
