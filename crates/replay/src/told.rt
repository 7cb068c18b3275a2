// What came of a turn of a line, and how it is printed.
ghost use Rattle.std.specs.Prelude.{◌<◌, ◌↔◌, All, IsTrue, length};
ghost use Rattle.calls.specs.Rooms.{IsUntouched};

use crate::records::{Became, Numbers};
use calls::answers::Answer;
use calls::rooms::Room;
use std::fmt;

#[derive(Clone, Copy, Debug, PartialEq, Eq)]
pub struct Told<'a> {
    pub answer: Answer,
    // The fields that an encoder sent, and what became of the record, where the call was over one.
    pub sent: Option<Numbers>,
    pub became: Option<Became>,
    pub rooms: &'a [Room],
}

impl Told<'_> {
    // Whether there are rooms, and no call wrote to them.
    pub fn is_untouched(&self) -> bool
        ensures { IsTrue result ↔ ((0 < length self.now.rooms.now) × All IsUntouched self.now.rooms.now) }
    {
        !self.rooms.is_empty() && self.rooms.iter().all(|room| room.is_untouched())
    }
}

impl fmt::Display for Told<'_> {
    fn fmt<W: fmt::Write>(&self, f: &mut fmt::Formatter<W>) -> fmt::Result {
        let answer = self.answer;
        write!(f, "{answer}")?;
        if let Some(fields) = &self.sent {
            write!(f, " sent{fields}")?;
        }
        if let Some(became) = &self.became {
            write!(f, " {became}")?;
        }
        for room in self.rooms {
            write!(f, " {room}")?;
        }
        Ok(())
    }
}
