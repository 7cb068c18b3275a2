// The arguments of a line in one of its turns: numbers, then slices that a call reads, then the rooms that it writes.
mod patterns;

ghost use Rattle.std.specs.Prelude.{◌≡◌, ◌%◌, All, IfErr, IfOk, OnOk, take};
ghost use Rattle.calls.specs.Rooms.{IsUntouched};
ghost use Rattle.calls.specs.declared.errors.LineError.TheVariants.{NoCall};

use crate::bytes::Bytes;
use crate::errors::LineError;
use crate::numerals::{length, number};
use crate::rooms::Room;
use patterns::Slice;

#[derive(Clone, Copy, Debug, PartialEq, Eq)]
pub struct Arguments {
    // Of more than 64 numbers, the first 64.
    pub numbers: [u64; 64],
    // Of more than two slices that a call reads, the first and the last, and so of the rooms.
    pub inputs: [Bytes; 2],
    pub rooms: [Room; 2],
    // How many of each the line has. As they are taken, the counts of inputs and rooms go round at four, and the one of numbers at 64: they are no lengths, as
    // stored lines are answered as they were, whatever their counts.
    pub numbers_given: usize,
    pub inputs_given: usize,
    pub rooms_given: usize,
    // In how many turns the line is called with another byte each time, where not once.
    pub turns: Option<usize>,
}

impl Arguments {
    // The numbers, what a call reads and where it writes, as the counts go round.
    pub fn parts(&mut self) -> (&[u64], &[Bytes], &mut [Room])
        ensures numbers { result.0.now ≡ take (self.old.numbers_given % 64) self.old.numbers }
        ensures inputs { result.1.now ≡ take (self.old.inputs_given % 4) self.old.inputs }
        ensures rooms { result.2.now ≡ take (self.old.rooms_given % 4) self.old.rooms }
    {
        let numbers = self.numbers_given % 64;
        let inputs = (self.inputs_given % 4).min(2);
        let rooms = (self.rooms_given % 4).min(2);
        // Lent whole, before a part of them is.
        let all_rooms = &mut self.rooms;
        (
            &self.numbers[..numbers],
            &self.inputs[..inputs],
            &mut all_rooms[..rooms],
        )
    }

    // The rooms: of more than two the first and the last.
    pub fn rooms(&self) -> &[Room]
        ensures { result.now ≡ take self.now.rooms_given self.now.rooms }
    {
        &self.rooms[..self.rooms_given.min(2)]
    }

    fn new() -> Arguments
        ensures { All IsUntouched result.rooms }
    {
        Arguments {
            numbers: [0; 64],
            inputs: [Bytes::repeated(0, 0); 2],
            rooms: [Room::new(0); 2],
            numbers_given: 0,
            inputs_given: 0,
            rooms_given: 0,
            turns: None,
        }
    }

    pub fn read(words: &str, turn: usize) -> Result<Arguments, LineError>
        ensures untouched { IfOk result (λ arguments. All IsUntouched arguments.rooms) }
        ensures no_call { IfErr result (λ error. error ≡ NoCall) }
    {
        let mut arguments = Arguments::new();
        for word in words.split_terminator(' ') {
            arguments.take(word, turn)?;
        }
        // No call has three.
        if arguments.inputs_given % 4 == 3 || arguments.rooms_given % 4 == 3 {
            return Err(LineError::NoCall);
        }
        Ok(arguments)
    }

    // One more number, which is dropped where there is no room for it.
    fn push_number(&mut self, number: u64)
        ensures { self.new.rooms ≡ self.old.rooms }
    {
        if self.numbers_given < 64 {
            self.numbers[self.numbers_given] = number;
        }
        self.numbers_given = self.numbers_given.wrapping_add(1);
    }

    // One more slice that a call reads. The first stays.
    fn push_input(&mut self, input: Bytes)
        ensures { self.new.rooms ≡ self.old.rooms }
    {
        self.inputs[self.inputs_given.min(1)] = input;
        self.inputs_given = self.inputs_given.wrapping_add(1);
    }

    // One more room. The first stays.
    fn push_room(&mut self, room: Room)
        requires untouched { All IsUntouched self.old.rooms }
        requires new { IsUntouched room }
        ensures { All IsUntouched self.new.rooms }
    {
        self.rooms[self.rooms_given.min(1)] = room;
        self.rooms_given = self.rooms_given.wrapping_add(1);
    }

    // One argument: `:` starts a slice, `_` the length of a room, and anything else is a number.
    fn take(&mut self, word: &str, turn: usize) -> Result<(), LineError>
        requires { All IsUntouched self.old.rooms }
        ensures untouched { OnOk result (All IsUntouched self.new.rooms) }
        ensures no_call { IfErr result (λ error. error ≡ NoCall) }
    {
        if let Some(pattern) = word.strip_prefix(':') {
            let slice = Slice::expand(pattern, turn)?;
            self.turns = self.turns.max(slice.turns);
            self.push_input(slice.bytes);
        } else if let Some(digits) = word.strip_prefix('_') {
            self.push_room(Room::new(length(digits)?));
        } else {
            self.push_number(number(word)?);
        }
        Ok(())
    }
}
