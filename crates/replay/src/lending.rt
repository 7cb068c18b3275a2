// A line as its call: lends the slices of a turn, and keeps what came of it.
use crate::told::Told;
use crate::{dcch_blocks, facch_words, sacch_words, speech_frames, steps};
use calls::answers::Answer;
use calls::arguments::Arguments;
use calls::errors::LineError;

#[derive(Clone, Copy, Debug, PartialEq, Eq)]
pub struct Line<'a> {
    module: &'a str,
    call: &'a str,
    pub arguments: &'a str,
}

impl<'a> Line<'a> {
    pub fn split(line: &'a str) -> Result<Line<'a>, LineError> {
        let (module, rest) = line.split_once(' ').ok_or(LineError::NoCall)?;
        let (call, arguments) = rest.split_once(' ').unwrap_or((rest, ""));
        Ok(Line {
            module,
            call,
            arguments,
        })
    }

    // Whether the call is over a record: then it is called once, and lent nothing.
    pub fn is_over_record(self) -> bool {
        self.module == "sacch" && self.call != "decode"
    }

    // The call of a turn, whose arguments these are.
    pub fn call(self, arguments: &mut Arguments) -> Result<Told<'_>, LineError> {
        if self.is_over_record() {
            return sacch_words::over_record(self.call, arguments);
        }
        let answer = self.lend(arguments)?;
        Ok(Told {
            answer,
            sent: None,
            became: None,
            rooms: arguments.rooms(),
        })
    }

    // Every call but those over records.
    fn lend(self, arguments: &mut Arguments) -> Result<Answer, LineError> {
        match self.module {
            "step" => steps::step(self.call, arguments),
            "coding" => steps::run(self.call, arguments),
            "dcch" => dcch_blocks::run(self.call, arguments),
            "facch" => facch_words::run(self.call, arguments),
            "sacch" => sacch_words::run(self.call, arguments),
            "speech" => speech_frames::vselp(self.call, arguments),
            "acelp_cc1" => speech_frames::acelp(self.call, arguments),
            _ => Err(LineError::NoCall),
        }
    }
}
