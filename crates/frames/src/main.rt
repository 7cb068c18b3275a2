// Reads lines of channel words from standard input, and writes an answer to each and the totals (document 01, 'The line program `frames`').
// What it writes for an input is `output` of session/specs/Output.antt; specs/Turns.antt has the run that comes to it.
#![tactic(auto)]

mod streams;

ghost use Rattle.std.specs.Prelude.{◌≡◌};
ghost use Rattle.session.specs.Sessions.{at_start};
ghost use Rattle.frames.specs.Turns.{Answered, Concluded, Listened, Ran};

use crate::streams::{Got, Next, Sent, Stream, Streams, decide};
use session::Session;
use text::buffer::Buffer;

// One read, and the write of its answers.
#[derive(Clone, Copy, Debug, PartialEq, Eq)]
struct Turn {
    got: Got,
    sent: Sent,
    // How many lines may still be read.
    left: u32,
    next: Next,
}

// All that the program did.
#[derive(Clone, Copy, Debug, PartialEq, Eq)]
struct Outcome {
    last: Turn,
    totals: Option<Sent>,
    // The messages on standard error.
    failure: Option<Sent>,
    left: Option<Sent>,
}

// What a run holds from one turn to the next. (One of a run, and neither compared nor printed.)
#[derive(Drop)]
struct Run {
    streams: Streams,
    session: Session,
    piece: [u8; 16384],
    // 25 bytes for each byte of the piece: room for every answer.
    page: Buffer<409600>,
}

impl Run {
    // Reads once, and writes what the bytes are answered.
    fn answer_piece(&mut self) -> Turn
        ensures { Answered self.old.session self.new.piece self.new.session self.new.page result }
    {
        let got = self.streams.read_once(Stream::Input, &mut self.piece);
        let n = got.count();
        self.session.feed(&self.piece[..n], &mut self.page);
        let answers = self.page.as_slice();
        let sent = self.streams.write_once(Stream::Output, answers);
        let left = self.session.left();
        Turn {
            got,
            sent,
            left,
            next: decide(got, sent, left),
        }
    }

    // Turns until there is no more to read. Nothing says that an input ends, so they are counted: a `while` has to have an end.
    fn listen(&mut self) -> Turn
        requires { self.old.session ≡ at_start }
        ensures { Listened result self.new.session }
    {
        let mut last = self.answer_piece();
        for _turn in 0..u64::MAX {
            if last.next != Next::Read {
                return last;
            }
            last = self.answer_piece();
        }
        last
    }

    // A last line and the totals, where the input was answered to its end.
    #[tactic(auto, unfolding(crate::specs::Turns::Concluded))]
    fn conclude(&mut self, next: Next) -> Option<Sent>
        ensures { Concluded next self.old.session self.new.page result }
    {
        if next != Next::Finish {
            return None;
        }
        self.session.finish(&mut self.page);
        let totals = self.page.as_slice();
        Some(self.streams.write_once(Stream::Output, totals))
    }

    fn run(&mut self) -> Outcome
        requires { self.old.session ≡ at_start }
        ensures { Ran self.new.page result }
    {
        let last = self.listen();
        let totals = self.conclude(last.next);
        let failure = self.streams.tell_failure(last.next, totals);
        let left = self.streams.tell_left(last.left);
        Outcome {
            last,
            totals,
            failure,
            left,
        }
    }
}

fn main(rt: HostRuntime) {
    let mut run = Run {
        streams: Streams::new(&rt),
        session: Session::new(),
        piece: [0; 16384],
        page: Buffer::new(),
    };
    run.run();
}
