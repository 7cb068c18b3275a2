// The reads and writes of the standard streams, what they were given and answered, and what comes after them. No contract can say which stream the system reads
// from or writes to, nor which bytes, so each of the two stands alone in a function (`read_once`, `write_once`) whose answer names what it was given. No other
// file can make one.
ghost use Rattle.std.specs.Prelude.{◌≡◌, not, ◌≤◌, eqb, length, IfSome};
ghost use Rattle.std.specs.Option.{unwrap_or};
ghost use Rattle.frames.specs.Streams.{FirstSent, Message, Received, Told, complete, failure_text, left_text, next_of};

use std::io::{Read, Stderr, Stdin, Stdout, Write};

#[derive(Clone, Copy, Debug, PartialEq, Eq)]
pub enum Stream {
    Input,
    Output,
    Messages,
}

// The three streams of a process. (One of a run, and neither compared nor printed.)
#[derive(Clone, Copy)]
pub struct Streams {
    input: Stdin,
    output: Stdout,
    messages: Stderr,
}

// What a read from a stream answered: how many bytes it put at the start of the buffer, or that it failed.
#[derive(Clone, Copy, Debug, PartialEq, Eq)]
pub struct Got {
    from: Stream,
    read: Option<usize>,
}

// What a stream was handed: so many bytes of a text, from the first on; and whether it took all of them.
#[derive(Clone, Copy, Debug, PartialEq, Eq)]
pub struct Sent {
    to: Stream,
    bytes: usize,
    whole: bool,
}

// What comes after a read and the write of its answers. (An enum of its own: std's `ControlFlow` would name neither way to end.)
#[derive(Clone, Copy, Debug, PartialEq, Eq)]
pub enum Next {
    Read,
    Finish,
    Fail,
}

impl Got {
    // How many bytes of the buffer count as read: none where the read failed.
    pub fn count(self) -> usize
        ensures { result ≡ unwrap_or self.read 0 }
    {
        self.read.unwrap_or(0)
    }
}

impl Streams {
    pub fn new(rt: &HostRuntime) -> Streams {
        Streams {
            input: rt.stdin(),
            output: rt.stdout(),
            messages: rt.stderr(),
        }
    }

    // Reads once from a stream; it fails where the stream is not one that is read.
    fn read_from(self, from: Stream, piece: &mut [u8]) -> Option<usize>
        ensures { IfSome result (λ n. n ≤ length piece.new) }
    {
        let mut input = self.input;
        match from {
            Stream::Input => input.read(piece).ok(),
            Stream::Output | Stream::Messages => None,
        }
    }

    pub fn read_once(self, from: Stream, piece: &mut [u8]) -> Got
        ensures { Received from piece.new result }
    {
        Got {
            from,
            read: self.read_from(from, piece),
        }
    }

    // Writes all of the text to a stream, and answers whether that was done; it fails where the stream is not one that is written. (No Result: the cause of a failure is told nowhere.)
    fn write_to(self, to: Stream, text: &[u8]) -> bool {
        let mut output = self.output;
        let mut messages = self.messages;
        match to {
            Stream::Input => false,
            Stream::Output => output.write_all(text).is_ok(),
            Stream::Messages => messages.write_all(text).is_ok(),
        }
    }

    pub fn write_once(self, to: Stream, text: &[u8]) -> Sent
        ensures { FirstSent to (length text.now) result }
    {
        Sent {
            to,
            bytes: text.len(),
            whole: self.write_to(to, text),
        }
    }

    // A message to standard error, where there is a cause for it.
    fn tell(self, cause: bool, text: &[u8]) -> Option<Sent>
        requires { Message text.now }
        ensures { Told cause text.now result }
    {
        if !cause {
            return None;
        }
        Some(self.write_once(Stream::Messages, text))
    }

    // What was written stays, and the missing totals show that it is not all.
    #[tactic(auto, unfolding(crate::specs::Streams::failure_text))]
    pub fn tell_failure(self, next: Next, totals: Option<Sent>) -> Option<Sent>
        ensures { Told (not (complete next totals)) failure_text result }
    {
        let failed = !is_complete(next, totals);
        self.tell(
            failed,
            b"frames: a read or a write failed; no totals are written\n",
        )
    }

    // With a million lines read no more is read.
    #[tactic(auto, unfolding(crate::specs::Streams::left_text))]
    pub fn tell_left(self, left: u32) -> Option<Sent>
        ensures { Told (eqb left 0) left_text result }
    {
        self.tell(
            left == 0,
            b"frames: a million lines were read; any input after them is left\n",
        )
    }
}

// A failed call ends the run; so does the end of the input, and a million lines read.
#[tactic(auto, unfolding(crate::specs::Streams::next_of))]
pub fn decide(got: Got, sent: Sent, left: u32) -> Next
    ensures { result ≡ next_of got.read sent.whole left }
{
    match got.read {
        None => Next::Fail,
        Some(_) if !sent.whole => Next::Fail,
        Some(0) => Next::Finish,
        Some(_) if left == 0 => Next::Finish,
        Some(_) => Next::Read,
    }
}

// Whether the input was answered to its end, and the totals were written.
#[tactic(auto, unfolding(crate::specs::Streams::complete))]
fn is_complete(next: Next, totals: Option<Sent>) -> bool
    ensures { result ≡ complete next totals }
{
    next == Next::Finish && totals.is_some_and(|sent| sent.whole)
}
