// A run of the program `frames` between its reads and writes: a line answered and counted where it ends, and the closing lines.
// specs/Output.antt has what is written for a whole input, as one definition.
#![tactic(auto)]

mod lent;
mod replies;
mod totals;

ghost use Rattle.std.specs.Prelude.{◌≡◌, ◌≢◌, ◌++◌, ◌+◌, ◌*◌, ◌≤◌, ◌<◌, ℕ, length, get_or, slice_index};
ghost use Rattle.session.specs.Scanning.{bytes_said, closed, end_said, ended, seen};
ghost use Rattle.session.specs.Sessions.{Fits, at_start, end_text};

use crate::replies::reply_to;
pub use crate::totals::Tally;
use crate::totals::{added, put_closing};
use lines::reply::put_reply;
use sacch::SacchReceiver;
use std::marker::Model;
use text::buffer::Buffer;
use text::line_end;

// All that goes from one piece of the input to the next. A clause sees it as a scan of the input so far (specs/Scanning.antt).
#[derive(Clone, Copy)]
pub struct Session {
    // How many lines may still be read.
    left: u32,
    // The line so far: its first 137 characters, as no answer depends on more.
    line: Buffer<137>,
    receiver: SacchReceiver,
    tally: Tally,
    // How many words each colour code has.
    counts: [u32; 256],
}

impl Model for Session {
    ghost use Rattle.session.specs.Scanning.{Scan};
    ghost use Rattle.session.specs.Sessions.{Fits};

    ghost Value = { Scan };

    ghost view = { λ s. record { left = s.left; state = record { receiver = s.receiver; tally = s.tally; counts = s.counts }; part = s.line } };

    ghost invariant = { λ s. Fits s.tally s.left s.counts s.line };

    ghost inverse = { λ c. record { left = c.left; line = c.part; receiver = c.state.receiver; tally = c.state.tally; counts = c.state.counts } };
}

impl Session {
    // Before the input: nothing heard, nothing counted, a million lines to read.
    pub fn new() -> Self
        ensures { result ≡ at_start }
    {
        Session {
            left: 1000000,
            line: Buffer::new(),
            receiver: SacchReceiver::new(),
            tally: Tally::default(),
            counts: [0; 256],
        }
    }

    // A session that goes on from anywhere: so many lines may still be read, and this is the line so far, the receiver, the totals and the words of each code.
    pub fn resumed(
        left: u32,
        line: &[u8],
        receiver: SacchReceiver,
        tally: Tally,
        counts: [u32; 256],
    ) -> Self
        requires { Fits tally left counts line.now }
        ensures { result ≡ record { left = left; state = record { receiver = receiver; tally = tally; counts = counts }; part = line.now } }
    {
        let mut kept = Buffer::new();
        kept.extend_from_slice(line);
        Session {
            left,
            line: kept,
            receiver,
            tally,
            counts,
        }
    }

    // How many lines may still be read.
    pub fn left(&self) -> u32
        ensures { result ≡ self.now.left }
    {
        self.left
    }

    // How many characters of the line so far are kept.
    pub fn len(&self) -> usize
        ensures { result ≡ length self.now.part }
    {
        self.line.len()
    }

    // The line so far, as much of it as is kept.
    pub fn line(&self) -> &[u8]
        ensures { result.now ≡ self.now.part }
    {
        self.line.as_slice()
    }

    // How many words a colour code has.
    pub fn words(&self, dvcc: u8) -> u32
        ensures { result ≡ get_or self.now.state.counts dvcc 0 }
    {
        self.counts[usize::from(dvcc)]
    }

    // The one receiver, as the lines so far leave it.
    pub fn receiver(&self) -> SacchReceiver
        ensures { result ≡ self.now.state.receiver }
    {
        self.receiver
    }

    // The totals of the lines so far.
    pub fn tally(&self) -> Tally
        ensures { result ≡ self.now.state.tally }
    {
        self.tally
    }

    // Bytes of a line, none of them LF, go on with the line so far.
    fn keep(&mut self, part: &[u8])
        requires { (k : ℕ) → k < length part.now → slice_index part.now k ≢ 10 }
        ensures { self.new ≡ seen self.old part.now }
    {
        let n = part.len().min(137 - self.line.len());
        self.line.extend_from_slice(&part[..n]);
    }

    // The line so far is at its end: it is answered and counted, unless a million lines were read.
    pub fn end_line<const N: usize>(&mut self, page: &mut Buffer<N>)
        requires { length page.old + 25 ≤ N }
        ensures session { self.new ≡ ended self.old }
        ensures text { page.new ≡ page.old ++ end_said self.old }
        ensures upper_bound { length page.new ≤ length page.old + 25 }
    {
        if self.left > 0 {
            let replied = reply_to(&mut self.receiver, self.line.as_slice());
            put_reply(page, replied.reply);
            let more = added(replied.reply);
            self.tally += more;
            self.counts[usize::from(replied.dvcc)] += more.words;
            self.left -= 1;
        }
        self.line.clear();
    }

    // A piece of the input. The page then holds what is written of it.
    pub fn feed<const N: usize>(&mut self, piece: &[u8], page: &mut Buffer<N>)
        requires { 25 * length piece.now ≤ N }
        ensures session { self.new ≡ seen self.old piece.now }
        ensures text { page.new ≡ bytes_said self.old piece.now }
        ensures room { length page.new ≤ 25 * length piece.now }
    {
        page.clear();
        let mut from = 0;
        // Line by line, what follows the last LF apart: in a loop over `split` or `split_inclusive` each turn would ask which of the two it has.
        while let Some(end) = line_end(piece, from) {
            self.keep(&piece[from..end]);
            self.end_line(page);
            from = end + 1;
        }
        self.keep(&piece[from..]);
    }

    // What follows the input: a last line without LF counts if it is not empty, then the closing lines. The page then holds them.
    pub fn finish<const N: usize>(&mut self, page: &mut Buffer<N>)
        requires { 8192 ≤ N }
        ensures session { self.new.state ≡ closed self.old }
        ensures text { page.new ≡ end_text self.old }
    {
        page.clear();
        let empty = self.line.is_empty();
        if !empty {
            self.end_line(page);
        }
        put_closing(self.tally, &self.counts, page);
    }
}
