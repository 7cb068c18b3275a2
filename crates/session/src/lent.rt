// A session that writes into a lent slice, where its size is known at run time alone. What it doesn't write stays as it was. Each function answers the place
// after what it wrote.
ghost use Rattle.std.specs.Prelude.{◌≡◌, ◌+◌, ◌*◌, ◌≤◌, length};
ghost use Rattle.text.specs.Writing.{Put};
ghost use Rattle.session.specs.Scanning.{bytes_said, closed, end_said, ended, seen};
ghost use Rattle.session.specs.Sessions.{end_text};

use crate::Session;
use text::buffer::Buffer;
use text::line_end;
use text::numerals::put_text;

impl Session {
    // `end_line`, from the place `at` on.
    pub fn end_line_at(&mut self, out: &mut [u8], at: usize) -> usize
        requires { at + 25 ≤ length out.old }
        ensures session { self.new ≡ ended self.old }
        ensures text { Put out.old at (end_said self.old) out.new result }
        ensures upper_bound { result ≤ at + 25 }
    {
        let mut page = Buffer::<25>::new();
        self.end_line(&mut page);
        put_text(out, at, page.as_slice())
    }

    // `feed`, from the start on.
    pub fn feed_at(&mut self, piece: &[u8], out: &mut [u8]) -> usize
        requires { 25 * length piece.now ≤ length out.old }
        ensures session { self.new ≡ seen self.old piece.now }
        ensures text { Put out.old 0 (bytes_said self.old piece.now) out.new result }
        ensures room { result ≤ 25 * length piece.now }
        ensures at_in_bounds { result ≤ length out.new }
    {
        let mut at = 0;
        let mut from = 0;
        while let Some(end) = line_end(piece, from) {
            self.keep(&piece[from..end]);
            at = self.end_line_at(out, at);
            from = end + 1;
        }
        self.keep(&piece[from..]);
        at
    }

    // `finish`, from the start on.
    pub fn finish_at(&mut self, out: &mut [u8]) -> usize
        requires { 8192 ≤ length out.old }
        ensures session { self.new.state ≡ closed self.old }
        ensures put { Put out.old 0 (end_text self.old) out.new result }
        ensures upper_bound { result ≤ length out.new }
    {
        let mut page = Buffer::<8192>::new();
        self.finish(&mut page);
        put_text(out, 0, page.as_slice())
    }
}
