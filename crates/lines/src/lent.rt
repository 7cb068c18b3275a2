// The lines that answer, written at a place of a lent slice that is otherwise left alone. Each function answers the place after what it wrote.
ghost use Rattle.std.specs.Prelude.{◌+◌, ◌≤◌, length};
ghost use Rattle.text.specs.Writing.{Put};
ghost use Rattle.lines.specs.Printing.{code_text, reply_text, total_text};

use crate::reply::{self, Reply};
use text::buffer::Buffer;
use text::numerals::put_text;

// The line of an answer.
pub fn put_reply(out: &mut [u8], at: usize, reply: Reply) -> usize
    requires { at + 25 ≤ length out.old }
    ensures put { Put out.old at (reply_text reply) out.new result }
    ensures upper_bound { result ≤ at + 25 }
{
    let mut line = Buffer::<25>::new();
    reply::put_reply(&mut line, reply);
    put_text(out, at, line.as_slice())
}

// `T w r`.
pub fn put_total(out: &mut [u8], at: usize, words: u64, rate: u64) -> usize
    requires { at + 44 ≤ length out.old }
    ensures put { Put out.old at (total_text words rate) out.new result }
    ensures upper_bound { result ≤ at + 44 }
{
    let mut line = Buffer::<44>::new();
    reply::put_total(&mut line, words, rate);
    put_text(out, at, line.as_slice())
}

// `C dd n`.
pub fn put_code(out: &mut [u8], at: usize, dvcc: u8, n: u64) -> usize
    requires { at + 26 ≤ length out.old }
    ensures put { Put out.old at (code_text dvcc n) out.new result }
    ensures upper_bound { result ≤ at + 26 }
{
    let mut line = Buffer::<26>::new();
    reply::put_code(&mut line, dvcc, n);
    put_text(out, at, line.as_slice())
}
