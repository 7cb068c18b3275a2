// The lines that answer (document 01, 'The line program `frames`'), written behind what a page holds.
ghost use Rattle.std.specs.Prelude.{◌≡◌, ◌∷◌, ◌++◌, ◌+◌, ◌*◌, ◌≤◌, [], length};
ghost use Rattle.bits.specs.Bits.{byte};
ghost use Rattle.text.specs.Numerals.{hexadecimal};
ghost use Rattle.lines.specs.Printing.{code_text, refusal_text, reply_text, total_text};

use bits::Refusal;
use text::buffer::Buffer;

// What a line is answered. (The words' fields and no word of a codec: a line's text needs none.)
#[derive(Clone, Copy, Debug, PartialEq, Eq)]
pub enum Reply {
    Nothing,
    // `P`
    Pending,
    // `R n`
    Refused(Refusal),
    // `W c m k e`
    SacchWord {
        continuation: bool,
        message: u64,
        corrected: u16,
        ending: u8,
    },
    // `D`
    Discontinuous,
    // `G c m k o`
    FacchWord {
        continuation: bool,
        message: u64,
        corrected: u16,
        observed: u16,
    },
}

// `R n`.
#[tactic(auto, unfolding(crate::specs::Printing::refusal_text))]
fn put_refusal<const N: usize>(page: &mut Buffer<N>, why: Refusal)
    requires { length page.old + 4 ≤ N }
    ensures text { page.new ≡ page.old ++ refusal_text why }
    ensures len { length page.new ≡ length page.old + 4 }
{
    page.push(b'R');
    page.put_hexadecimal(1, u64::from(u8::from(why)));
    page.push(b'\n');
}

// The first half of a word's line: its letter, continuation and message.
fn put_content<const N: usize>(page: &mut Buffer<N>, letter: u8, continuation: bool, message: u64)
    requires { length page.old + 16 ≤ N }
    ensures text { page.new ≡ page.old ++ (letter ∷ (hexadecimal 1 (byte continuation) ++ hexadecimal 12 message)) }
    ensures len { length page.new ≡ length page.old + 16 }
{
    page.push(letter);
    page.put_hexadecimal(1, u64::from(continuation));
    page.put_hexadecimal(12, message);
}

// The second half: two numbers of so many digits, and LF.
fn put_numbers<const N: usize>(page: &mut Buffer<N>, width: usize, x: u64, y: u64)
    requires { length page.old + 2 * width + 3 ≤ N }
    ensures text { page.new ≡ page.old ++ (hexadecimal width x ++ (hexadecimal width y ++ 10 ∷ [])) }
    ensures len { length page.new ≡ length page.old + 2 * width + 3 }
{
    page.put_hexadecimal(width, x);
    page.put_hexadecimal(width, y);
    page.push(b'\n');
}

// The line of an answer.
#[tactic(auto, unfolding(crate::specs::Printing::reply_text, crate::specs::Printing::word_text))]
pub fn put_reply<const N: usize>(page: &mut Buffer<N>, reply: Reply)
    requires { length page.old + 25 ≤ N }
    ensures text { page.new ≡ page.old ++ reply_text reply }
    ensures upper_bound { length page.new ≤ length page.old + 25 }
{
    match reply {
        Reply::Nothing => {}
        Reply::Pending => page.extend_from_slice(b"P\n"),
        Reply::Refused(why) => put_refusal(page, why),
        Reply::SacchWord {
            continuation,
            message,
            corrected,
            ending,
        } => {
            put_content(page, b'W', continuation, message);
            put_numbers(page, 2, u64::from(corrected), u64::from(ending));
        }
        Reply::Discontinuous => page.extend_from_slice(b"D\n"),
        Reply::FacchWord {
            continuation,
            message,
            corrected,
            observed,
        } => {
            put_content(page, b'G', continuation, message);
            put_numbers(page, 3, u64::from(corrected), u64::from(observed));
        }
    }
}

// `T w r`.
#[tactic(auto, unfolding(crate::specs::Printing::total_text))]
pub fn put_total<const N: usize>(page: &mut Buffer<N>, words: u64, rate: u64)
    requires { length page.old + 44 ≤ N }
    ensures text { page.new ≡ page.old ++ total_text words rate }
    ensures upper_bound { length page.new ≤ length page.old + 44 }
{
    page.extend_from_slice(b"T ");
    page.put_decimal(words);
    page.push(b' ');
    page.put_decimal(rate);
    page.push(b'\n');
}

// `C dd n`.
#[tactic(auto, unfolding(crate::specs::Printing::code_text))]
pub fn put_code<const N: usize>(page: &mut Buffer<N>, dvcc: u8, n: u64)
    requires { length page.old + 26 ≤ N }
    ensures text { page.new ≡ page.old ++ code_text dvcc n }
    ensures upper_bound { length page.new ≤ length page.old + 26 }
{
    page.push(b'C');
    page.put_hexadecimal(2, u64::from(dvcc));
    page.push(b' ');
    page.put_decimal(n);
    page.push(b'\n');
}
