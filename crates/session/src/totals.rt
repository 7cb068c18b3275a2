// Totals of accepted words, and the lines that close the output.
ghost use Rattle.std.specs.Prelude.{◌≡◌, ◌++◌, ◌+◌, ◌*◌, ◌≤◌, ◌<◌, length};
ghost use Rattle.session.specs.Totals.{OneAnswer, added_by, closing, code_line, code_lines, count_of, one_word, rate_of};

use lines::reply::{Reply, put_code, put_total};
use std::ops::AddAssign;
use text::buffer::Buffer;

// Accepted words, their corrected bits and their coded bits.
#[derive(Clone, Copy, Debug, Default, PartialEq, Eq)]
pub struct Tally {
    pub words: u32,
    pub corrected: u64,
    pub coded: u64,
}

impl AddAssign for Tally {
    ghost use Rattle.std.specs.Prelude.{◌≡◌, ◌+◌, ◌^◌, ◌<◌};
    ghost use Rattle.session.specs.Totals.{summed};

    ghost can_add_assign = { λ a b. (a.words + b.words < 2 ^ 32) × (a.corrected + b.corrected < 2 ^ 64) × (a.coded + b.coded < 2 ^ 64) };

    ghost add_assign_gives = { λ a b c. c ≡ summed a b };

    #[tactic(auto, unfolding(crate::specs::Totals::summed))]
    fn add_assign(&mut self, more: Tally) {
        self.words += more.words;
        self.corrected += more.corrected;
        self.coded += more.coded;
    }
}

#[tactic(auto, unfolding(crate::specs::Totals::one_word))]
fn one_word(corrected: u16, coded: u64) -> Tally
    requires { coded ≤ 260 }
    ensures { (result ≡ one_word corrected coded) × OneAnswer result }
{
    Tally {
        words: 1,
        corrected: u64::from(corrected),
        coded,
    }
}

// What an answer adds to the totals.
#[tactic(auto, unfolding(crate::specs::Totals::added_by, crate::specs::Totals::nothing_added))]
pub fn added(reply: Reply) -> Tally
    ensures { (result ≡ added_by reply) × OneAnswer result }
{
    match reply {
        Reply::SacchWord { corrected, .. } => one_word(corrected, 132),
        Reply::FacchWord { corrected, .. } => one_word(corrected, 260),
        _ => Tally::default(),
    }
}

// Corrected bits in a thousand coded ones.
#[tactic(auto, unfolding(crate::specs::Totals::rate_of))]
fn rate(tally: Tally) -> u64
    requires { tally.corrected ≤ 65535000000 }
    ensures { result ≡ rate_of tally }
{
    (tally.corrected * 1000)
        .checked_div(tally.coded)
        .unwrap_or(0)
}

// The line of a code, where it has words.
#[tactic(auto, unfolding(crate::specs::Totals::code_line))]
fn put_line<const N: usize>(dvcc: u8, words: u32, page: &mut Buffer<N>)
    requires { length page.old + 26 ≤ N }
    ensures text { page.new ≡ page.old ++ code_line dvcc words }
    ensures upper_bound { length page.new ≤ length page.old + 26 }
{
    if words == 0 {
        return;
    }
    put_code(page, dvcc, u64::from(words));
}

// The lines of all codes with words, by code ascending.
fn put_codes<const N: usize>(counts: &[u32; 256], page: &mut Buffer<N>)
    requires { length page.old + 6656 ≤ N }
    ensures text { page.new ≡ page.old ++ code_lines (count_of counts.now) }
    ensures upper_bound { length page.new ≤ length page.old + 6656 }
{
    // The place of a count is its code: `as`, since std has no `From<usize> for u8`, and of 256 places none is lost.
    for (dvcc, words) in counts.iter().enumerate() {
        put_line(dvcc as u8, *words, page);
    }
}

// The closing lines: `T w r`, then the `C` lines.
#[tactic(auto, unfolding(crate::specs::Totals::closing, crate::specs::Totals::total_line))]
pub fn put_closing<const N: usize>(tally: Tally, counts: &[u32; 256], page: &mut Buffer<N>)
    requires { (tally.corrected ≤ 65535000000) × (length page.old + 6700 ≤ N) }
    ensures text { page.new ≡ page.old ++ closing tally counts.now }
    ensures upper_bound { length page.new ≤ length page.old + 6700 }
{
    put_total(page, u64::from(tally.words), rate(tally));
    put_codes(counts, page);
}
