// The search of ACELP CC1's punctured code: specs/Punctured.antt says what it finds. An internal layer.
// Ported from 136-bts, acelp_cc1.rs, and changed (see NOTICE).
// Lengths of what is lent stay clauses: see `bits::arguments`.
#![tactic(auto)]

ghost use Rattle.std.specs.Prelude.{◌≡◌, ◌<◌, length};
ghost use Rattle.bits.specs.Bits.{bits};
ghost use Rattle.trellis.specs.Search.{FoundFirst};
ghost use Rattle.trellis.specs.Words.{Terminated};
ghost use Rattle.puncturing.specs.Punctured.{weight};
ghost use Rattle.puncturing.specs.Rows.{StepRows, SymbolsTo, symbol_of};

use search::Received;
use trellis::Outcome;
use viterbi::{pair, pair_rows};

// The rows of branch metrics: those of the four pairs, and one of zeros for a step that sends nothing.
#[tactic(auto, using(crate::proofs::Branches::step_rows))]
fn step_rows() -> [[u16; 64]; 5]
    ensures { StepRows result }
{
    let pairs = pair_rows();
    let mut rows = [[0u16; 64]; 5];
    rows[..4].copy_from_slice(&pairs);
    rows
}

// What a step receives: the number of its pair, or 4 where it sends nothing. Of each 27 steps the last sends nothing.
fn symbol(coded: &[u8], step: usize) -> u8
    requires { (length coded.now ≡ 208) × (step < 108) }
    ensures { result ≡ symbol_of coded.now step }
{
    if step % 27 == 26 {
        return 4;
    }
    pair(coded, step - step / 27)
}

// What each step receives.
fn symbols(coded: &[u8]) -> [u8; 108]
    requires { length coded.now ≡ 208 }
    ensures { (length result ≡ 108) × SymbolsTo coded.now result 108 }
{
    let mut symbols = [0u8; 108];
    for (step, received) in symbols.iter_mut().enumerate() {
        *received = symbol(coded, step);
    }
    symbols
}

// Writes the nearest word that ends in five zeros, from state 0: the first such. The metric is its number of disagreements.
pub fn punctured(coded: &[u8], word: &mut [u8]) -> Outcome
    requires { (length coded.now ≡ 208) × (length word.old ≡ 108) }
    ensures { FoundFirst (Terminated 108) (weight (bits coded.now)) word.new result }
{
    let rows = step_rows();
    let symbols = symbols(coded);
    let received = Received {
        rows: &rows,
        symbols: &symbols,
    };
    received.nearest_between(0, 0, word)
}
