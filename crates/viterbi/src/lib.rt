// Hard-decision searches of the code of DCCH, SACCH and VSELP: specs/Hard.antt says what they find.
// Ported from 136-bts (see NOTICE): `viterbi` of dcch.rs and the searches of sacch.rs and speech.rs, as one.
// Lengths of what is lent stay clauses: see `bits::arguments`.
#![tactic(auto)]

ghost use Rattle.std.specs.Prelude.{◌≡◌, ◌+◌, ◌*◌, ◌/◌, ◌<◌, ◌≤◌, length};
ghost use Rattle.bits.specs.Bits.{bits};
ghost use Rattle.trellis.specs.Search.{Found, FoundFirst};
ghost use Rattle.trellis.specs.Words.{OfLength, Terminated};
ghost use Rattle.viterbi.specs.Hard.{free_weight, weight};
ghost use Rattle.viterbi.specs.Rows.{PairsTo, SymbolsTo, pair_of};

use coding::codes::ACELP_GENERATORS;
use search::Received;
use search::row::{distances, outputs};
use trellis::Outcome;

// The row of each of the four pairs: the disagreements with it, by place. (Over their numbers as bytes: a number's two bits are what is received.)
pub fn pair_rows() -> [[u16; 64]; 4]
    ensures { (length result ≡ 4) × PairsTo result 4 }
{
    let outputs = outputs(ACELP_GENERATORS);
    let mut rows = [[0u16; 64]; 4];
    for pair in 0..4u8 {
        let row = distances(&outputs, &[pair / 2, pair % 2]);
        rows[usize::from(pair)] = row;
    }
    rows
}

// The number of the pair k.
pub fn pair(coded: &[u8], k: usize) -> u8
    requires { k * 2 + 1 < length coded.now }
    ensures { (result ≡ pair_of coded.now k) × (result < 4) }
{
    coded[k * 2] % 2 * 2 + coded[k * 2 + 1] % 2
}

// The number of each step's pair. (By number: the places behind the block stay 0, and of what is written through a part's `iter_mut` a proof
// knows nothing.)
fn pair_symbols(coded: &[u8]) -> [u8; 130]
    requires { length coded.now ≤ 260 }
    ensures { (length result ≡ 130) × SymbolsTo coded.now result (length coded.now / 2) }
{
    let mut symbols = [0u8; 130];
    for step in 0..coded.len() / 2 {
        symbols[step] = pair(coded, step);
    }
    symbols
}

// Writes the nearest word that ends in five zeros, from state 0: the first such. The metric is its number of disagreements.
pub fn terminated(coded: &[u8], word: &mut [u8]) -> Outcome
    requires { (5 ≤ length word.old) × (length word.old ≤ 130) × (length coded.now ≡ length word.old * 2) }
    ensures { FoundFirst (Terminated (length word.old)) (weight (bits coded.now)) word.new result }
{
    let rows = pair_rows();
    let symbols = pair_symbols(coded);
    let received = Received {
        rows: &rows,
        symbols: &symbols[..word.len()],
    };
    received.nearest_between(0, 0, word)
}

// Writes a nearest word over all 32 starting memories. The metric is its fewest disagreements over them. (The first lines are those of `terminated`:
// what `Received` lends lives here, and no function can hand it back.)
#[tactic(auto, using(crate::proofs::Searched::found_free))]
pub fn free(coded: &[u8], word: &mut [u8]) -> Outcome
    requires { (5 ≤ length word.old) × (length word.old ≤ 130) × (length coded.now ≡ length word.old * 2) }
    ensures { Found (OfLength (length word.old)) (free_weight (bits coded.now)) word.new result }
{
    let rows = pair_rows();
    let symbols = pair_symbols(coded);
    let received = Received {
        rows: &rows,
        symbols: &symbols[..word.len()],
    };
    received.nearest_free(word)
}
