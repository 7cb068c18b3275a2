// Flat functions over `viterbi`: the bare searches. Each answers a number of document 01, or 0 with its result.
ghost use Rattle.std.specs.Prelude.{false, ◌≡◌, length};
ghost use Rattle.bits.specs.Bits.{bits};
ghost use Rattle.trellis.specs.Search.{Found, FoundFirst};
ghost use Rattle.trellis.specs.Words.{OfLength, Terminated};
ghost use Rattle.viterbi.specs.Hard.{free_weight, weight};
ghost use Rattle.flat_coding.specs.FlatSearch.{SearchAnswer, found_search, no_search, pair_arguments, search_arguments};

use crate::calls::Written;
use bits::Refusal;
use bits::arguments::{binary, exact};
use trellis::Outcome;

// C reads it, which has no Result: beside a refusal metric and tie are 0. expected and actual are those of a refusal for length.
#[repr(C)]
#[derive(Clone, Copy, Debug, Default, PartialEq, Eq)]
pub struct Search {
    pub refusal: u8,
    pub expected: usize,
    pub actual: usize,
    pub metric: u16,
    pub tie: bool,
}

impl From<Refusal> for Search {
    ghost from_gives = { λ why r. r ≡ no_search why };

    fn from(why: Refusal) -> Search {
        let numbers = Written::from(why);
        Search {
            refusal: numbers.refusal,
            expected: numbers.expected,
            actual: numbers.actual,
            ..Search::default()
        }
    }
}

impl From<Outcome> for Search {
    ghost from_gives = { λ found r. r ≡ found_search found };

    fn from(found: Outcome) -> Search {
        Search {
            metric: found.metric,
            tie: found.tie,
            ..Search::default()
        }
    }
}

// Whether a received block can be searched into a word of so many bits.
fn search_arguments(coded: &[u8], steps: usize) -> Result<(), Refusal>
    ensures { result ≡ search_arguments coded.now steps }
{
    let given = coded.len();
    pairs(given)?;
    exact(given / 2, steps)?;
    binary(coded)
}

// Refused where a length is no number of pairs from 5 to 130.
#[tactic(auto, unfolding(crate::specs::FlatSearch::pair_arguments))]
fn pairs(given: usize) -> Result<(), Refusal>
    ensures { result ≡ pair_arguments given }
{
    if given < 10 || 260 < given || given % 2 == 1 {
        return exact(260, given);
    }
    Ok(())
}

// The nearest word that ends in five zeros, from state 0, and its disagreements: the bare search of DCCH.
#[tactic(auto, using(crate::proofs::Searches::passed))]
pub fn terminated(coded: &[u8], word: &mut [u8]) -> Search
    ensures { SearchAnswer (FoundFirst (Terminated (length word.old)) (weight (bits coded.now))) coded.now word.old word.new result }
{
    match search_arguments(coded, word.len()) {
        Ok(()) => Search::from(viterbi::terminated(coded, word)),
        Err(why) => Search::from(why),
    }
}

// A nearest word over all 32 starting memories: the bare search of SACCH. (As `terminated` but for its search: with the search as a parameter neither
// is shorter.)
#[tactic(auto, using(crate::proofs::Searches::passed))]
pub fn free(coded: &[u8], word: &mut [u8]) -> Search
    ensures { SearchAnswer (Found (OfLength (length word.old)) (free_weight (bits coded.now))) coded.now word.old word.new result }
{
    match search_arguments(coded, word.len()) {
        Ok(()) => Search::from(viterbi::free(coded, word)),
        Err(why) => Search::from(why),
    }
}
