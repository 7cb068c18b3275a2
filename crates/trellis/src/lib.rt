// The theory of the search for the nearest word: specs/Search.antt says what a search finds. The crates above search.
#![tactic(auto)]

// The least metric, and whether another word has it too. (Two fields: the metric is the answer, tied or not, and `tie` is no reason to withhold it.)
#[derive(Clone, Copy, Debug, PartialEq, Eq)]
pub struct Outcome {
    pub metric: u16,
    pub tie: bool,
}
