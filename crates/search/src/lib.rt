// The searches for the nearest word (trellis/specs/Search.antt says what one finds): between two states, and over all of them.
// Their parts: the layout of a row of branch metrics, compare and select, one step over 32 states, the forward recursion, the traceback.
#![tactic(auto)]

mod between;
mod butterfly;
mod forward;
mod free;
mod received;
pub mod row;
mod select;
mod traceback;

pub use butterfly::Column;
pub use received::Received;
