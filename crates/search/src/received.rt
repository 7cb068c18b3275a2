// What a search is given.
ghost use Rattle.std.specs.Prelude.{◌≤◌, length};
ghost use Rattle.search.specs.Forward.{Rows};

// What was received, by branch metrics: a step has the row of its symbol. (Lent to one search, and neither compared nor printed.)
#[derive(Clone, Copy)]
pub struct Received<'a> {
    pub rows: &'a [[u16; 64]],
    pub symbols: &'a [u8],
    ghost small: { Rows rows.now symbols.now },
    ghost short: { length symbols.now ≤ 130 },
}
