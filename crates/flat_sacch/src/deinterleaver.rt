// The deinterleaver's calls. Its record is flat by itself.
ghost use Rattle.std.specs.Prelude.{◌≡◌};
ghost use Rattle.sacch_interleaver.specs.Deinterleaver.{fresh_deinterleaver, push_row_of};
ghost use Rattle.flat_sacch.specs.Flat.{flat_pushed_row};

use sacch::SacchDeinterleaver;

// An answer of a push and the deinterleaver after it. Complete says that the field completed a row; else row is 0. C reads the flag.
#[repr(C)]
#[derive(Clone, Copy, Debug, PartialEq, Eq)]
pub struct Row {
    pub refusal: u8,
    pub complete: bool,
    pub row: u16,
    pub deinterleaver: SacchDeinterleaver,
}

pub fn new_deinterleaver() -> SacchDeinterleaver
    ensures { result ≡ fresh_deinterleaver }
{
    SacchDeinterleaver::new()
}

pub fn reset_deinterleaver(mut deinterleaver: SacchDeinterleaver) -> SacchDeinterleaver
    ensures { result ≡ fresh_deinterleaver }
{
    deinterleaver.reset();
    deinterleaver
}

// The record is made in one place: one that is made in two ways out is copied once more.
pub fn deinterleave(mut deinterleaver: SacchDeinterleaver, field: u16) -> Row
    ensures { result ≡ flat_pushed_row (push_row_of deinterleaver field) }
{
    let pushed = deinterleaver.push(field);
    let row = pushed.unwrap_or(None);
    Row {
        refusal: pushed.err().map_or(0, u8::from),
        complete: row.is_some(),
        row: row.unwrap_or(0),
        deinterleaver,
    }
}
