// Compare and select: which of the candidates through a state's two predecessors survives.
ghost use Rattle.std.specs.Prelude.{◌≡◌, ◌<◌};
ghost use Rattle.search.specs.Select.{byte_of, decide_of, tie_mark_of};

// What the upper predecessor is above the lower one, where its candidate is less: of equal candidates the lower survives.
#[tactic(auto, using(crate::proofs::Selecting::decide_upper, crate::proofs::Selecting::decide_lower))]
fn decide(lower: u16, upper: u16) -> u8
    ensures { result ≡ decide_of lower upper }
{
    if upper < lower { 16 } else { 0 }
}

// The mark of a tie. (Two bits and not one: the vector form is then shorter.)
#[tactic(auto, using(crate::proofs::Selecting::mark_set, crate::proofs::Selecting::mark_none))]
fn tie_mark(lower: u16, upper: u16) -> u8
    ensures { result ≡ tie_mark_of lower upper }
{
    if lower == upper { 96 } else { 0 }
}

// The predecessor byte of a state whose lower predecessor is `from`.
#[tactic(auto, using(crate::proofs::Selecting::decide_le, crate::proofs::Selecting::mark_le))]
pub fn predecessor_byte(lower: u16, upper: u16, from: u8) -> u8
    requires { from < 16 }
    ensures { result ≡ byte_of lower upper from }
{
    from + decide(lower, upper) + tie_mark(lower, upper)
}
