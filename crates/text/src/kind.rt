// What a line is before its form is read: too long, blank or filled. It knows no form, so that any program of lines can use it.
ghost use Rattle.std.specs.Prelude.{◌≡◌};
ghost use Rattle.text.specs.LineKinds.{blank, kind_of};

#[derive(Clone, Copy, Debug, PartialEq, Eq)]
pub enum LineKind {
    // More than 136 characters, whatever they are.
    TooLong,
    // No characters, or up to 136 spaces.
    Blank,
    // Any other: its form decides.
    Filled,
}

// Whether a line has no characters, or only spaces.
fn is_blank(line: &[u8]) -> bool
    ensures { result ≡ blank line.now }
{
    line.iter().all(|b| *b == b' ')
}

// The length goes first: 137 spaces are too long, and not blank.
#[tactic(auto, unfolding(crate::specs::LineKinds::kind_of))]
pub fn line_kind(line: &[u8]) -> LineKind
    ensures { result ≡ kind_of line.now }
{
    // Both are tested before it answers: a program with the other rule differs in the order of the answers alone.
    let long = 136 < line.len();
    let blank = is_blank(line);
    if long {
        LineKind::TooLong
    } else if blank {
        LineKind::Blank
    } else {
        LineKind::Filled
    }
}
