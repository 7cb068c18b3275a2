// What a line of the program `frames` asks for (document 01, 'The line program `frames`'). The contracts cite specs/.
ghost use Rattle.std.specs.Prelude.{◌≡◌, cond, None, Some};
ghost use Rattle.text.specs.Lines.{shaped, two_at};
ghost use Rattle.lines.specs.Commands.{by_form, discontinuity_shape, facch_shape, parsed, sacch_shape, three_at};

use text::kind::{LineKind, line_kind};
use text::{has_shape, three, two};

// What a line asks for.
#[derive(Clone, Copy, Debug, PartialEq, Eq)]
pub enum Command {
    // Nothing: the line is skipped.
    Blank,
    // `S dd fff`: a field for the SACCH receiver.
    Sacch { dvcc: u8, field: u16 },
    // `D`
    Discontinuity,
    // `F dd b m`: a FACCH word. Its bits are read by `crate::mask::observed_bits`.
    Facch { dvcc: u8 },
    // Too long, or of none of these forms.
    Unknown,
}

#[tactic(auto, using(crate::proofs::Forms::sacch_line), unfolding(crate::specs::Commands::sacch_shape))]
fn sacch(line: &[u8]) -> Option<Command>
    ensures { result ≡ cond (shaped sacch_shape line.now) (Some (Command.Sacch (two_at line.now 2) (three_at line.now 5))) None }
{
    if !has_shape(b"S ## ###", line) {
        return None;
    }
    Some(Command::Sacch {
        dvcc: u8::try_from(two(line[2], line[3])).ok()?,
        field: u16::try_from(three(line[5], line[6], line[7])).ok()?,
    })
}

#[tactic(auto, unfolding(crate::specs::Commands::discontinuity_shape))]
fn discontinuity(line: &[u8]) -> Option<Command>
    ensures { result ≡ cond (shaped discontinuity_shape line.now) (Some Command.Discontinuity) None }
{
    has_shape(b"D", line).then_some(Command::Discontinuity)
}

#[tactic(auto, using(crate::proofs::Forms::facch_line), unfolding(crate::specs::Commands::facch_shape))]
fn facch(line: &[u8]) -> Option<Command>
    ensures { result ≡ cond (shaped facch_shape line.now) (Some (Command.Facch (two_at line.now 2))) None }
{
    let shape =
        b"F ## ################################################################# #################################################################";
    if !has_shape(shape, line) {
        return None;
    }
    Some(Command::Facch {
        dvcc: u8::try_from(two(line[2], line[3])).ok()?,
    })
}

// What a filled line asks for, by its form.
#[tactic(auto, unfolding(crate::specs::Commands::by_form))]
fn by_form(line: &[u8]) -> Command
    ensures { result ≡ by_form line.now }
{
    sacch(line)
        .or_else(|| discontinuity(line))
        .or_else(|| facch(line))
        .unwrap_or(Command::Unknown)
}

// What a line asks for.
#[tactic(auto, unfolding(crate::specs::Commands::parsed, crate::specs::Commands::by_kind))]
pub fn parse(line: &[u8]) -> Command
    ensures { result ≡ parsed line.now }
{
    match line_kind(line) {
        LineKind::TooLong => Command::Unknown,
        LineKind::Blank => Command::Blank,
        LineKind::Filled => by_form(line),
    }
}
