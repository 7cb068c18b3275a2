// The search for the FACCH word nearest to the observed bits. The contracts cite specs/.
// Ported from 136-bts, facch.rs, and changed (see NOTICE).
ghost use Rattle.std.specs.Prelude.{◌≡◌, length};
ghost use Rattle.facch.specs.Search.{Searched};

use tailbiting::tail_biting;
use trellis::Outcome;

// Writes a nearest word. The search's inputs begin with its bit 5 and end with its bits 0 to 4.
pub fn nearest_word(coded: &[u8], word: &mut [u8; 65]) -> Outcome
    requires { length coded.now ≡ 260 }
    ensures { Searched coded.now word.new result }
{
    let mut inputs = [0u8; 65];
    let found = tail_biting(coded, &mut inputs);
    // `rotate_right` of std clears a buffer of 4 KB at each word.
    let (first, rest) = word.split_at_mut(5);
    first.copy_from_slice(&inputs[60..]);
    rest.copy_from_slice(&inputs[..60]);
    found
}
