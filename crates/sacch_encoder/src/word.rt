// The row of six bits of a word, and the fields of its rows.
// Ported from 136-bts, sacch.rs, and changed (see NOTICE).
ghost use Rattle.std.specs.Prelude.{◌≡◌, ℕ, ◌+◌, ◌<◌, drop, get_or, length, take};
ghost use Rattle.bits.specs.Bits.{bits};
ghost use Rattle.bits.specs.Numbers.{packed};
ghost use Rattle.sacch_interleaver.specs.Diagonal.{field_of};
ghost use Rattle.sacch_encoder.specs.Words.{coded_row, memory_after};

use coding::Code;
use coding::codes::Dcch;
use sacch_interleaver::field_of;

// Six inputs coded: their row, and the memory after them. (Not a `Step` of `coding`: twelve bits in one number, of six steps.)
#[derive(Clone, Copy, Debug, PartialEq, Eq)]
pub struct Coded {
    pub row: u16,
    pub memory: u8,
}

// The row of six bits from a memory. Inline: six bits of a number then go by registers, where a call would read them from memory.
#[inline(always)]
pub fn code_six(memory: u8, six: &[u8; 6]) -> Coded
    requires { memory < 32 }
    ensures { (result.row ≡ coded_row memory (packed (bits six.now))) × (result.memory ≡ memory_after memory (packed (bits six.now))) }
{
    let mut row: u16 = 0;
    let mut at = memory;
    for bit in six {
        let step = Dcch::transition(at, *bit);
        row = row * 4 + u16::from(step.output[0] * 2 + step.output[1]);
        at = step.next;
    }
    Coded { row, memory: at }
}

// The fields of eleven successive slots, from the twelve rows before the first and the eleven of these slots.
pub fn fields_of(run: &[u16; 23]) -> [u16; 11]
    ensures { (length result ≡ 11) × ((k : ℕ) → k < 11 → get_or result k 0 ≡ field_of (take 12 (drop (k + 1) run.now)) 0) }
{
    let mut fields = [0u16; 11];
    for (i, field) in fields.iter_mut().enumerate() {
        *field = field_of(&run[i + 1..i + 13], 0);
    }
    fields
}
