// Encoding of a word (IS-54-B 2.7.3.1.1).
// Ported from 136-bts, facch.rs, and changed (see NOTICE).
ghost use Rattle.std.specs.Prelude.{reverse, ◌≡◌, ◌<◌, length, take};
ghost use Rattle.bits.specs.Bits.{bits, bytes};
ghost use Rattle.coding.specs.Registers.{memory_high};
ghost use Rattle.facch.specs.Words.{Encoding, tail_biting};

use bits::Refusal;
use bits::arguments::{below, exact};
use coding::Code;
use coding::codes::Facch;
use words::{MESSAGES, complete};

// The memory that a word starts from: its first five bits, the first lowest.
fn start_memory(word: &[u8; 65]) -> u8
    ensures { (result < 32) × (memory_high result ≡ reverse (take 5 (bits word.now))) }
{
    word[..5]
        .iter()
        .rev()
        .fold(0, |memory, bit| (memory << 1) | (*bit % 2))
}

// Writes the coded bits of a word. The memory after them is the one before them, so there is no tail.
fn encode_word(word: &[u8; 65], coded: &mut [u8])
    requires { length coded.old ≡ 260 }
    ensures { coded.new ≡ bytes (tail_biting (bits word.now)) }
{
    let start = start_memory(word);
    let (most, rest) = coded.split_at_mut(240);
    let memory = Facch::convolutional_encode(start, &word[5..], most);
    Facch::convolutional_encode(memory, &word[..5], rest);
}

// Writes the coded bits of a message.
pub fn encode(continuation: bool, message: u64, dvcc: u8, coded: &mut [u8]) -> Result<(), Refusal>
    ensures { Encoding continuation message dvcc coded.old coded.new result }
{
    exact(260, coded.len())?;
    below(MESSAGES, message)?;
    let mut word = [0u8; 65];
    word[0] = u8::from(continuation);
    complete(1, message, dvcc, &mut word);
    encode_word(&word, coded);
    Ok(())
}
