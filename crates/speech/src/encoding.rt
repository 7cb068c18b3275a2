// Encoding of a frame.
// Ported from 136-bts, speech.rs, and changed (see NOTICE).
ghost use Rattle.std.specs.Prelude.{◌≡◌, length};
ghost use Rattle.bits.specs.Bits.{bits, bytes};
ghost use Rattle.coding.specs.Codes.{coded, dcch};
ghost use Rattle.coding.specs.Registers.{memory_high};
ghost use Rattle.speech.specs.Calls.{Encoding};
ghost use Rattle.speech.specs.Inputs.{inputs_of};

use crate::classes::merge;
use crate::inputs::inputs_of;
use bits::Refusal;
use bits::arguments::two_and_room;
use coding::Code;
use coding::codes::Dcch;

// Writes the protected bits of class one.
fn encode_class_one(class_one: &[u8], protected: &mut [u8; 178])
    requires { length class_one.now ≡ 77 }
    ensures { protected.new ≡ bytes (coded dcch (memory_high 0) (inputs_of (bits class_one.now))) }
{
    Dcch::convolutional_encode(0, &inputs_of(class_one), protected);
}

// Writes the frame that is sent for speech bits.
pub fn encode(class_one: &[u8], class_two: &[u8], frame: &mut [u8]) -> Result<(), Refusal>
    ensures { Encoding class_one.now class_two.now frame.old frame.new result }
{
    two_and_room(77, class_one, 82, class_two, 260, frame.len())?;
    let mut protected = [0u8; 178];
    encode_class_one(class_one, &mut protected);
    merge(&protected, class_two, frame);
    Ok(())
}
