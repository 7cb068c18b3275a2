// Speech frames of VSELP and ACELP CC1, and the slots that carry them.
ghost use Rattle.acelp_cc1.specs.Calls as acelp_calls;
ghost use Rattle.acelp_interleaver.specs.Wire as acelp_wire;
ghost use Rattle.acelp_interleaver.specs.declared.Interleaving.TheVariants.{One, Two, Three};
ghost use Rattle.flat_coding.specs.Calls.{FlatWrote};
ghost use Rattle.flat_speech.specs.Frames.{AcelpExit, VselpExit};
ghost use Rattle.speech.specs.Calls as vselp_calls;
ghost use Rattle.speech_interleaver.specs.Wire as vselp_wire;

use acelp_interleaver::Interleaving;
use flat_coding::calls::Written;
use flat_speech::Frame;

// Codes 77 bits of class one and 82 of class two into a frame of 260. Refused: 1 in the order of the arguments; 2.
#[unsafe(no_mangle)]
pub extern "C" fn bts136_speech_encode(
    class_one: &[u8],
    class_two: &[u8],
    frame: &mut [u8],
) -> Written
    ensures { FlatWrote (vselp_calls.Encoding class_one.now class_two.now frame.old frame.new) result }
{
    flat_speech::vselp_encode(class_one, class_two, frame)
}

// Decodes a frame of 260 bits to the one nearest word and writes 77 and 82 bits; valid tells its checksum. Refused: 1, 2, 5.
#[unsafe(no_mangle)]
pub extern "C" fn bts136_speech_decode_candidate(
    frame: &[u8],
    class_one: &mut [u8],
    class_two: &mut [u8],
) -> Frame
    ensures { VselpExit (vselp_calls.decode_call frame.now class_one.old class_two.old) class_one.new class_two.new result }
{
    flat_speech::vselp_decode_candidate(frame, class_one, class_two)
}

// The slot that finishes the previous frame (even rows) and starts the current one (odd rows), 260 bits each. Refused: 1, 2.
#[unsafe(no_mangle)]
pub extern "C" fn bts136_speech_interleave(
    previous: &[u8],
    current: &[u8],
    slot: &mut [u8],
) -> Written
    ensures { FlatWrote (vselp_wire.Interleaving previous.now current.now slot.old slot.new) result }
{
    flat_speech::vselp_interleave(previous, current, slot)
}

// The frame that starts in the first slot and is finished in the second, 260 bits each. Refused: 1, 2.
#[unsafe(no_mangle)]
pub extern "C" fn bts136_speech_deinterleave(
    first: &[u8],
    second: &[u8],
    frame: &mut [u8],
) -> Written
    ensures { FlatWrote (vselp_wire.Deinterleaving first.now second.now frame.old frame.new) result }
{
    flat_speech::vselp_deinterleave(first, second, frame)
}

// Codes 148 bits of speech, in the codec's order, into a frame of 260. Refused: 1, 2.
#[unsafe(no_mangle)]
pub extern "C" fn bts136_acelp_encode(speech: &[u8], frame: &mut [u8]) -> Written
    ensures { FlatWrote (acelp_calls.Encoding speech.now frame.old frame.new) result }
{
    flat_speech::acelp_encode(speech, frame)
}

// Decodes a frame of 260 bits to the one nearest word and writes 148 bits in the codec's order; valid tells its checksum. Refused: 1, 2, 5.
#[unsafe(no_mangle)]
pub extern "C" fn bts136_acelp_decode(frame: &[u8], speech: &mut [u8]) -> Frame
    ensures { AcelpExit (acelp_calls.decode_call frame.now speech.old) speech.new result }
{
    flat_speech::acelp_decode(frame, speech)
}

// The slot of 260 bits where a frame lies in one slot. history has 780 bits: three frames, oldest first, of which as many of the newest are read as a
// frame has slots. Refused: 1, 2.
#[unsafe(no_mangle)]
pub extern "C" fn bts136_acelp_interleave_one(history: &[u8], slot: &mut [u8]) -> Written
    ensures { FlatWrote (acelp_wire.InterleavingCall history.now One slot.old slot.new) result }
{
    flat_speech::acelp_interleave(history, Interleaving::One, slot)
}

// The frame of 260 bits that lies in one slot. slots has 780 bits: three slots, oldest first, of which as many of the oldest are read as the frame has.
// Refused: 1, 2.
#[unsafe(no_mangle)]
pub extern "C" fn bts136_acelp_deinterleave_one(slots: &[u8], frame: &mut [u8]) -> Written
    ensures { FlatWrote (acelp_wire.DeinterleavingCall slots.now One frame.old frame.new) result }
{
    flat_speech::acelp_deinterleave(slots, Interleaving::One, frame)
}

// The same where a frame lies over two slots.
#[unsafe(no_mangle)]
pub extern "C" fn bts136_acelp_interleave_two(history: &[u8], slot: &mut [u8]) -> Written
    ensures { FlatWrote (acelp_wire.InterleavingCall history.now Two slot.old slot.new) result }
{
    flat_speech::acelp_interleave(history, Interleaving::Two, slot)
}

// The same where it lies over two slots.
#[unsafe(no_mangle)]
pub extern "C" fn bts136_acelp_deinterleave_two(slots: &[u8], frame: &mut [u8]) -> Written
    ensures { FlatWrote (acelp_wire.DeinterleavingCall slots.now Two frame.old frame.new) result }
{
    flat_speech::acelp_deinterleave(slots, Interleaving::Two, frame)
}

// The same where a frame lies over three slots.
#[unsafe(no_mangle)]
pub extern "C" fn bts136_acelp_interleave_three(history: &[u8], slot: &mut [u8]) -> Written
    ensures { FlatWrote (acelp_wire.InterleavingCall history.now Three slot.old slot.new) result }
{
    flat_speech::acelp_interleave(history, Interleaving::Three, slot)
}

// The same where it lies over three slots.
#[unsafe(no_mangle)]
pub extern "C" fn bts136_acelp_deinterleave_three(slots: &[u8], frame: &mut [u8]) -> Written
    ensures { FlatWrote (acelp_wire.DeinterleavingCall slots.now Three frame.old frame.new) result }
{
    flat_speech::acelp_deinterleave(slots, Interleaving::Three, frame)
}
