// Flat functions over the speech frames of VSELP (`speech`) and ACELP CC1. Each answers a number of document 01, or 0 with its result.
#![tactic(auto)]

ghost use Rattle.std.specs.Prelude.{◌≡◌};
ghost use Rattle.acelp_cc1.specs.Calls as acelp_calls;
ghost use Rattle.acelp_interleaver.specs.Wire as acelp_wire;
ghost use Rattle.flat_coding.specs.Calls.{FlatWrote};
ghost use Rattle.speech.specs.Calls as vselp_calls;
ghost use Rattle.speech_interleaver.specs.Wire as vselp_wire;
ghost use Rattle.flat_speech.specs.Frames.{AcelpExit, VselpExit, acelp_frame, no_frame, vselp_frame};

use acelp_cc1::DecodedFrame;
use acelp_interleaver::Interleaving;
use bits::Refusal;
use flat_coding::calls::Written;
use speech::{CrcStatus, SpeechCandidate};

// valid and corrected are those of an accepted frame; expected and actual those of a refusal for length. C has no enum that carries them.
#[repr(C)]
#[derive(Clone, Copy, Debug, Default, PartialEq, Eq)]
pub struct Frame {
    pub refusal: u8,
    pub expected: usize,
    pub actual: usize,
    pub valid: bool,
    pub corrected: u16,
}

impl From<Refusal> for Frame {
    ghost from_gives = { λ why r. r ≡ no_frame why };

    fn from(why: Refusal) -> Frame {
        let numbers = Written::from(why);
        Frame {
            refusal: numbers.refusal,
            expected: numbers.expected,
            actual: numbers.actual,
            ..Frame::default()
        }
    }
}

impl From<Result<SpeechCandidate, Refusal>> for Frame {
    ghost from_gives = { λ answer r. r ≡ vselp_frame answer };

    fn from(answer: Result<SpeechCandidate, Refusal>) -> Frame {
        match answer {
            Ok(candidate) => Frame {
                valid: matches!(candidate.crc, CrcStatus::Valid),
                corrected: candidate.corrected,
                ..Frame::default()
            },
            Err(why) => Frame::from(why),
        }
    }
}

impl From<Result<DecodedFrame, Refusal>> for Frame {
    ghost from_gives = { λ answer r. r ≡ acelp_frame answer };

    fn from(answer: Result<DecodedFrame, Refusal>) -> Frame {
        match answer {
            Ok(frame) => Frame {
                valid: frame.crc_valid,
                corrected: frame.corrected,
                ..Frame::default()
            },
            Err(why) => Frame::from(why),
        }
    }
}

pub fn vselp_encode(class_one: &[u8], class_two: &[u8], frame: &mut [u8]) -> Written
    ensures { FlatWrote (vselp_calls.Encoding class_one.now class_two.now frame.old frame.new) result }
{
    Written::from(speech::encode(class_one, class_two, frame))
}

pub fn vselp_decode_candidate(frame: &[u8], class_one: &mut [u8], class_two: &mut [u8]) -> Frame
    ensures { VselpExit (vselp_calls.decode_call frame.now class_one.old class_two.old) class_one.new class_two.new result }
{
    Frame::from(speech::decode_candidate(frame, class_one, class_two))
}

pub fn vselp_interleave(previous: &[u8], current: &[u8], slot: &mut [u8]) -> Written
    ensures { FlatWrote (vselp_wire.Interleaving previous.now current.now slot.old slot.new) result }
{
    Written::from(speech_interleaver::interleave(previous, current, slot))
}

pub fn vselp_deinterleave(first: &[u8], second: &[u8], frame: &mut [u8]) -> Written
    ensures { FlatWrote (vselp_wire.Deinterleaving first.now second.now frame.old frame.new) result }
{
    Written::from(speech_interleaver::deinterleave(first, second, frame))
}

pub fn acelp_encode(speech: &[u8], frame: &mut [u8]) -> Written
    ensures { FlatWrote (acelp_calls.Encoding speech.now frame.old frame.new) result }
{
    Written::from(acelp_cc1::encode(speech, frame))
}

pub fn acelp_decode(frame: &[u8], speech: &mut [u8]) -> Frame
    ensures { AcelpExit (acelp_calls.decode_call frame.now speech.old) speech.new result }
{
    Frame::from(acelp_cc1::decode(frame, speech))
}

pub fn acelp_interleave(history: &[u8], mode: Interleaving, slot: &mut [u8]) -> Written
    ensures { FlatWrote (acelp_wire.InterleavingCall history.now mode slot.old slot.new) result }
{
    Written::from(acelp_interleaver::interleave(history, mode, slot))
}

pub fn acelp_deinterleave(slots: &[u8], mode: Interleaving, frame: &mut [u8]) -> Written
    ensures { FlatWrote (acelp_wire.DeinterleavingCall slots.now mode frame.old frame.new) result }
{
    Written::from(acelp_interleaver::deinterleave(slots, mode, frame))
}
