// The receiver as a flat record, and its pushes.
ghost use Rattle.std.specs.Prelude.{◌≡◌};
ghost use Rattle.sacch_receiver.specs.Receiver.{fresh_receiver, push_of, push_word_of};
ghost use Rattle.flat_sacch.specs.Flat.{flat_answer, flat_moved, flat_moved_word, flat_receiver, flat_word_answer, lock_byte, lock_of, no_word_pushed, receiver_of, word_pushed};

use bits::Refusal;
use sacch::{ReceiveOutcome, SacchDeinterleaver, SacchReceiver, SacchWord};

// No phase is locked.
const UNLOCKED: u8 = 255;

// A receiver as C holds it: flat, with a byte for the lock.
#[repr(C)]
#[derive(Clone, Copy, Debug, PartialEq, Eq)]
pub struct Receiver {
    pub fields: [u16; 12],
    pub field_cursor: usize,
    pub received: usize,
    pub rows: [u16; 11],
    pub row_cursor: usize,
    pub available: usize,
    pub phase: u8,
    // The locked phase, or 255 where none is.
    pub lock: u8,
}

// An answer of a push and the receiver after it: kind 0 is Pending, 1 a word, 2 a rejection, 3 a refusal. Refusal is the number of the last two. C reads the kind.
#[repr(C)]
#[derive(Clone, Copy, Debug, PartialEq, Eq)]
pub struct Pushed {
    pub kind: u8,
    pub refusal: u8,
    pub continuation: bool,
    pub message: u64,
    pub corrected: u16,
    pub ending: u8,
    pub receiver: Receiver,
}

// (No `From`: neither type is of this crate.)
#[tactic(auto, unfolding(crate::specs::Flat::lock_of))]
fn locked_phase(lock: u8) -> Option<u8>
    ensures { result ≡ lock_of lock }
{
    (lock != UNLOCKED).then_some(lock)
}

impl From<Receiver> for SacchReceiver {
    ghost from_gives = { λ r s. s ≡ receiver_of r };

    #[tactic(auto, unfolding(crate::specs::Flat::receiver_of))]
    fn from(r: Receiver) -> SacchReceiver {
        let Receiver {
            fields,
            field_cursor: cursor,
            received,
            rows,
            row_cursor,
            available,
            phase,
            lock,
        } = r;
        let deinterleaver = SacchDeinterleaver {
            fields,
            cursor,
            received,
        };
        SacchReceiver {
            deinterleaver,
            rows,
            row_cursor,
            available,
            phase,
            locked_phase: locked_phase(lock),
        }
    }
}

impl From<SacchReceiver> for Receiver {
    ghost from_gives = { λ s r. r ≡ flat_receiver s };

    #[tactic(auto, unfolding(crate::specs::Flat::flat_receiver))]
    fn from(s: SacchReceiver) -> Receiver {
        let SacchReceiver {
            deinterleaver,
            rows,
            row_cursor,
            available,
            phase,
            locked_phase,
        } = s;
        let SacchDeinterleaver {
            fields,
            cursor: field_cursor,
            received,
        } = deinterleaver;
        Receiver {
            fields,
            field_cursor,
            received,
            rows,
            row_cursor,
            available,
            phase,
            lock: locked_phase.unwrap_or(UNLOCKED),
        }
    }
}

pub fn new_receiver() -> Receiver
    ensures { result ≡ flat_receiver fresh_receiver }
{
    Receiver::from(SacchReceiver::new())
}

pub fn discontinuity(receiver: Receiver) -> Receiver
    ensures { result ≡ flat_receiver fresh_receiver }
{
    let mut lent = SacchReceiver::from(receiver);
    lent.discontinuity();
    Receiver::from(lent)
}

// The zeros by hand: a default of the record would hold a receiver locked at phase 0.
fn without_word(kind: u8, refusal: u8, receiver: Receiver) -> Pushed
    ensures { result ≡ no_word_pushed kind refusal receiver }
{
    Pushed {
        kind,
        refusal,
        continuation: false,
        message: 0,
        corrected: 0,
        ending: 0,
        receiver,
    }
}

// (No `From`, here and below: the receiver goes with the answer.)
fn with_word(word: SacchWord, receiver: Receiver) -> Pushed
    ensures { result ≡ word_pushed word receiver }
{
    Pushed {
        kind: 1,
        refusal: 0,
        continuation: word.continuation,
        message: word.message,
        corrected: word.corrected,
        ending: word.ending,
        receiver,
    }
}

fn flat_answer(outcome: Result<ReceiveOutcome, Refusal>, receiver: Receiver) -> Pushed
    ensures { result ≡ flat_answer outcome receiver }
{
    match outcome {
        Ok(ReceiveOutcome::Pending) => without_word(0, 0, receiver),
        Ok(ReceiveOutcome::Word(word)) => with_word(word, receiver),
        Ok(ReceiveOutcome::Rejected(why)) => without_word(2, u8::from(why), receiver),
        Err(why) => without_word(3, u8::from(why), receiver),
    }
}

fn flat_word_answer(heard: Result<Option<SacchWord>, Refusal>, receiver: Receiver) -> Pushed
    ensures { result ≡ flat_word_answer heard receiver }
{
    match heard {
        Ok(None) => without_word(0, 0, receiver),
        Ok(Some(word)) => with_word(word, receiver),
        Err(why) => without_word(3, u8::from(why), receiver),
    }
}

// The push by value.
pub fn push_by_value(receiver: Receiver, field: u16, dvcc: u8) -> Pushed
    ensures { result ≡ flat_moved (push_of (receiver_of receiver) field dvcc) }
{
    let mut lent = SacchReceiver::from(receiver);
    let outcome = lent.push_outcome(field, dvcc);
    flat_answer(outcome, Receiver::from(lent))
}

// The push that answers a word or nothing.
pub fn push(receiver: Receiver, field: u16, dvcc: u8) -> Pushed
    ensures { result ≡ flat_moved_word (push_word_of (receiver_of receiver) field dvcc) }
{
    let mut lent = SacchReceiver::from(receiver);
    let heard = lent.push(field, dvcc);
    flat_word_answer(heard, Receiver::from(lent))
}
