// The reply to one line.
ghost use Rattle.std.specs.Prelude.{◌≡◌, length};
ghost use Rattle.facch.specs.Decoding.{decode_of};
ghost use Rattle.lines.specs.Masked.{observed_bits};
ghost use Rattle.session.specs.Replies.{facch_reply, reply_to, sacch_reply};

use bits::Refusal;
use facch::{FacchWord, decode_erased};
use lines::command::{Command, parse};
use lines::mask::observed_bits;
use lines::reply::Reply;
use sacch::{ReceiveOutcome, SacchReceiver};

// What a line is answered, and the colour code on it.
#[derive(Clone, Copy, Debug, PartialEq, Eq)]
pub struct LineReply {
    // 0 where the line has none: no word is counted then, so that an Option would be a case without a use.
    pub dvcc: u8,
    pub reply: Reply,
}

// `P`, `R n` or `W c m k e`. (No `From`, here and below: a line's answer and a call's answer are both of other crates.)
#[tactic(auto, unfolding(crate::specs::Replies::sacch_reply))]
fn sacch_reply(outcome: Result<ReceiveOutcome, Refusal>) -> Reply
    ensures { result ≡ sacch_reply outcome }
{
    match outcome {
        Ok(ReceiveOutcome::Pending) => Reply::Pending,
        Ok(ReceiveOutcome::Word(word)) => Reply::SacchWord {
            continuation: word.continuation,
            message: word.message,
            corrected: word.corrected,
            ending: word.ending,
        },
        Ok(ReceiveOutcome::Rejected(why)) => Reply::Refused(why),
        Err(why) => Reply::Refused(why),
    }
}

// `R n` or `G c m k o`.
#[tactic(auto, unfolding(crate::specs::Replies::facch_reply))]
fn facch_reply(decoded: Result<FacchWord, Refusal>) -> Reply
    ensures { result ≡ facch_reply decoded }
{
    match decoded {
        Ok(word) => Reply::FacchWord {
            continuation: word.continuation,
            message: word.message,
            corrected: word.corrected,
            observed: word.observed,
        },
        Err(why) => Reply::Refused(why),
    }
}

// An `F` line.
fn reply_to_word(line: &[u8], dvcc: u8) -> Reply
    requires { length line.now ≡ 136 }
    ensures { result ≡ facch_reply (decode_of (observed_bits line.now) dvcc) }
{
    let bits = observed_bits(line);
    facch_reply(decode_erased(&bits, dvcc))
}

// Any line. No line but `S` and `D` touches the receiver.
#[tactic(auto, using(lines::proofs::Forms::facch_long), unfolding(crate::specs::Replies::reply_to, crate::specs::Replies::command_replied, crate::specs::Replies::sacch_replied))]
pub fn reply_to(receiver: &mut SacchReceiver, line: &[u8]) -> LineReply
    ensures dvcc { result.dvcc ≡ (reply_to receiver.old line.now).dvcc }
    ensures reply { result.reply ≡ (reply_to receiver.old line.now).reply }
    ensures receiver { receiver.new ≡ (reply_to receiver.old line.now).receiver }
{
    match parse(line) {
        Command::Blank => LineReply {
            dvcc: 0,
            reply: Reply::Nothing,
        },
        Command::Sacch { dvcc, field } => LineReply {
            dvcc,
            reply: sacch_reply(receiver.push_outcome(field, dvcc)),
        },
        Command::Discontinuity => {
            receiver.discontinuity();
            LineReply {
                dvcc: 0,
                reply: Reply::Discontinuous,
            }
        }
        Command::Facch { dvcc } => LineReply {
            dvcc,
            reply: reply_to_word(line, dvcc),
        },
        Command::Unknown => LineReply {
            dvcc: 0,
            reply: Reply::Refused(Refusal::Line),
        },
    }
}
