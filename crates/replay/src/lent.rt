// A receiver lent to `push_outcome`: the stored calls have it beside `pushed`, which takes one by value, though both have one body.
ghost use Rattle.std.specs.Prelude.{◌≡◌};
ghost use Rattle.sacch_receiver.specs.Receiver.{push_of};

use sacch_receiver::{Pushed, SacchReceiver};

// The answer, and the receiver that came back.
pub fn lent(mut receiver: SacchReceiver, field: u16, dvcc: u8) -> Pushed
    ensures answer { result.outcome ≡ (push_of receiver field dvcc).answer }
    ensures moved { result.receiver ≡ (push_of receiver field dvcc).receiver }
{
    let outcome = receiver.push_outcome(field, dvcc);
    Pushed { outcome, receiver }
}
