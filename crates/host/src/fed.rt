// What a call of a sequence answers, of whichever of the six: C takes no record with a type parameter, so each takes it over into its own.
ghost use Rattle.std.specs.Prelude.{◌≡◌};
ghost use Rattle.abi_values.specs.Numbers.{refusal_out};
ghost use Rattle.host.specs.Sends.{sent};
ghost use Rattle.host.specs.Fed.{told, given, declined};

use crate::UNKNOWN;
use abi::action::CAction;
use abi_values::refusal_out;
use protocol::{Action, Refusal};
use sequence::Answer;

#[derive(Clone, Copy)]
pub struct Fed<C> {
    pub refusal: u8,
    pub action: CAction,
    pub seq: C,
}

// Of a call that begins a sequence.
impl<S: Copy, C: From<S> + Copy> From<Answer<S>> for Fed<C> {
    ghost from_gives = { λ answer r. (r.refusal ≡ refusal_out answer.outcome) × (r.action ≡ sent answer.outcome) × C.from_gives answer.seq r.seq };

    fn from(answer: Answer<S>) -> Fed<C> {
        Fed::told(answer.outcome, answer.seq.into())
    }
}

impl<C: Copy> Fed<C> {
    fn told(outcome: Result<Option<Action>, Refusal>, seq: C) -> Fed<C>
        ensures { result ≡ told outcome seq }
    {
        Fed {
            refusal: refusal_out(outcome),
            action: outcome.unwrap_or(None).into(),
            seq,
        }
    }

    // Of a call of the state that was handed in, after which it is `new`. A refusal changes nothing: that very state goes back, with what
    // stands in it beside an absent record.
    pub fn answered(outcome: Result<Option<Action>, Refusal>, new: C, handed: C) -> Fed<C>
        ensures { result ≡ given outcome new handed }
    {
        match outcome {
            Ok(_) => Fed::told(outcome, new),
            Err(_) => Fed::told(outcome, handed),
        }
    }

    // A number in it, or beside it, is of no case: nothing is sent, and the state is the one handed in.
    pub fn declined(handed: C) -> Fed<C>
        ensures { result ≡ declined handed }
    {
        Fed {
            refusal: UNKNOWN,
            action: CAction::none(),
            seq: handed,
        }
    }
}
