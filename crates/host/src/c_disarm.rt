// Disarm. C calls no function and takes no record with a type parameter, so what is alike in the
// files of other sequences stands here again.
ghost use Rattle.std.specs.Prelude.{◌≡◌};
ghost use Rattle.host.specs.Untimed.{disarm_fed, disarm_feed, disarm_new};

use crate::fed::Fed;
use abi::action::CAction;
use abi_disarm::CDisarm;
use abi_messages::{CEnvelope, Envelope};
use disarm::DisarmSequencer;

#[repr(C)]
#[derive(Clone, Copy)]
pub struct CDisarmFed {
    pub refusal: u8,
    pub action: CAction,
    pub seq: CDisarm,
}

// C takes no record with a type parameter.
impl From<Fed<CDisarm>> for CDisarmFed {
    ghost from_gives = { λ fed r. r ≡ disarm_fed fed };

    fn from(fed: Fed<CDisarm>) -> CDisarmFed {
        CDisarmFed {
            refusal: fed.refusal,
            action: fed.action,
            seq: fed.seq,
        }
    }
}

#[unsafe(no_mangle)]
pub extern "C" fn wigtalom_disarm_new() -> CDisarmFed
    ensures { result ≡ disarm_new }
{
    Fed::<CDisarm>::from(DisarmSequencer::new()).into()
}

// C calls a function that takes no type parameter, and so each sequence has its own.
#[unsafe(no_mangle)]
pub extern "C" fn wigtalom_disarm_feed(
    seq: CDisarm,
    env: CEnvelope,
    text: &[u8],
    payload: &[u8],
) -> CDisarmFed
    ensures { result ≡ disarm_feed seq env text.now payload.now }
{
    let (Ok(open), Ok(env)) = (DisarmSequencer::try_from(seq), Envelope::try_from(env)) else {
        return Fed::declined(seq).into();
    };
    let fed = open.feed(env.src, env.type_id, env.message, text, payload);
    Fed::answered(fed.outcome, fed.seq.into(), seq).into()
}
