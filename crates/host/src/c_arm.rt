// Arm. C calls no function and takes no record with a type parameter, so what is alike in the
// files of other sequences stands here again.
ghost use Rattle.std.specs.Prelude.{◌≡◌};
ghost use Rattle.host.specs.Untimed.{arm_new_for, arm_fed, arm_feed, arm_retries, arm_new};

use crate::UNKNOWN;
use crate::fed::Fed;
use abi::action::CAction;
use abi_arm::CArm;
use abi_messages::{CEnvelope, Envelope};
use arm::ArmSequencer;
use device::model::DeviceModel;

#[repr(C)]
#[derive(Clone, Copy)]
pub struct CArmFed {
    pub refusal: u8,
    pub action: CAction,
    pub seq: CArm,
}

#[repr(C)]
#[derive(Clone, Copy)]
pub struct CRetries {
    pub refusal: u8,
    pub retries: u16,
}

// C takes no record with a type parameter.
impl From<Fed<CArm>> for CArmFed {
    ghost from_gives = { λ fed r. r ≡ arm_fed fed };

    fn from(fed: Fed<CArm>) -> CArmFed {
        CArmFed {
            refusal: fed.refusal,
            action: fed.action,
            seq: fed.seq,
        }
    }
}

/// Takes a Mevo without asking: use `wigtalom_arm_new_for` with the model of the DSP's result.
#[unsafe(no_mangle)]
pub extern "C" fn wigtalom_arm_new() -> CArmFed
    ensures { result ≡ arm_new }
{
    Fed::<CArm>::from(ArmSequencer::new()).into()
}

#[unsafe(no_mangle)]
pub extern "C" fn wigtalom_arm_new_for(model: DeviceModel) -> CArmFed
    ensures { result ≡ arm_new_for model }
{
    Fed::<CArm>::from(ArmSequencer::new_for(model)).into()
}

// C calls a function that takes no type parameter, and so each sequence has its own.
#[unsafe(no_mangle)]
pub extern "C" fn wigtalom_arm_feed(
    seq: CArm,
    env: CEnvelope,
    text: &[u8],
    payload: &[u8],
) -> CArmFed
    ensures { result ≡ arm_feed seq env text.now payload.now }
{
    let (Ok(open), Ok(env)) = (ArmSequencer::try_from(seq), Envelope::try_from(env)) else {
        return Fed::declined(seq).into();
    };
    let fed = open.feed(env.src, env.type_id, env.message, text, payload);
    Fed::answered(fed.outcome, fed.seq.into(), seq).into()
}

#[unsafe(no_mangle)]
pub extern "C" fn wigtalom_arm_retries(seq: CArm) -> CRetries
    ensures { result ≡ arm_retries seq }
{
    match ArmSequencer::try_from(seq) {
        Ok(open) => CRetries {
            refusal: 0,
            retries: open.retries(),
        },
        Err(_) => CRetries {
            refusal: UNKNOWN,
            retries: 0,
        },
    }
}
