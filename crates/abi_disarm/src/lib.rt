// A disarm as a host holds it.
#![tactic(auto)]

ghost use Rattle.std.specs.Prelude.{◌≡◌};
ghost use Rattle.abi_disarm.specs.State.{disarm_step_in, disarm_step_out, disarm_in, disarm_out};

use abi_values::UnknownNumber;
use disarm::{DisarmSequencer, DisarmStep};

#[repr(C)]
#[derive(Clone, Copy)]
pub struct CDisarm {
    pub step: u8,
}

// The steps by number, since C takes no enum. Functions, and no `TryFrom` and `From`: both types stand in crates below.
fn step_in(number: u8) -> Result<DisarmStep, UnknownNumber>
    ensures { result ≡ disarm_step_in number }
{
    match number {
        0 => Ok(DisarmStep::WaitAck),
        1 => Ok(DisarmStep::WaitModeReset),
        2 => Ok(DisarmStep::WaitStateIdle),
        3 => Ok(DisarmStep::Done),
        _ => Err(UnknownNumber),
    }
}

fn step_out(step: DisarmStep) -> u8
    ensures { result ≡ disarm_step_out step }
{
    step as u8
}

impl TryFrom<CDisarm> for DisarmSequencer {
    type Error = UnknownNumber;

    ghost try_from_gives = { λ c r. r ≡ disarm_in c };

    fn try_from(c: CDisarm) -> Result<DisarmSequencer, UnknownNumber> {
        let step = step_in(c.step)?;
        Ok(DisarmSequencer { step })
    }
}

impl From<DisarmSequencer> for CDisarm {
    ghost from_gives = { λ seq r. r ≡ disarm_out seq };

    fn from(seq: DisarmSequencer) -> CDisarm {
        CDisarm {
            step: step_out(seq.step),
        }
    }
}
