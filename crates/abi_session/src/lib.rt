// A session as a host holds it.
#![tactic(auto)]

ghost use Rattle.std.specs.Prelude.{◌≡◌};
ghost use Rattle.abi_session.specs.State.{option_avr_in, option_avr_out, option_pi_in, option_pi_out, session_in, session_out, start_up_in};

use abi_avr::CAvr;
use abi_dsp::CDsp;
use abi_pi::CPi;
use abi_values::UnknownNumber;
use avr::AvrSequencer;
use device::model::DeviceModel;
use pi::PiSequencer;
use session::Session;
use sheet::StartUp;

// C takes no `Option`.
#[repr(C)]
#[derive(Clone, Copy)]
pub struct COptionAvr {
    pub some: bool,
    pub value: CAvr,
}

// C takes no `Option`.
#[repr(C)]
#[derive(Clone, Copy)]
pub struct COptionPi {
    pub some: bool,
    pub value: CPi,
}

#[repr(C)]
#[derive(Clone, Copy)]
pub struct CSession {
    pub dsp: CDsp,
    pub avr: COptionAvr,
    pub pi: COptionPi,
}

// The numbers are looked at whether it has begun or not.
impl TryFrom<COptionAvr> for Option<AvrSequencer> {
    type Error = UnknownNumber;

    ghost try_from_gives = { λ c r. r ≡ option_avr_in c };

    fn try_from(c: COptionAvr) -> Result<Option<AvrSequencer>, UnknownNumber> {
        let avr = AvrSequencer::try_from(c.value)?;
        Ok(c.some.then_some(avr))
    }
}

// Beside one that hasn't begun stands what a new one of a Mevo has.
impl From<Option<AvrSequencer>> for COptionAvr {
    ghost from_gives = { λ avr r. r ≡ option_avr_out avr };

    fn from(avr: Option<AvrSequencer>) -> COptionAvr {
        let new = AvrSequencer::new_for(DeviceModel::MEVO).seq;
        COptionAvr {
            some: avr.is_some(),
            value: avr.unwrap_or(new).into(),
        }
    }
}

// The numbers are looked at whether there is one or not.
impl TryFrom<COptionPi> for Option<PiSequencer> {
    type Error = UnknownNumber;

    ghost try_from_gives = { λ c r. r ≡ option_pi_in c };

    fn try_from(c: COptionPi) -> Result<Option<PiSequencer>, UnknownNumber> {
        let pi = PiSequencer::try_from(c.value)?;
        Ok(c.some.then_some(pi))
    }
}

// Beside one that there is not stands what a new one has.
impl From<Option<PiSequencer>> for COptionPi {
    ghost from_gives = { λ pi r. r ≡ option_pi_out pi };

    fn from(pi: Option<PiSequencer>) -> COptionPi {
        let new = PiSequencer::new().seq;
        COptionPi {
            some: pi.is_some(),
            value: pi.unwrap_or(new).into(),
        }
    }
}

impl TryFrom<CSession> for Session {
    type Error = UnknownNumber;

    ghost try_from_gives = { λ c r. r ≡ session_in c };

    fn try_from(c: CSession) -> Result<Session, UnknownNumber> {
        Ok(Session {
            dsp: c.dsp.try_into()?,
            avr: c.avr.try_into()?,
            pi: c.pi.try_into()?,
        })
    }
}

impl From<Session> for CSession {
    ghost from_gives = { λ session r. r ≡ session_out session };

    fn from(session: Session) -> CSession {
        CSession {
            dsp: session.dsp.into(),
            avr: session.avr.into(),
            pi: session.pi.into(),
        }
    }
}

// Which of its start-ups a sheet is asked of, by number, since C takes no enum. A function, and no `TryFrom`: both types stand in crates
// below.
pub fn start_up_in(number: u8) -> Result<StartUp, UnknownNumber>
    ensures { result ≡ start_up_in number }
{
    match number {
        0 => Ok(StartUp::Dsp),
        1 => Ok(StartUp::Avr),
        2 => Ok(StartUp::Pi),
        _ => Err(UnknownNumber),
    }
}
