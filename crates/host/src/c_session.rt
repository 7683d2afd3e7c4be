// The session. What it answers stands in no record of `fed`: it sends up to two commands, and its result is of several start-ups.
ghost use Rattle.std.specs.Prelude.{◌≡◌};
ghost use Rattle.host.specs.Session.{session_first, session_answered, session_declined, session_new, session_feed, session_check, pi_sync_out, no_session_result, session_finished, session_result, session_take, session_sheet, session_sheet_buffer};

use crate::UNKNOWN;
use crate::c_avr::CAvrSync;
use crate::c_dsp::CDspSync;
use crate::written::CWritten;
use abi::action::CAction;
use abi_dsp::COptionNack;
use abi_messages::{CEnvelope, Envelope};
use abi_session::{CSession, start_up_in};
use abi_values::refusal_out;
use avr::{AvrSequencer, AvrSync};
use device::model::DeviceModel;
use dsp::{DspSequencer, DspSync};
use pi::{PiSequencer, PiSync};
use protocol::Refusal;
use session::{Session, SessionAnswer, SessionSync};

// `actions` in the order of sending: the first is the DSP's or the AVR's, the second the Pi's, and either may be none.
#[repr(C)]
#[derive(Clone, Copy)]
pub struct CSessionFed {
    pub refusal: u8,
    pub actions: [CAction; 2],
    pub session: CSession,
}

// C takes no `Option`. A result alone has it, and so it never comes in.
#[repr(C)]
#[derive(Clone, Copy)]
pub struct COptionPiSync {
    pub some: bool,
    pub value: PiSync,
}

#[repr(C)]
#[derive(Clone, Copy)]
pub struct CSessionFinished {
    pub refusal: u8,
    pub dsp: CDspSync,
    pub avr: CAvrSync,
    pub pi: COptionPiSync,
}

#[repr(C)]
#[derive(Clone, Copy)]
pub struct CSessionTaken {
    pub refusal: u8,
    pub refused: COptionNack,
    pub session: CSession,
}

// Of the call that begins a session.
impl From<SessionAnswer> for CSessionFed {
    ghost from_gives = { λ answer r. r ≡ session_first answer };

    fn from(answer: SessionAnswer) -> CSessionFed {
        let sends = answer.outcome.unwrap_or([None, None]);
        CSessionFed {
            refusal: refusal_out(answer.outcome),
            actions: sends.map(CAction::from),
            session: answer.session.into(),
        }
    }
}

impl CSessionFed {
    // Of a call of the session that was handed in. A refusal changes nothing: that very session goes back, with what stands in it beside
    // an absent record.
    fn answered(answer: SessionAnswer, handed: CSession) -> CSessionFed
        ensures { result ≡ session_answered answer handed }
    {
        let fed = CSessionFed::from(answer);
        match answer.outcome {
            Ok(_) => fed,
            Err(_) => CSessionFed {
                session: handed,
                ..fed
            },
        }
    }

    // A number in it, or beside it, is of no case: nothing is sent, and the session is the one handed in.
    fn declined(handed: CSession) -> CSessionFed
        ensures { result ≡ session_declined handed }
    {
        CSessionFed {
            refusal: UNKNOWN,
            actions: [CAction::none(), CAction::none()],
            session: handed,
        }
    }
}

impl From<Option<PiSync>> for COptionPiSync {
    ghost from_gives = { λ sync r. r ≡ pi_sync_out sync };

    fn from(sync: Option<PiSync>) -> COptionPiSync {
        let none = PiSync::from(PiSequencer::new().seq.replies);
        COptionPiSync {
            some: sync.is_some(),
            value: sync.unwrap_or(none),
        }
    }
}

// Beside a refusal stands what new start-ups have, and no Pi's.
fn no_result(refusal: u8) -> CSessionFinished
    ensures { result ≡ no_session_result refusal }
{
    let dsp = DspSequencer::new().seq.state.replies;
    let avr = AvrSequencer::new_for(DeviceModel::MEVO).seq.state.replies;
    CSessionFinished {
        refusal,
        dsp: DspSync::from(dsp).into(),
        avr: AvrSync::from(avr).into(),
        pi: COptionPiSync::from(None),
    }
}

impl From<Result<SessionSync, Refusal>> for CSessionFinished {
    ghost from_gives = { λ finished r. r ≡ session_finished finished };

    fn from(finished: Result<SessionSync, Refusal>) -> CSessionFinished {
        match finished {
            Ok(sync) => CSessionFinished {
                refusal: 0,
                dsp: sync.dsp.into(),
                avr: sync.avr.into(),
                pi: sync.pi.into(),
            },
            Err(refusal) => no_result(refusal.number()),
        }
    }
}

/// A session that begins with the DSP, whose first poll is its send.
#[unsafe(no_mangle)]
pub extern "C" fn wigtalom_session_new() -> CSessionFed
    ensures { result ≡ session_new }
{
    Session::new().into()
}

/// An envelope from the unit, for every start-up that has begun: up to two sends. What ends the DSP goes no further, and is answered with the
/// first sends of the AVR and, where the model has a camera, of the Pi.
#[unsafe(no_mangle)]
pub extern "C" fn wigtalom_session_feed(
    session: CSession,
    env: CEnvelope,
    text: &[u8],
    payload: &[u8],
    now: u64,
    wall: u64,
) -> CSessionFed
    ensures { result ≡ session_feed session env text.now payload.now now wall }
{
    let (Ok(open), Ok(env)) = (Session::try_from(session), Envelope::try_from(env)) else {
        return CSessionFed::declined(session);
    };
    let fed = open.feed(
        env.src,
        env.type_id,
        env.message,
        env.params,
        text,
        payload,
        now,
        wall,
    );
    CSessionFed::answered(fed, session)
}

/// A check of the DSP, and of the AVR once that has begun.
#[unsafe(no_mangle)]
pub extern "C" fn wigtalom_session_check(session: CSession, now: u64) -> CSessionFed
    ensures { result ≡ session_check session now }
{
    match Session::try_from(session) {
        Ok(open) => CSessionFed::answered(open.check(now), session),
        Err(_) => CSessionFed::declined(session),
    }
}

/// The results of all that the model has, once these are done; beside a refusal empty ones.
#[unsafe(no_mangle)]
pub extern "C" fn wigtalom_session_result(session: CSession) -> CSessionFinished
    ensures { result ≡ session_result session }
{
    match Session::try_from(session) {
        Ok(open) => open.into_result().into(),
        Err(_) => no_result(UNKNOWN),
    }
}

/// The nack with which the DSP refused the power-mode write, once.
#[unsafe(no_mangle)]
pub extern "C" fn wigtalom_session_take_refused(session: CSession) -> CSessionTaken
    ensures { result ≡ session_take session }
{
    let Ok(open) = Session::try_from(session) else {
        return CSessionTaken {
            refusal: UNKNOWN,
            refused: COptionNack::from(None),
            session,
        };
    };
    let taken = open.take_refused();
    CSessionTaken {
        refusal: 0,
        refused: taken.refused.into(),
        session: taken.session.into(),
    }
}

/// The sheet of one of its start-ups, as that writes it: 0 for the DSP, 1 for the AVR, 2 for the Pi. That of one that hasn't begun, or that the
/// model doesn't have, is empty. 5 where the part of `buf` from place `at` on is shorter than the sheet or the place is past the buffer's end,
/// 21 where a number is of no case, also that of the start-up: the buffer then stays as it is.
#[unsafe(no_mangle)]
pub extern "C" fn wigtalom_session_sheet(
    session: CSession,
    start_up: u8,
    buf: &mut [u8],
    at: usize,
) -> CWritten
    ensures answer { result ≡ session_sheet session start_up buf.old at }
    ensures buffer { buf.new ≡ session_sheet_buffer session start_up buf.old at }
{
    let (Ok(open), Ok(start_up)) = (Session::try_from(session), start_up_in(start_up)) else {
        return CWritten::declined();
    };
    open.sheet(start_up, buf, at).into()
}
