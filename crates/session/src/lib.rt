// One session for the whole unit: the DSP first, then the AVR with the model that the DSP found, and at the same time the Pi where that model
// has a camera. It is made of the three sequencers and goes by their contracts alone; src/seq.rs has no such thing, its driver does this.
#![tactic(auto)]

ghost use Rattle.std.specs.Prelude.{◌≡◌, []};
ghost use Rattle.sheet.specs.Sheet.{answered, written};
ghost use Rattle.session.specs.Answers.{begun, accepted, refused, begun_for, led, sent, avr_feed, avr_check, pi_feed, fed_to, polled, finished, taken, sheet_of};
ghost use Rattle.session.specs.HandOver.{Theorem};

use avr::{AvrSequencer, AvrSync};
use device::model::DeviceModel;
use dsp::{DspSequencer, DspSync};
use dsp_table::DspStep;
use pi::{PiSequencer, PiSync};
use protocol::{Action, BusAddr, Message, Nack, Refusal};
use sequence::Answer;
use sheet::{SheetRefusal, StartUp, Ticks};

/// A session of one unit. It has no reading of its own: every feed and check that it accepts is its DSP's too, so the DSP's last reading
/// is the session's.
#[derive(Clone, Copy)]
pub struct Session {
    /// Fed and checked from the session's beginning to its end, after its own Done too.
    pub dsp: DspSequencer,
    /// None before the DSP is done.
    pub avr: Option<AvrSequencer>,
    /// None before the DSP is done, and where the model that it found has no camera.
    pub pi: Option<PiSequencer>,
}

/// What `new`, a feed and a check answer.
#[derive(Clone, Copy)]
pub struct SessionAnswer {
    /// What is sent, at most two commands in the order of sending: the first is the DSP's or the AVR's, the second the Pi's. Or why the
    /// call is refused.
    pub outcome: Result<[Option<Action>; 2], Refusal>,
    /// The session then; beside a refusal it is as it was.
    pub session: Session,
}

/// The results of all sequences that the model has.
#[derive(Clone, Copy)]
pub struct SessionSync {
    pub dsp: DspSync,
    pub avr: AvrSync,
    /// None where the model has no camera.
    pub pi: Option<PiSync>,
}

/// What `take_refused` answers.
#[derive(Clone, Copy)]
pub struct SessionTaken {
    /// The nack with which the DSP refused the power-mode write, if it is still kept.
    pub refused: Option<Nack>,
    pub session: Session,
}

// What a sequence that may have begun makes of a call: what it sends, and the sequence then.
#[derive(Clone, Copy)]
pub struct Heard<S> {
    pub action: Option<Action>,
    pub seq: Option<S>,
}

// ---- answers

// A refused call sends nothing.
fn sent(outcome: Result<Option<Action>, Refusal>) -> Option<Action>
    ensures { result ≡ sent outcome }
{
    match outcome {
        Ok(action) => action,
        Err(_) => None,
    }
}

fn accepted(first: Option<Action>, second: Option<Action>, session: Session) -> SessionAnswer
    ensures { result ≡ accepted first second session }
{
    SessionAnswer {
        outcome: Ok([first, second]),
        session,
    }
}

fn refused(refusal: Refusal, session: Session) -> SessionAnswer
    ensures { result ≡ refused session refusal }
{
    SessionAnswer {
        outcome: Err(refusal),
        session,
    }
}

// ---- the hand-over

// The DSP is done: the others begin, and their first sends are the session's.
fn begin(dsp: DspSequencer, model: DeviceModel) -> SessionAnswer
    ensures { result ≡ begun_for dsp model }
{
    let avr = AvrSequencer::new_for(model);
    if model.has_camera() {
        let pi = PiSequencer::new();
        let session = Session {
            dsp,
            avr: Some(avr.seq),
            pi: Some(pi.seq),
        };
        return accepted(sent(avr.outcome), sent(pi.outcome), session);
    }
    let session = Session {
        dsp,
        avr: Some(avr.seq),
        pi: None,
    };
    accepted(sent(avr.outcome), None, session)
}

// ---- what the others make of a call

fn check_avr(avr: Option<AvrSequencer>, now: u64) -> Heard<AvrSequencer>
    ensures { result ≡ avr_check avr now }
{
    let Some(avr) = avr else {
        return Heard {
            action: None,
            seq: None,
        };
    };
    let answer = avr.check_cal_timeout(now);
    Heard {
        action: sent(answer.outcome),
        seq: Some(answer.seq),
    }
}

fn feed_avr(
    avr: Option<AvrSequencer>,
    src: BusAddr,
    type_id: u8,
    message: Message,
    params: [i16; 34],
    text: &[u8],
    payload: &[u8],
    now: u64,
    wall: u64,
) -> Heard<AvrSequencer>
    ensures { result ≡ avr_feed avr (record { envelope = record { src = src; type_id = type_id; message = message; params = params; text = text.now; payload = payload.now }; wall = wall }) now }
{
    let Some(avr) = avr else {
        return Heard {
            action: None,
            seq: None,
        };
    };
    let answer = avr.feed(src, type_id, message, params, text, payload, now, wall);
    Heard {
        action: sent(answer.outcome),
        seq: Some(answer.seq),
    }
}

// The numbers of a `ConfigResp` are not handed on: a Pi acts on none.
fn feed_pi(
    pi: Option<PiSequencer>,
    src: BusAddr,
    type_id: u8,
    message: Message,
    text: &[u8],
    payload: &[u8],
) -> Heard<PiSequencer>
    ensures { result ≡ pi_feed pi (record { src = src; type_id = type_id; message = message; params = []; text = text.now; payload = payload.now }) }
{
    let Some(pi) = pi else {
        return Heard {
            action: None,
            seq: None,
        };
    };
    let answer = pi.feed(src, type_id, message, text, payload);
    Heard {
        action: sent(answer.outcome),
        seq: Some(answer.seq),
    }
}

// ---- the calls

impl Session {
    // The DSP has answered; if it is done now, the others begin.
    fn led(self, dsp: Answer<DspSequencer>) -> SessionAnswer
        ensures { result ≡ led self dsp }
    {
        if let DspStep::Done = dsp.seq.state.step {
            let model = DeviceModel::from_stored(dsp.seq.state.replies.dev_info);
            return begin(dsp.seq, model);
        }
        let session = Session {
            dsp: dsp.seq,
            ..self
        };
        accepted(sent(dsp.outcome), None, session)
    }

    /// A session that begins with the DSP, whose first poll is its send. Refused never.
    pub fn new() -> SessionAnswer
        ensures { result ≡ begun }
    {
        let dsp = DspSequencer::new();
        let session = Session {
            dsp: dsp.seq,
            avr: None,
            pi: None,
        };
        accepted(sent(dsp.outcome), None, session)
    }

    /// An envelope, with a clock reading in nanoseconds and the wall clock in seconds. Until the DSP is done it goes to the DSP alone; the
    /// one that ends the DSP goes no further, and its sends are the first sends of the AVR, and of the Pi where the model has a camera; each
    /// later one goes to all that have begun. `text` and `payload` are read and not kept.
    ///
    /// Refused, with the lowest that applies: 1 where the text exceeds 256 bytes; 2 where the payload does; 3 for a reading above
    /// 18,446,744,071,709,551,615 ns; 11 for one below the session's last accepted one (equal is accepted, and so is any first one).
    pub fn feed(
        self,
        src: BusAddr,
        type_id: u8,
        message: Message,
        params: [i16; 34],
        text: &[u8],
        payload: &[u8],
        now: u64,
        wall: u64,
    ) -> SessionAnswer
        ensures { result ≡ fed_to self (record { envelope = record { src = src; type_id = type_id; message = message; params = params; text = text.now; payload = payload.now }; wall = wall }) now }
    {
        let fed = self
            .dsp
            .feed(src, type_id, message, params, text, payload, now);
        if let Err(refusal) = fed.outcome {
            return refused(refusal, self);
        }
        let DspStep::Done = self.dsp.state.step else {
            return self.led(fed);
        };
        let avr = feed_avr(
            self.avr, src, type_id, message, params, text, payload, now, wall,
        );
        let pi = feed_pi(self.pi, src, type_id, message, text, payload);
        let session = Session {
            dsp: fed.seq,
            avr: avr.seq,
            pi: pi.seq,
        };
        accepted(avr.action, pi.action, session)
    }

    /// A check, with a clock reading in nanoseconds: has a reply been waited for long enough? It goes to the DSP, and to the AVR once that
    /// has begun; the one that ends the DSP goes no further, and its sends are the first sends of the others. The Pi has no clock.
    ///
    /// Refused, with the lowest that applies: 3 for a reading above 18,446,744,071,709,551,615 ns; 11 for one below the session's last
    /// accepted one.
    pub fn check(self, now: u64) -> SessionAnswer
        ensures { result ≡ polled self now }
    {
        let polled = self.dsp.check_timeout(now);
        if let Err(refusal) = polled.outcome {
            return refused(refusal, self);
        }
        let DspStep::Done = self.dsp.state.step else {
            return self.led(polled);
        };
        let avr = check_avr(self.avr, now);
        let session = Session {
            dsp: polled.seq,
            avr: avr.seq,
            pi: self.pi,
        };
        accepted(avr.action, None, session)
    }

    /// The results of all sequences that the model has. Refused with 12 before all of these are done.
    pub fn into_result(self) -> Result<SessionSync, Refusal>
        ensures { result ≡ finished self }
    {
        let (Ok(dsp), Some(avr)) = (self.dsp.into_result(), self.avr) else {
            return Err(Refusal::NotDone);
        };
        let avr = avr.into_result()?;
        let pi = match self.pi {
            Some(pi) => Some(pi.into_result()?),
            None => None,
        };
        Ok(SessionSync { dsp, avr, pi })
    }

    /// The nack with which the DSP refused the power-mode write, once: `take_refused` of its DSP.
    pub fn take_refused(self) -> SessionTaken
        ensures { result ≡ taken self }
    {
        let taken = self.dsp.take_refused();
        let session = Session {
            dsp: taken.seq,
            ..self
        };
        SessionTaken {
            refused: taken.refused,
            session,
        }
    }

    /// The sheet of one of its sequences, as that writes it: a line for each entry ticked so far, into the part of `buf` that begins at place
    /// `at` and reaches to the buffer's end. Answers how many bytes that is; the bytes outside of it stay. That of a sequence that hasn't
    /// begun is empty: 0 bytes. Refused with 5 where the part is shorter than the sheet or the place is past the buffer's end, also of a
    /// sequence that hasn't begun, and then nothing is written.
    pub fn sheet(&self, start_up: StartUp, buf: &mut [u8], at: usize) -> Result<usize, SheetRefusal>
        ensures answer { result ≡ answered (sheet_of self.now start_up) at buf.old }
        ensures buffer { buf.new ≡ written (sheet_of self.now start_up) at buf.old }
    {
        match start_up {
            StartUp::Dsp => return self.dsp.sheet(buf, at),
            StartUp::Avr => {
                if let Some(avr) = &self.avr {
                    return avr.sheet(buf, at);
                }
            }
            StartUp::Pi => {
                if let Some(pi) = &self.pi {
                    return pi.sheet(buf, at);
                }
            }
        }
        sheet::write(start_up, &Ticks::none(), buf, at)
    }
}

/// The entry that ends a DSP sends nothing, in any state: nothing that the DSP sends is lost where the others begin.
pub fn nothing_lost()
    ensures { Theorem }
{}
