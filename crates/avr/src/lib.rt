// AVR start-up (src/seq.rs, "Phase 2 — AvrSequencer") as a pollable state machine by value: `feed` takes a decoded envelope, a clock
// reading and the wall seconds, `check_cal_timeout` a clock reading, and each answers with at most one command to send. What each step
// does is crate avr_steps'.
#![tactic(auto)]

ghost use Rattle.std.specs.Prelude.{◌≡◌};
ghost use Rattle.device.specs.Model.{mevo};
ghost use Rattle.sheet.specs.Sheet.{answered, written};
ghost use Rattle.avr.specs.Answers.{begun, fed_to, polled, accepted, sync_of, finished, sheet_of};

use avr_steps::AvrState;
use avr_table::{AvrReplies, AvrStep};
use device::model::DeviceModel;
use protocol::{
    AvrConfigResp, AvrStatus, BusAddr, CalDataResp, CalParamResp, ConfigResp, DevInfoResp, Message,
    Refusal,
};
use requests::status_poll;
use sequence::{Answer, Moved};
use sheet::{SheetRefusal, StartUp, Tick, Ticks};

#[derive(Clone, Copy)]
pub struct AvrSequencer {
    pub state: AvrState,
    // the last accepted reading
    pub last: u64,
    // of the entries that are ticked
    pub ticks: Ticks,
}

#[derive(Clone, Copy)]
pub struct AvrSync {
    pub status: AvrStatus,
    pub dev_info: DevInfoResp,
    pub config: ConfigResp,
    pub factory_cal: Option<CalDataResp>,
    pub if_cal: Option<CalParamResp>,
    // none without the factory calibration, which is then not asked for
    pub avr_config: Option<AvrConfigResp>,
}

// The result that these replies make. At Done the first three have come: no list of calls gets there without them.
impl From<AvrReplies> for AvrSync {
    ghost from_gives = { λ replies sync. sync ≡ sync_of replies };

    fn from(replies: AvrReplies) -> AvrSync {
        AvrSync {
            status: replies.status.unwrap_or(AvrStatus::none()),
            dev_info: replies.dev_info.unwrap_or(DevInfoResp::none()),
            config: replies.config.unwrap_or(ConfigResp::none()),
            factory_cal: replies.factory_cal,
            if_cal: replies.if_cal,
            avr_config: replies.avr_config,
        }
    }
}

// An accepted call's answer, `tick` being its reading, and how it ticks an entry if it ticks one. Each sequencer with a clock has this of its own: a
// `Timed<S>` for both could have no methods in their crates.
fn accepted(ticks: Ticks, moved: Moved<AvrState>, tick: Tick) -> Answer<AvrSequencer>
    ensures { result ≡ accepted ticks moved tick }
{
    let seq = AvrSequencer {
        state: moved.state,
        last: tick.reading,
        ticks: ticks.then(moved.ticked, tick),
    };
    Answer::accepted(moved.action, seq)
}

impl AvrSequencer {
    /// Takes a Mevo without asking: use `new_for(result.model)` with the model that the DSP's result names.
    pub fn new() -> Answer<AvrSequencer>
        ensures { result ≡ begun mevo }
    {
        AvrSequencer::new_for(DeviceModel::MEVO)
    }

    /// A start-up of this model.
    pub fn new_for(model: DeviceModel) -> Answer<AvrSequencer>
        ensures { result ≡ begun model }
    {
        let seq = AvrSequencer {
            state: AvrState::new(model),
            last: 0,
            ticks: Ticks::none(),
        };
        Answer::accepted(Some(status_poll(false, BusAddr::Avr)), seq)
    }

    // Numbers and slices one by one, as the scope has it; the struct that refers to them is crate envelope's.
    pub fn feed(
        self,
        src: BusAddr,
        type_id: u8,
        message: Message,
        params: [i16; 34],
        text: &[u8],
        payload: &[u8],
        now: u64,
        wall: u64,
    ) -> Answer<AvrSequencer>
        ensures { result ≡ fed_to self (record { envelope = record { src = src; type_id = type_id; message = message; params = params; text = text.now; payload = payload.now }; wall = wall }) now }
    {
        if let Err(refusal) = sequence::accept_feed(text, payload, self.last, now) {
            return Answer::refused(refusal, self);
        }
        match src {
            BusAddr::Avr => accepted(
                self.ticks,
                self.state
                    .feed(type_id, message, params, text, payload, now, wall),
                Tick::fed(message, now),
            ),
            _ => Answer::accepted(None, AvrSequencer { last: now, ..self }),
        }
    }

    pub fn check_cal_timeout(self, now: u64) -> Answer<AvrSequencer>
        ensures { result ≡ polled self now }
    {
        match sequence::accept_check(self.last, now) {
            Ok(()) => accepted(self.ticks, self.state.check(now), Tick::checked(now)),
            Err(refusal) => Answer::refused(refusal, self),
        }
    }

    // The result, once Done.
    pub fn into_result(self) -> Result<AvrSync, Refusal>
        ensures { result ≡ finished self }
    {
        match self.state.step {
            AvrStep::Done => Ok(AvrSync::from(self.state.replies)),
            _ => Err(Refusal::NotDone),
        }
    }

    /// The sheet of the entries ticked so far, before Done too: a line each, written into the part of `buf` that begins at place `at` and
    /// reaches to the buffer's end. Answers how many bytes that is; the bytes outside of it stay. Refused with 5 where the part is shorter
    /// than the sheet or the place is past the buffer's end, and then nothing is written. The Rust has no such call.
    pub fn sheet(&self, buf: &mut [u8], at: usize) -> Result<usize, SheetRefusal>
        ensures answer { result ≡ answered (sheet_of self.now) at buf.old }
        ensures buffer { buf.new ≡ written (sheet_of self.now) at buf.old }
    {
        sheet::write(StartUp::Avr, &self.ticks, buf, at)
    }
}
