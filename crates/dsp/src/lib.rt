// DSP start-up (src/seq.rs, "Phase 1 — DspSequencer") as a pollable state machine by value: `feed` takes a decoded envelope and a
// clock reading, `check_timeout` a clock reading, and each answers with at most one command to send. What each step does is crate
// dsp_steps'.
#![tactic(auto)]

ghost use Rattle.std.specs.Prelude.{◌≡◌};
ghost use Rattle.sheet.specs.Sheet.{answered, written};
ghost use Rattle.dsp.specs.Answers.{begun, fed_to, polled, accepted, sync_of, finished, sheet_of, taken};

use device::model::DeviceModel;
use dsp_steps::DspState;
use dsp_table::{DspReplies, DspStatusReply, DspStep};
use protocol::{
    BusAddr, ConfigResp, DevInfoResp, DspQueryResp, DspStatus, Message, Nack, ProdInfoResp,
    Refusal, Stored,
};
use requests::status_poll;
use sequence::{Answer, Moved, accept_check, accept_feed};
use sheet::{SheetRefusal, StartUp, Tick, Ticks};

#[derive(Clone, Copy)]
pub struct DspSequencer {
    pub state: DspState,
    // the last accepted reading
    pub last: u64,
    // of the entries that are ticked
    pub ticks: Ticks,
}

#[derive(Clone, Copy)]
pub struct DspSync {
    pub status: DspStatus,
    // of a V46 status, beside it, as it is lent beside a message
    pub status_payload: Stored,
    // none when the DSP query is rejected or goes unanswered
    pub hw_info: Option<DspQueryResp>,
    pub dev_info: DevInfoResp,
    pub prod_info: [ProdInfoResp; 3],
    pub config: ConfigResp,
    // named by the device info
    pub model: DeviceModel,
    // in the device info's payload, counted from 0, of the tag that decided the model; none on a Mevo
    pub tag_place: Option<usize>,
    pub power_mode_unanswered: bool,
}

#[derive(Clone, Copy)]
pub struct DspTaken {
    pub refused: Option<Nack>,
    pub seq: DspSequencer,
}

// The result that these replies make; where one hasn't come its fields are 0.
impl From<DspReplies> for DspSync {
    ghost from_gives = { λ replies r. r ≡ sync_of replies };

    fn from(replies: DspReplies) -> DspSync {
        let status = replies.status.unwrap_or(DspStatusReply::none());
        let prod_info = replies.prod_info;
        DspSync {
            status: status.status,
            status_payload: status.payload,
            hw_info: replies.hw_info,
            dev_info: replies.dev_info.unwrap_or(DevInfoResp::none()),
            prod_info,
            config: replies.config.unwrap_or(ConfigResp::none()),
            model: DeviceModel::from_stored(replies.dev_info),
            tag_place: DeviceModel::tag_place_in(replies.dev_info),
            power_mode_unanswered: replies.power_mode_unanswered,
        }
    }
}

// An accepted call's answer, `tick` being its reading, and how it ticks an entry if it ticks one. Each sequencer with a clock has this of its own: a
// `Timed<S>` for both could have no methods in their crates.
fn accepted(ticks: Ticks, moved: Moved<DspState>, tick: Tick) -> Answer<DspSequencer>
    ensures { result ≡ accepted ticks moved tick }
{
    let seq = DspSequencer {
        state: moved.state,
        last: tick.reading,
        ticks: ticks.then(moved.ticked, tick),
    };
    Answer::accepted(moved.action, seq)
}

impl DspSequencer {
    pub fn new() -> Answer<DspSequencer>
        ensures { result ≡ begun }
    {
        let seq = DspSequencer {
            state: DspState::new(),
            last: 0,
            ticks: Ticks::none(),
        };
        Answer::accepted(Some(status_poll(false, BusAddr::Dsp)), seq)
    }

    // Numbers and slices one by one, as the scope has it; the struct that refers to them is crate envelope's.
    pub fn feed(
        self,
        src: BusAddr,
        type_id: u8,
        message: Message,
        params: [i16; 34],
        text: &[u8],
        payload: &[u8],
        now: u64,
    ) -> Answer<DspSequencer>
        ensures { result ≡ fed_to self (record { src = src; type_id = type_id; message = message; params = params; text = text.now; payload = payload.now }) now }
    {
        if let Err(refusal) = accept_feed(text, payload, self.last, now) {
            return Answer::refused(refusal, self);
        }
        match src {
            BusAddr::Dsp => {
                let moved = self
                    .state
                    .feed(type_id, message, params, text, payload, now);
                accepted(self.ticks, moved, Tick::fed(message, now))
            }
            _ => Answer::accepted(None, DspSequencer { last: now, ..self }),
        }
    }

    pub fn check_timeout(self, now: u64) -> Answer<DspSequencer>
        ensures { result ≡ polled self now }
    {
        if let Err(refusal) = accept_check(self.last, now) {
            return Answer::refused(refusal, self);
        }
        accepted(self.ticks, self.state.check(now), Tick::checked(now))
    }

    // The result, once Done.
    pub fn into_result(self) -> Result<DspSync, Refusal>
        ensures { result ≡ finished self }
    {
        let DspStep::Done = self.state.step else {
            return Err(Refusal::NotDone);
        };
        Ok(DspSync::from(self.state.replies))
    }

    // The nack with which the DSP refused the power-mode write, once.
    pub fn take_refused(self) -> DspTaken
        ensures { result ≡ taken self }
    {
        let mut seq = self;
        let refused = seq.state.replies.refused.take();
        DspTaken { refused, seq }
    }

    /// The sheet of the entries ticked so far, before Done too: a line each, written into the part of `buf` that begins at place `at` and
    /// reaches to the buffer's end. Answers how many bytes that is; the bytes outside of it stay. Refused with 5 where the part is shorter
    /// than the sheet or the place is past the buffer's end, and then nothing is written. The Rust has no such call.
    pub fn sheet(&self, buf: &mut [u8], at: usize) -> Result<usize, SheetRefusal>
        ensures answer { result ≡ answered (sheet_of self.now) at buf.old }
        ensures buffer { buf.new ≡ written (sheet_of self.now) at buf.old }
    {
        sheet::write(StartUp::Dsp, &self.ticks, buf, at)
    }
}
