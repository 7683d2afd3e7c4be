// Pi start-up (src/seq.rs, "Phase 3 — PiSequencer") as a pollable state machine by value: `feed` takes a decoded envelope and answers
// with at most one command to send. It has no clock.
#![tactic(auto)]

ghost use Rattle.std.specs.Prelude.{◌≡◌, [], Ok};
ghost use Rattle.protocol.specs.declared.BusAddr.{BusAddr};
ghost use Rattle.sequence.specs.Rows.{past};
ghost use Rattle.pi_table.specs.declared.PiStep.{PiStep};
ghost use Rattle.pi_table.specs.Stores.{no_replies};
ghost use Rattle.pi_table.specs.Table.{entry2, entry5, entry7, param_row, next, request};
ghost use Rattle.sheet.specs.Sheet.{answered, written};
ghost use Rattle.sheet.specs.Ticks.{how_of, with_tick};
ghost use Rattle.pi.specs.Answers.{begun, advance, arm_at, sent, fed_to, sync_of, finished, sheet_of};

use net_config::{after_zero, before_zero};
use pi_table::{PiReplies, PiStep, request};
use protocol::{BusAddr, CamConfig, DevInfoResp, Message, Refusal, Stored};
use sequence::Answer;
use sheet::{SheetRefusal, StartUp, Tick, Ticks};

#[derive(Clone, Copy)]
pub struct PiSequencer {
    pub step: PiStep,
    pub replies: PiReplies,
    // of the entries that are ticked
    pub ticks: Ticks,
}

#[repr(C)]
#[derive(Clone, Copy)]
pub struct PiSync {
    pub dev_info: DevInfoResp,
    pub cam_config: CamConfig,
    pub ssid: Stored,
    pub password: Stored,
}

fn no_replies() -> PiReplies
    ensures { result ≡ no_replies }
{
    PiReplies {
        dev_info: None,
        cam_config: None,
        ssid: Stored::empty(),
        password: Stored::empty(),
    }
}

// The result that these replies make; where one hasn't come its fields are 0.
impl From<PiReplies> for PiSync {
    ghost from_gives = { λ replies r. r ≡ sync_of replies };

    fn from(replies: PiReplies) -> PiSync {
        PiSync {
            dev_info: replies.dev_info.unwrap_or(DevInfoResp::none()),
            cam_config: replies.cam_config.unwrap_or(CamConfig::none()),
            ssid: replies.ssid,
            password: replies.password,
        }
    }
}

// ---- an envelope from the Pi, by step

impl PiSequencer {
    // A step begins, by this message. Each crate of steps has this of its own, since the state that it makes has fields of its own.
    fn moved(self, message: Message, step: PiStep, replies: PiReplies) -> Answer<PiSequencer>
        ensures { result ≡ record { outcome = Ok (request step); seq = record { step = step; replies = replies; ticks = with_tick self.ticks (record { reading = 0; how = how_of message }) } } }
    {
        let seq = PiSequencer {
            step,
            replies,
            ticks: self.ticks.with(Tick::fed(message, 0)),
        };
        Answer::accepted(request(step), seq)
    }

    fn wait_dev_info(self, message: Message, text: &[u8], payload: &[u8]) -> Answer<PiSequencer>
        ensures { result ≡ arm_at entry2 PiStep.WaitParam0A past self (sent 0 message text.now payload.now) }
    {
        let Message::DevInfoResp = message else {
            return Answer::accepted(None, self);
        };
        self.moved(
            message,
            PiStep::WaitParam0A,
            PiReplies {
                dev_info: Some(DevInfoResp::from_slices(text, payload)),
                ..self.replies
            },
        )
    }

    fn wait_cam_config2(self, message: Message) -> Answer<PiSequencer>
        ensures { result ≡ arm_at entry5 PiStep.WaitNetConfig past self (sent 0 message [] []) }
    {
        let Message::CamConfig(cam_config) = message else {
            return Answer::accepted(None, self);
        };
        self.moved(
            message,
            PiStep::WaitNetConfig,
            PiReplies {
                cam_config: Some(cam_config),
                ..self.replies
            },
        )
    }

    fn wait_net_config_pw(self, message: Message, text: &[u8]) -> Answer<PiSequencer>
        ensures { result ≡ arm_at entry7 (PiStep.WaitParams 0) past self (sent 0 message text.now []) }
    {
        let Message::NetConfigResp = message else {
            return Answer::accepted(None, self);
        };
        self.moved(
            message,
            PiStep::WaitParams { idx: 0 },
            PiReplies {
                ssid: before_zero(text),
                password: after_zero(text),
                ..self.replies
            },
        )
    }

    fn wait_params(self, idx: usize, message: Message) -> Answer<PiSequencer>
        ensures { result ≡ arm_at (param_row idx) (next (PiStep.WaitParams idx)) past self (sent 0 message [] []) }
    {
        match message {
            Message::ParamValue(_) if idx < 8 => {
                self.moved(message, PiStep::WaitParams { idx: idx + 1 }, self.replies)
            }
            Message::ParamValue(_) => self.moved(message, PiStep::Done, self.replies),
            _ => Answer::accepted(None, self),
        }
    }

    // One by one, as `feed` has them.
    fn feed_pi(
        self,
        type_id: u8,
        message: Message,
        text: &[u8],
        payload: &[u8],
    ) -> Answer<PiSequencer>
        ensures { result ≡ advance self (sent type_id message text.now payload.now) }
    {
        // a `match`, and no closure kept for the step: a host holds the step as a number, and each takes arguments of its own
        match self.step {
            PiStep::WaitStatus => {
                if let Message::PiStatus = message {
                    return self.moved(message, PiStep::WaitDevInfo, self.replies);
                }
            }
            PiStep::WaitDevInfo => return self.wait_dev_info(message, text, payload),
            PiStep::WaitParam0A => {
                if let Message::ParamValue(_) = message {
                    return self.moved(message, PiStep::WaitCamConfig1, self.replies);
                }
            }
            PiStep::WaitCamConfig1 => {
                if let Message::CamConfig(_) = message {
                    return self.moved(message, PiStep::WaitCamConfig2, self.replies);
                }
            }
            PiStep::WaitCamConfig2 => return self.wait_cam_config2(message),
            PiStep::WaitNetConfig => {
                if let Message::NetConfigResp = message {
                    return self.moved(message, PiStep::WaitNetConfigPw, self.replies);
                }
            }
            PiStep::WaitNetConfigPw => return self.wait_net_config_pw(message, text),
            PiStep::WaitParams { idx } => return self.wait_params(idx, message),
            PiStep::Done => {}
        }
        Answer::accepted(None, self)
    }

    // ---- the calls

    pub fn new() -> Answer<PiSequencer>
        ensures { result ≡ begun }
    {
        let seq = PiSequencer {
            step: PiStep::WaitStatus,
            replies: no_replies(),
            ticks: Ticks::none(),
        };
        Answer::accepted(request(PiStep::WaitStatus), seq)
    }

    // Numbers and slices one by one, as the scope has it; the struct that refers to them is crate envelope's.
    pub fn feed(
        self,
        src: BusAddr,
        type_id: u8,
        message: Message,
        text: &[u8],
        payload: &[u8],
    ) -> Answer<PiSequencer>
        ensures { result ≡ fed_to self (record { src = src; type_id = type_id; message = message; params = []; text = text.now; payload = payload.now }) }
    {
        match sequence::accept_bytes(text, payload) {
            Ok(()) => match src {
                BusAddr::Pi => self.feed_pi(type_id, message, text, payload),
                _ => Answer::accepted(None, self),
            },
            Err(refusal) => Answer::refused(refusal, self),
        }
    }

    // The result, once Done.
    pub fn into_result(self) -> Result<PiSync, Refusal>
        ensures { result ≡ finished self }
    {
        match self.step {
            PiStep::Done => Ok(PiSync::from(self.replies)),
            _ => Err(Refusal::NotDone),
        }
    }

    /// The sheet of the entries ticked so far, before Done too: a line each, with reading 0, written into the part of `buf` that begins at
    /// place `at` and reaches to the buffer's end. Answers how many bytes that is; the bytes outside of it stay. Refused with 5 where the
    /// part is shorter than the sheet or the place is past the buffer's end, and then nothing is written. The Rust has no such call.
    pub fn sheet(&self, buf: &mut [u8], at: usize) -> Result<usize, SheetRefusal>
        ensures answer { result ≡ answered (sheet_of self.now) at buf.old }
        ensures buffer { buf.new ≡ written (sheet_of self.now) at buf.old }
    {
        sheet::write(StartUp::Pi, &self.ticks, buf, at)
    }
}
