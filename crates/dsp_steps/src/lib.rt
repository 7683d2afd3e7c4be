// What a DSP start-up does with an accepted envelope or check, step by step (src/seq.rs, "Phase 1 — DspSequencer"). Its calls, with
// their refusals and the result, are crate dsp's.
#![tactic(auto)]

ghost use Rattle.std.specs.Prelude.{◌≡◌, true, [], ◌<◌, None};
ghost use Rattle.device.specs.Model.{model_in};
ghost use Rattle.sequence.specs.Events.{checked};
ghost use Rattle.sequence.specs.Rows.{idle, past};
ghost use Rattle.dsp_table.specs.declared.DspStep.{DspStep};
ghost use Rattle.dsp_table.specs.Stores.{status_reply};
ghost use Rattle.dsp_table.specs.Table.{entry1, entry2, entry3, entry4, entry7, entry8, prod_info, next, row, request};
ghost use Rattle.dsp_steps.specs.Answers.{begun, answered, sent, arm_at};

use device::model::DeviceModel;
use dsp_table::{DspReplies, DspStatusReply, DspStep, request};
use protocol::{BusAddr, ConfigResp, DevInfoResp, DspStatus, Message, Nack, ProdInfoResp, Stored};
use sequence::{Moved, after, reached};

// How long a reply to the DSP query or the power-mode write is waited for, in nanoseconds.
const DSP_QUERY_TIMEOUT: u64 = 2_000_000_000;

// The type ids of the DSP query and the power-mode write without their top bit, as a reply names them.
const DSP_QUERY: u8 = 0x48;

const PARAM_VALUE: u8 = 0x3F;

// Where a start-up stands.
#[derive(Clone, Copy)]
pub struct DspState {
    pub step: DspStep,
    pub replies: DspReplies,
    // of the reply to the DSP query or the power-mode write
    pub deadline: Option<u64>,
}

// ---- what is stored of a reply

fn status_reply(status: DspStatus, payload: &[u8]) -> DspStatusReply
    ensures { result ≡ status_reply status payload.now }
{
    let payload = match status {
        DspStatus::V80(_) => Stored::empty(),
        DspStatus::V46(_) => Stored::from_slice(payload),
    };
    DspStatusReply { status, payload }
}

// ---- an envelope from the DSP, by step

// A step begins. Each crate of steps has this of its own, since the state that it makes has fields of its own.
fn moved(step: DspStep, replies: DspReplies, deadline: Option<u64>) -> Moved<DspState>
    ensures { result ≡ record { action = request step; state = record { step = step; replies = replies; deadline = deadline }; ticked = true } }
{
    Moved {
        action: request(step),
        state: DspState {
            step,
            replies,
            deadline,
        },
        ticked: true,
    }
}

// A wait is over, with or without a reply.
fn waited(step: DspStep, replies: DspReplies) -> Moved<DspState>
    ensures { result ≡ record { action = request step; state = record { step = step; replies = replies; deadline = None }; ticked = true } }
{
    moved(step, replies, None)
}

impl DspState {
    pub fn new() -> DspState
        ensures { result ≡ begun }
    {
        let empty = ProdInfoResp {
            text: Stored::empty(),
        };
        DspState {
            step: DspStep::WaitStatus,
            replies: DspReplies {
                status: None,
                hw_info: None,
                dev_info: None,
                prod_info: [empty; 3],
                config: None,
                refused: None,
                power_mode_unanswered: false,
            },
            deadline: None,
        }
    }

    fn wait_status(self, message: Message, payload: &[u8], now: u64) -> Moved<DspState>
        ensures { result ≡ arm_at entry1 DspStep.WaitDspQuery entry2 self (sent 0 message [] [] payload.now now) }
    {
        let Message::DspStatus(status) = message else {
            return Moved::idle(self);
        };
        let replies = DspReplies {
            status: Some(status_reply(status, payload)),
            ..self.replies
        };
        moved(
            DspStep::WaitDspQuery,
            replies,
            after(now, DSP_QUERY_TIMEOUT),
        )
    }

    fn wait_dsp_query(self, message: Message) -> Moved<DspState>
        ensures { result ≡ arm_at entry2 DspStep.WaitDevInfo entry3 self (sent 0 message [] [] [] 0) }
    {
        match message {
            Message::ConfigNack(nack) if nack.acked_cmd == DSP_QUERY => {
                waited(DspStep::WaitDevInfo, self.replies)
            }
            Message::DspQueryResp(hw_info) => {
                let replies = DspReplies {
                    hw_info: Some(hw_info),
                    ..self.replies
                };
                waited(DspStep::WaitDevInfo, replies)
            }
            _ => Moved::idle(self),
        }
    }

    fn wait_dev_info(self, message: Message, text: &[u8], payload: &[u8]) -> Moved<DspState>
        ensures { result ≡ arm_at entry3 DspStep.WaitProdInfo0 entry4 self (sent 0 message [] text.now payload.now 0) }
    {
        let Message::DevInfoResp = message else {
            return Moved::idle(self);
        };
        let replies = DspReplies {
            dev_info: Some(DevInfoResp::from_slices(text, payload)),
            ..self.replies
        };
        moved(DspStep::WaitProdInfo0, replies, self.deadline)
    }

    // The product info number i, from 0; then the step is `step`.
    fn wait_prod_info(
        self,
        i: usize,
        step: DspStep,
        message: Message,
        text: &[u8],
    ) -> Moved<DspState>
        requires { i < 3 }
        ensures { result ≡ arm_at (prod_info i (request step)) step past self (sent 0 message [] text.now [] 0) }
    {
        let Message::ProdInfoResp = message else {
            return Moved::idle(self);
        };
        let mut replies = self.replies;
        replies.prod_info[i] = ProdInfoResp {
            text: Stored::from_slice(text),
        };
        moved(step, replies, self.deadline)
    }

    fn wait_config(self, message: Message, params: [i16; 34], now: u64) -> Moved<DspState>
        ensures { result ≡ arm_at (entry7 (model_in self.replies.dev_info)) (next (model_in self.replies.dev_info) DspStep.WaitConfig) (row (model_in self.replies.dev_info) (next (model_in self.replies.dev_info) DspStep.WaitConfig)) self (sent 0 message params [] [] now) }
    {
        let Message::ConfigResp = message else {
            return Moved::idle(self);
        };
        let replies = DspReplies {
            config: Some(ConfigResp { params }),
            ..self.replies
        };
        if DeviceModel::from_stored(replies.dev_info).has_power_mode() {
            let deadline = after(now, DSP_QUERY_TIMEOUT);
            return moved(DspStep::WaitPowerMode, replies, deadline);
        }
        moved(DspStep::Done, replies, self.deadline)
    }

    fn wait_power_mode(self, type_id: u8, message: Message) -> Moved<DspState>
        ensures { result ≡ arm_at entry8 DspStep.Done past self (sent type_id message [] [] [] 0) }
    {
        match message {
            Message::ConfigAck(ack) if ack.acked_cmd == PARAM_VALUE => {
                waited(DspStep::Done, self.replies)
            }
            Message::ConfigNack(nack) if nack.acked_cmd == PARAM_VALUE => {
                let refused = Nack {
                    src: BusAddr::Dsp,
                    type_id,
                    nack,
                };
                let replies = DspReplies {
                    refused: Some(refused),
                    ..self.replies
                };
                waited(DspStep::Done, replies)
            }
            _ => Moved::idle(self),
        }
    }

    // ---- an accepted envelope from the DSP, an accepted check

    // One by one, as the sequencer's feed has them.
    pub fn feed(
        self,
        type_id: u8,
        message: Message,
        params: [i16; 34],
        text: &[u8],
        payload: &[u8],
        now: u64,
    ) -> Moved<DspState>
        ensures { result ≡ answered self (sent type_id message params text.now payload.now now) }
    {
        // a `match`, and no closure kept for the step: a host holds the step as a number, and each takes arguments of its own
        match self.step {
            DspStep::WaitStatus => self.wait_status(message, payload, now),
            DspStep::WaitDspQuery => self.wait_dsp_query(message),
            DspStep::WaitDevInfo => self.wait_dev_info(message, text, payload),
            DspStep::WaitProdInfo0 => self.wait_prod_info(0, DspStep::WaitProdInfo1, message, text),
            DspStep::WaitProdInfo1 => self.wait_prod_info(1, DspStep::WaitProdInfo2, message, text),
            DspStep::WaitProdInfo2 => self.wait_prod_info(2, DspStep::WaitConfig, message, text),
            DspStep::WaitConfig => self.wait_config(message, params, now),
            DspStep::WaitPowerMode => self.wait_power_mode(type_id, message),
            DspStep::Done => Moved::idle(self),
        }
    }

    pub fn check(self, now: u64) -> Moved<DspState>
        ensures { result ≡ answered self (checked now) }
    {
        if !reached(self.deadline, now) {
            return Moved::idle(self);
        }
        // as in `feed`, no closure for the step
        match self.step {
            DspStep::WaitDspQuery => waited(DspStep::WaitDevInfo, self.replies),
            DspStep::WaitPowerMode => {
                let replies = DspReplies {
                    power_mode_unanswered: true,
                    ..self.replies
                };
                waited(DspStep::Done, replies)
            }
            _ => Moved::idle(self),
        }
    }
}
