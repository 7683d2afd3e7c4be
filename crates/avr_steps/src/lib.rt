// What an AVR start-up does with an accepted envelope or check, step by step (src/seq.rs, "Phase 2 — AvrSequencer"). Its calls, with
// their refusals and the result, are crate avr's.
#![tactic(auto)]

ghost use Rattle.std.specs.Prelude.{◌≡◌, true, cond, [], Some, None};
ghost use Rattle.protocol.specs.Action.{send_to};
ghost use Rattle.protocol.specs.declared.BusAddr.{BusAddr};
ghost use Rattle.protocol.specs.declared.Command.{Command};
ghost use Rattle.device.specs.Model.{has_factory_cal};
ghost use Rattle.sequence.specs.Events.{checked};
ghost use Rattle.sequence.specs.Rows.{idle, past, deadline_at};
ghost use Rattle.avr_table.specs.declared.AvrStep.{AvrStep};
ghost use Rattle.avr_table.specs.Table.{status_row, dev_info_row, param_row, next, request, row};
ghost use Rattle.avr_steps.specs.Answers.{begun, advance, answered, sent, arm_at, poll_at};

use avr_table::{AvrReplies, AvrStep, request};
use device::model::DeviceModel;
use protocol::{
    AvrConfigResp, BusAddr, CalDataResp, CalParamResp, ConfigResp, DevInfoResp, Message, Stored,
};
use requests::status_poll;
use sequence::{Moved, after, or_after, reached};

// How long a reply to a calibration request is waited for, in nanoseconds.
const TIMEOUT: u64 = 2_000_000_000;

// How long after a refused status poll it is sent again.
const STATUS_REPOLL_INTERVAL: u64 = 1_000_000_000;

// The type id of a status poll without its top bit, as a nack names it.
const STATUS: u8 = 0x2A;

// Where a start-up stands.
#[derive(Clone, Copy)]
pub struct AvrState {
    pub step: AvrStep,
    pub model: DeviceModel,
    pub replies: AvrReplies,
    // of the reply to a calibration request
    pub cal_deadline: Option<u64>,
    // when a refused status poll is sent again
    pub repoll_at: Option<u64>,
}

impl AvrState {
    pub fn new(model: DeviceModel) -> AvrState
        ensures { result ≡ begun model }
    {
        AvrState {
            step: AvrStep::WaitStatus1,
            model,
            replies: AvrReplies {
                status: None,
                dev_info: None,
                config: None,
                factory_cal: None,
                if_cal: None,
                avr_config: None,
            },
            cal_deadline: None,
            repoll_at: None,
        }
    }

    // A step begins. Each crate of steps has this of its own, since the state that it makes has fields of its own.
    fn moved(self, step: AvrStep, replies: AvrReplies, wall: u64) -> Moved<AvrState>
        ensures { result ≡ record { action = request step wall; state = record { step = step; model = self.model; replies = replies; cal_deadline = self.cal_deadline; repoll_at = self.repoll_at }; ticked = true } }
    {
        Moved {
            action: request(step, wall),
            state: AvrState {
                step,
                replies,
                ..self
            },
            ticked: true,
        }
    }

    // ---- an envelope from the AVR, by step

    // A refused poll is sent again later, once.
    fn wait_status(self, step: AvrStep, message: Message, now: u64) -> Moved<AvrState>
        ensures { result ≡ poll_at (status_row (request step 0)) step self (sent 0 message [] [] [] now 0) }
    {
        match message {
            Message::ConfigNack(nack) if nack.acked_cmd == STATUS => {
                let state = AvrState {
                    repoll_at: or_after(self.repoll_at, now, STATUS_REPOLL_INTERVAL),
                    ..self
                };
                Moved::idle(state)
            }
            Message::AvrStatus(status) => {
                let replies = AvrReplies {
                    status: Some(status),
                    ..self.replies
                };
                let state = AvrState {
                    repoll_at: None,
                    ..self
                };
                state.moved(step, replies, 0)
            }
            _ => Moved::idle(self),
        }
    }

    fn wait_dev_info(
        self,
        step: AvrStep,
        message: Message,
        text: &[u8],
        payload: &[u8],
    ) -> Moved<AvrState>
        ensures { result ≡ arm_at (dev_info_row (request step 0)) step past self (sent 0 message [] text.now payload.now 0 0) }
    {
        let Message::DevInfoResp = message else {
            return Moved::idle(self);
        };
        let replies = AvrReplies {
            dev_info: Some(DevInfoResp::from_slices(text, payload)),
            ..self.replies
        };
        self.moved(step, replies, 0)
    }

    fn wait_param(self, step: AvrStep, message: Message, wall: u64) -> Moved<AvrState>
        ensures { result ≡ arm_at (param_row (λ e. request step wall)) step past self (sent 0 message [] [] [] 0 0) }
    {
        let Message::ParamValue(_) = message else {
            return Moved::idle(self);
        };
        self.moved(step, self.replies, wall)
    }

    fn wait_config(self, message: Message, params: [i16; 34], now: u64) -> Moved<AvrState>
        ensures { result ≡ arm_at (row self.model AvrStep.WaitConfig) (next self.model AvrStep.WaitConfig) (row self.model (next self.model AvrStep.WaitConfig)) self (sent 0 message params [] [] now 0) }
    {
        let Message::ConfigResp = message else {
            return Moved::idle(self);
        };
        let replies = AvrReplies {
            config: Some(ConfigResp { params }),
            ..self.replies
        };
        if !self.model.has_factory_cal() {
            return self.to_cal(AvrStep::WaitIfCal, replies, now);
        }
        self.to_cal(AvrStep::WaitFactoryCal, replies, now)
    }

    // A calibration is asked for, and waited for.
    fn to_cal(self, step: AvrStep, replies: AvrReplies, now: u64) -> Moved<AvrState>
        ensures { result ≡ record { action = request step 0; state = record { step = step; model = self.model; replies = replies; cal_deadline = deadline_at now 2_000_000_000; repoll_at = self.repoll_at }; ticked = true } }
    {
        let state = AvrState {
            cal_deadline: after(now, TIMEOUT),
            ..self
        };
        state.moved(step, replies, 0)
    }

    // This, `wait_if_cal` and `wait_avr_config` store each its own record in its own field, and go on each its own way: one for the three
    // would take all of that as arguments.
    fn wait_factory_cal(self, message: Message, payload: &[u8], now: u64) -> Moved<AvrState>
        ensures { result ≡ arm_at (row self.model AvrStep.WaitFactoryCal) AvrStep.WaitIfCal (row self.model AvrStep.WaitIfCal) self (sent 0 message [] [] payload.now now 0) }
    {
        let Message::CalDataResp = message else {
            return Moved::idle(self);
        };
        let factory_cal = CalDataResp {
            payload: Stored::from_slice(payload),
        };
        let replies = AvrReplies {
            factory_cal: Some(factory_cal),
            ..self.replies
        };
        self.to_cal(AvrStep::WaitIfCal, replies, now)
    }

    // Next step once the exchange of the other calibration is over, answered or not.
    fn after_if_cal(self, replies: AvrReplies) -> Moved<AvrState>
        ensures { result ≡ record { action = cond (has_factory_cal self.model) (Some (send_to BusAddr.Avr Command.AvrConfigQuery)) None; state = record { step = next self.model AvrStep.WaitIfCal; model = self.model; replies = replies; cal_deadline = None; repoll_at = self.repoll_at }; ticked = true } }
    {
        let state = AvrState {
            cal_deadline: None,
            ..self
        };
        if self.model.has_factory_cal() {
            return state.moved(AvrStep::WaitAvrConfig, replies, 0);
        }
        state.moved(AvrStep::Done, replies, 0)
    }

    fn wait_if_cal(self, message: Message, payload: &[u8], now: u64) -> Moved<AvrState>
        ensures { result ≡ arm_at (row self.model AvrStep.WaitIfCal) (next self.model AvrStep.WaitIfCal) (row self.model (next self.model AvrStep.WaitIfCal)) self (sent 0 message [] [] payload.now now 0) }
    {
        let Message::CalParamResp = message else {
            return Moved::idle(self);
        };
        let if_cal = CalParamResp {
            payload: Stored::from_slice(payload),
        };
        let replies = AvrReplies {
            if_cal: Some(if_cal),
            ..self.replies
        };
        self.after_if_cal(replies)
    }

    fn wait_avr_config(self, message: Message, payload: &[u8]) -> Moved<AvrState>
        ensures { result ≡ arm_at (row self.model AvrStep.WaitAvrConfig) AvrStep.WaitParam64 past self (sent 0 message [] [] payload.now 0 0) }
    {
        let Message::AvrConfigResp = message else {
            return Moved::idle(self);
        };
        let avr_config = AvrConfigResp {
            payload: Stored::from_slice(payload),
        };
        let replies = AvrReplies {
            avr_config: Some(avr_config),
            ..self.replies
        };
        self.moved(AvrStep::WaitParam64, replies, 0)
    }

    fn wait_time_sync(self, message: Message) -> Moved<AvrState>
        ensures { result ≡ arm_at (row self.model AvrStep.WaitTimeSync) AvrStep.Done past self (sent 0 message [] [] [] 0 0) }
    {
        let Message::TimeSync(_) = message else {
            return Moved::idle(self);
        };
        self.moved(AvrStep::Done, self.replies, 0)
    }

    // ---- an accepted envelope from the AVR, an accepted check

    // One by one, as the sequencer's feed has them.
    pub fn feed(
        self,
        type_id: u8,
        message: Message,
        params: [i16; 34],
        text: &[u8],
        payload: &[u8],
        now: u64,
        wall: u64,
    ) -> Moved<AvrState>
        ensures { result ≡ answered self (sent type_id message params text.now payload.now now wall) }
    {
        // a `match`, and no closure kept for the step: a host holds the step as a number, and each takes arguments of its own
        match self.step {
            AvrStep::WaitStatus1 => self.wait_status(AvrStep::WaitStatus2, message, now),
            AvrStep::WaitStatus2 => self.wait_status(AvrStep::WaitDevInfo1, message, now),
            AvrStep::WaitDevInfo1 => {
                self.wait_dev_info(AvrStep::WaitDevInfo2, message, text, payload)
            }
            AvrStep::WaitDevInfo2 => {
                self.wait_dev_info(AvrStep::WaitParam0C, message, text, payload)
            }
            AvrStep::WaitParam0C => self.wait_param(AvrStep::WaitParam0D, message, 0),
            AvrStep::WaitParam0D => self.wait_param(AvrStep::WaitConfig, message, 0),
            AvrStep::WaitConfig => self.wait_config(message, params, now),
            AvrStep::WaitFactoryCal => self.wait_factory_cal(message, payload, now),
            AvrStep::WaitIfCal => self.wait_if_cal(message, payload, now),
            AvrStep::WaitAvrConfig => self.wait_avr_config(message, payload),
            AvrStep::WaitParam64 => self.wait_param(AvrStep::WaitTimeSync, message, wall),
            AvrStep::WaitTimeSync => self.wait_time_sync(message),
            AvrStep::Done => Moved::idle(self),
        }
    }

    // A check of the calibration's deadline.
    fn check_cal(self, now: u64) -> Moved<AvrState>
        ensures { result ≡ advance self (checked now) }
    {
        if !reached(self.cal_deadline, now) {
            return Moved::idle(self);
        }
        // as in `feed`, no closure for the step
        match self.step {
            AvrStep::WaitFactoryCal => self.to_cal(AvrStep::WaitIfCal, self.replies, now),
            AvrStep::WaitIfCal => self.after_if_cal(self.replies),
            _ => {
                let state = AvrState {
                    cal_deadline: None,
                    ..self
                };
                Moved::idle(state)
            }
        }
    }

    // A refused status poll that is due is sent again; else the calibration's deadline is looked at.
    pub fn check(self, now: u64) -> Moved<AvrState>
        ensures { result ≡ answered self (checked now) }
    {
        if !reached(self.repoll_at, now) {
            return self.check_cal(now);
        }
        let state = AvrState {
            repoll_at: None,
            ..self
        };
        Moved {
            action: Some(status_poll(false, BusAddr::Avr)),
            state,
            ticked: false,
        }
    }
}
