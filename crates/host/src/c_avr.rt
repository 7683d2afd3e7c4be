// The AVR start-up. C calls no function and takes no record with a type parameter, so what is alike in the
// files of other sequences stands here again.
ghost use Rattle.std.specs.Prelude.{◌≡◌};
ghost use Rattle.host.specs.Timed.{avr_new_for, avr_fed, avr_feed, avr_check, avr_sync, no_avr_result, avr_sync_beside, avr_finished, avr_result, avr_new};
ghost use Rattle.host.specs.Sheets.{avr_sheet, avr_sheet_buffer};

use crate::absent::beside;
use crate::fed::Fed;
use crate::written::CWritten;
use crate::{UNKNOWN, absent};
use abi::action::CAction;
use abi_avr::{CAvr, CAvrReplies, COptionStored};
use abi_messages::{CEnvelope, Envelope};
use avr::{AvrSequencer, AvrSync};
use device::model::DeviceModel;
use protocol::{AvrStatus, ConfigResp, DevInfoResp, Refusal};

#[repr(C)]
#[derive(Clone, Copy)]
pub struct CAvrFed {
    pub refusal: u8,
    pub action: CAction,
    pub seq: CAvr,
}

#[repr(C)]
#[derive(Clone, Copy)]
pub struct CAvrSync {
    pub status: AvrStatus,
    pub dev_info: DevInfoResp,
    pub config: ConfigResp,
    pub factory_cal: COptionStored,
    pub if_cal: COptionStored,
    pub avr_config: COptionStored,
}

#[repr(C)]
#[derive(Clone, Copy)]
pub struct CAvrFinished {
    pub refusal: u8,
    pub sync: CAvrSync,
}

// C takes no record with a type parameter.
impl From<Fed<CAvr>> for CAvrFed {
    ghost from_gives = { λ fed r. r ≡ avr_fed fed };

    fn from(fed: Fed<CAvr>) -> CAvrFed {
        CAvrFed {
            refusal: fed.refusal,
            action: fed.action,
            seq: fed.seq,
        }
    }
}

impl From<AvrSync> for CAvrSync {
    ghost from_gives = { λ sync r. r ≡ avr_sync sync };

    fn from(sync: AvrSync) -> CAvrSync {
        CAvrSync {
            status: sync.status,
            dev_info: sync.dev_info,
            config: sync.config,
            factory_cal: sync.factory_cal.map(|cal| cal.payload).into(),
            if_cal: sync.if_cal.map(|cal| cal.payload).into(),
            avr_config: sync.avr_config.map(|config| config.payload).into(),
        }
    }
}

// Beside a refusal stands what a new start-up has; each start-up has replies and a record of its own.
fn no_result(refusal: u8) -> CAvrFinished
    ensures { result ≡ no_avr_result refusal }
{
    let replies = AvrSequencer::new().seq.state.replies;
    CAvrFinished {
        refusal,
        sync: AvrSync::from(replies).into(),
    }
}

// What stands in the state that was handed in beside a record that is told as absent stands in the result.
fn sync_beside(sync: CAvrSync, replies: CAvrReplies) -> CAvrSync
    ensures { result ≡ avr_sync_beside sync replies }
{
    let c = replies;
    CAvrSync {
        status: beside(c.status.some, sync.status, c.status.value),
        dev_info: beside(c.dev_info.some, sync.dev_info, c.dev_info.value),
        config: beside(c.config.some, sync.config, c.config.value),
        factory_cal: beside(c.factory_cal.some, sync.factory_cal, c.factory_cal),
        if_cal: beside(c.if_cal.some, sync.if_cal, c.if_cal),
        avr_config: beside(c.avr_config.some, sync.avr_config, c.avr_config),
    }
}

fn finished(finished: Result<AvrSync, Refusal>, seq: CAvr) -> CAvrFinished
    ensures { result ≡ avr_finished finished seq }
{
    match finished {
        Ok(sync) => CAvrFinished {
            refusal: 0,
            sync: sync_beside(sync.into(), seq.replies),
        },
        Err(refusal) => no_result(refusal.number()),
    }
}

/// Takes a Mevo without asking: use `wigtalom_avr_new_for` with the model of the DSP's result.
#[unsafe(no_mangle)]
pub extern "C" fn wigtalom_avr_new() -> CAvrFed
    ensures { result ≡ avr_new }
{
    Fed::<CAvr>::from(AvrSequencer::new()).into()
}

#[unsafe(no_mangle)]
pub extern "C" fn wigtalom_avr_new_for(model: DeviceModel) -> CAvrFed
    ensures { result ≡ avr_new_for model }
{
    Fed::<CAvr>::from(AvrSequencer::new_for(model)).into()
}

// C calls a function that takes no type parameter, and so each sequence has its own.
#[unsafe(no_mangle)]
pub extern "C" fn wigtalom_avr_feed(
    seq: CAvr,
    env: CEnvelope,
    text: &[u8],
    payload: &[u8],
    now: u64,
    wall: u64,
) -> CAvrFed
    ensures { result ≡ avr_feed seq env text.now payload.now now wall }
{
    let (Ok(open), Ok(env)) = (AvrSequencer::try_from(seq), Envelope::try_from(env)) else {
        return Fed::declined(seq).into();
    };
    let fed = open.feed(
        env.src,
        env.type_id,
        env.message,
        env.params,
        text,
        payload,
        now,
        wall,
    );
    Fed::answered(fed.outcome, absent::avr(fed.seq.into(), seq), seq).into()
}

#[unsafe(no_mangle)]
pub extern "C" fn wigtalom_avr_check(seq: CAvr, now: u64) -> CAvrFed
    ensures { result ≡ avr_check seq now }
{
    match AvrSequencer::try_from(seq) {
        Ok(open) => {
            let fed = open.check_cal_timeout(now);
            Fed::answered(fed.outcome, absent::avr(fed.seq.into(), seq), seq).into()
        }
        Err(_) => Fed::declined(seq).into(),
    }
}

// The result, once Done; beside a refusal an empty one.
#[unsafe(no_mangle)]
pub extern "C" fn wigtalom_avr_result(seq: CAvr) -> CAvrFinished
    ensures { result ≡ avr_result seq }
{
    match AvrSequencer::try_from(seq) {
        Ok(open) => finished(open.into_result(), seq),
        Err(_) => no_result(UNKNOWN),
    }
}

/// The sheet of the entries ticked so far, before Done too: written into the part of `buf` that begins at place `at`. 5 where that part is
/// shorter than the sheet or the place is past the buffer's end, 21 where a number is of no case: the buffer then stays as it is.
#[unsafe(no_mangle)]
pub extern "C" fn wigtalom_avr_sheet(seq: CAvr, buf: &mut [u8], at: usize) -> CWritten
    ensures answer { result ≡ avr_sheet seq buf.old at }
    ensures buffer { buf.new ≡ avr_sheet_buffer seq buf.old at }
{
    match AvrSequencer::try_from(seq) {
        Ok(open) => open.sheet(buf, at).into(),
        Err(_) => CWritten::declined(),
    }
}
