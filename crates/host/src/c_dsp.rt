// The DSP start-up. C calls no function and takes no record with a type parameter, so what is alike in the
// files of other sequences stands here again.
ghost use Rattle.std.specs.Prelude.{◌≡◌};
ghost use Rattle.host.specs.Timed.{dsp_fed, dsp_feed, dsp_check, place_out, dsp_sync, no_dsp_result, dsp_sync_beside, dsp_finished, dsp_result, dsp_take, dsp_new};
ghost use Rattle.host.specs.Sheets.{dsp_sheet, dsp_sheet_buffer};

use crate::absent::{beside, plain};
use crate::fed::Fed;
use crate::written::CWritten;
use crate::{UNKNOWN, absent};
use abi::action::CAction;
use abi_dsp::{CDsp, COptionDspQueryResp, COptionNack};
use abi_messages::{CDspStatus, CEnvelope, Envelope};
use device::model::DeviceModel;
use dsp::{DspSequencer, DspSync};
use protocol::{ConfigResp, DevInfoResp, ProdInfoResp, Refusal, Stored};

#[repr(C)]
#[derive(Clone, Copy)]
pub struct CDspFed {
    pub refusal: u8,
    pub action: CAction,
    pub seq: CDsp,
}

// C takes no `Option`. A result alone has it, and so it never comes in.
#[repr(C)]
#[derive(Clone, Copy)]
pub struct COptionPlace {
    pub some: bool,
    pub value: usize,
}

#[repr(C)]
#[derive(Clone, Copy)]
pub struct CDspSync {
    pub status: CDspStatus,
    pub status_payload: Stored,
    pub hw_info: COptionDspQueryResp,
    pub dev_info: DevInfoResp,
    pub prod_info: [ProdInfoResp; 3],
    pub config: ConfigResp,
    pub model: DeviceModel,
    pub tag_place: COptionPlace,
    pub power_mode_unanswered: bool,
}

#[repr(C)]
#[derive(Clone, Copy)]
pub struct CDspFinished {
    pub refusal: u8,
    pub sync: CDspSync,
}

#[repr(C)]
#[derive(Clone, Copy)]
pub struct CDspTaken {
    pub refusal: u8,
    pub refused: COptionNack,
    pub seq: CDsp,
}

// C takes no record with a type parameter.
impl From<Fed<CDsp>> for CDspFed {
    ghost from_gives = { λ fed r. r ≡ dsp_fed fed };

    fn from(fed: Fed<CDsp>) -> CDspFed {
        CDspFed {
            refusal: fed.refusal,
            action: fed.action,
            seq: fed.seq,
        }
    }
}

impl From<Option<usize>> for COptionPlace {
    ghost from_gives = { λ place r. r ≡ place_out place };

    fn from(place: Option<usize>) -> COptionPlace {
        COptionPlace {
            some: place.is_some(),
            value: place.unwrap_or(0),
        }
    }
}

impl From<DspSync> for CDspSync {
    ghost from_gives = { λ sync r. r ≡ dsp_sync sync };

    fn from(sync: DspSync) -> CDspSync {
        // By a variable: the borrow checker refuses this field, which is an array, straight in the literal.
        let prod_info = sync.prod_info;
        CDspSync {
            status: sync.status.into(),
            status_payload: sync.status_payload,
            hw_info: sync.hw_info.into(),
            dev_info: sync.dev_info,
            prod_info,
            config: sync.config,
            model: sync.model,
            tag_place: sync.tag_place.into(),
            power_mode_unanswered: sync.power_mode_unanswered,
        }
    }
}

// Beside a refusal stands what a new start-up has; each start-up has replies and a record of its own.
fn no_result(refusal: u8) -> CDspFinished
    ensures { result ≡ no_dsp_result refusal }
{
    let replies = DspSequencer::new().seq.state.replies;
    CDspFinished {
        refusal,
        sync: DspSync::from(replies).into(),
    }
}

// What stands in the state that was handed in beside a record that is told as absent stands in the result.
fn sync_beside(sync: CDspSync, seq: CDsp) -> CDspSync
    ensures { result ≡ dsp_sync_beside sync seq }
{
    let (status, payload) = (plain(seq.status.value), seq.status.payload);
    CDspSync {
        status: beside(seq.status.some, sync.status, status),
        status_payload: beside(seq.status.some, sync.status_payload, payload),
        hw_info: beside(seq.hw_info.some, sync.hw_info, seq.hw_info),
        dev_info: beside(seq.dev_info.some, sync.dev_info, seq.dev_info.value),
        config: beside(seq.config.some, sync.config, seq.config.value),
        ..sync
    }
}

fn finished(finished: Result<DspSync, Refusal>, seq: CDsp) -> CDspFinished
    ensures { result ≡ dsp_finished finished seq }
{
    match finished {
        Ok(sync) => CDspFinished {
            refusal: 0,
            sync: sync_beside(sync.into(), seq),
        },
        Err(refusal) => no_result(refusal.number()),
    }
}

#[unsafe(no_mangle)]
pub extern "C" fn wigtalom_dsp_new() -> CDspFed
    ensures { result ≡ dsp_new }
{
    Fed::<CDsp>::from(DspSequencer::new()).into()
}

// C calls a function that takes no type parameter, and so each sequence has its own.
#[unsafe(no_mangle)]
pub extern "C" fn wigtalom_dsp_feed(
    seq: CDsp,
    env: CEnvelope,
    text: &[u8],
    payload: &[u8],
    now: u64,
) -> CDspFed
    ensures { result ≡ dsp_feed seq env text.now payload.now now }
{
    let (Ok(open), Ok(env)) = (DspSequencer::try_from(seq), Envelope::try_from(env)) else {
        return Fed::declined(seq).into();
    };
    let fed = open.feed(
        env.src,
        env.type_id,
        env.message,
        env.params,
        text,
        payload,
        now,
    );
    Fed::answered(fed.outcome, absent::dsp(fed.seq.into(), seq), seq).into()
}

#[unsafe(no_mangle)]
pub extern "C" fn wigtalom_dsp_check(seq: CDsp, now: u64) -> CDspFed
    ensures { result ≡ dsp_check seq now }
{
    match DspSequencer::try_from(seq) {
        Ok(open) => {
            let fed = open.check_timeout(now);
            Fed::answered(fed.outcome, absent::dsp(fed.seq.into(), seq), seq).into()
        }
        Err(_) => Fed::declined(seq).into(),
    }
}

// The result, once Done; beside a refusal an empty one.
#[unsafe(no_mangle)]
pub extern "C" fn wigtalom_dsp_result(seq: CDsp) -> CDspFinished
    ensures { result ≡ dsp_result seq }
{
    match DspSequencer::try_from(seq) {
        Ok(open) => finished(open.into_result(), seq),
        Err(_) => no_result(UNKNOWN),
    }
}

#[unsafe(no_mangle)]
pub extern "C" fn wigtalom_dsp_take_refused(seq: CDsp) -> CDspTaken
    ensures { result ≡ dsp_take seq }
{
    let Ok(open) = DspSequencer::try_from(seq) else {
        return CDspTaken {
            refusal: UNKNOWN,
            refused: COptionNack::from(None),
            seq,
        };
    };
    let taken = open.take_refused();
    CDspTaken {
        refusal: 0,
        refused: beside(seq.refused.some, taken.refused.into(), seq.refused),
        seq: CDsp {
            refused: COptionNack::from(None),
            ..absent::dsp(taken.seq.into(), seq)
        },
    }
}

/// The sheet of the entries ticked so far, before Done too: written into the part of `buf` that begins at place `at`. 5 where that part is
/// shorter than the sheet or the place is past the buffer's end, 21 where a number is of no case: the buffer then stays as it is.
#[unsafe(no_mangle)]
pub extern "C" fn wigtalom_dsp_sheet(seq: CDsp, buf: &mut [u8], at: usize) -> CWritten
    ensures answer { result ≡ dsp_sheet seq buf.old at }
    ensures buffer { buf.new ≡ dsp_sheet_buffer seq buf.old at }
{
    match DspSequencer::try_from(seq) {
        Ok(open) => open.sheet(buf, at).into(),
        Err(_) => CWritten::declined(),
    }
}
