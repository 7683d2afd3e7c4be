// The Pi start-up. C calls no function and takes no record with a type parameter, so what is alike in the
// files of other sequences stands here again.
ghost use Rattle.std.specs.Prelude.{◌≡◌};
ghost use Rattle.host.specs.Untimed.{pi_fed, pi_feed, no_pi_result, pi_sync_beside, pi_finished, pi_result, pi_new};
ghost use Rattle.host.specs.Sheets.{pi_sheet, pi_sheet_buffer};

use crate::absent::beside;
use crate::fed::Fed;
use crate::written::CWritten;
use crate::{UNKNOWN, absent};
use abi::action::CAction;
use abi_messages::{CEnvelope, Envelope};
use abi_pi::{CPi, CPiReplies};
use pi::{PiSequencer, PiSync};
use protocol::Refusal;

#[repr(C)]
#[derive(Clone, Copy)]
pub struct CPiFed {
    pub refusal: u8,
    pub action: CAction,
    pub seq: CPi,
}

#[repr(C)]
#[derive(Clone, Copy)]
pub struct CPiFinished {
    pub refusal: u8,
    pub sync: PiSync,
}

// C takes no record with a type parameter.
impl From<Fed<CPi>> for CPiFed {
    ghost from_gives = { λ fed r. r ≡ pi_fed fed };

    fn from(fed: Fed<CPi>) -> CPiFed {
        CPiFed {
            refusal: fed.refusal,
            action: fed.action,
            seq: fed.seq,
        }
    }
}

// Beside a refusal stands what a new start-up has; each start-up has replies and a record of its own.
fn no_result(refusal: u8) -> CPiFinished
    ensures { result ≡ no_pi_result refusal }
{
    let replies = PiSequencer::new().seq.replies;
    CPiFinished {
        refusal,
        sync: replies.into(),
    }
}

// What stands in the state that was handed in beside a record that is told as absent stands in the result.
fn sync_beside(sync: PiSync, replies: CPiReplies) -> PiSync
    ensures { result ≡ pi_sync_beside sync replies }
{
    let c = replies;
    PiSync {
        dev_info: beside(c.dev_info.some, sync.dev_info, c.dev_info.value),
        cam_config: beside(c.cam_config.some, sync.cam_config, c.cam_config.value),
        ..sync
    }
}

fn finished(finished: Result<PiSync, Refusal>, seq: CPi) -> CPiFinished
    ensures { result ≡ pi_finished finished seq }
{
    match finished {
        Ok(sync) => CPiFinished {
            refusal: 0,
            sync: sync_beside(sync, seq.replies),
        },
        Err(refusal) => no_result(refusal.number()),
    }
}

#[unsafe(no_mangle)]
pub extern "C" fn wigtalom_pi_new() -> CPiFed
    ensures { result ≡ pi_new }
{
    Fed::<CPi>::from(PiSequencer::new()).into()
}

// C calls a function that takes no type parameter, and so each sequence has its own.
#[unsafe(no_mangle)]
pub extern "C" fn wigtalom_pi_feed(seq: CPi, env: CEnvelope, text: &[u8], payload: &[u8]) -> CPiFed
    ensures { result ≡ pi_feed seq env text.now payload.now }
{
    let (Ok(open), Ok(env)) = (PiSequencer::try_from(seq), Envelope::try_from(env)) else {
        return Fed::declined(seq).into();
    };
    let fed = open.feed(env.src, env.type_id, env.message, text, payload);
    Fed::answered(fed.outcome, absent::pi(fed.seq.into(), seq), seq).into()
}

// The result, once Done; beside a refusal an empty one.
#[unsafe(no_mangle)]
pub extern "C" fn wigtalom_pi_result(seq: CPi) -> CPiFinished
    ensures { result ≡ pi_result seq }
{
    match PiSequencer::try_from(seq) {
        Ok(open) => finished(open.into_result(), seq),
        Err(_) => no_result(UNKNOWN),
    }
}

/// The sheet of the entries ticked so far, before Done too: written into the part of `buf` that begins at place `at`. 5 where that part is
/// shorter than the sheet or the place is past the buffer's end, 21 where a number is of no case: the buffer then stays as it is.
#[unsafe(no_mangle)]
pub extern "C" fn wigtalom_pi_sheet(seq: CPi, buf: &mut [u8], at: usize) -> CWritten
    ensures answer { result ≡ pi_sheet seq buf.old at }
    ensures buffer { buf.new ≡ pi_sheet_buffer seq buf.old at }
{
    match PiSequencer::try_from(seq) {
        Ok(open) => open.sheet(buf, at).into(),
        Err(_) => CWritten::declined(),
    }
}
