// What stands in a state beside a record that is told as absent. No call gives such a state, but a host may hand one in. Where an accepted call leaves
// the record alone, and there was none before, what stood beside it goes back with it; and a result, which has no flag for every reply, has what
// stands in the state.
ghost use Rattle.std.specs.Prelude.{◌≡◌};
ghost use Rattle.host.specs.Beside.{beside, plain, left, dsp_beside, avr_replies_beside, avr_beside, pi_beside, avr_config_beside};

use abi::config::CSettings;
use abi_avr::{CAvr, CAvrReplies};
use abi_avr_config::CAvrConfig;
use abi_dsp::{CDsp, COptionDspStatus};
use abi_messages::CDspStatus;
use abi_pi::{CPi, CPiReplies};
use protocol::DspStatus;

// The new record if there is one, or there was one before; else what was handed in.
pub fn beside<T: Copy>(there: bool, new: T, handed: T) -> T
    ensures { result ≡ beside there new handed }
{
    if there { new } else { handed }
}

// A status with the record of its own layout alone.
pub fn plain(status: CDspStatus) -> CDspStatus
    ensures { result ≡ plain status }
{
    match DspStatus::try_from(status) {
        Ok(known) => known.into(),
        Err(_) => status,
    }
}

// Whether that step has been left.
fn left(step: u8, before: u8, after: u8) -> bool
    ensures { result ≡ left step before after }
{
    before == step && after != step
}

pub fn dsp(new: CDsp, handed: CDsp) -> CDsp
    ensures { result ≡ dsp_beside new handed }
{
    let (n, c) = (new, handed);
    let absent = COptionDspStatus {
        some: false,
        value: plain(c.status.value),
        payload: c.status.payload,
    };
    // the deadline is that of a step 1 or 7, and ends with it
    let over = left(1, c.step, n.step) || left(7, c.step, n.step);
    let timed = n.deadline.some || c.deadline.some;
    CDsp {
        status: beside(n.status.some || c.status.some, n.status, absent),
        hw_info: beside(n.hw_info.some || c.hw_info.some, n.hw_info, c.hw_info),
        dev_info: beside(n.dev_info.some || c.dev_info.some, n.dev_info, c.dev_info),
        config: beside(n.config.some || c.config.some, n.config, c.config),
        refused: beside(n.refused.some || c.refused.some, n.refused, c.refused),
        deadline: beside(timed || over, n.deadline, c.deadline),
        ..n
    }
}

fn avr_replies(n: CAvrReplies, c: CAvrReplies) -> CAvrReplies
    ensures { result ≡ avr_replies_beside n c }
{
    let factory_cal = n.factory_cal.some || c.factory_cal.some;
    let avr_config = n.avr_config.some || c.avr_config.some;
    CAvrReplies {
        status: beside(n.status.some || c.status.some, n.status, c.status),
        dev_info: beside(n.dev_info.some || c.dev_info.some, n.dev_info, c.dev_info),
        config: beside(n.config.some || c.config.some, n.config, c.config),
        factory_cal: beside(factory_cal, n.factory_cal, c.factory_cal),
        if_cal: beside(n.if_cal.some || c.if_cal.some, n.if_cal, c.if_cal),
        avr_config: beside(avr_config, n.avr_config, c.avr_config),
    }
}

pub fn avr(new: CAvr, handed: CAvr) -> CAvr
    ensures { result ≡ avr_beside new handed }
{
    let (n, c) = (new, handed);
    // the deadline ends with step 8, and that a poll is to be repeated with step 0 and with step 1
    let timed = n.cal_deadline.some || c.cal_deadline.some;
    let polled = left(0, c.step, n.step) || left(1, c.step, n.step);
    let repolled = n.repoll_at.some || c.repoll_at.some;
    CAvr {
        replies: avr_replies(n.replies, c.replies),
        cal_deadline: beside(
            timed || left(8, c.step, n.step),
            n.cal_deadline,
            c.cal_deadline,
        ),
        repoll_at: beside(repolled || polled, n.repoll_at, c.repoll_at),
        ..n
    }
}

pub fn pi(new: CPi, handed: CPi) -> CPi
    ensures { result ≡ pi_beside new handed }
{
    let (n, c) = (new.replies, handed.replies);
    CPi {
        replies: CPiReplies {
            dev_info: beside(n.dev_info.some || c.dev_info.some, n.dev_info, c.dev_info),
            cam_config: beside(
                n.cam_config.some || c.cam_config.some,
                n.cam_config,
                c.cam_config,
            ),
            ..n
        },
        ..new
    }
}

pub fn avr_config(new: CAvrConfig, handed: CAvrConfig) -> CAvrConfig
    ensures { result ≡ avr_config_beside new handed }
{
    let (n, c) = (new.settings, handed.settings);
    CAvrConfig {
        settings: CSettings {
            radar_cal: beside(
                n.radar_cal.some || c.radar_cal.some,
                n.radar_cal,
                c.radar_cal,
            ),
            ..n
        },
        ..new
    }
}
