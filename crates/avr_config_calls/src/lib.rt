// The calls of a settings run, and what they answer.
#![tactic(auto)]

mod stored;

use avr_config::AvrConfigSequencer;
use avr_config_steps::AvrConfigStep;
use reading::{Calls, Feed};
use settings::AvrSettings;
use std::io::Write;
use std::{fmt, io};
use streams::answers::Text;
use streams::running::{FEED_ALONE, Sequence, Steps, feed_by};

#[derive(Clone, Copy)]
pub struct AvrConfigCalls {
    run: AvrConfigSequencer,
}

// A step as it is written: its name, with its fields.
#[derive(Clone, Copy)]
pub struct Step(AvrConfigStep);

impl fmt::Display for Step {
    fn fmt<W: fmt::Write>(&self, f: &mut fmt::Formatter<W>) -> fmt::Result {
        f.write_str(match self.0 {
            AvrConfigStep::WaitInitGateAck => "WaitInitGateAck",
            AvrConfigStep::WaitParamAck { param_idx } => {
                return write!(f, "WaitParamAck param_idx={param_idx}");
            }
            AvrConfigStep::WaitParamCommitAck { param_idx } => {
                return write!(f, "WaitParamCommitAck param_idx={param_idx}");
            }
            AvrConfigStep::WaitModeEcho => "WaitModeEcho",
            AvrConfigStep::WaitModeCommitAck => "WaitModeCommitAck",
            AvrConfigStep::WaitRadarCalEcho => "WaitRadarCalEcho",
            AvrConfigStep::WaitRadarCalCommitAck => "WaitRadarCalCommitAck",
            AvrConfigStep::Done => "Done",
        })
    }
}

impl AvrConfigCalls {
    // A run that begins with these settings. It answers as one that was fed at its first entry.
    #[inline(never)]
    pub fn begin(settings: &AvrSettings, out: &mut Text) -> io::Result<AvrConfigCalls> {
        let started = AvrConfigSequencer::new(*settings);
        let mut calls = AvrConfigCalls { run: started.seq };
        calls.go_on(&started, out)?;
        Ok(calls)
    }
}

impl Steps for AvrConfigCalls {
    type Sequencer = AvrConfigSequencer;

    type Step = Step;

    fn sequencer(&mut self) -> &mut AvrConfigSequencer {
        &mut self.run
    }

    fn step(&self) -> Step {
        Step(self.run.step)
    }

    // Each of the parameters, which are few, has two entries, between the first entry and that of the mode. By a `match`, since a step with a
    // field has no `as`.
    fn entry(&self) -> Option<usize> {
        let all = self.run.settings.len;
        let (params, more) = match self.run.step {
            AvrConfigStep::WaitInitGateAck => (0, 0),
            AvrConfigStep::WaitParamAck { param_idx } => (param_idx, 1),
            AvrConfigStep::WaitParamCommitAck { param_idx } => (param_idx, 2),
            AvrConfigStep::WaitModeEcho => (all, 1),
            AvrConfigStep::WaitModeCommitAck => (all, 2),
            AvrConfigStep::WaitRadarCalEcho => (all, 3),
            AvrConfigStep::WaitRadarCalCommitAck => (all, 4),
            AvrConfigStep::Done => (all, 5),
        };
        Some(params.saturating_mul(2).saturating_add(more))
    }
}

impl Sequence for AvrConfigCalls {
    const CALLS: Option<Calls> = Some(FEED_ALONE);

    #[inline(never)]
    fn feed(&mut self, feed: &Feed<'_>, out: &mut Text) -> io::Result<()> {
        feed_by(self, feed, AvrConfigSequencer::feed, out)
    }

    #[inline(never)]
    fn state(&self, out: &mut Text) -> io::Result<()> {
        stored::state(out, &self.run.settings)
    }
}
