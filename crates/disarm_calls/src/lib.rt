// The calls of a disarm, and what they answer.
#![tactic(auto)]

use disarm::{DisarmSequencer, DisarmStep};
use reading::{Calls, Feed};
use std::{fmt, io};
use streams::answers::Text;
use streams::running::{FEED_ALONE, Sequence, Steps, feed_by};

#[derive(Clone, Copy)]
pub struct DisarmCalls {
    disarm: DisarmSequencer,
}

// A step as it is written: its name.
#[derive(Clone, Copy)]
pub struct Step(DisarmStep);

impl fmt::Display for Step {
    fn fmt<W: fmt::Write>(&self, f: &mut fmt::Formatter<W>) -> fmt::Result {
        f.write_str(match self.0 {
            DisarmStep::WaitAck => "WaitAck",
            DisarmStep::WaitModeReset => "WaitModeReset",
            DisarmStep::WaitStateIdle => "WaitStateIdle",
            DisarmStep::Done => "Done",
        })
    }
}

impl DisarmCalls {
    // A disarm that begins.
    #[inline(never)]
    pub fn begin(out: &mut Text) -> io::Result<DisarmCalls> {
        let started = DisarmSequencer::new();
        let calls = DisarmCalls {
            disarm: started.seq,
        };
        calls.begun(&started.outcome, out)
    }
}

impl Steps for DisarmCalls {
    type Sequencer = DisarmSequencer;

    type Step = Step;

    fn sequencer(&mut self) -> &mut DisarmSequencer {
        &mut self.disarm
    }

    fn step(&self) -> Step {
        Step(self.disarm.step)
    }

    // Each step has one entry.
    fn entry(&self) -> Option<usize> {
        Some(self.disarm.step as usize)
    }
}

impl Sequence for DisarmCalls {
    const CALLS: Option<Calls> = Some(FEED_ALONE);

    #[inline(never)]
    fn feed(&mut self, feed: &Feed<'_>, out: &mut Text) -> io::Result<()> {
        feed_by(self, feed, DisarmSequencer::feed, out)
    }

    // It stores nothing but its step.
    fn state(&self, _out: &mut Text) -> io::Result<()> {
        Ok(())
    }
}
