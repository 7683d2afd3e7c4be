// The calls of a Pi start-up, and what they answer.
#![tactic(auto)]

mod camera;
pub mod stored;

use pi::PiSequencer;
use pi_table::PiStep;
use reading::{Calls, Feed};
use sheet::SheetRefusal;
use std::io::Write;
use std::{fmt, io};
use streams::answers::Text;
use streams::running::{FEED_ALONE, Sequence, Steps, feed_by};
use writing::send;

#[derive(Clone, Copy)]
pub struct PiCalls {
    pi: PiSequencer,
}

// A step as it is written: its name, with its fields.
#[derive(Clone, Copy)]
pub struct Step(pub PiStep);

impl fmt::Display for Step {
    fn fmt<W: fmt::Write>(&self, f: &mut fmt::Formatter<W>) -> fmt::Result {
        f.write_str(match self.0 {
            PiStep::WaitStatus => "WaitStatus",
            PiStep::WaitDevInfo => "WaitDevInfo",
            PiStep::WaitParam0A => "WaitParam0A",
            PiStep::WaitCamConfig1 => "WaitCamConfig1",
            PiStep::WaitCamConfig2 => "WaitCamConfig2",
            PiStep::WaitNetConfig => "WaitNetConfig",
            PiStep::WaitNetConfigPw => "WaitNetConfigPw",
            PiStep::WaitParams { idx } => return write!(f, "WaitParams idx={idx}"),
            PiStep::Done => "Done",
        })
    }
}

impl Step {
    // The place of the entry that is awaited, from 0. Of the last step each parameter has an entry. By a `match`, since a step with a field has no `as`.
    pub fn entry(self) -> usize {
        match self.0 {
            PiStep::WaitStatus => 0,
            PiStep::WaitDevInfo => 1,
            PiStep::WaitParam0A => 2,
            PiStep::WaitCamConfig1 => 3,
            PiStep::WaitCamConfig2 => 4,
            PiStep::WaitNetConfig => 5,
            PiStep::WaitNetConfigPw => 6,
            PiStep::WaitParams { idx } => idx.saturating_add(7),
            PiStep::Done => 16,
        }
    }
}

impl PiCalls {
    // A start-up that begins.
    #[inline(never)]
    pub fn begin(out: &mut Text) -> io::Result<PiCalls> {
        let started = PiSequencer::new();
        let calls = PiCalls { pi: started.seq };
        calls.begun(&started.outcome, out)
    }
}

impl Steps for PiCalls {
    type Sequencer = PiSequencer;

    type Step = Step;

    fn sequencer(&mut self) -> &mut PiSequencer {
        &mut self.pi
    }

    fn step(&self) -> Step {
        Step(self.pi.step)
    }

    fn entry(&self) -> Option<usize> {
        Some(self.step().entry())
    }
}

impl Sequence for PiCalls {
    const CALLS: Option<Calls> = Some(Calls {
        result: true,
        sheet: true,
        ..FEED_ALONE
    });

    #[inline(never)]
    fn feed(&mut self, feed: &Feed<'_>, out: &mut Text) -> io::Result<()> {
        feed_by(self, feed, PiSequencer::feed, out)
    }

    #[inline(never)]
    fn result(&self, out: &mut Text) -> io::Result<()> {
        send::result(out, &self.pi.into_result(), stored::sync)
    }

    fn sheet(&self, buf: &mut [u8], at: usize) -> Result<usize, SheetRefusal> {
        self.pi.sheet(buf, at)
    }

    #[inline(never)]
    fn state(&self, out: &mut Text) -> io::Result<()> {
        stored::state(out, &self.pi)
    }
}
