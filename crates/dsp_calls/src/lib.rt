// The calls of a DSP start-up, and what they answer.
#![tactic(auto)]

pub mod stored;

use dsp::DspSequencer;
use dsp_table::DspStep;
use reading::{Calls, Feed};
use sheet::SheetRefusal;
use std::io::Write;
use std::{fmt, io};
use streams::answers::Text;
use streams::running::{FEED_ALONE, Sequence, Steps};
use writing::send;

#[derive(Clone, Copy)]
pub struct DspCalls {
    dsp: DspSequencer,
}

// A step as it is written: its name.
#[derive(Clone, Copy)]
pub struct Step(pub DspStep);

impl fmt::Display for Step {
    fn fmt<W: fmt::Write>(&self, f: &mut fmt::Formatter<W>) -> fmt::Result {
        f.write_str(match self.0 {
            DspStep::WaitStatus => "WaitStatus",
            DspStep::WaitDspQuery => "WaitDspQuery",
            DspStep::WaitDevInfo => "WaitDevInfo",
            DspStep::WaitProdInfo0 => "WaitProdInfo0",
            DspStep::WaitProdInfo1 => "WaitProdInfo1",
            DspStep::WaitProdInfo2 => "WaitProdInfo2",
            DspStep::WaitConfig => "WaitConfig",
            DspStep::WaitPowerMode => "WaitPowerMode",
            DspStep::Done => "Done",
        })
    }
}

impl Step {
    // The place of the entry that is awaited, from 0: each step has one entry.
    pub fn entry(self) -> usize {
        self.0 as usize
    }
}

impl DspCalls {
    // A start-up that begins.
    #[inline(never)]
    pub fn begin(out: &mut Text) -> io::Result<DspCalls> {
        let started = DspSequencer::new();
        let calls = DspCalls { dsp: started.seq };
        calls.begun(&started.outcome, out)
    }
}

impl Steps for DspCalls {
    type Sequencer = DspSequencer;

    type Step = Step;

    fn sequencer(&mut self) -> &mut DspSequencer {
        &mut self.dsp
    }

    fn step(&self) -> Step {
        Step(self.dsp.state.step)
    }

    fn entry(&self) -> Option<usize> {
        Some(self.step().entry())
    }
}

impl Sequence for DspCalls {
    const CALLS: Option<Calls> = Some(Calls {
        check: true,
        result: true,
        take: true,
        sheet: true,
        ..FEED_ALONE
    });

    // Not by `feed_by`: it hands on the numbers and the clock, too.
    #[inline(never)]
    fn feed(&mut self, feed: &Feed<'_>, out: &mut Text) -> io::Result<()> {
        let fed = self.dsp.feed(
            feed.src,
            feed.type_id,
            feed.message,
            feed.params,
            feed.text,
            feed.payload,
            feed.now,
        );
        self.go_on(&fed, out)
    }

    #[inline(never)]
    fn check(&mut self, now: u64, out: &mut Text) -> io::Result<()> {
        let fed = self.dsp.check_timeout(now);
        self.go_on(&fed, out)
    }

    #[inline(never)]
    fn result(&self, out: &mut Text) -> io::Result<()> {
        send::result(out, &self.dsp.into_result(), stored::sync)
    }

    #[inline(never)]
    fn take(&mut self, out: &mut Text) -> io::Result<()> {
        let taken = self.dsp.take_refused();
        self.dsp = taken.seq;
        stored::taken(out, &taken.refused)
    }

    fn sheet(&self, buf: &mut [u8], at: usize) -> Result<usize, SheetRefusal> {
        self.dsp.sheet(buf, at)
    }

    #[inline(never)]
    fn state(&self, out: &mut Text) -> io::Result<()> {
        stored::state(out, &self.dsp)
    }
}
