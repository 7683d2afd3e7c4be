// The calls of an AVR start-up, and what they answer.
#![tactic(auto)]

pub mod stored;

use avr::AvrSequencer;
use avr_table::AvrStep;
use device::model::DeviceModel;
use reading::{Calls, Feed};
use sheet::SheetRefusal;
use std::io::Write;
use std::{fmt, io};
use streams::answers::Text;
use streams::running::{FEED_ALONE, Sequence, Steps};
use writing::send;

#[derive(Clone, Copy)]
pub struct AvrCalls {
    avr: AvrSequencer,
}

// A step as it is written: its name.
#[derive(Clone, Copy)]
pub struct Step(pub AvrStep);

impl fmt::Display for Step {
    fn fmt<W: fmt::Write>(&self, f: &mut fmt::Formatter<W>) -> fmt::Result {
        f.write_str(match self.0 {
            AvrStep::WaitStatus1 => "WaitStatus1",
            AvrStep::WaitStatus2 => "WaitStatus2",
            AvrStep::WaitDevInfo1 => "WaitDevInfo1",
            AvrStep::WaitDevInfo2 => "WaitDevInfo2",
            AvrStep::WaitParam0C => "WaitParam0C",
            AvrStep::WaitParam0D => "WaitParam0D",
            AvrStep::WaitConfig => "WaitConfig",
            AvrStep::WaitFactoryCal => "WaitFactoryCal",
            AvrStep::WaitIfCal => "WaitIfCal",
            AvrStep::WaitAvrConfig => "WaitAvrConfig",
            AvrStep::WaitParam64 => "WaitParam64",
            AvrStep::WaitTimeSync => "WaitTimeSync",
            AvrStep::Done => "Done",
        })
    }
}

impl Step {
    // The place of the entry that is awaited, from 0: each step has one entry.
    pub fn entry(self) -> usize {
        self.0 as usize
    }
}

impl AvrCalls {
    // A start-up that begins.
    #[inline(never)]
    pub fn begin(model: Option<DeviceModel>, out: &mut Text) -> io::Result<AvrCalls> {
        let started = match model {
            Some(model) => AvrSequencer::new_for(model),
            None => AvrSequencer::new(),
        };
        let calls = AvrCalls { avr: started.seq };
        calls.begun(&started.outcome, out)
    }
}

impl Steps for AvrCalls {
    type Sequencer = AvrSequencer;

    type Step = Step;

    fn sequencer(&mut self) -> &mut AvrSequencer {
        &mut self.avr
    }

    fn step(&self) -> Step {
        Step(self.avr.state.step)
    }

    fn entry(&self) -> Option<usize> {
        Some(self.step().entry())
    }
}

impl Sequence for AvrCalls {
    const CALLS: Option<Calls> = Some(Calls {
        check: true,
        result: true,
        sheet: true,
        ..FEED_ALONE
    });

    // Not by `feed_by`: it hands on the numbers and the clock, too.
    #[inline(never)]
    fn feed(&mut self, feed: &Feed<'_>, out: &mut Text) -> io::Result<()> {
        let fed = self.avr.feed(
            feed.src,
            feed.type_id,
            feed.message,
            feed.params,
            feed.text,
            feed.payload,
            feed.now,
            feed.wall,
        );
        self.go_on(&fed, out)
    }

    #[inline(never)]
    fn check(&mut self, now: u64, out: &mut Text) -> io::Result<()> {
        let fed = self.avr.check_cal_timeout(now);
        self.go_on(&fed, out)
    }

    #[inline(never)]
    fn result(&self, out: &mut Text) -> io::Result<()> {
        send::result(out, &self.avr.into_result(), stored::sync)
    }

    fn sheet(&self, buf: &mut [u8], at: usize) -> Result<usize, SheetRefusal> {
        self.avr.sheet(buf, at)
    }

    #[inline(never)]
    fn state(&self, out: &mut Text) -> io::Result<()> {
        stored::state(out, &self.avr)
    }
}
