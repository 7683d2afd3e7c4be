// A report of start-ups, taken one by one: how long their replies were waited for, tick by tick. The Rust has none.
#![tactic(auto)]

ghost use Rattle.std.specs.Prelude.{◌≡◌, ◌≤◌, ◌-◌};
ghost use Rattle.report.specs.Lowest.{Theorem};
ghost use Rattle.report.specs.Report.{begun, counted, is_done, is_of, model_of, number, readings, report_outcome, sequence_of, taken, ticks_of, time, wait_at, with_times, with_waits};

use avr::AvrSequencer;
use avr_table::AvrStep;
use device::model::DeviceModel;
use dsp::DspSequencer;
use dsp_table::DspStep;
use sheet::Tick;

// The most start-ups that are taken.
const MAX_TAKEN: u64 = 1_000_000;

/// Which sequence a report is of.
#[derive(Clone, Copy, PartialEq, Eq)]
pub enum Sequence {
    Dsp,
    Avr,
}

/// A start-up that is handed to a report, at any step.
#[derive(Clone, Copy)]
pub enum Sequencer {
    Dsp(DspSequencer),
    Avr(AvrSequencer),
}

/// Why a start-up is not taken. The report is as it was then.
#[derive(Clone, Copy, PartialEq, Eq)]
pub enum ReportRefusal {
    /// It is of another sequence or model than the report. A DSP start-up has no model before its third tick.
    WrongStartUp = 7,
    /// It is done, and with its time the summed time would exceed 18,446,744,073,709,551,615 ns.
    SumTooLarge = 14,
    /// 1,000,000 start-ups are taken already.
    ReportFull = 15,
}

/// What a report tells of the start-ups that it has taken, all of one sequence and one model. Its times are in nanoseconds, and of those
/// start-ups alone that are done; while none is, they are 0.
#[derive(Clone, Copy)]
pub struct Report {
    pub sequence: Sequence,
    pub model: DeviceModel,
    /// How many start-ups are taken, done or not.
    pub taken: u64,
    /// How many of them are done.
    pub done: u64,
    /// For each tick number from 2 to 12, the sum of the waits since the tick before. A tick's number counts in its run, as on a sheet: so
    /// it is not the entry's where a model leaves an entry out. 0 for a number that no tick has.
    pub waits: [u64; 11],
    /// The shortest time from a start-up's first tick to its last.
    pub shortest: u64,
    /// The longest.
    pub longest: u64,
    /// The sum of all of them.
    pub summed: u64,
}

/// Whether a start-up is taken, and the report then.
#[derive(Clone, Copy)]
pub struct ReportAnswer {
    pub outcome: Result<(), ReportRefusal>,
    pub report: Report,
}

impl ReportRefusal {
    /// Its number among all refusals.
    pub fn number(self) -> u8
        ensures { result ≡ number self }
    {
        self as u8
    }
}

impl Sequencer {
    // Which sequence it is of.
    fn sequence(&self) -> Sequence
        ensures { result ≡ sequence_of self.now }
    {
        match self {
            Sequencer::Dsp(_) => Sequence::Dsp,
            Sequencer::Avr(_) => Sequence::Avr,
        }
    }

    // Its model: of a DSP start-up the one that the device info of its third tick names, and none before; of an AVR start-up the one that
    // it was begun with.
    fn model(&self) -> Option<DeviceModel>
        ensures { result ≡ model_of self.now }
    {
        match self {
            Sequencer::Dsp(dsp) => match dsp.state.replies.dev_info {
                Some(info) => Some(DeviceModel::from_dev_info(info.payload.as_slice())),
                None => None,
            },
            Sequencer::Avr(avr) => Some(avr.state.model),
        }
    }

    fn is_done(&self) -> bool
        ensures { result ≡ is_done self.now }
    {
        match self {
            Sequencer::Dsp(dsp) => matches!(dsp.state.step, DspStep::Done),
            Sequencer::Avr(avr) => matches!(avr.state.step, AvrStep::Done),
        }
    }

    fn ticks(&self) -> &[Tick]
        ensures { result.now ≡ ticks_of self.now }
    {
        match self {
            Sequencer::Dsp(dsp) => dsp.ticks.as_slice(),
            Sequencer::Avr(avr) => avr.ticks.as_slice(),
        }
    }
}

// The wait since the tick before the one with this number; 0 where there is none.
fn wait_at(ticks: &[Tick], number: usize) -> u64
    requires { 2 ≤ number }
    ensures { result ≡ wait_at number (readings ticks.now) }
{
    if ticks.len() < number {
        return 0;
    }
    ticks[number - 1]
        .reading
        .saturating_sub(ticks[number - 2].reading)
}

// The time from the first tick to the last.
fn time(ticks: &[Tick]) -> u64
    ensures { result ≡ time (readings ticks.now) }
{
    if ticks.is_empty() {
        return 0;
    }
    ticks[ticks.len() - 1]
        .reading
        .saturating_sub(ticks[0].reading)
}

// The sums of the waits, each with its own of these ticks.
fn with_waits(waits: [u64; 11], ticks: &[Tick]) -> [u64; 11]
    ensures { result ≡ with_waits waits (readings ticks.now) }
{
    let mut sums = waits;
    for i in 0..11 {
        sums[i] = sums[i].saturating_add(wait_at(ticks, i + 2));
    }
    sums
}

impl Report {
    /// Of this sequence and model; no start-up is taken.
    pub fn new(sequence: Sequence, model: DeviceModel) -> Report
        ensures { result ≡ begun sequence model }
    {
        Report {
            sequence,
            model,
            taken: 0,
            done: 0,
            waits: [0; 11],
            shortest: 0,
            longest: 0,
            summed: 0,
        }
    }

    // Whether the start-up is of its sequence and model.
    fn is_of(&self, start_up: &Sequencer) -> bool
        ensures { result ≡ is_of self.now start_up.now }
    {
        self.sequence == start_up.sequence() && start_up.model() == Some(self.model)
    }

    // Whether the start-up is taken.
    fn accept(&self, start_up: &Sequencer) -> Result<(), ReportRefusal>
        ensures { result ≡ report_outcome self.now start_up.now }
    {
        if !self.is_of(start_up) {
            return Err(ReportRefusal::WrongStartUp);
        }
        if start_up.is_done() && time(start_up.ticks()) > u64::MAX - self.summed {
            return Err(ReportRefusal::SumTooLarge);
        }
        if self.taken >= MAX_TAKEN {
            return Err(ReportRefusal::ReportFull);
        }
        Ok(())
    }

    // With the times of a start-up that is done and has these ticks.
    fn with_times(self, ticks: &[Tick]) -> Report
        ensures { result ≡ with_times self (readings ticks.now) }
    {
        let time = time(ticks);
        let shortest = if self.done == 0 {
            time
        } else {
            self.shortest.min(time)
        };
        Report {
            done: self.done.saturating_add(1),
            waits: with_waits(self.waits, ticks),
            shortest,
            longest: self.longest.max(time),
            summed: self.summed.saturating_add(time),
            ..self
        }
    }

    // With one start-up more.
    fn counted(self, start_up: &Sequencer) -> Report
        ensures { result ≡ counted self start_up.now }
    {
        let more = Report {
            taken: self.taken.saturating_add(1),
            ..self
        };
        if start_up.is_done() {
            more.with_times(start_up.ticks())
        } else {
            more
        }
    }

    /// Takes a start-up, at any step. One that isn't done counts only as taken. Refused with the lowest number that applies, the report being
    /// as it was: with 7 where it is of another sequence or model than the report (two models with the same entries are two models; a DSP
    /// start-up has none before its third tick); with 14 where it is done and the summed time would exceed 18,446,744,073,709,551,615 ns;
    /// with 15 where 1,000,000 start-ups are taken already, whether it is done or not.
    ///
    /// In states that no calls make waits and times stop at 0 where ticks fall, and sums at 18,446,744,073,709,551,615; and a tick past the
    /// twelfth has no wait.
    pub fn take(self, start_up: Sequencer) -> ReportAnswer
        ensures { result ≡ taken self start_up }
    {
        match self.accept(&start_up) {
            Ok(()) => ReportAnswer {
                outcome: Ok(()),
                report: self.counted(&start_up),
            },
            Err(refusal) => ReportAnswer {
                outcome: Err(refusal),
                report: self,
            },
        }
    }
}

/// Of the numbers that apply to a start-up the lowest is given; each is the number of one refusal, and of none of the other calls'.
pub fn lowest_number()
    ensures { Theorem }
{}

#[cfg(test)]
mod tests {
    use super::*;
    use sheet::Ticks;

    #[test]
    fn start_ups_of_a_xi(rt: HostRuntime) {
        let mut avr = AvrSequencer::new_for(DeviceModel::XI).seq;
        avr.ticks = Ticks::none().with(Tick::checked(5)).with(Tick::checked(9));
        let one = Report::new(Sequence::Avr, DeviceModel::XI).take(Sequencer::Avr(avr));
        assert!(rt; one.outcome == Ok(()) && one.report.taken == 1 && one.report.done == 0);
        avr.state.step = AvrStep::Done;
        let two = one.report.take(Sequencer::Avr(avr));
        assert!(rt; two.outcome == Ok(()) && two.report.taken == 2 && two.report.done == 1);
        assert!(rt; two.report.waits[0] == 4 && two.report.shortest == 4 && two.report.summed == 4);
        let rig = AvrSequencer::new_for(DeviceModel::RIG).seq;
        let refused = two.report.take(Sequencer::Avr(rig));
        assert!(rt;
            refused.outcome == Err(ReportRefusal::WrongStartUp) && refused.report.taken == 2
        );
        let dsp = DspSequencer::new().seq;
        let no_model = Report::new(Sequence::Dsp, DeviceModel::MEVO).take(Sequencer::Dsp(dsp));
        assert!(rt; no_model.outcome == Err(ReportRefusal::WrongStartUp));
        assert!(rt; ReportRefusal::WrongStartUp.number() == 7);
    }
}
