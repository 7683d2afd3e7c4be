// The sequences, which answer a list's calls.
use crate::answers::{Answers, Text};
use crate::{Failure, List, device_calls, sheets};
use protocol::{Action, BusAddr, Message, Refusal};
use reading::{Call, Calls, Feed, read_line};
use sequence::Answer;
use sheet::{SheetRefusal, StartUp};
use std::fmt::Display;
use std::io;
use std::io::{Read, Write};
use writing::send;

// The calls of a sequence that has `feed` alone.
pub const FEED_ALONE: Calls = Calls {
    check: false,
    result: false,
    take: false,
    retries: false,
    sheet: false,
    sheet_of: false,
};

// A sequence that runs. Each of its calls writes what it answers. Those that it doesn't have are never made. What copies a state is not inlined: a
// function sets all that its locals take to 0 when it is entered, and a call of one sort would pay for those of every other.
pub trait Sequence {
    // The calls that it has beside `feed`; `None` if no sequence has begun.
    const CALLS: Option<Calls>;

    fn feed(&mut self, feed: &Feed<'_>, out: &mut Text) -> io::Result<()>;

    fn check(&mut self, _now: u64, _out: &mut Text) -> io::Result<()> {
        Ok(())
    }

    fn result(&self, _out: &mut Text) -> io::Result<()> {
        Ok(())
    }

    fn take(&mut self, _out: &mut Text) -> io::Result<()> {
        Ok(())
    }

    fn retries(&self, _out: &mut Text) -> io::Result<()> {
        Ok(())
    }

    // Writes the sheet into a buffer, and not into the answer.
    fn sheet(&self, _buf: &mut [u8], _at: usize) -> Result<usize, SheetRefusal> {
        Ok(0)
    }

    // The same where more than one start-up may run.
    fn sheet_of(
        &self,
        _start_up: StartUp,
        _buf: &mut [u8],
        _at: usize,
    ) -> Result<usize, SheetRefusal> {
        Ok(0)
    }

    // Writes every stored field.
    fn state(&self, out: &mut Text) -> io::Result<()>;
}

// The steps that a sequence goes through, by its sequencer. That stands in a struct of the sequence's crate of calls, since an `impl` of these traits
// may not stand beside the type of another crate.
pub trait Steps: Sized + Drop {
    type Sequencer: Copy;
    // a step, which prints its name and its fields: in a struct, as the sequencer, and by `Display`, since `Debug` promises no text
    type Step: Display + Drop;

    fn sequencer(&mut self) -> &mut Self::Sequencer;

    // The step that is awaited.
    fn step(&self) -> Self::Step;

    // The place of the entry that is awaited, from 0; `None` if none is ever ticked, since the sequence goes back.
    fn entry(&self) -> Option<usize>;

    // Begins: writes what is sent, and the step.
    fn begun(self, outcome: &Result<Option<Action>, Refusal>, out: &mut Text) -> io::Result<Self> {
        send::sent(out, outcome)?;
        write!(out, "{}", self.step())?;
        Ok(self)
    }

    // Goes on with what came of a call, and writes it.
    fn go_on(&mut self, fed: &Answer<Self::Sequencer>, out: &mut Text) -> io::Result<()> {
        let before = self.entry();
        *self.sequencer() = fed.seq;
        send::fed(out, &fed.outcome, ticked(before, self.entry()))?;
        write!(out, "{}", self.step())
    }
}

// Goes on with a feed to a sequence that looks at neither clock, by its `feed`.
pub fn feed_by<
    S: Steps,
    F: FnOnce(S::Sequencer, BusAddr, u8, Message, &[u8], &[u8]) -> Answer<S::Sequencer>,
>(running: &mut S, feed: &Feed<'_>, by: F, out: &mut Text) -> io::Result<()>
    requires { F.IsAlwaysCallable by }
{
    let fed = by(
        *running.sequencer(),
        feed.src,
        feed.type_id,
        feed.message,
        feed.text,
        feed.payload,
    );
    running.go_on(&fed, out)
}

// The entry that a call has ticked, from 1, by the places from 0 of those awaited before and after it.
pub fn ticked(before: Option<usize>, after: Option<usize>) -> Option<usize> {
    if before == after {
        return None;
    }
    before.map(|at| at.saturating_add(1))
}

// Before the first sequence.
#[derive(Drop)]
pub struct NotBegun;

impl Sequence for NotBegun {
    const CALLS: Option<Calls> = None;

    fn feed(&mut self, _feed: &Feed<'_>, _out: &mut Text) -> io::Result<()> {
        Ok(())
    }

    fn state(&self, _out: &mut Text) -> io::Result<()> {
        Ok(())
    }
}

// Answers a call that begins no sequence.
fn answer<S: Sequence, W: Write + Drop>(
    running: &mut S,
    call: &Call<'_>,
    answers: &mut Answers<W>,
) -> io::Result<()> {
    let out = &mut answers.answer;
    match call {
        Call::Device(call) => {
            device_calls::answer(out, *call)?;
            return answers.end();
        }
        Call::Feed(feed) => running.feed(feed, out)?,
        Call::Check(now) => running.check(*now, out)?,
        Call::Result => running.result(out)?,
        Call::Take => running.take(out)?,
        Call::Retries => running.retries(out)?,
        Call::Sheet(start_up, named) => sheets::answer(running, *start_up, *named, out)?,
        Call::Begin(_) => {}
    }
    answers.end_in(running)
}

// Answers the calls of a list while this sequence runs, up to that which begins the next one, which is to be answered, or the end of the list.
#[inline(never)]
pub fn run<S: Sequence + Drop, R: Read + Drop, W: Write + Drop>(
    mut running: S,
    list: &mut List<R, W>,
) -> Result<Option<reading::Sequence>, Failure> {
    // The calls are counted down, as reads are.
    for _ in 0..u64::MAX {
        let Some(line) = list.lines.next(&mut list.answers)? else {
            return Ok(None);
        };
        let read = read_line(line.text, S::CALLS, &mut list.lent);
        list.answers.begin(line, &read)?;
        match &read {
            Ok(Some(call)) => {
                list.answers.call(call)?;
                if let Call::Begin(next) = call {
                    return Ok(Some(*next));
                }
                answer(&mut running, call, &mut list.answers)?;
            }
            Ok(None) => {}
            Err(bad) => list.answers.bad(line, bad)?,
        }
    }
    Ok(None)
}

// The same of a sequence whose beginning is answered but for the end of the answer.
pub fn begin<S: Sequence + Drop, R: Read + Drop, W: Write + Drop>(
    running: S,
    list: &mut List<R, W>,
) -> Result<Option<reading::Sequence>, Failure> {
    list.answers.end_in(&running)?;
    run(running, list)
}
