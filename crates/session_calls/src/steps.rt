// The steps that the sequences of a session have come to.
use session::Session;
use std::io::Write;
use std::{fmt, io};
use streams::running;

// Each as it is written; `None` of one that has not begun.
#[derive(Clone, Copy)]
pub struct Steps {
    dsp: dsp_calls::Step,
    avr: Option<avr_calls::Step>,
    pi: Option<pi_calls::Step>,
}

impl fmt::Display for Steps {
    fn fmt<W: fmt::Write>(&self, f: &mut fmt::Formatter<W>) -> fmt::Result {
        write!(f, "D {}", self.dsp)?;
        if let Some(avr) = self.avr {
            write!(f, "; A {avr}")?;
        }
        if let Some(pi) = self.pi {
            write!(f, "; P {pi}")?;
        }
        Ok(())
    }
}

impl Steps {
    pub fn of(session: &Session) -> Steps {
        Steps {
            dsp: dsp_calls::Step(session.dsp.state.step),
            avr: session
                .avr
                .as_ref()
                .map(|avr| avr_calls::Step(avr.state.step)),
            pi: session.pi.as_ref().map(|pi| pi_calls::Step(pi.step)),
        }
    }

    // The places of the entries that are awaited, from 0.
    fn entries(self) -> [Option<usize>; 3] {
        [
            Some(self.dsp.entry()),
            self.avr.map(|step| step.entry()),
            self.pi.map(|step| step.entry()),
        ]
    }

    // Writes the entry that a call has ticked, behind the letter of its start-up. It ticks no more than one.
    pub fn ticked<W: Write>(self, before: Steps, out: &mut W) -> io::Result<()> {
        let (before, after) = (before.entries(), self.entries());
        let entries = before.iter().zip(&after);
        for (letter, (before, after)) in ["D", "A", "P"].iter().zip(entries) {
            if let Some(entry) = running::ticked(*before, *after) {
                write!(out, "ticked {letter}{entry}; ")?;
            }
        }
        Ok(())
    }
}
